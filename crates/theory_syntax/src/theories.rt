// Procedures and theories.
ghost use Rattle.std.specs.Prelude.{◌≡◌, IfOk};
ghost use Rattle.theory_syntax.specs.Theories.{procedure_of, theory_of};

use crate::commands::Command;
use crate::steps::Steps;
use dom_terms::{Copied, DataSort, List, LogicVars, OutOfMemory, Text, Vars, copies, with};
use formula_syntax::Formula;
use std::alloc::Global;

/// A list of procedures.
pub type Procedures = List<Procedure>;

/// A procedure: `pre` is its requires, `post` its ensures, and `proof` the proof of its triple.
#[derive(Debug, Drop)]
pub struct Procedure {
    /// The name that calls use.
    pub name: Text,
    /// The parameters, which the body doesn't change.
    pub params: Vars,
    /// The results, which begin at the default of their sorts.
    pub results: Vars,
    /// The sort of shapes that the specification speaks of.
    pub sort: DataSort,
    /// The precondition.
    pub pre: Formula,
    /// The postcondition.
    pub post: Formula,
    /// The body.
    pub body: Command,
    /// The steps of the proof, in the order of the file.
    pub proof: Steps,
}

/// A theory: the version of the language, the logic variables declared, and the procedures.
#[derive(Debug, Drop)]
pub struct Theory {
    /// The number after `domlogic`.
    pub version: u32,
    /// The declared logic variables.
    pub logic: LogicVars,
    /// The procedures, in the order of the file.
    pub procedures: Procedures,
}

impl Copied for Procedure {
    ghost use Rattle.model_formulas.specs.Formulas.{Named};
    ghost use Rattle.model_commands.specs.Theories.{ProcedureOf};

    ghost Seen = { ProcedureOf Named };

    ghost seen = { procedure_of };

    fn copy(&self, alloc: Global) -> Result<Procedure, OutOfMemory>
        ensures { IfOk result (λ copied. procedure_of copied ≡ procedure_of self.now) }
    {
        let variables = copies(alloc, &self.params, &self.results)?;
        let header = with(variables, copies(alloc, &self.pre, &self.post))?;
        let text = with(header, copies(alloc, &self.body, &self.proof))?;
        let ((((params, results), (pre, post)), (body, proof)), name) = with(
            text,
            self.name.copy(alloc),
        )?;
        let sort = self.sort;
        Ok(Procedure {
            name,
            params,
            results,
            sort,
            pre,
            post,
            body,
            proof,
        })
    }
}

impl Copied for Theory {
    ghost use Rattle.model_commands.specs.Theories as model;

    ghost Seen = { model.Theory };

    ghost seen = { theory_of };

    fn copy(&self, alloc: Global) -> Result<Theory, OutOfMemory>
        ensures { IfOk result (λ copied. theory_of copied ≡ theory_of self.now) }
    {
        let (logic, procedures) = copies(alloc, &self.logic, &self.procedures)?;
        let version = self.version;
        Ok(Theory {
            version,
            logic,
            procedures,
        })
    }
}
