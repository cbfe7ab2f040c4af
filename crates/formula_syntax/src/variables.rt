// Variables of both kinds, and the pairs of a substitution.
ghost use Rattle.std.specs.Prelude.{◌≡◌, IfOk};
ghost use Rattle.formula_syntax.specs.Formulas.{any_var_of, pair_of};

use dom_terms::{Copied, LogicVar, OutOfMemory, ProgVar, Term};
use std::alloc::Global;

/// A variable of a formula.
#[derive(Debug, Drop)]
pub enum AnyVar {
    /// A program variable.
    Prog(ProgVar),
    /// A logic variable.
    Logic(LogicVar),
}

/// A variable and the term that takes its place.
#[derive(Debug, Drop)]
pub struct Pair {
    /// The variable that is replaced.
    pub var: AnyVar,
    /// What stands in its place.
    pub term: Term,
}

impl Copied for AnyVar {
    ghost use Rattle.model_terms.specs.Variables as model;

    ghost Seen = { model.Var };

    ghost seen = { any_var_of };

    fn copy(&self, alloc: Global) -> Result<AnyVar, OutOfMemory>
        ensures { IfOk result (λ copied. any_var_of copied ≡ any_var_of self.now) }
    {
        Ok(match self {
            AnyVar::Prog(variable) => AnyVar::Prog(variable.copy(alloc)?),
            AnyVar::Logic(variable) => AnyVar::Logic(variable.copy(alloc)?),
        })
    }
}

impl Copied for Pair {
    ghost use Rattle.model_terms.specs.Variables as model;
    ghost use Rattle.model_terms.specs.Terms as terms;

    ghost Seen = { model.Var × terms.Term };

    ghost seen = { pair_of };

    fn copy(&self, alloc: Global) -> Result<Pair, OutOfMemory>
        ensures { IfOk result (λ copied. pair_of copied ≡ pair_of self.now) }
    {
        Ok(Pair {
            var: self.var.copy(alloc)?,
            term: self.term.copy(alloc)?,
        })
    }
}
