// The procedures.
ghost use Rattle.std.specs.Prelude.{◌≡◌, IfOk, [], map};
ghost use Rattle.model_shapes.specs.Sorts.{grove};
ghost use Rattle.model_formulas.specs.Formulas.{empty};
ghost use Rattle.formula_syntax.specs.Formulas.{formula_of};
ghost use Rattle.theory_syntax.specs.Commands.{command_of};
ghost use Rattle.theory_syntax.specs.Judgements.{step_of};
ghost use Rattle.theory_syntax.specs.Theories.{procedure_of};
ghost use Rattle.model_generator.specs.Generated.{maker, makers};

use crate::commands::body;
use crate::formulas::some_root;
use crate::names::numbered;
use crate::steps::proof;
use dom_terms::{DataSort, OutOfMemory, Text, Vars, with};
use formula_syntax::Formula;
use std::alloc::Global;
use theory_syntax::{Command, Procedure, Procedures, Steps};

// The procedure of this name without parameters or results, which begins with nothing: its ensures,
// body and proof.
fn from_nothing(alloc: Global, name: Text, parts: ((Formula, Command), Steps)) -> Procedure
    ensures { procedure_of result ≡ record {
      name = name;
      params = [];
      results = [];
      sort = grove;
      pre = empty grove;
      post = formula_of parts.0.0;
      body = command_of parts.0.1;
      proof = map step_of parts.1;
    } }
{
    let ((post, body), proof) = parts;
    Procedure {
        name,
        params: Vars::new(alloc),
        results: Vars::new(alloc),
        sort: DataSort::Grove,
        pre: Formula::EmptyGrove,
        post,
        body,
        proof,
    }
}

/// `pK`: from nothing to one new root.
fn maker(alloc: Global, k: u32) -> Result<Procedure, OutOfMemory>
    ensures { IfOk result (λ procedure. procedure_of procedure ≡ maker k) }
{
    let specified = with(some_root(alloc, k)?, body(alloc, k))?;
    let proved = with(specified, proof(alloc, k))?;
    let (proved, name) = with(proved, numbered(alloc, "p", k))?;
    Ok(from_nothing(alloc, name, proved))
}

/// So many procedures, the first of which has the number 1.
pub fn makers(alloc: Global, n: u32) -> Result<Procedures, OutOfMemory>
    ensures { IfOk result (λ procedures. map procedure_of procedures ≡ makers 1 n) }
{
    let mut procedures = Procedures::new(alloc);
    for before in 0..n {
        procedures.push(maker(alloc, before + 1)?)?;
    }
    Ok(procedures)
}
