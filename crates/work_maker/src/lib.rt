//! The generated theory, as the program holds it. Promises that it is the theory of the definition.
//! Stands on the types of theories.
#![tactic(auto)]

ghost use Rattle.std.specs.Prelude.{◌≡◌, ◌≤◌, IfOk};
ghost use Rattle.model_generator.specs.Made.{most_makers};
ghost use Rattle.model_generator.specs.Generated.{generated_theory};
ghost use Rattle.theory_syntax.specs.Theories.{theory_of};

mod commands;
mod formulas;
mod judgements;
mod names;
mod procedures;
mod steps;
mod variables;

use dom_terms::{LogicVars, OutOfMemory};
use procedures::makers;
use std::alloc::Global;
use theory_syntax::Theory;
use variables::{some_list, some_node};

/// The generated theory for a number of procedures from 1 to 200: each of them makes
/// one node, and is proved to.
pub fn make_theory(alloc: Global, n: u32) -> Result<Theory, OutOfMemory>
    requires some { 1 ≤ n }
    requires most { n ≤ most_makers }
    ensures { IfOk result (λ theory. theory_of theory ≡ generated_theory n) }
{
    let mut logic = LogicVars::new(alloc);
    logic.push(some_list(alloc)?)?;
    logic.push(some_node(alloc)?)?;
    Ok(Theory {
        version: 1,
        logic,
        procedures: makers(alloc, n)?,
    })
}
