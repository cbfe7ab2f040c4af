// Conditions of commands.
ghost use Rattle.std.specs.Prelude.{◌≡◌, IfOk};
ghost use Rattle.dom_terms.specs.Conditions.{cond_of};

use crate::both::{copies, with};
use crate::copied::Copied;
use crate::memory::OutOfMemory;
use crate::terms::{ProgVar, Term};
use std::alloc::Global;

/// A condition of a command.
#[derive(Debug, Drop)]
pub enum Cond {
    /// Always.
    True,
    /// Never.
    False,
    /// The truth value that a variable has.
    Holds(ProgVar),
    /// The terms have one value.
    Eq(Term, Term),
    /// The first integer is at most the second.
    Le(Term, Term),
    /// The condition fails.
    Not(Box<Cond>),
    /// Both hold.
    And(Box<Cond>, Box<Cond>),
    /// One holds, or both.
    Or(Box<Cond>, Box<Cond>),
}

impl Copied for Cond {
    ghost use Rattle.model_terms.specs.Conditions as model;

    ghost Seen = { model.Cond };

    ghost seen = { cond_of };

    #[cycle(cond_copy)]
    fn copy(&self, alloc: Global) -> Result<Cond, OutOfMemory>
        ensures { IfOk result (λ copied. cond_of copied ≡ cond_of self.now) }
    {
        match self {
            Cond::True => Ok(Cond::True),
            Cond::False => Ok(Cond::False),
            Cond::Holds(variable) => Ok(Cond::Holds(variable.copy(alloc)?)),
            Cond::Eq(left, right) => {
                let (left, right) = copies(alloc, left, right)?;
                Ok(Cond::Eq(left, right))
            }
            Cond::Le(left, right) => {
                let (left, right) = copies(alloc, left, right)?;
                Ok(Cond::Le(left, right))
            }
            Cond::Not(inner) => Ok(Cond::Not(boxed(alloc, inner)?)),
            Cond::And(left, right) => {
                let (left, right) = with(boxed(alloc, left)?, boxed(alloc, right))?;
                Ok(Cond::And(left, right))
            }
            Cond::Or(left, right) => {
                let (left, right) = with(boxed(alloc, left)?, boxed(alloc, right))?;
                Ok(Cond::Or(left, right))
            }
        }
    }
}

// a copy of the condition, boxed
#[cycle(cond_copy)]
fn boxed(alloc: Global, cond: &Cond) -> Result<Box<Cond>, OutOfMemory>
    ensures { IfOk result (λ copied. cond_of copied.value ≡ cond_of cond.now) }
{
    Ok(Box::new(alloc, cond.copy(alloc)?)?)
}
