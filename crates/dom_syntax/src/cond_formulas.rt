// The formula of a condition.
ghost use Rattle.std.specs.Prelude.{◌≡◌, IfOk};
ghost use Rattle.model_formulas.specs.Nameless.{nameless};
ghost use Rattle.model_commands.specs.ConditionFormulas as model;
ghost use Rattle.dom_terms.specs.Conditions.{cond_of};
ghost use Rattle.formula_syntax.specs.Formulas.{formula_of};

use dom_terms::{Cond, Copied, OutOfMemory, Term, copies, with};
use formula_syntax::Formula;
use std::alloc::Global;

/// The formula of the condition, as the rules for choice and loops take it: a variable of truth
/// values becomes its equation with yes. OutOfMemory comes only where memory is refused.
#[cycle(cond_formula)]
#[tactic(auto, using(crate::proofs::CondFormulaLaws::plain_rules))]
pub fn cond_formula(alloc: Global, cond: &Cond) -> Result<Formula, OutOfMemory>
    ensures { IfOk result
        (λ formula. nameless (formula_of formula) ≡ model.formula_of (cond_of cond.now)) }
{
    match cond {
        Cond::True => Ok(Formula::True),
        Cond::False => Ok(Formula::False),
        Cond::Holds(variable) => {
            let variable = Term::Prog(variable.copy(alloc)?);
            Ok(Formula::Eq(variable, Term::Bool(true)))
        }
        Cond::Eq(left, right) => {
            let (left, right) = copies(alloc, left, right)?;
            Ok(Formula::Eq(left, right))
        }
        Cond::Le(left, right) => {
            let (left, right) = copies(alloc, left, right)?;
            Ok(Formula::Le(left, right))
        }
        Cond::Not(inner) => Ok(Formula::Not(part(alloc, inner)?)),
        Cond::And(left, right) => {
            let (left, right) = with(part(alloc, left)?, part(alloc, right))?;
            Ok(Formula::And(left, right))
        }
        Cond::Or(left, right) => {
            let (left, right) = with(part(alloc, left)?, part(alloc, right))?;
            Ok(Formula::Or(left, right))
        }
    }
}

// The formula of a part, boxed.
#[cycle(cond_formula)]
fn part(alloc: Global, cond: &Cond) -> Result<Box<Formula>, OutOfMemory>
    ensures { IfOk result
        (λ formula. nameless (formula_of formula.value) ≡ model.formula_of (cond_of cond.now)) }
{
    Ok(Box::new(alloc, cond_formula(alloc, cond)?)?)
}
