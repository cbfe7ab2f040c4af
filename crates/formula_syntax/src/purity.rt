// Whether a formula says the same of every shape.
ghost use Rattle.std.specs.Prelude.{◌≡◌};
ghost use Rattle.model_formulas.specs.Formulas as model;
ghost use Rattle.formula_syntax.specs.Formulas.{formula_of};

use crate::formulas::Formula;

/// Whether the formula is pure: built from truth, connectives, quantifiers, comparisons and `is`.
pub fn is_pure(formula: &Formula) -> bool
    ensures { result ≡ model.is_pure (formula_of formula.now) }
{
    match formula {
        Formula::True | Formula::False | Formula::Eq(_, _) | Formula::Le(_, _) => true,
        Formula::Is(_, _) => true,
        Formula::And(left, right) | Formula::Or(left, right) | Formula::Imp(left, right) => {
            is_pure(left) && is_pure(right)
        }
        Formula::Not(inner) | Formula::Exists(_, inner) | Formula::Forall(_, inner) => {
            is_pure(inner)
        }
        _ => false,
    }
}
