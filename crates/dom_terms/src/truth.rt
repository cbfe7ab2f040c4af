// Whether the condition of a command holds in a store, within the limits.
ghost use Rattle.std.specs.Prelude.{◌≡◌, true, IfOk};
ghost use Rattle.model_terms.specs.Conditions.{condition_sorted, truth_of, terms_of_cond};
ghost use Rattle.model_terms.specs.Computing.{Tests};
ghost use Rattle.model_limits.specs.Limits.{standard_limits};
ghost use Rattle.model_terms.specs.TermLimits.{terms_limit};
ghost use Rattle.dom_terms.specs.Conditions.{cond_of};
ghost use Rattle.dom_terms.specs.Stores.{store_of};
ghost use Rattle.dom_terms.specs.Evaluation.{Reports};

use crate::conditions::Cond;
use crate::evaluation::{evaluated, integer, truth, value_or_default};
use crate::same::same_value;
use crate::store::Store;
use crate::verdicts::EvalFault;
use std::alloc::Global;

/// Whether the condition of a command holds in a store. Each of its terms is evaluated, from left
/// to right, the second part of an and or an or whatever the first is. NumberRange comes exactly
/// where the first subterm that passes a limit is an integer that leaves 64 bits, and TextLimit
/// exactly where it is a text of more than 4,096 bytes; want of memory may come before either.
#[tactic(auto, using(crate::proofs::SortedParts::condition_tests))]
pub fn holds(alloc: Global, cond: &Cond, store: &Store) -> Result<bool, EvalFault>
    requires { condition_sorted (cond_of cond.now) ≡ true }
    ensures value { IfOk result (λ truth.
        truth ≡ truth_of (store_of store.now) (cond_of cond.now)) }
    ensures limit { Reports result (terms_limit standard_limits (store_of store.now)
        (terms_of_cond (cond_of cond.now))) }
{
    is_true(alloc, cond, store)
}

// The same, of a condition whose parts are known to be sorted.
#[tactic(auto, using(crate::proofs::TermLimitLaws::terms_limit_append))]
fn is_true(alloc: Global, cond: &Cond, store: &Store) -> Result<bool, EvalFault>
    requires { Tests (cond_of cond.now) }
    ensures value { IfOk result (λ truth.
        truth ≡ truth_of (store_of store.now) (cond_of cond.now)) }
    ensures limit { Reports result (terms_limit standard_limits (store_of store.now)
        (terms_of_cond (cond_of cond.now))) }
{
    match cond {
        Cond::True => Ok(true),
        Cond::False => Ok(false),
        Cond::Holds(variable) => Ok(truth(value_or_default(alloc, variable, store)?)),
        Cond::Eq(left, right) => {
            let left = evaluated(alloc, left, store)?;
            let right = evaluated(alloc, right, store)?;
            Ok(same_value(&left, &right))
        }
        Cond::Le(left, right) => {
            let left = integer(evaluated(alloc, left, store)?);
            let right = integer(evaluated(alloc, right, store)?);
            Ok(left <= right)
        }
        Cond::Not(inner) => Ok(!is_true(alloc, inner, store)?),
        // both parts are evaluated, whatever the first is
        Cond::And(left, right) => Ok(is_true(alloc, left, store)? & is_true(alloc, right, store)?),
        Cond::Or(left, right) => Ok(is_true(alloc, left, store)? | is_true(alloc, right, store)?),
    }
}
