// The limits that the values of a formula's terms pass.
ghost use Rattle.std.specs.Prelude.{◌≡◌, [], ◌∷◌};
ghost use Rattle.std.specs.List.{filter};
ghost use Rattle.model_limits.specs.Limits.{standard_limits};
ghost use Rattle.model_terms.specs.TermSorts as sorts;
ghost use Rattle.model_terms.specs.TermLimits.{terms_limit};
ghost use Rattle.model_watch.specs.WatchLimits.{terms_by_parts};
ghost use Rattle.dom_terms.specs.Terms.{term_of};
ghost use Rattle.dom_terms.specs.Stores.{store_of};
ghost use Rattle.dom_terms.specs.Evaluation.{Reports};
ghost use Rattle.formula_syntax.specs.Formulas.{formula_of};
ghost use Rattle.dom_watch.specs.Evaluating.{Evaluates, AllEvaluate};

use crate::flags::is_plain;
use dom_terms::{EvalFault, Store, Term, eval};
use formula_syntax::Formula;
use std::alloc::Global;

/// Whether the values of the terms without logic variables pass no limit. The fault is that of the
/// first one, in the order of the formula's parts; want of memory may come before it.
#[tactic(auto, using(crate::proofs::TermLimits::limit_rules))]
pub fn within_limits(alloc: Global, formula: &Formula, store: &Store) -> Result<(), EvalFault>
    requires { AllEvaluate (formula_of formula.now) }
    ensures { Reports result (terms_limit standard_limits (store_of store.now)
        (filter sorts.is_plain (terms_by_parts (formula_of formula.now)))) }
{
    match formula {
        Formula::And(p, q) | Formula::Or(p, q) | Formula::Imp(p, q) => {
            within_limits(alloc, p, store)?;
            within_limits(alloc, q, store)
        }
        Formula::Join(_, p, q) | Formula::Plus(p, q) => {
            within_limits(alloc, p, store)?;
            within_limits(alloc, q, store)
        }
        Formula::Not(p) | Formula::Exists(_, p) | Formula::One(p) | Formula::Root(p) => {
            within_limits(alloc, p, store)
        }
        Formula::Eq(a, b) | Formula::Le(a, b) => {
            term_within(alloc, a, store)?;
            term_within(alloc, b, store)
        }
        Formula::Node(name, number, p, list) => {
            term_within(alloc, name, store)?;
            term_within(alloc, number, store)?;
            term_within(alloc, list, store)?;
            within_limits(alloc, p, store)
        }
        Formula::Len(length) => term_within(alloc, length, store),
        _ => Ok(()),
    }
}

// the same of one term
fn term_within(alloc: Global, term: &Term, store: &Store) -> Result<(), EvalFault>
    requires { Evaluates (term_of term.now) }
    ensures { Reports result (terms_limit standard_limits (store_of store.now)
        (filter sorts.is_plain (term_of term.now ∷ []))) }
{
    if is_plain(term) {
        let _value = eval(alloc, term, store)?;
    }
    Ok(())
}
