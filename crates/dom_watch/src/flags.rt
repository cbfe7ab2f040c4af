// The first part of a formula that can't be watched.
ghost use Rattle.std.specs.Prelude.{◌≡◌, ◌++◌, [], ◌∷◌, min, MatchResult, MatchOption, Bool, true, false, None};
ghost use Rattle.std.specs.List.{list_any};
ghost use Rattle.model_terms.specs.VariableTests.{same_var};
ghost use Rattle.model_terms.specs.TermSorts as sorts;
ghost use Rattle.model_watch.specs.Watchable as model;
ghost use Rattle.dom_terms.specs.Terms.{logic_var_of, term_of};
ghost use Rattle.formula_syntax.specs.Formulas.{formula_of};
ghost use Rattle.formula_syntax.specs.Binders.{bound_by};
ghost use Rattle.dom_watch.specs.Walked.{most, Walks};

use dom_terms::{LogicVar, Sort, Term, ValueSort, same_logic_var};
use formula_syntax::{Binders, Formula, Side};

/// A part of a formula can't be watched.
#[derive(Clone, Copy, Debug, PartialEq, Eq)]
pub struct Unwatchable {
    /// The place of the first such part, counted from 0, a formula before its parts, or the
    /// greatest number where it is above that.
    pub part: u64,
}

/// Whether the formula can be watched. The error is the first part that can't.
pub fn is_watchable(formula: &Formula) -> Result<(), Unwatchable>
    ensures { MatchResult result
        (λ _. model.first_unwatchable (formula_of formula.now) ≡ None)
        (λ fault. MatchOption (model.first_unwatchable (formula_of formula.now)) ⊥
        (λ place. fault.part ≡ min place most)) }
{
    next_part(formula, &Binders::Empty, 0)?;
    Ok(())
}

// the place after the last part of the formula, itself the part at `place`, or the first part that
// can't be watched
#[cycle(next_part)]
fn next_part(formula: &Formula, over: &Binders, place: u64) -> Result<u64, Unwatchable>
    ensures { Walks place (model.watch_flags (bound_by over.now) (formula_of formula.now)) result }
{
    match formula {
        Formula::True | Formula::False | Formula::EmptyForest | Formula::EmptyGrove => {
            after(true, place)
        }
        Formula::Eq(a, b) | Formula::Le(a, b) => {
            after(is_given(a, over) && is_given(b, over), place)
        }
        Formula::Len(length) => after(is_given(length, over), place),
        Formula::Not(p) | Formula::One(p) | Formula::Root(p) => {
            next_part(p, over, place.saturating_add(1))
        }
        Formula::Exists(x, p) => {
            let next = after(may_be_sought(x) && is_anchored(x, p), place)?;
            next_part(p, &Binders::More(&*x, &*over), next)
        }
        Formula::Node(name, number, p, list) => {
            let given = is_given(name, over) && is_given(number, over) && is_given(list, over);
            let next = after(given, place)?;
            next_part(p, over, next)
        }
        Formula::And(p, q) | Formula::Or(p, q) | Formula::Imp(p, q) => {
            next_two(p, q, over, place.saturating_add(1))
        }
        Formula::Join(Side::Whole, p, q) => next_two(p, q, over, place.saturating_add(1)),
        Formula::Plus(p, q) => {
            let next = after(is_root(p) || is_root(q), place)?;
            next_two(p, q, over, next)
        }
        _ => after(false, place),
    }
}

// the same for two formulas, one after the other
#[cycle(next_part)]
fn next_two(left: &Formula, right: &Formula, over: &Binders, place: u64) -> Result<u64, Unwatchable>
    ensures { Walks place (model.watch_flags (bound_by over.now) (formula_of left.now)
        ++ model.watch_flags (bound_by over.now) (formula_of right.now)) result }
{
    let next = next_part(left, over, place)?;
    next_part(right, over, next)
}

// the place after the part itself, where it is allowed
fn after(allowed: bool, place: u64) -> Result<u64, Unwatchable>
    ensures { Walks place (allowed ∷ []) result }
{
    if allowed {
        Ok(place.saturating_add(1))
    } else {
        Err(Unwatchable { part: place })
    }
}

// whether the formula is `[P]`
pub fn is_root(formula: &Formula) -> bool
    ensures { result ≡ model.is_root (formula_of formula.now) }
{
    match formula {
        Formula::Root(_) => true,
        _ => false,
    }
}

// whether the variable is one for a node number, a list number or a name
fn may_be_sought(x: &LogicVar) -> bool
    ensures { result ≡ model.may_be_sought (logic_var_of x.now) }
{
    match x.sort {
        Sort::Value(ValueSort::Node | ValueSort::List | ValueSort::Str) => true,
        _ => false,
    }
}

// whether the variable stands at a node wherever the formula is met
fn is_anchored(x: &LogicVar, formula: &Formula) -> bool
    ensures { result ≡ model.is_anchored (logic_var_of x.now) (formula_of formula.now) }
{
    match formula {
        Formula::Node(name, number, p, list) => {
            is_the(x, name) || is_the(x, number) || is_the(x, list) || is_anchored(x, p)
        }
        Formula::One(p) | Formula::Root(p) => is_anchored(x, p),
        Formula::Exists(y, p) => !same_logic_var(x, y) && is_anchored(x, p),
        Formula::And(p, q) | Formula::Plus(p, q) => is_anchored(x, p) || is_anchored(x, q),
        Formula::Join(Side::Whole, p, q) => is_anchored(x, p) || is_anchored(x, q),
        _ => false,
    }
}

// whether the term is the variable
fn is_the(x: &LogicVar, term: &Term) -> bool
    ensures { result ≡ model.is_the (logic_var_of x.now) (term_of term.now) }
{
    match term {
        Term::Logic(y) => same_logic_var(x, y),
        _ => false,
    }
}

// whether the term is a variable of these binders, or has no logic variable
fn is_given(term: &Term, over: &Binders) -> bool
    ensures { result ≡ model.is_given (bound_by over.now) (term_of term.now) }
{
    match term {
        Term::Logic(x) => is_bound(x, over),
        _ => is_plain(term),
    }
}

// whether one of the binders binds the variable
fn is_bound(x: &LogicVar, over: &Binders) -> bool
    ensures { result ≡ list_any (same_var (logic_var_of x.now)) (bound_by over.now) }
{
    match over {
        Binders::Empty => false,
        Binders::More(nearest, outer) => same_logic_var(x, nearest) || is_bound(x, outer),
    }
}

/// Whether no logic variable stands in the term.
#[tactic(auto, using(crate::proofs::Walking::plain_rules))]
pub fn is_plain(term: &Term) -> bool
    ensures { result ≡ sorts.is_plain (term_of term.now) }
{
    match term {
        Term::Logic(_) => false,
        Term::Add(left, right) | Term::Sub(left, right) | Term::Cat(left, right) => {
            is_plain(left) && is_plain(right)
        }
        _ => true,
    }
}
