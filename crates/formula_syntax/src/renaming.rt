// Names for binders, so that substitution captures nothing.
ghost use Rattle.std.specs.Prelude.{◌≡◌, ◌<◌, IfOk, MatchOption, Some, None, max, length, map};
ghost use Rattle.std.specs.List.{list_any};
ghost use Rattle.dom_terms.specs.Terms.{logic_var_of, term_of};
ghost use Rattle.formula_syntax.specs.Formulas.{formula_of, pair_of};
ghost use Rattle.formula_syntax.specs.FreeVariables.{is_among, variables_of_term};
ghost use Rattle.formula_syntax.specs.Renaming as own;

use crate::formulas::Formula;
use crate::variables::Pair;
use dom_terms::{Copied, LogicVar, OutOfMemory, Term, same_logic_var};
use std::alloc::Global;

// the binders passed on the way down a formula, the nearest first, and what they became
#[derive(Drop)]
pub(crate) enum Scopes<'a> {
    // none: no name of the formula or of the terms to be put in is longer than this
    Outermost(usize),
    // one that keeps its variable
    Kept(&'a LogicVar, &'a Scopes<'a>),
    // one whose variable became another one
    Renamed(&'a LogicVar, &'a LogicVar, &'a Scopes<'a>),
}

// what the variable became, if one of the binders binds it
pub(crate) fn became<'a>(variable: &LogicVar, scopes: &Scopes<'a>) -> Option<&'a LogicVar>
    ensures { MatchOption result
        (own.became scopes.now (logic_var_of variable.now) ≡ None)
        (λ new. own.became scopes.now (logic_var_of variable.now) ≡ Some (logic_var_of new.now)) }
{
    match scopes {
        Scopes::Outermost(_) => None,
        Scopes::Kept(kept, outer) => {
            if same_logic_var(variable, kept) {
                Some(*kept)
            } else {
                became(variable, outer)
            }
        }
        Scopes::Renamed(old, new, outer) => {
            if same_logic_var(variable, old) {
                Some(*new)
            } else {
                became(variable, outer)
            }
        }
    }
}

// the variable with a longer name than any that is there
pub(crate) fn renamed(
    alloc: Global,
    variable: &LogicVar,
    scopes: &Scopes,
) -> Result<LogicVar, OutOfMemory>
    ensures longer { IfOk result (λ new. own.reach scopes.now < length new.name) }
    ensures sort { IfOk result (λ new. new.sort ≡ variable.now.sort) }
{
    let reach = reach(scopes);
    let mut name = variable.name.copy(alloc)?;
    'letters: while name.len() <= reach {
        name.push('_')?;
    }
    let sort = variable.sort;
    Ok(LogicVar { name, sort })
}

// the length of the longest name that is there now
fn reach(scopes: &Scopes) -> usize
    ensures { result ≡ own.reach scopes.now }
{
    match scopes {
        Scopes::Outermost(longest) => *longest,
        Scopes::Kept(_, outer) => reach(outer),
        Scopes::Renamed(_, new, _) => new.name.len(),
    }
}

// whether the variable stands in a term to be put in
pub(crate) fn is_put(variable: &LogicVar, pairs: &[Pair]) -> bool
    ensures { result ≡ list_any (λ pair.
        is_among (logic_var_of variable.now) (variables_of_term (term_of pair.term))) pairs.now }
{
    pairs.iter().any(|pair| stands_in(variable, &pair.term))
}

// whether the variable stands in the term
fn stands_in(variable: &LogicVar, term: &Term) -> bool
    ensures { result ≡ is_among (logic_var_of variable.now) (variables_of_term (term_of term.now)) }
{
    match term {
        Term::NullNode | Term::NullList | Term::Int(_) | Term::Str(_) | Term::Bool(_) => false,
        Term::Prog(_) => false,
        Term::Logic(other) => same_logic_var(variable, other),
        Term::Add(a, b) | Term::Sub(a, b) | Term::Cat(a, b) => {
            stands_in(variable, a) || stands_in(variable, b)
        }
    }
}

// the length of the longest name in the formula
pub(crate) fn longest_name(formula: &Formula) -> usize
    ensures { result ≡ own.longest_name (formula_of formula.now) }
{
    match formula {
        Formula::True | Formula::False => 0,
        Formula::EmptyForest | Formula::EmptyGrove | Formula::Hole(_) => 0,
        Formula::And(p, q) | Formula::Or(p, q) | Formula::Imp(p, q) => {
            longest_name(p).max(longest_name(q))
        }
        Formula::Join(_, p, q) | Formula::App(_, p, q) | Formula::CtxAdj(_, p, q) => {
            longest_name(p).max(longest_name(q))
        }
        Formula::Plus(p, q) | Formula::PlusHole(p, q) | Formula::HoleAdj(p, q) => {
            longest_name(p).max(longest_name(q))
        }
        Formula::Not(p) | Formula::One(p) | Formula::Root(p) => longest_name(p),
        Formula::Exists(x, p) | Formula::Forall(x, p) | Formula::Is(x, p) => {
            x.name.len().max(longest_name(p))
        }
        Formula::Eq(a, b) | Formula::Le(a, b) => longest_in(a).max(longest_in(b)),
        Formula::Node(name, number, p, list) => {
            let parts = longest_name(p).max(longest_in(list));
            longest_in(name).max(longest_in(number).max(parts))
        }
        Formula::Var(x) => x.name.len(),
        Formula::Len(length) => longest_in(length),
    }
}

// the length of the longest name in the term
fn longest_in(term: &Term) -> usize
    ensures { result ≡ own.longest_in (term_of term.now) }
{
    match term {
        Term::NullNode | Term::NullList | Term::Int(_) | Term::Str(_) | Term::Bool(_) => 0,
        Term::Prog(x) => x.name.len(),
        Term::Logic(x) => x.name.len(),
        Term::Add(a, b) | Term::Sub(a, b) | Term::Cat(a, b) => longest_in(a).max(longest_in(b)),
    }
}

// the length of the longest name in the terms to be put in, or the one given if that is longer
pub(crate) fn longest_put(pairs: &[Pair], mut longest: usize) -> usize
    ensures { result ≡ max longest (own.longest_put (map pair_of pairs.now)) }
{
    let mut rest = pairs;
    'pairs: while let [pair, others @ ..] = rest {
        longest = longest.max(longest_in(&pair.term));
        rest = others;
    }
    longest
}
