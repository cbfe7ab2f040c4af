// Terms put for the free variables of a formula, all at once.
ghost use Rattle.std.specs.Prelude.{◌≡◌, ◌≤◌, IfOk, None, true, false, ◌∷◌, map};
ghost use Rattle.model_terms.specs.Terms as terms;
ghost use Rattle.model_formulas.specs.Nameless.{nameless, walked};
ghost use Rattle.model_formulas.specs.Substitution.{formula_with};
ghost use Rattle.model_formulas.specs.Parts.{parts};
ghost use Rattle.dom_terms.specs.Sorts.{sort_of};
ghost use Rattle.dom_terms.specs.Terms.{logic_var_of, term_of};
ghost use Rattle.formula_syntax.specs.Formulas.{formula_of, pair_of};
ghost use Rattle.formula_syntax.specs.Structural.{is_structural};
ghost use Rattle.formula_syntax.specs.Joining.{has_one_part, has_two_parts};
ghost use Rattle.formula_syntax.specs.Substitution.{is_value, names_no_value, pairs_fit, replacing_each, var_named};
ghost use Rattle.model_shapes.specs.Sorts.{Sort};
ghost use Rattle.model_formulas.specs.Formulas.{Named};
ghost use Rattle.model_formulas.specs.WellSorted.{first_fault};
ghost use Rattle.formula_syntax.specs.Renaming as own;
ghost use Rattle.formula_syntax.specs.Walks as walks;

use crate::formulas::Formula;
use crate::renaming::{Scopes, became, is_put, longest_name, longest_put, renamed};
use crate::replaced::{Name, paired};
use crate::variables::Pair;
use dom_terms::{Copied, LogicVar, OutOfMemory, Term, with};
use std::alloc::Global;

// what a walk down a formula carries along
#[derive(Drop)]
struct Walk<'a> {
    alloc: Global,
    pairs: &'a [Pair],
    scopes: &'a Scopes<'a>,
}

/// The formula with the term of a pair for each of its free variables that a pair has, all at once.
/// Of two pairs with one variable the first counts. A binder keeps its variable, unless that stands
/// in a term of a pair: then it gets a longer name of the same sort, so nothing is captured. The
/// answer is right up to the names of bound variables, and has as many parts as the formula.
/// Each term fits its variable, and no variable of a value sort stands as a formula or in `is`; a
/// well-sorted formula has none there.
#[tactic(auto, using(crate::proofs::RenamedBinders::whole_rules))]
pub fn substitute(alloc: Global, from: &Formula, pairs: &[Pair]) -> Result<Formula, OutOfMemory>
    requires fit { pairs_fit (map pair_of pairs.now) ≡ true }
    requires names { names_no_value (formula_of from.now) ≡ true }
    ensures replaced { IfOk result (λ to.
        formula_with (replacing_each (map pair_of pairs.now)) (nameless (formula_of from.now))
        ≡ nameless (formula_of to)) }
    ensures names { IfOk result (λ to. names_no_value (formula_of to) ≡ true) }
    ensures size { IfOk result (λ to. parts (formula_of to) ≡ parts (formula_of from.now)) }
{
    let longest = longest_put(pairs, longest_name(from));
    let walk = Walk {
        alloc,
        pairs,
        scopes: &Scopes::Outermost(longest),
    };
    substituted(from, &walk)
}

/// A well-sorted formula names no variable of a value sort as a formula, so it may be substituted.
pub fn well_sorted_formulas_name_no_value()
    ensures { (p : Named) (s : Sort) → first_fault p s ≡ None → names_no_value p ≡ true }
{}

// the formula with its free variables replaced and its binders renamed
#[cycle(substituted)]
#[tactic(auto, using(crate::proofs::PutSorts::part_rules))]
fn substituted(formula: &Formula, walk: &Walk) -> Result<Formula, OutOfMemory>
    requires fit { pairs_fit (map pair_of walk.now.pairs.now) ≡ true }
    requires names { names_no_value (formula_of formula.now) ≡ true }
    requires apart { walks.IsApart walk.now }
    requires short { own.longest_name (formula_of formula.now) ≤ own.limit walk.now.scopes.now }
    ensures replaced { IfOk result
        (λ to. walks.Replaced walk.now (formula_of formula.now) (formula_of to)) }
    ensures names { IfOk result (λ to. names_no_value (formula_of to) ≡ true) }
    ensures size { IfOk result (λ to. parts (formula_of to) ≡ parts (formula_of formula.now)) }
{
    match formula {
        Formula::True => Ok(Formula::True),
        Formula::False => Ok(Formula::False),
        Formula::And(p, q)
        | Formula::Or(p, q)
        | Formula::Imp(p, q)
        | Formula::Join(_, p, q)
        | Formula::Plus(p, q)
        | Formula::PlusHole(p, q)
        | Formula::App(_, p, q)
        | Formula::HoleAdj(p, q)
        | Formula::CtxAdj(_, p, q) => {
            let (left, right) = with(boxed(p, walk)?, boxed(q, walk))?;
            Ok(formula.joining(left, right))
        }
        Formula::Not(p) | Formula::One(p) | Formula::Root(p) => {
            let part = boxed(p, walk)?;
            Ok(formula.over(part))
        }
        Formula::Exists(x, p) => {
            let (x, p) = quantified(x, p, walk)?;
            Ok(Formula::Exists(x, p))
        }
        Formula::Forall(x, p) => {
            let (x, p) = quantified(x, p, walk)?;
            Ok(Formula::Forall(x, p))
        }
        Formula::Eq(a, b) => {
            let (a, b) = with(put_in(a, walk)?, put_in(b, walk))?;
            Ok(Formula::Eq(a, b))
        }
        Formula::Le(a, b) => {
            let (a, b) = with(put_in(a, walk)?, put_in(b, walk))?;
            Ok(Formula::Le(a, b))
        }
        Formula::Is(x, p) => {
            let (x, p) = with(variable_put(x, walk)?, boxed(p, walk))?;
            Ok(Formula::Is(x, p))
        }
        _ => structural(formula, walk),
    }
}

// the same for a formula that speaks of data itself
#[cycle(substituted)]
#[tactic(auto, using(crate::proofs::PutSorts::part_rules))]
fn structural(formula: &Formula, walk: &Walk) -> Result<Formula, OutOfMemory>
    requires structural { is_structural (formula_of formula.now) ≡ true }
    requires parted { has_two_parts (formula_of formula.now) ≡ false }
    requires wrapped { has_one_part (formula_of formula.now) ≡ false }
    requires fit { pairs_fit (map pair_of walk.now.pairs.now) ≡ true }
    requires names { names_no_value (formula_of formula.now) ≡ true }
    requires apart { walks.IsApart walk.now }
    requires short { own.longest_name (formula_of formula.now) ≤ own.limit walk.now.scopes.now }
    ensures replaced { IfOk result
        (λ to. walks.Replaced walk.now (formula_of formula.now) (formula_of to)) }
    ensures names { IfOk result (λ to. names_no_value (formula_of to) ≡ true) }
    ensures size { IfOk result (λ to. parts (formula_of to) ≡ parts (formula_of formula.now)) }
{
    match formula {
        Formula::EmptyForest => Ok(Formula::EmptyForest),
        Formula::EmptyGrove => Ok(Formula::EmptyGrove),
        Formula::Hole(sort) => Ok(Formula::Hole(*sort)),
        Formula::Node(name, number, p, list) => {
            let (name, number) = with(put_in(name, walk)?, put_in(number, walk))?;
            let (list, p) = with(put_in(list, walk)?, boxed(p, walk))?;
            Ok(Formula::Node(name, number, p, list))
        }
        Formula::Var(x) => Ok(Formula::Var(variable_put(x, walk)?)),
        Formula::Len(length) => Ok(Formula::Len(put_in(length, walk)?)),
        _ => unreachable!(),
    }
}

// the same, boxed
#[cycle(substituted)]
fn boxed(formula: &Formula, walk: &Walk) -> Result<Box<Formula>, OutOfMemory>
    requires fit { pairs_fit (map pair_of walk.now.pairs.now) ≡ true }
    requires names { names_no_value (formula_of formula.now) ≡ true }
    requires apart { walks.IsApart walk.now }
    requires short { own.longest_name (formula_of formula.now) ≤ own.limit walk.now.scopes.now }
    ensures replaced { IfOk result
        (λ to. walks.Replaced walk.now (formula_of formula.now) (formula_of to.value)) }
    ensures names { IfOk result (λ to. names_no_value (formula_of to.value) ≡ true) }
    ensures size { IfOk result
        (λ to. parts (formula_of to.value) ≡ parts (formula_of formula.now)) }
{
    let formula = substituted(formula, walk)?;
    Ok(Box::new(walk.alloc, formula)?)
}

// a binder and the formula below it, the same for both
#[cycle(substituted)]
#[tactic(auto, using(crate::proofs::RenamedBinders::put_rules))]
fn quantified(
    variable: &LogicVar,
    inner: &Formula,
    walk: &Walk,
) -> Result<(LogicVar, Box<Formula>), OutOfMemory>
    requires fit { pairs_fit (map pair_of walk.now.pairs.now) ≡ true }
    requires names { names_no_value (formula_of inner.now) ≡ true }
    requires apart { walks.IsApart walk.now }
    requires named { own.name_length (logic_var_of variable.now) ≤ own.limit walk.now.scopes.now }
    requires short { own.longest_name (formula_of inner.now) ≤ own.limit walk.now.scopes.now }
    ensures sort { IfOk result (λ (new, _). sort_of new.sort ≡ sort_of variable.now.sort) }
    ensures replaced { IfOk result (λ (new, to).
        formula_with (terms.under_binder (walks.puts walk.now))
        (walked (logic_var_of variable.now ∷ own.before walk.now.scopes.now)
        (formula_of inner.now))
        ≡ walked (logic_var_of new ∷ own.after walk.now.scopes.now) (formula_of to.value)) }
    ensures names { IfOk result (λ (_, to). names_no_value (formula_of to.value) ≡ true) }
    ensures size { IfOk result (λ (_, to).
        parts (formula_of to.value) ≡ parts (formula_of inner.now)) }
{
    if !is_put(variable, walk.pairs) {
        let below = Walk {
            scopes: &Scopes::Kept(variable, walk.scopes),
            ..*walk
        };
        let inner = boxed(inner, &below)?;
        return Ok((variable.copy(walk.alloc)?, inner));
    }
    let new = renamed(walk.alloc, variable, walk.scopes)?;
    let below = Walk {
        scopes: &Scopes::Renamed(variable, &new, walk.scopes),
        ..*walk
    };
    let inner = boxed(inner, &below)?;
    Ok((new, inner))
}

// the logic variable that stands for the variable, which is of no value sort
fn variable_put(variable: &LogicVar, walk: &Walk) -> Result<LogicVar, OutOfMemory>
    requires fit { pairs_fit (map pair_of walk.now.pairs.now) ≡ true }
    requires sort { is_value (sort_of variable.now.sort) ≡ false }
    requires apart { walks.IsApart walk.now }
    requires short { own.name_length (logic_var_of variable.now) ≤ own.limit walk.now.scopes.now }
    ensures sort { IfOk result (λ new. sort_of new.sort ≡ sort_of variable.now.sort) }
    ensures replaced { IfOk result (λ new. walks.ReplacedTerm walk.now
        (terms.variable (logic_var_of variable.now)) (terms.variable (logic_var_of new))) }
{
    match logic_put(variable, walk)? {
        Term::Logic(new) => Ok(new),
        _ => unreachable!(),
    }
}

// the term with its free variables replaced, below what the binders became
#[cycle(put_in)]
#[tactic(auto, using(crate::proofs::RenamedBinders::prog_rules))]
fn put_in(term: &Term, walk: &Walk) -> Result<Term, OutOfMemory>
    requires apart { walks.IsApart walk.now }
    requires short { own.longest_in (term_of term.now) ≤ own.limit walk.now.scopes.now }
    ensures { IfOk result
        (λ to. walks.ReplacedTerm walk.now (term_of term.now) (term_of to)) }
{
    match term {
        Term::Prog(x) => free_put(&Name::Prog(x), walk),
        Term::Logic(x) => logic_put(x, walk),
        Term::Add(a, b) => Ok(Term::Add(boxed_put(a, walk)?, boxed_put(b, walk)?)),
        Term::Sub(a, b) => Ok(Term::Sub(boxed_put(a, walk)?, boxed_put(b, walk)?)),
        Term::Cat(a, b) => Ok(Term::Cat(boxed_put(a, walk)?, boxed_put(b, walk)?)),
        _ => term.copy(walk.alloc),
    }
}

// the same, boxed
#[cycle(put_in)]
fn boxed_put(term: &Term, walk: &Walk) -> Result<Box<Term>, OutOfMemory>
    requires apart { walks.IsApart walk.now }
    requires short { own.longest_in (term_of term.now) ≤ own.limit walk.now.scopes.now }
    ensures { IfOk result
        (λ to. walks.ReplacedTerm walk.now (term_of term.now) (term_of to.value)) }
{
    let term = put_in(term, walk)?;
    Ok(Box::new(walk.alloc, term)?)
}

// what stands for the logic variable
#[tactic(auto, using(crate::proofs::RenamedBinders::bound_rules))]
fn logic_put(variable: &LogicVar, walk: &Walk) -> Result<Term, OutOfMemory>
    requires apart { walks.IsApart walk.now }
    requires short { own.name_length (logic_var_of variable.now) ≤ own.limit walk.now.scopes.now }
    ensures { IfOk result (λ to. walks.ReplacedTerm walk.now
        (terms.variable (logic_var_of variable.now)) (term_of to)) }
{
    match became(variable, walk.scopes) {
        Some(new) => Ok(Term::Logic(new.copy(walk.alloc)?)),
        None => free_put(&Name::Logic(variable), walk),
    }
}

// what takes the place of a variable that no binder binds: the term of a pair, or itself
#[tactic(auto, using(crate::proofs::RenamedBinders::free_rules))]
fn free_put(name: &Name, walk: &Walk) -> Result<Term, OutOfMemory>
    requires apart { walks.IsApart walk.now }
    requires short { own.name_length (var_named name.now) ≤ own.limit walk.now.scopes.now }
    requires free { own.became walk.now.scopes.now (var_named name.now) ≡ None }
    ensures { IfOk result
        (λ to. walks.ReplacedTerm walk.now (terms.variable (var_named name.now)) (term_of to)) }
{
    match paired(name, walk.pairs) {
        Some(term) => term.copy(walk.alloc),
        None => term_named(walk.alloc, name),
    }
}

// the variable as a term
fn term_named(alloc: Global, name: &Name) -> Result<Term, OutOfMemory>
    ensures { IfOk result (λ term. term_of term ≡ terms.variable (var_named name.now)) }
{
    match name {
        Name::Prog(variable) => Ok(Term::Prog(variable.copy(alloc)?)),
        Name::Logic(variable) => Ok(Term::Logic(variable.copy(alloc)?)),
    }
}
