// Whether one formula is another with a term put for a variable.
ghost use Rattle.std.specs.Prelude.{◌≡◌, ◌<◌, ◌^◌, MatchOption, MatchBool, length, map};
ghost use Rattle.model_terms.specs.VariableTests.{same_var};
ghost use Rattle.model_terms.specs.Terms.{term_with, variable, Substitution};
ghost use Rattle.model_formulas.specs.Nameless.{names, naming};
ghost use Rattle.model_formulas.specs.SameFormulas as tests;
ghost use Rattle.dom_terms.specs.Terms.{logic_var_of, term_of};
ghost use Rattle.formula_syntax.specs.Formulas.{any_var_of, pair_of};
ghost use Rattle.formula_syntax.specs.Binders.{bound_by};
ghost use Rattle.formula_syntax.specs.Substitution.{below, replacing_each, replacing_of, var_named};

use crate::binders::{Binders, place_of, same_term, same_variable};
use crate::variables::{AnyVar, Pair};
use dom_terms::{LogicVar, ProgVar, Term, same_logic_var, same_prog_var};

// a variable that stands in a formula
#[derive(Drop)]
pub(crate) enum Name<'a> {
    Prog(&'a ProgVar),
    Logic(&'a LogicVar),
}

// what takes the place of the free variables of a formula
#[derive(Drop)]
pub(crate) enum Replacing<'a> {
    // the term of the first pair that has the variable
    Pairs(&'a [Pair]),
    // the term, for one variable
    One(&'a ProgVar, &'a Term),
}

// whether the terms are the same, the left one with its free variables replaced, each below its
// binders
#[tactic(auto, using(crate::proofs::Replacing::replaced_rules))]
pub(crate) fn same_replaced_term(
    left: &Term,
    right: &Term,
    replacing: &Replacing,
    over: &Binders,
    other: &Binders,
) -> bool
    requires left { length (bound_by over.now) < 2 ^ 32 }
    requires right { length (bound_by other.now) < 2 ^ 32 }
    ensures { result ≡ tests.same_term
        (term_with (below (bound_by over.now) (replacing_of replacing.now))
        (term_with (naming (bound_by over.now)) (term_of left.now)))
        (term_with (naming (bound_by other.now)) (term_of right.now)) }
{
    match (left, right) {
        (Term::Prog(x), _) => match term_for(&Name::Prog(x), replacing, over) {
            Some(term) => same_term(term, right, &Binders::Empty, other),
            None => same_term(left, right, over, other),
        },
        (Term::Logic(x), _) => match term_for(&Name::Logic(x), replacing, over) {
            Some(term) => same_term(term, right, &Binders::Empty, other),
            None => same_term(left, right, over, other),
        },
        (Term::Add(a, b), Term::Add(c, d))
        | (Term::Sub(a, b), Term::Sub(c, d))
        | (Term::Cat(a, b), Term::Cat(c, d)) => {
            same_replaced_term(a, c, replacing, over, other)
                && same_replaced_term(b, d, replacing, over, other)
        }
        _ => same_term(left, right, over, other),
    }
}

// whether the variables are the same, the left one replaced if it is free, each below its binders
#[tactic(auto, using(crate::proofs::Replacing::replaced_rules))]
pub(crate) fn same_replaced_variable(
    left: &LogicVar,
    right: &LogicVar,
    replacing: &Replacing,
    over: &Binders,
    other: &Binders,
) -> bool
    requires left { length (bound_by over.now) < 2 ^ 32 }
    requires right { length (bound_by other.now) < 2 ^ 32 }
    ensures { result ≡ tests.same_term
        (below (bound_by over.now) (replacing_of replacing.now)
        (names (bound_by over.now) (logic_var_of left.now)))
        (variable (names (bound_by other.now) (logic_var_of right.now))) }
{
    match term_for(&Name::Logic(left), replacing, over) {
        Some(Term::Logic(name)) => same_variable(name, right, &Binders::Empty, other),
        Some(_) => false,
        None => same_variable(left, right, over, other),
    }
}

// the term that takes the place of the variable, if one does: it is free and a pair has it
#[tactic(auto, using(crate::proofs::Replacing::place_rules))]
fn term_for<'a>(name: &Name, replacing: &Replacing<'a>, over: &Binders) -> Option<&'a Term>
    requires { length (bound_by over.now) < 2 ^ 32 }
    ensures { MatchOption result
        (below (bound_by over.now) (replacing_of replacing.now)
        (names (bound_by over.now) (var_named name.now))
        ≡ variable (names (bound_by over.now) (var_named name.now)))
        (λ term. below (bound_by over.now) (replacing_of replacing.now)
        (names (bound_by over.now) (var_named name.now)) ≡ term_of term.now) }
{
    if is_bound(name, over) {
        None
    } else {
        replacement(name, replacing)
    }
}

// whether one of the binders binds the variable: no replacement is made for it there
#[tactic(auto, using(crate::proofs::Replacing::bound_rules, crate::proofs::BoundNames::prog_rules))]
fn is_bound(name: &Name, over: &Binders) -> bool
    requires { length (bound_by over.now) < 2 ^ 32 }
    ensures { MatchBool result
        ((substitution : Substitution) →
        below (bound_by over.now) substitution (names (bound_by over.now) (var_named name.now))
        ≡ variable (names (bound_by over.now) (var_named name.now)))
        (names (bound_by over.now) (var_named name.now) ≡ var_named name.now) }
{
    match name {
        Name::Prog(_) => false,
        Name::Logic(variable) => place_of(variable, over).is_some(),
    }
}

// the term that takes the place of the variable where it is free
#[tactic(auto, using(crate::proofs::Replacing::one_rules))]
fn replacement<'a>(name: &Name, replacing: &Replacing<'a>) -> Option<&'a Term>
    ensures { MatchOption result
        (replacing_of replacing.now (var_named name.now) ≡ variable (var_named name.now))
        (λ term. replacing_of replacing.now (var_named name.now) ≡ term_of term.now) }
{
    match (replacing, name) {
        (Replacing::Pairs(pairs), _) => paired(name, *pairs),
        (Replacing::One(x, term), Name::Prog(y)) if same_prog_var(y, x) => Some(*term),
        _ => None,
    }
}

// the term of the first pair that has the variable
#[tactic(auto, using(crate::proofs::Replacing::pair_rules))]
pub(crate) fn paired<'a>(name: &Name, pairs: &'a [Pair]) -> Option<&'a Term>
    ensures { MatchOption result
        (replacing_each (map pair_of pairs.now) (var_named name.now)
        ≡ variable (var_named name.now))
        (λ term. replacing_each (map pair_of pairs.now) (var_named name.now) ≡ term_of term.now) }
{
    let mut rest = pairs;
    'pairs: while let [pair, others @ ..] = rest {
        if is_named(name, &pair.var) {
            return Some(&pair.term);
        }
        rest = others;
    }
    None
}

// whether the two are one variable
pub(crate) fn is_named(name: &Name, variable: &AnyVar) -> bool
    ensures { result ≡ same_var (var_named name.now) (any_var_of variable.now) }
{
    match (name, variable) {
        (Name::Prog(x), AnyVar::Prog(y)) => same_prog_var(x, y),
        (Name::Logic(x), AnyVar::Logic(y)) => same_logic_var(x, y),
        _ => false,
    }
}
