// Whether two formulas are the same but for the names of bound variables.
ghost use Rattle.std.specs.Prelude.{◌≡◌, ◌+◌, ◌<◌, ◌^◌, ◌&&◌, ◌↔◌, IsTrue, IsOk, IfOk, length, map};
ghost use Rattle.model_formulas.specs.Nameless.{SameFormula, nameless, walked};
ghost use Rattle.model_formulas.specs.SameFormulas as tests;
ghost use Rattle.model_formulas.specs.Substitution.{formula_with, replacing};
ghost use Rattle.model_formulas.specs.Parts.{parts};
ghost use Rattle.dom_terms.specs.Terms.{term_of, var_of};
ghost use Rattle.formula_syntax.specs.Formulas.{formula_of, pair_of, side_of};
ghost use Rattle.formula_syntax.specs.Binders.{bound_by};
ghost use Rattle.formula_syntax.specs.Structural.{is_structural};
ghost use Rattle.formula_syntax.specs.Substitution.{below, replacing_each, replacing_of};

use crate::binders::Binders;
use crate::formulas::{Formula, Side};
use crate::identical::is_identical;
use crate::replaced::{Replacing, same_replaced_term, same_replaced_variable};
use crate::variables::Pair;
use dom_terms::{OutOfMemory, ProgVar, Term, same_data_sort, same_sort};
use std::alloc::Global;

/// Whether the formulas are equal up to the names of bound variables. No memory is taken. Most that
/// are equal are alike to the last name, which is found sooner.
pub fn same_formula(_alloc: Global, left: &Formula, right: &Formula) -> Result<bool, OutOfMemory>
    requires left { parts (formula_of left.now) < 4294967295 }
    requires right { parts (formula_of right.now) < 4294967295 }
    ensures same { IfOk result
        (λ same. IsTrue same ↔ SameFormula (formula_of left.now) (formula_of right.now)) }
    ensures always { IsOk result }
{
    Ok(is_identical(left, right) || is_same_renamed(left, right))
}

// whether they are, where the names of bound variables may differ
#[tactic(auto, using(crate::proofs::Replacing::formula_rules))]
fn is_same_renamed(left: &Formula, right: &Formula) -> bool
    requires left { parts (formula_of left.now) < 4294967295 }
    requires right { parts (formula_of right.now) < 4294967295 }
    ensures { IsTrue result ↔ SameFormula (formula_of left.now) (formula_of right.now) }
{
    let nothing = Replacing::Pairs(&[]);
    same_below(left, right, &nothing, &Binders::Empty, &Binders::Empty)
}

/// Whether the second formula is the first with the term of a pair for each of its free variables
/// that a pair has, all at once, up to the names of bound variables. Of two pairs with one variable
/// the first counts. No memory is taken.
#[tactic(auto, using(crate::proofs::Replacing::formula_rules))]
pub fn is_substitution(
    _alloc: Global,
    from: &Formula,
    pairs: &[Pair],
    to: &Formula,
) -> Result<bool, OutOfMemory>
    requires from { parts (formula_of from.now) < 4294967295 }
    requires to { parts (formula_of to.now) < 4294967295 }
    ensures replaced { IfOk result (λ replaced. IsTrue replaced
        ↔ (formula_with (replacing_each (map pair_of pairs.now)) (nameless (formula_of from.now))
        ≡ nameless (formula_of to.now))) }
    ensures always { IsOk result }
{
    Ok(same_below(
        from,
        to,
        &Replacing::Pairs(pairs),
        &Binders::Empty,
        &Binders::Empty,
    ))
}

/// Whether the second formula is the first with the term for each free occurrence of the program
/// variable, up to the names of bound variables.
#[tactic(auto, using(crate::proofs::Replacing::formula_rules))]
pub fn is_replacement(from: &Formula, variable: &ProgVar, term: &Term, to: &Formula) -> bool
    requires from { parts (formula_of from.now) < 4294967295 }
    requires to { parts (formula_of to.now) < 4294967295 }
    ensures { IsTrue result
        ↔ (formula_with (replacing (var_of variable.now) (term_of term.now))
        (nameless (formula_of from.now)) ≡ nameless (formula_of to.now)) }
{
    let replacing = Replacing::One(variable, term);
    same_below(from, to, &replacing, &Binders::Empty, &Binders::Empty)
}

// whether the formulas are the same, the left one with its free variables replaced, each below
// its binders
#[cycle(same_formula)]
fn same_below(
    left: &Formula,
    right: &Formula,
    replacing: &Replacing,
    over: &Binders,
    other: &Binders,
) -> bool
    requires left { length (bound_by over.now) + parts (formula_of left.now) < 2 ^ 32 }
    requires right { length (bound_by other.now) + parts (formula_of right.now) < 2 ^ 32 }
    ensures { result ≡ tests.same_formula
        (formula_with (below (bound_by over.now) (replacing_of replacing.now))
        (walked (bound_by over.now) (formula_of left.now)))
        (walked (bound_by other.now) (formula_of right.now)) }
{
    match (left, right) {
        (Formula::True, Formula::True) | (Formula::False, Formula::False) => true,
        (Formula::And(p, q), Formula::And(r, s))
        | (Formula::Or(p, q), Formula::Or(r, s))
        | (Formula::Imp(p, q), Formula::Imp(r, s)) => {
            same_below(p, r, replacing, over, other) && same_below(q, s, replacing, over, other)
        }
        (Formula::Not(p), Formula::Not(q)) => same_below(p, q, replacing, over, other),
        (Formula::Exists(x, p), Formula::Exists(y, q))
        | (Formula::Forall(x, p), Formula::Forall(y, q)) => {
            let over = Binders::More(&*x, &*over);
            let other = Binders::More(&*y, &*other);
            same_sort(x.sort, y.sort) && same_below(p, q, replacing, &over, &other)
        }
        (Formula::Eq(a, b), Formula::Eq(c, d)) | (Formula::Le(a, b), Formula::Le(c, d)) => {
            same_replaced_term(a, c, replacing, over, other)
                && same_replaced_term(b, d, replacing, over, other)
        }
        (Formula::Is(x, p), Formula::Is(y, q)) => {
            same_sort(x.sort, y.sort)
                && same_replaced_variable(x, y, replacing, over, other)
                && same_below(p, q, replacing, over, other)
        }
        _ => same_structural(left, right, replacing, over, other),
    }
}

// whether the left formula is structural and the right one the same, each below its binders
#[cycle(same_formula)]
fn same_structural(
    left: &Formula,
    right: &Formula,
    replacing: &Replacing,
    over: &Binders,
    other: &Binders,
) -> bool
    requires left { length (bound_by over.now) + parts (formula_of left.now) < 2 ^ 32 }
    requires right { length (bound_by other.now) + parts (formula_of right.now) < 2 ^ 32 }
    ensures { result ≡ (is_structural (formula_of left.now) && tests.same_formula
        (formula_with (below (bound_by over.now) (replacing_of replacing.now))
        (walked (bound_by over.now) (formula_of left.now)))
        (walked (bound_by other.now) (formula_of right.now))) }
{
    match (left, right) {
        (Formula::EmptyForest, Formula::EmptyForest) | (Formula::EmptyGrove, Formula::EmptyGrove) =>
            true,
        (Formula::Hole(h), Formula::Hole(k)) => same_data_sort(*h, *k),
        (Formula::Node(a, b, p, c), Formula::Node(d, e, q, f)) => {
            same_replaced_term(a, d, replacing, over, other)
                && same_replaced_term(b, e, replacing, over, other)
                && same_below(p, q, replacing, over, other)
                && same_replaced_term(c, f, replacing, over, other)
        }
        (Formula::One(p), Formula::One(q)) | (Formula::Root(p), Formula::Root(q)) => {
            same_below(p, q, replacing, over, other)
        }
        (Formula::Join(d, p, q), Formula::Join(e, r, s)) => {
            same_side(*d, *e)
                && same_below(p, r, replacing, over, other)
                && same_below(q, s, replacing, over, other)
        }
        (Formula::Plus(p, q), Formula::Plus(r, s))
        | (Formula::PlusHole(p, q), Formula::PlusHole(r, s))
        | (Formula::HoleAdj(p, q), Formula::HoleAdj(r, s)) => {
            same_below(p, r, replacing, over, other) && same_below(q, s, replacing, over, other)
        }
        (Formula::App(h, p, q), Formula::App(k, r, s))
        | (Formula::CtxAdj(h, p, q), Formula::CtxAdj(k, r, s)) => {
            same_data_sort(*h, *k)
                && same_below(p, r, replacing, over, other)
                && same_below(q, s, replacing, over, other)
        }
        (Formula::Var(x), Formula::Var(y)) => same_replaced_variable(x, y, replacing, over, other),
        (Formula::Len(a), Formula::Len(b)) => same_replaced_term(a, b, replacing, over, other),
        _ => false,
    }
}

// whether the hole is at the same side
fn same_side(left: Side, right: Side) -> bool
    ensures { result ≡ tests.same_side (side_of left) (side_of right) }
{
    left == right
}
