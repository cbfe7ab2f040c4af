// The first part at fault of a formula judged at a sort.
ghost use Rattle.std.specs.Prelude.{◌≡◌, ◌+◌, ◌<◌, ◌^◌, ◌++◌, ◌∷◌, not, drop, MatchResult, None, Some};
ghost use Rattle.std.specs.List.{position_from};
ghost use Rattle.model_formulas.specs.Parts.{parts};
ghost use Rattle.model_formulas.specs.WellSorted.{flags, first_fault};
ghost use Rattle.dom_terms.specs.Sorts.{sort_of};
ghost use Rattle.formula_syntax.specs.Formulas.{formula_of};
ghost use Rattle.formula_syntax.specs.Sorting as own;

use crate::formulas::Formula;
use crate::sort_tests::{
    gives, giving, inner, is_context, is_form, is_shape, is_sort, left_at, one_sort, outer,
    right_at, side_fits,
};
use dom_terms::{DataSort, Sort, ValueSort, both_have, has_sort, same_sort};

/// A part of a formula is at fault.
#[derive(Clone, Copy, Debug, PartialEq, Eq)]
pub struct IllSorted {
    /// The place of the first part at fault, counted from 0, a formula before its parts.
    pub place: u32,
}

/// Whether the formula may be judged at the sort. The error is the first part at fault.
pub fn sorted_as(formula: &Formula, sort: Sort) -> Result<(), IllSorted>
    requires { parts (formula_of formula.now) < 4294967295 }
    ensures { MatchResult result
        (λ _. first_fault (formula_of formula.now) (sort_of sort) ≡ None)
        (λ fault. first_fault (formula_of formula.now) (sort_of sort) ≡ Some fault.place) }
{
    fault_in(formula, sort, 0)?;
    Ok(())
}

// the place after the last part of the formula, itself the part at `place`, or the first fault
#[cycle(fault_in)]
fn fault_in(formula: &Formula, sort: Sort, place: u32) -> Result<u32, IllSorted>
    requires { place + parts (formula_of formula.now) < 2 ^ 32 }
    ensures { MatchResult result
        (λ next. (position_from not place (flags (formula_of formula.now) (sort_of sort)) ≡ None)
        × (next ≡ place + parts (formula_of formula.now)))
        (λ fault. position_from not place (flags (formula_of formula.now) (sort_of sort))
        ≡ Some fault.place) }
{
    if !fits(formula, sort) {
        return Err(IllSorted { place });
    }
    match formula {
        Formula::True | Formula::False | Formula::Eq(_, _) | Formula::Le(_, _) => Ok(place + 1),
        Formula::EmptyForest | Formula::EmptyGrove | Formula::Hole(_) => Ok(place + 1),
        Formula::Var(_) | Formula::Len(_) => Ok(place + 1),
        Formula::Not(p) | Formula::Exists(_, p) | Formula::Forall(_, p) => {
            fault_in(p, sort, place + 1)
        }
        Formula::Node(_, _, p, _) => fault_in(p, giving(DataSort::Forest, sort), place + 1),
        Formula::One(p) | Formula::Root(p) => fault_in(p, giving(DataSort::Tree, sort), place + 1),
        Formula::Is(x, p) => fault_in(p, x.sort, place + 1),
        Formula::And(p, q) | Formula::Or(p, q) | Formula::Imp(p, q) | Formula::Plus(p, q) => {
            fault_in_two(p, sort, q, sort, place + 1)
        }
        Formula::Join(side, p, q) => {
            fault_in_two(p, left_at(*side, sort), q, right_at(*side, sort), place + 1)
        }
        Formula::PlusHole(p, q) => {
            fault_in_two(p, sort, q, Sort::Shape(DataSort::Grove), place + 1)
        }
        Formula::App(hole, p, q) => {
            let context = Sort::Context(*hole, outer(sort));
            fault_in_two(p, context, q, giving(*hole, sort), place + 1)
        }
        Formula::HoleAdj(p, q) => {
            let given = Sort::Shape(outer(sort));
            fault_in_two(p, Sort::Shape(inner(sort)), q, given, place + 1)
        }
        Formula::CtxAdj(whole, p, q) => {
            let context = Sort::Context(outer(sort), *whole);
            fault_in_two(p, context, q, Sort::Shape(*whole), place + 1)
        }
    }
}

// the same for two formulas, one after the other
#[cycle(fault_in)]
#[tactic(auto, using(crate::proofs::Places::place_rules))]
fn fault_in_two(
    left: &Formula,
    left_sort: Sort,
    right: &Formula,
    right_sort: Sort,
    place: u32,
) -> Result<u32, IllSorted>
    requires { place + (parts (formula_of left.now) + parts (formula_of right.now)) < 2 ^ 32 }
    ensures { MatchResult result
        (λ next. (position_from not place (flags (formula_of left.now) (sort_of left_sort)
        ++ flags (formula_of right.now) (sort_of right_sort)) ≡ None)
        × (next ≡ place + (parts (formula_of left.now) + parts (formula_of right.now))))
        (λ fault. position_from not place (flags (formula_of left.now) (sort_of left_sort)
        ++ flags (formula_of right.now) (sort_of right_sort)) ≡ Some fault.place) }
{
    let next = fault_in(left, left_sort, place)?;
    fault_in(right, right_sort, next)
}

/// Whether the formula itself, its parts apart, may be judged at the sort.
#[tactic(auto, using(crate::proofs::OneSort::same_sort_rules))]
pub fn fits(formula: &Formula, sort: Sort) -> bool
    ensures own { result ≡ own.fits (formula_of formula.now) (sort_of sort) }
    ensures first { flags (formula_of formula.now) (sort_of sort)
        ≡ result ∷ drop 1 (flags (formula_of formula.now) (sort_of sort)) }
{
    match formula {
        Formula::True | Formula::False | Formula::Not(_) => is_form(sort),
        Formula::And(_, _) | Formula::Or(_, _) | Formula::Imp(_, _) => is_form(sort),
        Formula::Exists(x, _) | Formula::Forall(x, _) => is_form(sort) && is_sort(x.sort),
        Formula::Eq(a, b) => is_form(sort) && one_sort(a, b),
        Formula::Le(a, b) => is_form(sort) && both_have(ValueSort::Int, a, b),
        Formula::EmptyForest => same_sort(sort, Sort::Shape(DataSort::Forest)),
        Formula::EmptyGrove | Formula::Plus(_, _) => same_sort(sort, Sort::Shape(DataSort::Grove)),
        Formula::Hole(hole) => same_sort(sort, Sort::Context(*hole, *hole)),
        Formula::Node(name, number, _, list) => {
            gives(sort, DataSort::Tree)
                && is_sort(giving(DataSort::Forest, sort))
                && has_sort(name, ValueSort::Str)
                && has_sort(number, ValueSort::Node)
                && has_sort(list, ValueSort::List)
        }
        Formula::One(_) => gives(sort, DataSort::Forest) && is_sort(giving(DataSort::Tree, sort)),
        Formula::Root(_) => gives(sort, DataSort::Grove) && is_sort(giving(DataSort::Tree, sort)),
        Formula::Join(side, _, _) => gives(sort, DataSort::Forest) && side_fits(*side, sort),
        Formula::PlusHole(_, _) => gives(sort, DataSort::Grove) && is_context(sort),
        Formula::App(hole, _, _) => {
            let context = Sort::Context(*hole, outer(sort));
            is_form(sort) && is_sort(context) && is_sort(giving(*hole, sort))
        }
        Formula::HoleAdj(_, _) => is_form(sort) && is_context(sort),
        Formula::CtxAdj(whole, _, _) => {
            is_shape(sort) && is_sort(Sort::Context(outer(sort), *whole))
        }
        Formula::Var(x) => is_form(sort) && same_sort(sort, x.sort),
        Formula::Len(a) => {
            same_sort(sort, Sort::Shape(DataSort::Forest)) && has_sort(a, ValueSort::Int)
        }
        Formula::Is(x, _) => is_form(sort) && is_form(x.sort),
    }
}
