// Whether two formulas have the same form.
ghost use Rattle.std.specs.Prelude.{◌≡◌, ◌≤◌, ◌<◌, IfOk, IfSome, is_some, true};
ghost use Rattle.model_formulas.specs.Nameless.{nameless};
ghost use Rattle.model_formulas.specs.Parts.{parts};
ghost use Rattle.assistant_laws.specs.ConjunctPlans as plans;
ghost use Rattle.assistant_laws.specs.Obvious as model;
ghost use Rattle.dom_terms.specs.Sorts.{sort_of};
ghost use Rattle.formula_syntax.specs.Formulas.{formula_of};
ghost use Rattle.step_filler.specs.Drafts.{Leaves};
ghost use Rattle.step_filler.specs.Roots as roots;

use crate::forms::{absorbed, absorbed_roots, summed, tidied};
use dom_terms::{Copied, DataSort, OutOfMemory, Sort, with};
use formula_syntax::{Formula, same_formula};
use std::alloc::Global;

// The most parts of a formula that is compared. One of more would take hundreds of gigabytes.
const MOST_PARTS: usize = 4_294_967_294;

// How much of the room for parts is left by those of the formula.
fn left_by_parts(formula: &Formula, room: usize) -> Option<usize>
    ensures { Leaves room (parts (formula_of formula.now)) result }
{
    match formula {
        Formula::True | Formula::False | Formula::Hole(_) => room.checked_sub(1),
        Formula::EmptyForest | Formula::EmptyGrove => room.checked_sub(1),
        Formula::Eq(_, _) | Formula::Le(_, _) => room.checked_sub(1),
        Formula::Var(_) | Formula::Len(_) => room.checked_sub(1),
        Formula::And(p, q) | Formula::Or(p, q) | Formula::Imp(p, q) => {
            left_by_parts(q, left_by_parts(p, room.checked_sub(1)?)?)
        }
        Formula::Join(_, p, q) | Formula::App(_, p, q) | Formula::CtxAdj(_, p, q) => {
            left_by_parts(q, left_by_parts(p, room.checked_sub(1)?)?)
        }
        Formula::Plus(p, q) | Formula::PlusHole(p, q) | Formula::HoleAdj(p, q) => {
            left_by_parts(q, left_by_parts(p, room.checked_sub(1)?)?)
        }
        Formula::Not(p) | Formula::One(p) | Formula::Root(p) => {
            left_by_parts(p, room.checked_sub(1)?)
        }
        Formula::Exists(_, p) | Formula::Forall(_, p) | Formula::Is(_, p) => {
            left_by_parts(p, room.checked_sub(1)?)
        }
        Formula::Node(_, _, p, _) => left_by_parts(p, room.checked_sub(1)?),
    }
}

/// Whether it has few enough parts to be compared.
pub(crate) fn is_small(formula: &Formula) -> bool
    ensures { result ≡ true → parts (formula_of formula.now) < 4294967295 }
{
    match left_by_parts(formula, MOST_PARTS) {
        Some(_) => true,
        None => false,
    }
}

/// Whether the formulas are the same.
#[tactic(auto, using(crate::proofs::Conjuncts::decided))]
pub(crate) fn is_same(alloc: Global, left: &Formula, right: &Formula) -> bool
    requires left { parts (formula_of left.now) < 4294967295 }
    requires right { parts (formula_of right.now) < 4294967295 }
    ensures { result ≡ plans.same_named (formula_of left.now) (formula_of right.now) }
{
    match same_formula(alloc, left, right) {
        Ok(same) => same,
        Err(OutOfMemory) => false,
    }
}

// Whether forms are the same. Those with too many parts count as more than memory holds.
fn are_same(alloc: Global, left: Formula, right: Formula) -> Result<bool, OutOfMemory>
    ensures { IfOk result
        (λ same. same ≡ plans.same_named (formula_of left) (formula_of right)) }
{
    if is_small(&left) && is_small(&right) {
        return Ok(is_same(alloc, &left, &right));
    }
    Err(OutOfMemory)
}

// Whether the root is one of the row.
fn has_root(alloc: Global, row: &Formula, root: &Formula) -> bool
    requires row { parts (formula_of row.now) < 4294967295 }
    requires root { parts (formula_of root.now) < 4294967295 }
    ensures { result ≡ roots.has_root (formula_of row.now) (formula_of root.now) }
{
    match row {
        Formula::Plus(first, rest) => is_same(alloc, root, first) || has_root(alloc, rest, root),
        _ => false,
    }
}

/// The row without the first that is the root.
pub(crate) fn without_root(
    alloc: Global,
    row: &Formula,
    root: &Formula,
) -> Result<Formula, OutOfMemory>
    requires row { parts (formula_of row.now) < 4294967295 }
    requires root { parts (formula_of root.now) < 4294967295 }
    ensures rest { IfOk result (λ rest. formula_of rest
        ≡ roots.without_root (formula_of row.now) (formula_of root.now)) }
    ensures small { IfOk result (λ rest. parts (formula_of rest) ≤ parts (formula_of row.now)) }
{
    match row {
        Formula::Plus(first, rest) => {
            if is_same(alloc, root, first) {
                return rest.copy(alloc);
            }
            let rest = without_root(alloc, rest, root)?;
            let (rest, first) = with(rest, first.copy(alloc))?;
            summed(alloc, first, rest)
        }
        _ => row.copy(alloc),
    }
}

// The row without the root, where it is one of the row.
fn taken_out(alloc: Global, row: Formula, root: &Formula) -> Result<Option<Formula>, OutOfMemory>
    requires row { parts (formula_of row) < 4294967295 }
    requires root { parts (formula_of root.now) < 4294967295 }
    ensures none { IfOk result (λ rest. is_some rest
        ≡ roots.has_root (formula_of row) (formula_of root.now)) }
    ensures rest { IfOk result (λ rest. IfSome rest (λ rest. formula_of rest
        ≡ roots.without_root (formula_of row) (formula_of root.now))) }
    ensures small { IfOk result (λ rest. IfSome rest
        (λ rest. parts (formula_of rest) ≤ parts (formula_of row))) }
{
    if has_root(alloc, &row, root) {
        return Ok(Some(without_root(alloc, &row, root)?));
    }
    Ok(None)
}

// Whether it has a root.
fn is_sum(row: &Formula) -> bool
    ensures { result ≡ roots.is_sum (formula_of row.now) }
{
    match row {
        Formula::Plus(_, _) => true,
        _ => false,
    }
}

// Whether both rows have the same roots, in whatever order.
fn same_roots(alloc: Global, left: Formula, right: &Formula) -> Result<bool, OutOfMemory>
    requires left { parts (formula_of left) < 4294967295 }
    requires right { parts (formula_of right.now) < 4294967295 }
    ensures { IfOk result
        (λ same. same ≡ roots.same_roots (formula_of left) (formula_of right.now)) }
{
    match right {
        Formula::Plus(root, rest) => match taken_out(alloc, left, root)? {
            Some(left) => same_roots(alloc, left, rest),
            None => Ok(false),
        },
        _ => Ok(!is_sum(&left)),
    }
}

// Whether rows of few enough parts have the same roots.
fn are_same_roots(alloc: Global, left: Formula, right: Formula) -> Result<bool, OutOfMemory>
    ensures { IfOk result
        (λ same. same ≡ roots.same_roots (formula_of left) (formula_of right)) }
{
    if is_small(&left) && is_small(&right) {
        return same_roots(alloc, left, &right);
    }
    Err(OutOfMemory)
}

/// Whether both formulas have the same form at the sort.
#[tactic(auto, using(crate::proofs::Sameness::form_rules))]
pub(crate) fn same_form(
    alloc: Global,
    sort: Sort,
    left: &Formula,
    right: &Formula,
) -> Result<bool, OutOfMemory>
    ensures { IfOk result (λ same. same ≡ model.same_form (sort_of sort)
        (nameless (formula_of left.now)) (nameless (formula_of right.now))) }
{
    match sort {
        Sort::Shape(DataSort::Tree) => {
            let (left, right) = with(tidied(alloc, left)?, tidied(alloc, right))?;
            are_same(alloc, left, right)
        }
        Sort::Shape(DataSort::Forest) => {
            let left = absorbed(alloc, left, Formula::EmptyForest)?;
            let (left, right) = with(left, absorbed(alloc, right, Formula::EmptyForest))?;
            are_same(alloc, left, right)
        }
        Sort::Shape(DataSort::Grove) => {
            let left = absorbed_roots(alloc, left, Formula::EmptyGrove)?;
            let (left, right) = with(left, absorbed_roots(alloc, right, Formula::EmptyGrove))?;
            are_same_roots(alloc, left, right)
        }
        Sort::Value(_) | Sort::Context(_, _) => Ok(false),
    }
}
