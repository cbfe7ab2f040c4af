// From a grove to its roots in a row, and back, as the plans by form have it.
ghost use Rattle.std.specs.Prelude.{◌≡◌, IfOk, codes, [], ◌∷◌};
ghost use Rattle.model_shapes.specs.Sorts as sorts;
ghost use Rattle.model_shapes.specs.Sorts.{shape};
ghost use Rattle.model_formulas.specs.Formulas as model;
ghost use Rattle.assistant_laws.specs.FormPlans as plans;
ghost use Rattle.assistant_laws.specs.Ways.{beside, by_way_of, itself, turned};
ghost use Rattle.formula_syntax.specs.Formulas.{formula_of};
ghost use Rattle.step_filler.specs.Pens.{IsPen, Pens, PensOne};
ghost use Rattle.step_filler.specs.Turns.{way_of};

use crate::forms::{absorbed_roots, boxed, summed, tidied_root};
use crate::pens::Pen;
use crate::sides::{Pair, Stages, paired, write_tree};
use crate::turns::{Law, Way};
use dom_terms::{Copied, DataSort, OutOfMemory, Sort, copies, with};
use formula_syntax::Formula;
use std::alloc::Global;

const GROVE: Sort = Sort::Shape(DataSort::Grove);

/// Copies of two groves, one beside the other.
pub(crate) fn sum(alloc: Global, first: &Formula, rest: &Formula) -> Result<Formula, OutOfMemory>
    ensures { IfOk result (λ sum. formula_of sum
        ≡ model.grove_sum (formula_of first.now) (formula_of rest.now)) }
{
    let (first, rest) = copies(alloc, first, rest)?;
    summed(alloc, first, rest)
}

// A copy of a row, with the roots of a grove in front.
fn roots_taken_in(alloc: Global, grove: &Formula, rest: &Formula) -> Result<Formula, OutOfMemory>
    ensures { IfOk result (λ row. formula_of row
        ≡ plans.absorbed_roots (formula_of grove.now) (formula_of rest.now)) }
{
    absorbed_roots(alloc, grove, rest.copy(alloc)?)
}

// Three groves, of which the first two are together.
fn summed_left(
    alloc: Global,
    first: &Formula,
    second: &Formula,
    rest: &Formula,
) -> Result<Formula, OutOfMemory>
    ensures { IfOk result (λ sum. formula_of sum
        ≡ model.grove_sum (model.grove_sum (formula_of first.now) (formula_of second.now))
        (formula_of rest.now)) }
{
    let (both, rest) = with(sum(alloc, first, second)?, rest.copy(alloc))?;
    summed(alloc, both, rest)
}

// Three groves, of which the last two are together.
fn summed_right(
    alloc: Global,
    first: &Formula,
    second: &Formula,
    rest: &Formula,
) -> Result<Formula, OutOfMemory>
    ensures { IfOk result (λ sum. formula_of sum
        ≡ model.grove_sum (formula_of first.now)
        (model.grove_sum (formula_of second.now) (formula_of rest.now))) }
{
    let (first, both) = with(first.copy(alloc)?, sum(alloc, second, rest))?;
    summed(alloc, first, both)
}

// The stages as (P + Q) is taken in.
fn root_stages(
    alloc: Global,
    first: &Formula,
    second: &Formula,
    rest: &Formula,
) -> Result<Stages, OutOfMemory>
    ensures start { IfOk result (λ stages. formula_of stages.start
        ≡ model.grove_sum (model.grove_sum (formula_of first.now) (formula_of second.now))
        (formula_of rest.now)) }
    ensures middle { IfOk result (λ stages. formula_of stages.middle
        ≡ model.grove_sum (formula_of first.now)
        (model.grove_sum (formula_of second.now) (formula_of rest.now))) }
    ensures rest { IfOk result (λ stages. formula_of stages.rest
        ≡ plans.absorbed_roots (formula_of second.now) (formula_of rest.now)) }
    ensures next { IfOk result (λ stages. formula_of stages.next
        ≡ model.grove_sum (formula_of first.now)
        (plans.absorbed_roots (formula_of second.now) (formula_of rest.now))) }
    ensures end { IfOk result (λ stages. formula_of stages.end
        ≡ plans.absorbed_roots (formula_of first.now)
        (plans.absorbed_roots (formula_of second.now) (formula_of rest.now))) }
{
    let start = summed_left(alloc, first, second, rest)?;
    let (start, middle) = with(start, summed_right(alloc, first, second, rest))?;
    let (begun, rest) = with((start, middle), roots_taken_in(alloc, second, rest))?;
    let next = sum(alloc, first, &rest);
    let ((begun, rest), next) = with((begun, rest), next)?;
    let end = roots_taken_in(alloc, first, &rest);
    let ((begun, rest, next), end) = with((begun, rest, next), end)?;
    let (start, middle) = begun;
    Ok(Stages {
        start,
        middle,
        rest,
        next,
        end,
    })
}

// The root of a tree, and that of its form.
fn root_and_tidied(alloc: Global, tree: &Formula) -> Result<Pair, OutOfMemory>
    ensures root { IfOk result
        (λ pair. formula_of pair.first ≡ model.one_root (formula_of tree.now)) }
    ensures tidied { IfOk result
        (λ pair. formula_of pair.second ≡ model.one_root (plans.tidied (formula_of tree.now))) }
{
    let root = Formula::Root(boxed(alloc, tree.copy(alloc)?)?);
    paired(root, tidied_root(alloc, tree))
}

// The root of a tree in front of a row, and that of its form.
fn leading_root_and_tidied(
    alloc: Global,
    tree: &Formula,
    rest: &Formula,
) -> Result<Pair, OutOfMemory>
    ensures leading { IfOk result (λ pair. formula_of pair.first
        ≡ model.grove_sum (model.one_root (formula_of tree.now)) (formula_of rest.now)) }
    ensures tidied { IfOk result (λ pair. formula_of pair.second
        ≡ model.grove_sum (model.one_root (plans.tidied (formula_of tree.now)))
        (formula_of rest.now)) }
{
    let root = root_and_tidied(alloc, tree)?;
    let leading = sum(alloc, &root.first, rest)?;
    paired(leading, sum(alloc, &root.second, rest))
}

// A grove beside none, either way.
fn beside_none(alloc: Global, grove: &Formula) -> Result<Pair, OutOfMemory>
    ensures before { IfOk result (λ pair. formula_of pair.first
        ≡ model.grove_sum (model.empty sorts.grove) (formula_of grove.now)) }
    ensures after { IfOk result (λ pair. formula_of pair.second
        ≡ model.grove_sum (formula_of grove.now) (model.empty sorts.grove)) }
{
    let before = sum(alloc, &Formula::EmptyGrove, grove)?;
    paired(before, sum(alloc, grove, &Formula::EmptyGrove))
}

// A grove beside none, and its roots in a row.
fn ended_and_absorbed_roots(alloc: Global, grove: &Formula) -> Result<Pair, OutOfMemory>
    ensures ended { IfOk result (λ pair. formula_of pair.first
        ≡ model.grove_sum (formula_of grove.now) (model.empty sorts.grove)) }
    ensures absorbed { IfOk result (λ pair. formula_of pair.second
        ≡ plans.absorbed_roots (formula_of grove.now) (model.empty sorts.grove)) }
{
    let ended = sum(alloc, grove, &Formula::EmptyGrove)?;
    paired(ended, absorbed_roots(alloc, grove, Formula::EmptyGrove))
}

// Writes that the root of a tree may have that of its form.
fn write_root(pen: &mut Pen, way: Way, inner: u32, tree: &Formula) -> u32
    requires ready { IsPen pen.old }
    ensures written { PensOne (codes "mono_root") (inner ∷ [])
        (turned (way_of way) (model.one_root (formula_of tree.now))
        (model.one_root (plans.tidied (formula_of tree.now))) (shape sorts.grove))
        pen.old pen.new result }
    ensures ready { IsPen pen.new }
{
    if pen.has_stopped() {
        return 0;
    }
    match root_and_tidied(pen.alloc, tree) {
        Ok(pair) => {
            let (root, form) = (&pair.first, &pair.second);
            pen.write_so(way, "mono_root", &[inner], root, form, GROVE)
        }
        Err(OutOfMemory) => pen.refuse(),
    }
}

// Writes the same in front of a row.
fn write_leading_root(
    pen: &mut Pen,
    way: Way,
    first: u32,
    second: u32,
    tree: &Formula,
    rest: &Formula,
) -> u32
    requires ready { IsPen pen.old }
    ensures written { PensOne (codes "mono_plus") (first ∷ second ∷ [])
        (turned (way_of way)
        (model.grove_sum (model.one_root (formula_of tree.now)) (formula_of rest.now))
        (model.grove_sum (model.one_root (plans.tidied (formula_of tree.now)))
        (formula_of rest.now)) (shape sorts.grove))
        pen.old pen.new result }
    ensures ready { IsPen pen.new }
{
    if pen.has_stopped() {
        return 0;
    }
    match leading_root_and_tidied(pen.alloc, tree, rest) {
        Ok(pair) => {
            let (from, to) = (&pair.first, &pair.second);
            pen.write_so(way, "mono_plus", &[first, second], from, to, GROVE)
        }
        Err(OutOfMemory) => pen.refuse(),
    }
}

// No root is taken in.
fn take_no_root(pen: &mut Pen, way: Way, rest: &Formula) -> u32
    requires ready { IsPen pen.old }
    ensures written { Pens
        (plans.grove_plan (way_of way) (model.empty sorts.grove) (formula_of rest.now))
        pen.old pen.new result }
    ensures ready { IsPen pen.new }
{
    if pen.has_stopped() {
        return 0;
    }
    let Ok(pair) = beside_none(pen.alloc, rest) else {
        return pen.refuse();
    };
    let (before, after) = (&pair.first, &pair.second);
    match way {
        Way::Onward => {
            let first = pen.write_so(way, "plus_comm", &[], before, after, GROVE);
            let second = pen.write_law(way, Law::PlusUnit, after, rest, GROVE);
            pen.write("cut", &[first, second], before, rest, GROVE)
        }
        Way::Backward => {
            let first = pen.write_law(way, Law::PlusUnit, after, rest, GROVE);
            let second = pen.write_so(way, "plus_comm", &[], before, after, GROVE);
            pen.write("cut", &[first, second], rest, before, GROVE)
        }
    }
}

// The grove is a root itself.
fn take_whole_root(pen: &mut Pen, root: &Formula, rest: &Formula) -> u32
    requires ready { IsPen pen.old }
    ensures written { Pens (itself
        (model.grove_sum (formula_of root.now) (formula_of rest.now)) (shape sorts.grove))
        pen.old pen.new result }
    ensures ready { IsPen pen.new }
{
    if pen.has_stopped() {
        return 0;
    }
    match sum(pen.alloc, root, rest) {
        Ok(whole) => pen.write_itself(&whole, GROVE),
        Err(OutOfMemory) => pen.refuse(),
    }
}

// The root of a tree is taken in.
fn take_root(pen: &mut Pen, way: Way, tree: &Formula, rest: &Formula) -> u32
    requires ready { IsPen pen.old }
    ensures written { Pens (plans.grove_plan (way_of way)
        (model.one_root (formula_of tree.now)) (formula_of rest.now))
        pen.old pen.new result }
    ensures ready { IsPen pen.new }
{
    let inner = write_tree(pen, way, tree);
    let first = write_root(pen, way, inner, tree);
    let second = pen.write_itself(rest, GROVE);
    write_leading_root(pen, way, first, second, tree, rest)
}

/// From a grove to its roots in a row, or back.
pub(crate) fn write_grove(pen: &mut Pen, way: Way, grove: &Formula) -> u32
    requires ready { IsPen pen.old }
    ensures written { Pens (plans.sum_plan (way_of way) (formula_of grove.now))
        pen.old pen.new result }
    ensures ready { IsPen pen.new }
{
    if pen.has_stopped() {
        return 0;
    }
    let Ok(pair) = ended_and_absorbed_roots(pen.alloc, grove) else {
        return pen.refuse();
    };
    let (ended, row) = (&pair.first, &pair.second);
    match way {
        Way::Onward => {
            let first = pen.write_law(Way::Backward, Law::PlusUnit, ended, grove, GROVE);
            let second = take_roots(pen, way, grove, &Formula::EmptyGrove);
            pen.write("cut", &[first, second], grove, row, GROVE)
        }
        Way::Backward => {
            let first = take_roots(pen, way, grove, &Formula::EmptyGrove);
            let second = pen.write_law(Way::Onward, Law::PlusUnit, ended, grove, GROVE);
            pen.write("cut", &[first, second], row, grove, GROVE)
        }
    }
}

// From a grove beside a row to the row with its roots in front, or back.
#[cycle(grove_sides)]
fn take_roots(pen: &mut Pen, way: Way, grove: &Formula, rest: &Formula) -> u32
    requires ready { IsPen pen.old }
    ensures written { Pens
        (plans.grove_plan (way_of way) (formula_of grove.now) (formula_of rest.now))
        pen.old pen.new result }
    ensures ready { IsPen pen.new }
{
    match grove {
        Formula::EmptyGrove => take_no_root(pen, way, rest),
        Formula::Plus(first, second) => take_both_roots(pen, way, first, second, rest),
        Formula::Root(tree) => take_root(pen, way, tree, rest),
        _ => take_whole_root(pen, grove, rest),
    }
}

// The same for two groves.
#[cycle(grove_sides)]
fn take_both_roots(
    pen: &mut Pen,
    way: Way,
    first: &Formula,
    second: &Formula,
    rest: &Formula,
) -> u32
    requires ready { IsPen pen.old }
    ensures written { Pens (plans.grove_plan (way_of way)
        (model.grove_sum (formula_of first.now) (formula_of second.now))
        (formula_of rest.now)) pen.old pen.new result }
    ensures ready { IsPen pen.new }
{
    if pen.has_stopped() {
        return 0;
    }
    let Ok(stages) = root_stages(pen.alloc, first, second, rest) else {
        return pen.refuse();
    };
    let (start, middle, end) = (&stages.start, &stages.middle, &stages.end);
    match way {
        Way::Onward => {
            let grouped = pen.write_law(way, Law::PlusAssoc, start, middle, GROVE);
            let taken = take_each_root(pen, way, first, second, rest, &stages);
            pen.write("cut", &[grouped, taken], start, end, GROVE)
        }
        Way::Backward => {
            let taken = take_each_root(pen, way, first, second, rest, &stages);
            let grouped = pen.write_law(way, Law::PlusAssoc, start, middle, GROVE);
            pen.write("cut", &[taken, grouped], end, start, GROVE)
        }
    }
}

// The second of them is taken in, and then the first.
#[cycle(grove_sides)]
fn take_each_root(
    pen: &mut Pen,
    way: Way,
    first: &Formula,
    second: &Formula,
    rest: &Formula,
    stages: &Stages,
) -> u32
    requires ready { IsPen pen.old }
    ensures written { Pens (by_way_of (way_of way)
        (beside (way_of way) (codes "mono_plus")
        (itself (formula_of first.now) (shape sorts.grove))
        (plans.grove_plan (way_of way) (formula_of second.now) (formula_of rest.now))
        (formula_of stages.now.middle) (formula_of stages.now.next) (shape sorts.grove))
        (plans.grove_plan (way_of way) (formula_of first.now) (formula_of stages.now.rest))
        (formula_of stages.now.middle) (formula_of stages.now.end) (shape sorts.grove))
        pen.old pen.new result }
    ensures ready { IsPen pen.new }
{
    match way {
        Way::Onward => {
            let inner = take_second_root(pen, way, first, second, rest, stages);
            let outer = take_roots(pen, way, first, &stages.rest);
            pen.write("cut", &[inner, outer], &stages.middle, &stages.end, GROVE)
        }
        Way::Backward => {
            let outer = take_roots(pen, way, first, &stages.rest);
            let inner = take_second_root(pen, way, first, second, rest, stages);
            pen.write("cut", &[outer, inner], &stages.end, &stages.middle, GROVE)
        }
    }
}

// The second of them is taken in, beside the first.
#[cycle(grove_sides)]
fn take_second_root(
    pen: &mut Pen,
    way: Way,
    first: &Formula,
    second: &Formula,
    rest: &Formula,
    stages: &Stages,
) -> u32
    requires ready { IsPen pen.old }
    ensures written { Pens
        (beside (way_of way) (codes "mono_plus")
        (itself (formula_of first.now) (shape sorts.grove))
        (plans.grove_plan (way_of way) (formula_of second.now) (formula_of rest.now))
        (formula_of stages.now.middle) (formula_of stages.now.next) (shape sorts.grove))
        pen.old pen.new result }
    ensures ready { IsPen pen.new }
{
    let kept = pen.write_itself(first, GROVE);
    let taken = take_roots(pen, way, second, rest);
    let (from, to) = (&stages.middle, &stages.next);
    pen.write_so(way, "mono_plus", &[kept, taken], from, to, GROVE)
}
