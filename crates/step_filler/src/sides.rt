// From a tree or a forest to its form, and back, as the plans by form have it.
ghost use Rattle.std.specs.Prelude.{◌≡◌, IfOk, Ok, codes, [], ◌∷◌};
ghost use Rattle.model_shapes.specs.Sorts as sorts;
ghost use Rattle.model_shapes.specs.Sorts.{shape};
ghost use Rattle.model_formulas.specs.Formulas as model;
ghost use Rattle.assistant_laws.specs.FormPlans as plans;
ghost use Rattle.assistant_laws.specs.Ways.{beside, by_way_of, itself, turned};
ghost use Rattle.formula_syntax.specs.Formulas.{formula_of};
ghost use Rattle.step_filler.specs.Pens.{IsPen, Pens, PensOne};
ghost use Rattle.step_filler.specs.Turns.{way_of};

use crate::forms::{absorbed, boxed, followed, tidied, tidied_alone};
use crate::pens::Pen;
use crate::turns::{Law, Way};
use dom_terms::{Copied, DataSort, OutOfMemory, Sort, copies, with};
use formula_syntax::{Formula, Side};
use std::alloc::Global;

const TREE: Sort = Sort::Shape(DataSort::Tree);

const FOREST: Sort = Sort::Shape(DataSort::Forest);

/// What stands on the way from `((P * Q) * T)` to T with the parts of both in front; at grove with
/// `+` in place of `*`.
#[derive(Drop)]
pub(crate) struct Stages {
    /// `((P * Q) * T)`
    pub start: Formula,
    /// `(P * (Q * T))`
    pub middle: Formula,
    /// T with the parts of Q in front
    pub rest: Formula,
    /// `(P * rest)`
    pub next: Formula,
    /// the rest with the parts of P in front
    pub end: Formula,
}

/// Two formulas, which are let go of together.
#[derive(Drop)]
pub(crate) struct Pair {
    /// The one.
    pub first: Formula,
    /// The other.
    pub second: Formula,
}

/// Both in a pair.
pub(crate) fn paired(
    first: Formula,
    second: Result<Formula, OutOfMemory>,
) -> Result<Pair, OutOfMemory>
    ensures first { IfOk result (λ pair. pair.first ≡ first) }
    ensures second { IfOk result (λ pair. second ≡ Ok pair.second) }
{
    let (first, second) = with(first, second)?;
    Ok(Pair { first, second })
}

// Copies of two forests, one after the other.
fn row(alloc: Global, first: &Formula, rest: &Formula) -> Result<Formula, OutOfMemory>
    ensures { IfOk result (λ row. formula_of row
        ≡ model.concatenation model.whole (formula_of first.now) (formula_of rest.now)) }
{
    let (first, rest) = copies(alloc, first, rest)?;
    followed(alloc, first, rest)
}

// A copy of a row, with the parts of a forest in front.
fn taken_in(alloc: Global, forest: &Formula, rest: &Formula) -> Result<Formula, OutOfMemory>
    ensures { IfOk result
        (λ row. formula_of row ≡ plans.absorbed (formula_of forest.now) (formula_of rest.now)) }
{
    absorbed(alloc, forest, rest.copy(alloc)?)
}

// Three forests, of which the first two are together.
fn grouped_left(
    alloc: Global,
    first: &Formula,
    second: &Formula,
    rest: &Formula,
) -> Result<Formula, OutOfMemory>
    ensures { IfOk result (λ row. formula_of row
        ≡ model.concatenation model.whole
        (model.concatenation model.whole (formula_of first.now) (formula_of second.now))
        (formula_of rest.now)) }
{
    let (both, rest) = with(row(alloc, first, second)?, rest.copy(alloc))?;
    followed(alloc, both, rest)
}

// Three forests, of which the last two are together.
fn grouped_right(
    alloc: Global,
    first: &Formula,
    second: &Formula,
    rest: &Formula,
) -> Result<Formula, OutOfMemory>
    ensures { IfOk result (λ row. formula_of row
        ≡ model.concatenation model.whole (formula_of first.now)
        (model.concatenation model.whole (formula_of second.now) (formula_of rest.now))) }
{
    let (first, both) = with(first.copy(alloc)?, row(alloc, second, rest))?;
    followed(alloc, first, both)
}

// The stages as (P * Q) is taken in.
fn stages_of(
    alloc: Global,
    first: &Formula,
    second: &Formula,
    rest: &Formula,
) -> Result<Stages, OutOfMemory>
    ensures start { IfOk result (λ stages. formula_of stages.start
        ≡ model.concatenation model.whole
        (model.concatenation model.whole (formula_of first.now) (formula_of second.now))
        (formula_of rest.now)) }
    ensures middle { IfOk result (λ stages. formula_of stages.middle
        ≡ model.concatenation model.whole (formula_of first.now)
        (model.concatenation model.whole (formula_of second.now) (formula_of rest.now))) }
    ensures rest { IfOk result (λ stages. formula_of stages.rest
        ≡ plans.absorbed (formula_of second.now) (formula_of rest.now)) }
    ensures next { IfOk result (λ stages. formula_of stages.next
        ≡ model.concatenation model.whole (formula_of first.now)
        (plans.absorbed (formula_of second.now) (formula_of rest.now))) }
    ensures end { IfOk result (λ stages. formula_of stages.end
        ≡ plans.absorbed (formula_of first.now)
        (plans.absorbed (formula_of second.now) (formula_of rest.now))) }
{
    let start = grouped_left(alloc, first, second, rest)?;
    let (start, middle) = with(start, grouped_right(alloc, first, second, rest))?;
    let (begun, rest) = with((start, middle), taken_in(alloc, second, rest))?;
    let next = row(alloc, first, &rest);
    let ((begun, rest), next) = with((begun, rest), next)?;
    let end = taken_in(alloc, first, &rest);
    let ((begun, rest, next), end) = with((begun, rest, next), end)?;
    let (start, middle) = begun;
    Ok(Stages {
        start,
        middle,
        rest,
        next,
        end,
    })
}

// The forest of a tree, and that of its form.
fn alone_and_tidied(alloc: Global, tree: &Formula) -> Result<Pair, OutOfMemory>
    ensures alone { IfOk result
        (λ pair. formula_of pair.first ≡ model.one_tree (formula_of tree.now)) }
    ensures tidied { IfOk result
        (λ pair. formula_of pair.second ≡ model.one_tree (plans.tidied (formula_of tree.now))) }
{
    let alone = Formula::One(boxed(alloc, tree.copy(alloc)?)?);
    paired(alone, tidied_alone(alloc, tree))
}

// The forest of a tree in front of a row, and that of its form.
fn leading_and_tidied(alloc: Global, tree: &Formula, rest: &Formula) -> Result<Pair, OutOfMemory>
    ensures leading { IfOk result (λ pair. formula_of pair.first
        ≡ model.concatenation model.whole (model.one_tree (formula_of tree.now))
        (formula_of rest.now)) }
    ensures tidied { IfOk result (λ pair. formula_of pair.second
        ≡ model.concatenation model.whole (model.one_tree (plans.tidied (formula_of tree.now)))
        (formula_of rest.now)) }
{
    let alone = alone_and_tidied(alloc, tree)?;
    let leading = row(alloc, &alone.first, rest)?;
    paired(leading, row(alloc, &alone.second, rest))
}

// A forest in front of none, and its parts in a row.
fn ended_and_absorbed(alloc: Global, forest: &Formula) -> Result<Pair, OutOfMemory>
    ensures ended { IfOk result (λ pair. formula_of pair.first
        ≡ model.concatenation model.whole (formula_of forest.now) (model.empty sorts.forest)) }
    ensures absorbed { IfOk result (λ pair. formula_of pair.second
        ≡ plans.absorbed (formula_of forest.now) (model.empty sorts.forest)) }
{
    let ended = followed(alloc, forest.copy(alloc)?, Formula::EmptyForest)?;
    paired(ended, absorbed(alloc, forest, Formula::EmptyForest))
}

// Writes that a node may have its form, since the forest of its children may.
fn write_node(pen: &mut Pen, way: Way, inner: u32, node: &Formula) -> u32
    requires ready { IsPen pen.old }
    ensures written { PensOne (codes "mono_node") (inner ∷ [])
        (turned (way_of way) (formula_of node.now) (plans.tidied (formula_of node.now))
        (shape sorts.tree)) pen.old pen.new result }
    ensures ready { IsPen pen.new }
{
    if pen.has_stopped() {
        return 0;
    }
    match tidied(pen.alloc, node) {
        Ok(form) => pen.write_so(way, "mono_node", &[inner], node, &form, TREE),
        Err(OutOfMemory) => pen.refuse(),
    }
}

// Writes that the forest of a tree may have that of its form.
fn write_alone(pen: &mut Pen, way: Way, inner: u32, tree: &Formula) -> u32
    requires ready { IsPen pen.old }
    ensures written { PensOne (codes "mono_tree") (inner ∷ [])
        (turned (way_of way) (model.one_tree (formula_of tree.now))
        (model.one_tree (plans.tidied (formula_of tree.now))) (shape sorts.forest))
        pen.old pen.new result }
    ensures ready { IsPen pen.new }
{
    if pen.has_stopped() {
        return 0;
    }
    match alone_and_tidied(pen.alloc, tree) {
        Ok(pair) => {
            let (alone, form) = (&pair.first, &pair.second);
            pen.write_so(way, "mono_tree", &[inner], alone, form, FOREST)
        }
        Err(OutOfMemory) => pen.refuse(),
    }
}

// Writes the same in front of a row.
fn write_leading(
    pen: &mut Pen,
    way: Way,
    first: u32,
    second: u32,
    tree: &Formula,
    rest: &Formula,
) -> u32
    requires ready { IsPen pen.old }
    ensures written { PensOne (codes "mono_star") (first ∷ second ∷ [])
        (turned (way_of way)
        (model.concatenation model.whole (model.one_tree (formula_of tree.now))
        (formula_of rest.now))
        (model.concatenation model.whole (model.one_tree (plans.tidied (formula_of tree.now)))
        (formula_of rest.now)) (shape sorts.forest))
        pen.old pen.new result }
    ensures ready { IsPen pen.new }
{
    if pen.has_stopped() {
        return 0;
    }
    match leading_and_tidied(pen.alloc, tree, rest) {
        Ok(pair) => {
            let (from, to) = (&pair.first, &pair.second);
            pen.write_so(way, "mono_star", &[first, second], from, to, FOREST)
        }
        Err(OutOfMemory) => pen.refuse(),
    }
}

// No part is taken in.
fn take_none(pen: &mut Pen, way: Way, rest: &Formula) -> u32
    requires ready { IsPen pen.old }
    ensures written { Pens
        (plans.forest_plan (way_of way) (model.empty sorts.forest) (formula_of rest.now))
        pen.old pen.new result }
    ensures ready { IsPen pen.new }
{
    if pen.has_stopped() {
        return 0;
    }
    match row(pen.alloc, &Formula::EmptyForest, rest) {
        Ok(from) => pen.write_law(way, Law::UnitStar, &from, rest, FOREST),
        Err(OutOfMemory) => pen.refuse(),
    }
}

// The forest is a part itself.
fn take_whole(pen: &mut Pen, part: &Formula, rest: &Formula) -> u32
    requires ready { IsPen pen.old }
    ensures written { Pens (itself
        (model.concatenation model.whole (formula_of part.now) (formula_of rest.now))
        (shape sorts.forest)) pen.old pen.new result }
    ensures ready { IsPen pen.new }
{
    if pen.has_stopped() {
        return 0;
    }
    match row(pen.alloc, part, rest) {
        Ok(whole) => pen.write_itself(&whole, FOREST),
        Err(OutOfMemory) => pen.refuse(),
    }
}

/// From a tree to its form, or back.
#[cycle(sides)]
pub(crate) fn write_tree(pen: &mut Pen, way: Way, tree: &Formula) -> u32
    requires ready { IsPen pen.old }
    ensures written { Pens (plans.tree_plan (way_of way) (formula_of tree.now))
        pen.old pen.new result }
    ensures ready { IsPen pen.new }
{
    match tree {
        Formula::Node(_, _, children, _) => {
            let inner = write_forest(pen, way, children);
            write_node(pen, way, inner, tree)
        }
        _ => pen.write_itself(tree, TREE),
    }
}

/// From a forest to its parts in a row, or back.
#[cycle(sides)]
pub(crate) fn write_forest(pen: &mut Pen, way: Way, forest: &Formula) -> u32
    requires ready { IsPen pen.old }
    ensures written { Pens (plans.from_alone (way_of way)
        (plans.forest_plan (way_of way) (formula_of forest.now) (model.empty sorts.forest))
        (formula_of forest.now)) pen.old pen.new result }
    ensures ready { IsPen pen.new }
{
    if pen.has_stopped() {
        return 0;
    }
    let Ok(pair) = ended_and_absorbed(pen.alloc, forest) else {
        return pen.refuse();
    };
    let (ended, row) = (&pair.first, &pair.second);
    match way {
        Way::Onward => {
            let first = pen.write_law(Way::Backward, Law::StarUnit, ended, forest, FOREST);
            let second = take_parts(pen, way, forest, &Formula::EmptyForest);
            pen.write("cut", &[first, second], forest, row, FOREST)
        }
        Way::Backward => {
            let first = take_parts(pen, way, forest, &Formula::EmptyForest);
            let second = pen.write_law(Way::Onward, Law::StarUnit, ended, forest, FOREST);
            pen.write("cut", &[first, second], row, forest, FOREST)
        }
    }
}

// From a forest in front of a row to the row with its parts in front, or back.
#[cycle(sides)]
fn take_parts(pen: &mut Pen, way: Way, forest: &Formula, rest: &Formula) -> u32
    requires ready { IsPen pen.old }
    ensures written { Pens
        (plans.forest_plan (way_of way) (formula_of forest.now) (formula_of rest.now))
        pen.old pen.new result }
    ensures ready { IsPen pen.new }
{
    match forest {
        Formula::EmptyForest => take_none(pen, way, rest),
        Formula::Join(Side::Whole, first, second) => take_both(pen, way, first, second, rest),
        Formula::One(tree) => take_tree(pen, way, tree, rest),
        _ => take_whole(pen, forest, rest),
    }
}

// The same for the forest of a tree.
#[cycle(sides)]
fn take_tree(pen: &mut Pen, way: Way, tree: &Formula, rest: &Formula) -> u32
    requires ready { IsPen pen.old }
    ensures written { Pens (plans.forest_plan (way_of way)
        (model.one_tree (formula_of tree.now)) (formula_of rest.now))
        pen.old pen.new result }
    ensures ready { IsPen pen.new }
{
    let inner = write_tree(pen, way, tree);
    let first = write_alone(pen, way, inner, tree);
    let second = pen.write_itself(rest, FOREST);
    write_leading(pen, way, first, second, tree, rest)
}

// The same for two forests in a row.
#[cycle(sides)]
fn take_both(pen: &mut Pen, way: Way, first: &Formula, second: &Formula, rest: &Formula) -> u32
    requires ready { IsPen pen.old }
    ensures written { Pens (plans.forest_plan (way_of way)
        (model.concatenation model.whole (formula_of first.now) (formula_of second.now))
        (formula_of rest.now)) pen.old pen.new result }
    ensures ready { IsPen pen.new }
{
    if pen.has_stopped() {
        return 0;
    }
    let Ok(stages) = stages_of(pen.alloc, first, second, rest) else {
        return pen.refuse();
    };
    let (start, middle, end) = (&stages.start, &stages.middle, &stages.end);
    match way {
        Way::Onward => {
            let grouped = pen.write_law(way, Law::StarAssoc, start, middle, FOREST);
            let taken = take_each(pen, way, first, second, rest, &stages);
            pen.write("cut", &[grouped, taken], start, end, FOREST)
        }
        Way::Backward => {
            let taken = take_each(pen, way, first, second, rest, &stages);
            let grouped = pen.write_law(way, Law::StarAssoc, start, middle, FOREST);
            pen.write("cut", &[taken, grouped], end, start, FOREST)
        }
    }
}

// The second of them is taken in, and then the first.
#[cycle(sides)]
fn take_each(
    pen: &mut Pen,
    way: Way,
    first: &Formula,
    second: &Formula,
    rest: &Formula,
    stages: &Stages,
) -> u32
    requires ready { IsPen pen.old }
    ensures written { Pens (by_way_of (way_of way)
        (beside (way_of way) (codes "mono_star")
        (itself (formula_of first.now) (shape sorts.forest))
        (plans.forest_plan (way_of way) (formula_of second.now) (formula_of rest.now))
        (formula_of stages.now.middle) (formula_of stages.now.next) (shape sorts.forest))
        (plans.forest_plan (way_of way) (formula_of first.now) (formula_of stages.now.rest))
        (formula_of stages.now.middle) (formula_of stages.now.end) (shape sorts.forest))
        pen.old pen.new result }
    ensures ready { IsPen pen.new }
{
    match way {
        Way::Onward => {
            let inner = take_second(pen, way, first, second, rest, stages);
            let outer = take_parts(pen, way, first, &stages.rest);
            pen.write("cut", &[inner, outer], &stages.middle, &stages.end, FOREST)
        }
        Way::Backward => {
            let outer = take_parts(pen, way, first, &stages.rest);
            let inner = take_second(pen, way, first, second, rest, stages);
            pen.write("cut", &[outer, inner], &stages.end, &stages.middle, FOREST)
        }
    }
}

// The second of them is taken in, beside the first.
#[cycle(sides)]
fn take_second(
    pen: &mut Pen,
    way: Way,
    first: &Formula,
    second: &Formula,
    rest: &Formula,
    stages: &Stages,
) -> u32
    requires ready { IsPen pen.old }
    ensures written { Pens
        (beside (way_of way) (codes "mono_star")
        (itself (formula_of first.now) (shape sorts.forest))
        (plans.forest_plan (way_of way) (formula_of second.now) (formula_of rest.now))
        (formula_of stages.now.middle) (formula_of stages.now.next) (shape sorts.forest))
        pen.old pen.new result }
    ensures ready { IsPen pen.new }
{
    let kept = pen.write_itself(first, FOREST);
    let taken = take_parts(pen, way, second, rest);
    let (from, to) = (&stages.middle, &stages.next);
    pen.write_so(way, "mono_star", &[kept, taken], from, to, FOREST)
}
