// The order of roots: from a row of roots to another one that has the same.
ghost use Rattle.std.specs.Prelude.{◌≡◌, ◌<◌, IfOk, codes};
ghost use Rattle.model_shapes.specs.Sorts.{shape, grove};
ghost use Rattle.model_formulas.specs.Formulas as model;
ghost use Rattle.model_formulas.specs.Parts.{parts};
ghost use Rattle.model_commands.specs.Theories.{entails};
ghost use Rattle.assistant_laws.specs.Plans.{alone};
ghost use Rattle.formula_syntax.specs.Formulas.{formula_of};
ghost use Rattle.step_filler.specs.Pens.{IsPen, Pens, PensOne};
ghost use Rattle.step_filler.specs.Roots as rows;
ghost use Rattle.step_filler.specs.Roots.{IsArranged};

use crate::forms::summed;
use crate::pens::Pen;
use crate::root_sides::sum;
use crate::same_forms::{is_same, without_root};
use dom_terms::{Copied, DataSort, OutOfMemory, Sort, with};
use formula_syntax::Formula;
use std::alloc::Global;

const GROVE: Sort = Sort::Shape(DataSort::Grove);

// Two roots in an order, and others after them.
#[derive(Drop)]
struct Arranged {
    // The two.
    pair: Formula,
    // The two together beside the others.
    grouped: Formula,
    // Each in the row of those after it.
    row: Formula,
}

// What a root passes on its way to the front.
#[derive(Drop)]
struct Passage {
    // The others.
    rest: Formula,
    // The roots as they stand.
    before: Arranged,
    // The same once the one has passed the other.
    after: Arranged,
}

// Two roots in front of others.
fn row_of_two(
    alloc: Global,
    first: &Formula,
    second: &Formula,
    rest: &Formula,
) -> Result<Formula, OutOfMemory>
    ensures { IfOk result (λ row. formula_of row ≡ model.grove_sum (formula_of first.now)
        (model.grove_sum (formula_of second.now) (formula_of rest.now))) }
{
    let (rest, first) = with(sum(alloc, second, rest)?, first.copy(alloc))?;
    summed(alloc, first, rest)
}

// The two roots and the others.
fn arrange(
    alloc: Global,
    first: &Formula,
    second: &Formula,
    rest: &Formula,
) -> Result<Arranged, OutOfMemory>
    ensures { IfOk result (λ these. IsArranged (formula_of first.now) (formula_of second.now)
        (formula_of rest.now) these) }
{
    let pair = sum(alloc, first, second)?;
    let grouped = sum(alloc, &pair, rest);
    let (pair, grouped) = with(pair, grouped)?;
    let ((pair, grouped), row) = with((pair, grouped), row_of_two(alloc, first, second, rest))?;
    Ok(Arranged { pair, grouped, row })
}

// Both orders of the two roots.
fn arrange_both(
    alloc: Global,
    first: &Formula,
    root: &Formula,
    rest: &Formula,
) -> Result<(Arranged, Arranged), OutOfMemory>
    ensures before { IfOk result (λ both. IsArranged (formula_of first.now) (formula_of root.now)
        (formula_of rest.now) both.0) }
    ensures after { IfOk result (λ both. IsArranged (formula_of root.now) (formula_of first.now)
        (formula_of rest.now) both.1) }
{
    with(
        arrange(alloc, first, root, rest)?,
        arrange(alloc, root, first, rest),
    )
}

// What the root passes where the first of the row isn't it.
fn passage_of(
    alloc: Global,
    first: &Formula,
    root: &Formula,
    others: &Formula,
) -> Result<Passage, OutOfMemory>
    requires root { parts (formula_of root.now) < 4294967295 }
    requires others { parts (formula_of others.now) < 4294967295 }
    ensures rest { IfOk result (λ passage. formula_of passage.rest
        ≡ rows.without_root (formula_of others.now) (formula_of root.now)) }
    ensures before { IfOk result (λ passage. IsArranged (formula_of first.now)
        (formula_of root.now) (formula_of passage.rest) passage.before) }
    ensures after { IfOk result (λ passage. IsArranged (formula_of root.now)
        (formula_of first.now) (formula_of passage.rest) passage.after) }
{
    let rest = without_root(alloc, others, root)?;
    let both = arrange_both(alloc, first, root, &rest);
    let (rest, (before, after)) = with(rest, both)?;
    Ok(Passage {
        rest,
        before,
        after,
    })
}

// From the one order of two roots to the other.
fn write_exchange(pen: &mut Pen, passage: &Passage) -> u32
    requires ready { IsPen pen.old }
    ensures written { (p q : model.Named)
        → IsArranged p q (formula_of passage.now.rest) passage.now.before
        → IsArranged q p (formula_of passage.now.rest) passage.now.after
        → Pens (rows.exchange p q (formula_of passage.now.rest)) pen.old pen.new result }
    ensures ready { IsPen pen.new }
{
    let (before, after) = (&passage.before, &passage.after);
    let apart = pen.write("plus_assoc_back", &[], &before.row, &before.grouped, GROVE);
    let pair = pen.write("plus_comm", &[], &before.pair, &after.pair, GROVE);
    let rest = pen.write_itself(&passage.rest, GROVE);
    let turned = pen.write(
        "mono_plus",
        &[pair, rest],
        &before.grouped,
        &after.grouped,
        GROVE,
    );
    let together = pen.write("plus_assoc", &[], &after.grouped, &after.row, GROVE);
    let last = pen.write(
        "cut",
        &[turned, together],
        &before.grouped,
        &after.row,
        GROVE,
    );
    pen.write("cut", &[apart, last], &before.row, &after.row, GROVE)
}

// From a row whose first is the root to the root in front of the others.
fn write_first(pen: &mut Pen, root: &Formula, row: &Formula, others: &Formula) -> u32
    requires ready { IsPen pen.old }
    ensures written { Pens (alone (codes "id") (entails (formula_of row.now)
        (model.grove_sum (formula_of root.now) (formula_of others.now)) (shape grove)))
        pen.old pen.new result }
    ensures ready { IsPen pen.new }
{
    match sum(pen.alloc, root, others) {
        Ok(with_root) => pen.write("id", &[], row, &with_root, GROVE),
        Err(OutOfMemory) => pen.refuse(),
    }
}

// From a row to the same with the root in front.
fn to_front(pen: &mut Pen, root: &Formula, row: &Formula) -> u32
    requires root { parts (formula_of root.now) < 4294967295 }
    requires row { parts (formula_of row.now) < 4294967295 }
    requires ready { IsPen pen.old }
    ensures written { Pens (rows.front_plan (formula_of root.now) (formula_of row.now))
        pen.old pen.new result }
    ensures ready { IsPen pen.new }
{
    if pen.has_stopped() {
        return 0;
    }
    let Formula::Plus(first, others) = row else {
        return pen.write_itself(&Formula::EmptyGrove, GROVE);
    };
    let (first, others) = (&**first, &**others);
    if is_same(pen.alloc, root, first) {
        return write_first(pen, root, row, others);
    }
    let itself = pen.write_itself(first, GROVE);
    let inner = to_front(pen, root, others);
    if pen.has_stopped() {
        return 0;
    }
    let Ok(passage) = passage_of(pen.alloc, first, root, others) else {
        return pen.refuse();
    };
    let outer = pen.write(
        "mono_plus",
        &[itself, inner],
        row,
        &passage.before.row,
        GROVE,
    );
    let exchange = write_exchange(pen, &passage);
    pen.write("cut", &[outer, exchange], row, &passage.after.row, GROVE)
}

// The others of the row are in order, and so is the row once the root is put in front of them.
fn write_rest(pen: &mut Pen, cited: [u32; 2], root: &Formula, rest: &Formula, to: &Formula) -> u32
    requires ready { IsPen pen.old }
    ensures written { PensOne (codes "mono_plus") cited (entails
        (model.grove_sum (formula_of root.now) (formula_of rest.now)) (formula_of to.now)
        (shape grove)) pen.old pen.new result }
    ensures ready { IsPen pen.new }
{
    if pen.has_stopped() {
        return 0;
    }
    match sum(pen.alloc, root, rest) {
        Ok(from) => pen.write("mono_plus", &cited, &from, to, GROVE),
        Err(OutOfMemory) => pen.refuse(),
    }
}

/// From a row to the other, which has the same roots.
pub(crate) fn put_in_order(pen: &mut Pen, from: &Formula, to: &Formula) -> u32
    requires from { parts (formula_of from.now) < 4294967295 }
    requires to { parts (formula_of to.now) < 4294967295 }
    requires ready { IsPen pen.old }
    ensures written { Pens (rows.order_plan (formula_of from.now) (formula_of to.now))
        pen.old pen.new result }
    ensures ready { IsPen pen.new }
{
    if pen.has_stopped() {
        return 0;
    }
    let Formula::Plus(root, others) = to else {
        return pen.write("id", &[], from, &Formula::EmptyGrove, GROVE);
    };
    let (root, others) = (&**root, &**others);
    let first = to_front(pen, root, from);
    let Ok(rest) = without_root(pen.alloc, from, root) else {
        return pen.refuse();
    };
    let itself = pen.write_itself(root, GROVE);
    let order = put_in_order(pen, &rest, others);
    let second = write_rest(pen, [itself, order], root, &rest, to);
    pen.write("cut", &[first, second], from, to, GROVE)
}
