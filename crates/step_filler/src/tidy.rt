// The assistant that looks at forms.
ghost use Rattle.std.specs.Prelude.{◌≡◌, ◌≤◌, ◌<◌, IfOk, map};
ghost use Rattle.model_shapes.specs.Sorts.{shape, tree, forest, grove};
ghost use Rattle.model_formulas.specs.Formulas.{empty};
ghost use Rattle.model_formulas.specs.Parts.{parts};
ghost use Rattle.model_files.specs.Sizes.{JudgementIsSmall};
ghost use Rattle.assistant_laws.specs.FormPlans.{absorbed_roots, form_plan, plan_by_form};
ghost use Rattle.dom_terms.specs.Sorts.{data_sort_of};
ghost use Rattle.formula_syntax.specs.Formulas.{formula_of};
ghost use Rattle.theory_syntax.specs.Judgements.{judgement_of, step_of};
ghost use Rattle.step_filler.specs.Given.{given_by, offer_of};
ghost use Rattle.step_filler.specs.Offered.{offered};
ghost use Rattle.step_filler.specs.Pens.{IsPen, Pens};

use crate::fillers::Filler;
use crate::forms::absorbed_roots;
use crate::pens::Pen;
use crate::root_sides::write_grove;
use crate::roots::put_in_order;
use crate::same_forms::{is_small, same_form};
use crate::sides::{write_forest, write_tree};
use crate::turns::Way;
use dom_terms::{DataSort, OutOfMemory, Sort, with};
use formula_syntax::{Entailment, Formula};
use std::alloc::Global;
use theory_syntax::{Judgement, Step, Steps};

const TREE: Sort = Sort::Shape(DataSort::Tree);

const FOREST: Sort = Sort::Shape(DataSort::Forest);

const GROVE: Sort = Sort::Shape(DataSort::Grove);

// From one tree to another, by the form of both.
fn write_trees(pen: &mut Pen, left: &Formula, right: &Formula) -> u32
    requires ready { IsPen pen.old }
    ensures written { Pens
        (form_plan (shape tree) (formula_of left.now) (formula_of right.now))
        pen.old pen.new result }
    ensures ready { IsPen pen.new }
{
    let first = write_tree(pen, Way::Onward, left);
    let second = write_tree(pen, Way::Backward, right);
    pen.write("cut", &[first, second], left, right, TREE)
}

// From one forest to another, by the form of both.
fn write_forests(pen: &mut Pen, left: &Formula, right: &Formula) -> u32
    requires ready { IsPen pen.old }
    ensures written { Pens
        (form_plan (shape forest) (formula_of left.now) (formula_of right.now))
        pen.old pen.new result }
    ensures ready { IsPen pen.new }
{
    let first = write_forest(pen, Way::Onward, left);
    let second = write_forest(pen, Way::Backward, right);
    pen.write("cut", &[first, second], left, right, FOREST)
}

// The row of the roots of a grove. One of too many parts counts as more than memory holds.
fn row(alloc: Global, roots: &Formula) -> Result<Formula, OutOfMemory>
    ensures row { IfOk result (λ row. formula_of row
        ≡ absorbed_roots (formula_of roots.now) (empty grove)) }
    ensures small { IfOk result (λ row. parts (formula_of row) < 4294967295) }
{
    let row = absorbed_roots(alloc, roots, Formula::EmptyGrove)?;
    if is_small(&row) {
        return Ok(row);
    }
    Err(OutOfMemory)
}

// The rows of both.
fn rows(alloc: Global, left: &Formula, right: &Formula) -> Result<(Formula, Formula), OutOfMemory>
    ensures left { IfOk result (λ rows. formula_of rows.0
        ≡ absorbed_roots (formula_of left.now) (empty grove)) }
    ensures right { IfOk result (λ rows. formula_of rows.1
        ≡ absorbed_roots (formula_of right.now) (empty grove)) }
    ensures left_small { IfOk result (λ rows. parts (formula_of rows.0) < 4294967295) }
    ensures right_small { IfOk result (λ rows. parts (formula_of rows.1) < 4294967295) }
{
    with(row(alloc, left)?, row(alloc, right))
}

// From one grove to another, by the roots of both.
fn write_groves(pen: &mut Pen, left: &Formula, right: &Formula) -> u32
    requires ready { IsPen pen.old }
    ensures written { Pens
        (form_plan (shape grove) (formula_of left.now) (formula_of right.now))
        pen.old pen.new result }
    ensures ready { IsPen pen.new }
{
    let first = write_grove(pen, Way::Onward, left);
    let Ok(both) = rows(pen.alloc, left, right) else {
        return pen.refuse();
    };
    let order = put_in_order(pen, &both.0, &both.1);
    let last = write_grove(pen, Way::Backward, right);
    let second = pen.write("cut", &[order, last], &both.0, right, GROVE);
    pen.write("cut", &[first, second], left, right, GROVE)
}

// From one formula to another, by the form of both.
fn write_forms(pen: &mut Pen, sort: DataSort, left: &Formula, right: &Formula) -> u32
    requires ready { IsPen pen.old }
    ensures written { Pens
        (form_plan (shape (data_sort_of sort)) (formula_of left.now) (formula_of right.now))
        pen.old pen.new result }
    ensures ready { IsPen pen.new }
{
    match sort {
        DataSort::Tree => write_trees(pen, left, right),
        DataSort::Forest => write_forests(pen, left, right),
        DataSort::Grove => write_groves(pen, left, right),
    }
}

// The steps for an entailment that is obvious.
fn steps_for(
    alloc: Global,
    number: u32,
    sort: DataSort,
    asked: &Entailment,
) -> Result<Steps, OutOfMemory>
    requires number { number ≤ 4000000000 }
    ensures { IfOk result (λ steps. map step_of steps ≡ given_by number
        (form_plan (shape (data_sort_of sort)) (formula_of asked.now.left)
        (formula_of asked.now.right))) }
{
    let mut pen = Pen::new(alloc, number);
    write_forms(&mut pen, sort, &asked.left, &asked.right);
    pen.finish()
}

// What is offered for the judgement.
fn offer(alloc: Global, number: u32, judgement: &Judgement) -> Result<Option<Steps>, OutOfMemory>
    requires number { number ≤ 4000000000 }
    ensures { IfOk result (λ steps. offered steps
        ≡ offer_of (plan_by_form (judgement_of judgement.now)) number) }
{
    let Judgement::Entails(asked) = judgement else {
        return Ok(None);
    };
    let Sort::Shape(sort) = asked.sort else {
        return Ok(None);
    };
    if same_form(alloc, asked.sort, &asked.left, &asked.right)? {
        return Ok(Some(steps_for(alloc, number, sort, asked)?));
    }
    Ok(None)
}

/// Proves that formulas with the same form entail each other. At grove the order of the roots
/// doesn't count.
#[derive(Debug, Drop)]
pub struct Tidy {
    /// How often it was asked.
    pub turn: u64,
}

impl Tidy {
    /// One that was never asked.
    pub fn new() -> Self
        ensures { result.turn ≡ 0 }
    {
        Tidy { turn: 0 }
    }
}

impl Filler for Tidy {
    ghost turn = { λ filler. filler.turn };

    ghost offers = { λ filler turn number judgement earlier.
        offer_of (plan_by_form judgement) number };

    fn propose(
        &mut self,
        alloc: Global,
        number: u32,
        judgement: &Judgement,
        _earlier: &[Step],
    ) -> Result<Option<Steps>, OutOfMemory> {
        let offer = offer(alloc, number, judgement)?;
        self.turn = self.turn.saturating_add(1);
        Ok(offer)
    }
}
