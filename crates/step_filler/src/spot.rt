// The assistant that looks at fillings.
ghost use Rattle.std.specs.Prelude.{◌≡◌, ◌≤◌, ◌<◌, ◌+◌, ℕ, true, IfOk, IfSome, is_some, map};
ghost use Rattle.model_formulas.specs.Formulas.{Named};
ghost use Rattle.model_formulas.specs.Nameless.{nameless};
ghost use Rattle.model_formulas.specs.Parts.{parts};
ghost use Rattle.model_formulas.specs.SameFormulas as tests;
ghost use Rattle.model_commands.specs.Theories.{JudgementOf, Procedures, nameless_judgement};
ghost use Rattle.model_files.specs.FileFaults.{judgement_sorted};
ghost use Rattle.model_filling.specs.Sizes.{IsSized};
ghost use Rattle.assistant_laws.specs.Obvious.{is_obvious_by_filling};
ghost use Rattle.assistant_laws.specs.Proposals.{Proves};
ghost use Rattle.model_files.specs.Sizes.{JudgementIsSmall};
ghost use Rattle.assistant_laws.specs.Fillings.{filling, fills, shows_its_hole};
ghost use Rattle.assistant_laws.specs.FillingPlans.{plan_by_filling, plan_of_application};
ghost use Rattle.dom_terms.specs.Sorts.{data_sort_of};
ghost use Rattle.formula_syntax.specs.Formulas.{formula_of};
ghost use Rattle.theory_syntax.specs.Judgements.{judgement_of, step_of};
ghost use Rattle.step_filler.specs.Drafts.{IsReady, WritesPlan};
ghost use Rattle.step_filler.specs.Layers.{way_of};
ghost use Rattle.step_filler.specs.Offered.{offered};
ghost use Rattle.step_filler.specs.Given.{given_by, offer_of};

use crate::drafts::{Draft, Stop};
use crate::fillers::Filler;
use crate::layers::{Filling, Way, fill, filled};
use crate::same_forms::is_same;
use assistant_laws::what_is_obvious_by_filling_is_proved;
use dom_terms::{Copied, DataSort, OutOfMemory, Sort, same_data_sort};
use formula_syntax::{Formula, Side};
use std::alloc::Global;
use theory_syntax::{Judgement, Step, Steps};

// Whether the context formula is built round one hole of the sort, which is in sight.
fn shows_its_hole(hole: DataSort, context: &Formula) -> bool
    ensures { result
        ≡ shows_its_hole (data_sort_of hole) (nameless (formula_of context.now)) }
{
    match context {
        Formula::Hole(sort) => same_data_sort(hole, *sort),
        Formula::Node(_, _, part, _)
        | Formula::One(part)
        | Formula::Root(part)
        | Formula::Join(Side::HoleLeft, part, _)
        | Formula::Join(Side::HoleRight, _, part)
        | Formula::PlusHole(part, _) => shows_its_hole(hole, part),
        _ => false,
    }
}

// Whether the formula is the filling of the context.
fn is_filling(
    alloc: Global,
    filler: &Formula,
    context: &Formula,
    formula: &Formula,
) -> Result<bool, OutOfMemory>
    requires small { parts (formula_of filler.now) + parts (formula_of context.now) < 4294967295 }
    requires formula { parts (formula_of formula.now) < 4294967295 }
    ensures { IfOk result (λ same. same ≡ tests.same_formula
        (filling (nameless (formula_of filler.now)) (nameless (formula_of context.now)))
        (nameless (formula_of formula.now))) }
{
    let filling = filled(alloc, filler, context)?;
    Ok(is_same(alloc, &filling, formula))
}

// Whether the first formula is an application, and the second the filling of its context.
fn fills(alloc: Global, from: &Formula, to: &Formula) -> Result<bool, OutOfMemory>
    requires from { parts (formula_of from.now) < 4294967295 }
    requires to { parts (formula_of to.now) < 4294967295 }
    ensures { IfOk result (λ filled. filled
        ≡ fills (nameless (formula_of from.now)) (nameless (formula_of to.now))) }
{
    let Formula::App(hole, context, filler) = from else {
        return Ok(false);
    };
    if !shows_its_hole(*hole, context) {
        return Ok(false);
    }
    is_filling(alloc, filler, context, to)
}

// From the application to the filling of its context, or back.
fn write_application(
    alloc: Global,
    draft: &mut Draft,
    way: Way,
    application: &Formula,
) -> Result<u32, Stop>
    requires ready { IsReady draft.old }
    ensures { WritesPlan (plan_of_application (way_of way) (formula_of application.now))
        draft.old draft.new result }
{
    let Formula::App(hole, context, filler) = application else {
        let sort = Sort::Shape(DataSort::Tree);
        return draft.write(alloc, "id", &[], application, application, sort);
    };
    let filler = filler.copy(alloc)?;
    let hole = *hole;
    fill(alloc, draft, &Filling { way, hole, filler }, context)
}

// The steps for it.
fn steps_for(
    alloc: Global,
    number: u32,
    way: Way,
    application: &Formula,
) -> Result<Steps, OutOfMemory>
    requires number { number ≤ 4000000000 }
    ensures { IfOk result (λ steps. map step_of steps ≡ given_by number
        (plan_of_application (way_of way) (formula_of application.now))) }
{
    let mut draft = Draft::new(alloc, number);
    let written = write_application(alloc, &mut draft, way, application);
    draft.finish(written)
}

// What is offered for the judgement.
fn offer(alloc: Global, number: u32, judgement: &Judgement) -> Result<Option<Steps>, OutOfMemory>
    requires small { JudgementIsSmall (judgement_of judgement.now) }
    requires number { number ≤ 4000000000 }
    ensures { IfOk result (λ steps. offered steps
        ≡ offer_of (plan_by_filling (judgement_of judgement.now)) number) }
{
    let Judgement::Entails(asked) = judgement else {
        return Ok(None);
    };
    let Sort::Shape(_) = asked.sort else {
        return Ok(None);
    };
    if fills(alloc, &asked.left, &asked.right)? {
        return Ok(Some(steps_for(alloc, number, Way::Onward, &asked.left)?));
    }
    if fills(alloc, &asked.right, &asked.left)? {
        return Ok(Some(steps_for(alloc, number, Way::Backward, &asked.right)?));
    }
    Ok(None)
}

/// Proves that an application entails the filling of its context, and the filling the application.
#[derive(Debug, Drop)]
pub struct Spot {
    /// How often it was asked.
    pub turn: u64,
}

impl Spot {
    /// One that was never asked.
    pub fn new() -> Self
        ensures { result.turn ≡ 0 }
    {
        Spot { turn: 0 }
    }
}

impl Filler for Spot {
    ghost turn = { λ filler. filler.turn };

    ghost offers = { λ filler turn number judgement earlier.
        offer_of (plan_by_filling judgement) number };

    fn propose(
        &mut self,
        alloc: Global,
        number: u32,
        judgement: &Judgement,
        _earlier: &[Step],
    ) -> Result<Option<Steps>, OutOfMemory> {
        let offer = offer(alloc, number, judgement)?;
        self.turn = self.turn.saturating_add(1);
        Ok(offer)
    }
}

/// By filling: steps are offered exactly where the judgement is obvious, and prove it wherever they
/// have the sizes of an offer and it is well sorted.
pub fn what_is_obvious_by_filling_is_offered()
    ensures exactly { (number : ℕ) (j : JudgementOf Named)
        → is_some (offer_of (plan_by_filling j) number)
        ≡ is_obvious_by_filling (nameless_judgement j) }
    ensures proved { (procedures : Procedures) (version number : ℕ) (j : JudgementOf Named)
        → judgement_sorted j ≡ true
        → IfSome (offer_of (plan_by_filling j) number) (λ steps. IsSized version steps
        → Proves procedures number (nameless_judgement j) steps) }
{
    what_is_obvious_by_filling_is_proved();
}
