// The assistant that looks at conjuncts.
ghost use Rattle.std.specs.Prelude.{◌≡◌, ◌≤◌, ◌<◌, IfOk, map};
ghost use Rattle.model_formulas.specs.Nameless.{nameless};
ghost use Rattle.model_formulas.specs.Parts.{parts};
ghost use Rattle.model_files.specs.Sizes.{JudgementIsSmall};
ghost use Rattle.assistant_laws.specs.Conjuncts.{has_conjuncts_of};
ghost use Rattle.assistant_laws.specs.ConjunctPlans as plans;
ghost use Rattle.assistant_laws.specs.ConjunctPlans.{plan_by_conjuncts};
ghost use Rattle.dom_terms.specs.Sorts.{sort_of};
ghost use Rattle.formula_syntax.specs.Formulas.{formula_of};
ghost use Rattle.theory_syntax.specs.Judgements.{judgement_of, step_of};
ghost use Rattle.step_filler.specs.Drafts.{IsReady, WritesPlan};
ghost use Rattle.step_filler.specs.Offered.{offered};
ghost use Rattle.step_filler.specs.Given.{offer_of, given_by};

use crate::drafts::{Draft, Stop};
use crate::fillers::Filler;
use crate::same_forms::is_same;
use dom_terms::{OutOfMemory, Sort};
use formula_syntax::{Entailment, Formula};
use std::alloc::Global;
use theory_syntax::{Judgement, Step, Steps};

// Whether the target is a conjunct of the formula.
#[tactic(auto, using(crate::proofs::Conjuncts::either_side, crate::proofs::Conjuncts::alone))]
fn has_conjunct(alloc: Global, formula: &Formula, target: &Formula) -> bool
    requires formula { parts (formula_of formula.now) < 4294967295 }
    requires target { parts (formula_of target.now) < 4294967295 }
    ensures { result ≡ plans.has_conjunct (formula_of formula.now) (formula_of target.now) }
{
    match formula {
        Formula::And(left, right) => {
            has_conjunct(alloc, left, target) || has_conjunct(alloc, right, target)
        }
        _ => is_same(alloc, target, formula),
    }
}

// Whether each conjunct of the right formula is `true` or one of the left.
fn has_conjuncts_of(alloc: Global, left: &Formula, right: &Formula) -> bool
    requires left { parts (formula_of left.now) < 4294967295 }
    requires right { parts (formula_of right.now) < 4294967295 }
    ensures { result
        ≡ has_conjuncts_of (nameless (formula_of left.now)) (nameless (formula_of right.now)) }
{
    match right {
        Formula::And(p, q) => has_conjuncts_of(alloc, left, p) && has_conjuncts_of(alloc, left, q),
        Formula::True => true,
        _ => has_conjunct(alloc, left, right),
    }
}

// From the formula to its conjunct.
fn reach(
    alloc: Global,
    draft: &mut Draft,
    formula: &Formula,
    target: &Formula,
    sort: Sort,
) -> Result<u32, Stop>
    requires formula { parts (formula_of formula.now) < 4294967295 }
    requires target { parts (formula_of target.now) < 4294967295 }
    requires ready { IsReady draft.old }
    ensures { WritesPlan
        (plans.reach (sort_of sort) (formula_of formula.now) (formula_of target.now))
        draft.old draft.new result }
{
    let Formula::And(left, right) = formula else {
        return draft.write(alloc, "id", &[], formula, target, sort);
    };
    let (left, right) = (&**left, &**right);
    if has_conjunct(alloc, left, target) {
        let first = draft.write(alloc, "and_left", &[], formula, left, sort)?;
        let second = reach(alloc, draft, left, target, sort)?;
        return draft.write(alloc, "cut", &[first, second], formula, target, sort);
    }
    let first = draft.write(alloc, "and_right", &[], formula, right, sort)?;
    let second = reach(alloc, draft, right, target, sort)?;
    draft.write(alloc, "cut", &[first, second], formula, target, sort)
}

// From the left formula to each conjunct of the right one.
fn gather(
    alloc: Global,
    draft: &mut Draft,
    left: &Formula,
    right: &Formula,
    sort: Sort,
) -> Result<u32, Stop>
    requires left { parts (formula_of left.now) < 4294967295 }
    requires right { parts (formula_of right.now) < 4294967295 }
    requires ready { IsReady draft.old }
    ensures { WritesPlan
        (plans.gather (sort_of sort) (formula_of left.now) (formula_of right.now))
        draft.old draft.new result }
{
    match right {
        Formula::And(p, q) => {
            let (p, q) = (&**p, &**q);
            let first = gather(alloc, draft, left, p, sort)?;
            let second = gather(alloc, draft, left, q, sort)?;
            draft.write(alloc, "and_in", &[first, second], left, right, sort)
        }
        Formula::True => draft.write(alloc, "true_in", &[], left, right, sort),
        _ => reach(alloc, draft, left, right, sort),
    }
}

// The steps for an entailment that is obvious.
fn steps_for(alloc: Global, number: u32, asked: &Entailment) -> Result<Steps, OutOfMemory>
    requires left { parts (formula_of asked.now.left) < 4294967295 }
    requires right { parts (formula_of asked.now.right) < 4294967295 }
    requires number { number ≤ 4000000000 }
    ensures { IfOk result (λ steps. map step_of steps ≡ given_by number
        (plans.gather (sort_of asked.now.sort) (formula_of asked.now.left)
        (formula_of asked.now.right))) }
{
    let mut draft = Draft::new(alloc, number);
    let written = gather(alloc, &mut draft, &asked.left, &asked.right, asked.sort);
    draft.finish(written)
}

// What is offered for the judgement.
fn offer(alloc: Global, number: u32, judgement: &Judgement) -> Result<Option<Steps>, OutOfMemory>
    requires small { JudgementIsSmall (judgement_of judgement.now) }
    requires number { number ≤ 4000000000 }
    ensures { IfOk result (λ steps. offered steps
        ≡ offer_of (plan_by_conjuncts (judgement_of judgement.now)) number) }
{
    let Judgement::Entails(asked) = judgement else {
        return Ok(None);
    };
    if has_conjuncts_of(alloc, &asked.left, &asked.right) {
        return Ok(Some(steps_for(alloc, number, asked)?));
    }
    Ok(None)
}

/// Proves that a formula entails what is made of its conjuncts.
#[derive(Debug, Drop)]
pub struct Conj {
    /// How often it was asked.
    pub turn: u64,
}

impl Conj {
    /// One that was never asked.
    pub fn new() -> Self
        ensures { result.turn ≡ 0 }
    {
        Conj { turn: 0 }
    }
}

impl Filler for Conj {
    ghost turn = { λ filler. filler.turn };

    ghost offers = { λ filler turn number judgement earlier.
        offer_of (plan_by_conjuncts judgement) number };

    fn propose(
        &mut self,
        alloc: Global,
        number: u32,
        judgement: &Judgement,
        _earlier: &[Step],
    ) -> Result<Option<Steps>, OutOfMemory> {
        let offer = offer(alloc, number, judgement)?;
        self.turn = self.turn.saturating_add(1);
        Ok(offer)
    }
}
