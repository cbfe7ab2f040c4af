// Gaps of proofs: what an assistant offers for one, and whether an offer may stand there.
ghost use Rattle.std.specs.Prelude.{◌≡◌, ◌≤◌, ◌<◌, true, length, IfOk};
ghost use Rattle.formula_syntax.specs.Formulas.{formula_of, side_of};
ghost use Rattle.model_formulas.specs.Formulas.{concatenation, empty};
ghost use Rattle.model_shapes.specs.Sorts.{forest};
ghost use Rattle.model_files.specs.FileFaults.{judgement_sorted};
ghost use Rattle.model_files.specs.Sizes.{JudgementIsSmall, TheoryIsSmall};
ghost use Rattle.theory_syntax.specs.Judgements.{judgement_of};
ghost use Rattle.theory_syntax.specs.Theories.{theory_of};

use crate::theories::{idle_theory, skip_step};
use dom_terms::{DataSort, OutOfMemory, Sort, with};
use formula_syntax::{Entailment, Formula, Side};
use formula_table::Table;
use gap_filling::{FilledGap, filled_limit, renumbered, take_usable};
use std::alloc::Global;
use std::process::Abort;
use std::test::Fail;
use step_filler::{Conj, Filler, Spot};
use theory_syntax::{Judgement, Steps, Theory};

const GROVE: Sort = Sort::Shape(DataSort::Grove);

// `(0g and true) entails 0g at g`
fn obvious(alloc: Global) -> Result<Judgement, OutOfMemory>
    ensures sorted { IfOk result (λ j. judgement_sorted (judgement_of j) ≡ true) }
    ensures small { IfOk result (λ j. JudgementIsSmall (judgement_of j)) }
{
    let empty = Box::new(alloc, Formula::EmptyGrove)?;
    let (empty, yes) = with(empty, Box::new(alloc, Formula::True))?;
    let (left, right) = (Formula::And(empty, yes), Formula::EmptyGrove);
    let sort = GROVE;
    Ok(Judgement::Entails(Entailment { left, right, sort }))
}

// A formula of the side, of the first part and `0f`.
fn beside(alloc: Global, side: Side, first: Formula) -> Result<Formula, OutOfMemory>
    ensures { IfOk result (λ p. formula_of p
        ≡ concatenation (side_of side) (formula_of first) (empty forest)) }
{
    let first = Box::new(alloc, first)?;
    let (first, second) = with(first, Box::new(alloc, Formula::EmptyForest))?;
    Ok(Formula::Join(side, first, second))
}

// `((?f .* 0f) @f 0f) entails (0f * 0f) at f`
fn filled(alloc: Global) -> Result<Judgement, OutOfMemory>
    ensures sorted { IfOk result (λ j. judgement_sorted (judgement_of j) ≡ true) }
    ensures small { IfOk result (λ j. JudgementIsSmall (judgement_of j)) }
{
    let context = beside(alloc, Side::HoleLeft, Formula::Hole(DataSort::Forest))?;
    let context = Box::new(alloc, context)?;
    let (context, part) = with(context, Box::new(alloc, Formula::EmptyForest))?;
    let left = Formula::App(DataSort::Forest, context, part);
    let (left, right) = with(left, beside(alloc, Side::Whole, Formula::EmptyForest))?;
    let sort = Sort::Shape(DataSort::Forest);
    Ok(Judgement::Entails(Entailment { left, right, sort }))
}

// `true entails 0g at g`
fn unproved() -> Judgement
    ensures sorted { judgement_sorted (judgement_of result) ≡ true }
    ensures small { JudgementIsSmall (judgement_of result) }
{
    let (left, right) = (Formula::True, Formula::EmptyGrove);
    let sort = GROVE;
    Judgement::Entails(Entailment { left, right, sort })
}

// The numbers of the steps that are offered: of the first and of the last.
fn numbers(offer: Option<Steps>) -> Option<(u32, u32)> {
    let steps = offer?;
    let numbers = match steps.as_slice() {
        [first, .., last] => Some((first.number, last.number)),
        _ => None,
    };
    drop(steps);
    numbers
}

#[test]
fn an_assistant_offers_steps_for_what_is_obvious(rt: HostRuntime) -> Result<(), Fail> {
    let alloc = rt.alloc();
    let mut conj = Conj::new();
    let asked = obvious(alloc)?;
    let offer = conj.propose(alloc, 4, &asked, &[]);
    drop(asked);
    assert_eq!(rt; (numbers(offer?), conj.turn), (Some((4, 6)), 1));
    let asked = unproved();
    let offer = conj.propose(alloc, 4, &asked, &[]);
    drop(asked);
    assert_eq!(rt; (numbers(offer?), conj.turn), (None, 2));
    let mut spot = Spot::new();
    let asked = filled(alloc)?;
    let offer = spot.propose(alloc, 4, &asked, &[]);
    drop(asked);
    assert_eq!(rt; (numbers(offer?), spot.turn), (Some((4, 8)), 1));
    Ok(())
}

// The steps of a proof of one step.
fn one_step(alloc: Global, rule: &str) -> Result<Steps, OutOfMemory> {
    let mut steps = Steps::new(alloc);
    steps.push(skip_step(alloc, rule)?)?;
    Ok(steps)
}

// Whether this step by the rule may stand in the place of a gap of its judgement in the theory.
fn is_taken(alloc: Global, theory: &Theory, rule: &str) -> Result<bool, OutOfMemory>
    requires small { TheoryIsSmall (theory_of theory.now) }
    requires some { 1 ≤ length theory.now.procedures }
{
    let (offer, gap) = with(one_step(alloc, rule)?, skip_step(alloc, rule))?;
    let mut proof = Steps::new(alloc);
    let mut table = Table::new(alloc);
    let taken = take_usable(
        alloc,
        &mut table,
        theory,
        1,
        &mut proof,
        &gap.judgement,
        offer,
    );
    drop((gap, proof, table));
    taken
}

// The number of a step after a gap that brought two steps.
fn later_number(alloc: Global) -> Result<u32, OutOfMemory> {
    let step = skip_step(alloc, "skip")?;
    let gap = FilledGap { number: 1, more: 2 };
    let later = renumbered(alloc, &[gap], &step);
    drop(step);
    let later = later?;
    let number = later.number;
    drop(later);
    Ok(number)
}

// Checks which steps may stand for a gap, and that the theory passes no limit.
fn check_filling(rt: &impl Abort, alloc: Global, theory: &Theory) -> Result<(), Fail>
    requires { TheoryIsSmall (theory_of theory.now) }
{
    assert!(rt; theory.procedures.len() == 1);
    assert!(rt; is_taken(alloc, theory, "skip")?);
    assert!(rt; !is_taken(alloc, theory, "assign")?);
    assert!(rt; filled_limit(alloc, theory)?.is_none());
    assert_eq!(rt; later_number(alloc)?, 3);
    Ok(())
}

#[test]
fn an_offer_is_taken_where_it_is_usable(rt: HostRuntime) -> Result<(), Fail> {
    let theory = idle_theory(rt.alloc())?;
    let answer = check_filling(&rt, rt.alloc(), &theory);
    drop(theory);
    answer
}
