// Steps with the numbers that they have once gaps before them are filled.
ghost use Rattle.std.specs.Prelude.{◌≡◌, IfOk, map};
ghost use Rattle.model_filling.specs.Renumbering as filling;
ghost use Rattle.theory_syntax.specs.Judgements.{reason_of, step_of};
ghost use Rattle.gap_filling.specs.Renumbered.{held, held_reason, held_step, gap_of};
ghost use Rattle.gap_filling.specs.Renumbered.{HaveSameVerdicts};

use dom_terms::{Copied, Numbers, OutOfMemory, with};
use std::alloc::Global;
use theory_syntax::{Reason, Step};

/// A gap that is filled.
#[derive(Clone, Copy, Debug)]
pub struct FilledGap {
    /// Its number in the theory handed in.
    pub number: u32,
    /// By how many steps the proof grew.
    pub more: u32,
}

// The number of a step that stands after these gaps.
#[tactic(auto, using(crate::proofs::Sums::moved_rules))]
fn moved(gaps: &[FilledGap], number: u32) -> u32
    ensures { result ≡ held (filling.moved (map gap_of gaps.now) number) }
{
    let mut new = number;
    for gap in gaps {
        new = new.saturating_add(gap.more);
    }
    new
}

// The number that a citation has after these gaps.
#[tactic(auto, using(crate::proofs::Sums::raised_rules))]
fn raised(gaps: &[FilledGap], number: u32) -> u32
    ensures { result ≡ held (filling.raised (map gap_of gaps.now) number) }
{
    let mut new = number;
    for gap in gaps {
        if gap.number <= number {
            new = new.saturating_add(gap.more);
        }
    }
    new
}

// The citations of a step after these gaps.
fn raised_citations(
    alloc: Global,
    gaps: &[FilledGap],
    citations: &Numbers,
) -> Result<Numbers, OutOfMemory>
    ensures { IfOk result (λ new. new
        ≡ map held (map (filling.raised (map gap_of gaps.now)) citations.now)) }
{
    let mut new = Numbers::new(alloc);
    for citation in citations.as_slice() {
        new.push(raised(gaps, *citation))?;
    }
    Ok(new)
}

// The reason of a step after these gaps.
fn raised_reason(alloc: Global, gaps: &[FilledGap], reason: &Reason) -> Result<Reason, OutOfMemory>
    ensures { IfOk result (λ new. reason_of new ≡ held_reason
        (filling.raised_reason (map gap_of gaps.now) (reason_of reason.now))) }
{
    match reason {
        Reason::Auto => Ok(Reason::Auto),
        Reason::Rule {
            name,
            premises,
            arguments,
        } => {
            let cited = with(name.copy(alloc)?, raised_citations(alloc, gaps, premises))?;
            let ((name, premises), arguments) = with(cited, arguments.copy(alloc))?;
            Ok(Reason::Rule {
                name,
                premises,
                arguments,
            })
        }
    }
}

/// The step as it stands after these gaps: its number is raised by what each of them brought, and
/// each number that it cites by what those brought whose number isn't above it. Nothing else of it
/// changes. A number that would be above the greatest of 32 bits becomes that one. No step of a
/// proof that isn't as long has it, so the verdicts are those on the step with the greater numbers.
/// OutOfMemory comes only where memory is refused.
pub fn renumbered(alloc: Global, gaps: &[FilledGap], step: &Step) -> Result<Step, OutOfMemory>
    ensures exact { IfOk result (λ new. step_of new
        ≡ held_step (filling.renumbered (map gap_of gaps.now) (step_of step.now))) }
    ensures verdicts { IfOk result (λ new. HaveSameVerdicts (reason_of new.reason)
        (filling.raised_reason (map gap_of gaps.now) (reason_of step.now.reason))) }
{
    let reason = raised_reason(alloc, gaps, &step.reason)?;
    let (reason, judgement) = with(reason, step.judgement.copy(alloc))?;
    let (number, line) = (moved(gaps, step.number), step.line);
    Ok(Step {
        number,
        line,
        reason,
        judgement,
    })
}
