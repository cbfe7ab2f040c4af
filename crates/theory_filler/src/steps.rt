// One step of a proof: a written one is renumbered and checked, and a gap is filled.
ghost use Rattle.std.specs.Prelude as plain;
ghost use Rattle.std.specs.Prelude.{◌≡◌, ◌≤◌, ◌+◌, true, length, IfErr, OnOk};
ghost use Rattle.model_commands.specs.Theories.{auto};
ghost use Rattle.model_files.specs.FileFaults.{judgement_sorted};
ghost use Rattle.model_files.specs.Sizes.{JudgementIsSmall, TheoryIsSmall};
ghost use Rattle.model_filling.specs.Offers.{Voice};
ghost use Rattle.theory_syntax.specs.Judgements.{judgement_of, reason_of, step_of};
ghost use Rattle.theory_syntax.specs.Theories.{theory_of};
ghost use Rattle.theory_filler.specs.Answers.{OfProcedure, WereAsked};
ghost use Rattle.theory_filler.specs.Faults.{Told};
ghost use Rattle.theory_filler.specs.Walks.{IsOrderly, StepLeads, StepFails};

use crate::faults::FillFault;
use crate::fillers::Fillers;
use dom_terms::{List, Verdict};
use formula_table::Table;
use gap_filling::{FilledGap, renumbered};
use hoare_kernel::check_step_in;
use std::alloc::Global;
use theory_syntax::{Reason, Step, Steps, Theory};

/// A proof as far as it is filled.
#[derive(Drop)]
pub(crate) struct Walked {
    /// Its steps.
    pub(crate) steps: Steps,
    /// The gaps that were filled in it, in their order.
    pub(crate) gaps: List<FilledGap>,
}

// Puts a written step, renumbered, at the end of the proof, if it is an instance there.
fn add_written(
    alloc: Global,
    table: &mut Table,
    theory: &Theory,
    procedure: u32,
    walked: &mut Walked,
    step: &Step,
) -> Result<(), FillFault>
    requires theory { TheoryIsSmall (theory_of theory.now) }
    requires walked { IsOrderly walked.old step.now.number }
    requires within { step.now.number ≤ 65535 }
    requires small { JudgementIsSmall (judgement_of step.now.judgement) }
    requires sorted { judgement_sorted (judgement_of step.now.judgement) ≡ true }
    requires reason { reason_of step.now.reason ≡ auto → ⊥ }
    ensures orderly { OnOk result (IsOrderly walked.new (step.now.number + 1)) }
    ensures leads { OfProcedure (theory_of theory.now) procedure (λ f. OnOk result
        ((voices : plain.List Voice) → StepLeads (theory_of theory.now) f walked.old voices
        (step_of step.now) walked.new voices)) }
    ensures bad { OfProcedure (theory_of theory.now) procedure (λ f. (voices : plain.List Voice)
        → IfErr result (Told (StepFails (theory_of theory.now) f walked.old voices
        (step_of step.now) procedure))) }
{
    let new = renumbered(alloc, walked.gaps.as_slice(), step)?;
    let verdict = check_step_in(alloc, table, theory, walked.steps.as_slice(), &new)?;
    match verdict {
        Verdict::Instance => {
            walked.steps.push(new)?;
            Ok(())
        }
        Verdict::Shape | Verdict::Premises | Verdict::Side(_) => {
            Err(FillFault::Fails {
                procedure,
                step: step.number,
                verdict,
            })
        }
    }
}

// Puts the steps that are offered for a gap at the end of the proof.
fn fill_gap<F: Fillers>(
    alloc: Global,
    table: &mut Table,
    theory: &Theory,
    procedure: u32,
    fillers: &mut F,
    walked: &mut Walked,
    step: &Step,
) -> Result<(), FillFault>
    requires theory { TheoryIsSmall (theory_of theory.now) }
    requires first { 1 ≤ procedure }
    requires last { procedure ≤ length theory.now.procedures }
    requires walked { IsOrderly walked.old step.now.number }
    requires within { step.now.number ≤ 65535 }
    requires small { JudgementIsSmall (judgement_of step.now.judgement) }
    requires sorted { judgement_sorted (judgement_of step.now.judgement) ≡ true }
    requires reason { reason_of step.now.reason ≡ auto }
    ensures orderly { OnOk result (IsOrderly walked.new (step.now.number + 1)) }
    ensures leads { OfProcedure (theory_of theory.now) procedure (λ f. OnOk result
        (StepLeads (theory_of theory.now) f walked.old (F.voices fillers.old)
        (step_of step.now) walked.new (F.voices fillers.new))) }
    ensures bad { OfProcedure (theory_of theory.now) procedure (λ f. IfErr result
        (Told (StepFails (theory_of theory.now) f walked.old (F.voices fillers.old)
        (step_of step.now) procedure))) }
    ensures asked { WereAsked (F.voices fillers.old) (F.voices fillers.new) }
{
    let before = walked.steps.len();
    let proof = &mut walked.steps;
    if !fillers.ask(alloc, table, theory, procedure, proof, &step.judgement)? {
        return Err(FillFault::Gap {
            procedure,
            step: step.number,
        });
    }
    let more = (walked.steps.len() - before - 1) as u32;
    let number = step.number;
    walked.gaps.push(FilledGap { number, more })?;
    Ok(())
}

/// Puts what comes of a step of a proof at the end of the filled one.
pub(crate) fn add_step<F: Fillers>(
    alloc: Global,
    table: &mut Table,
    theory: &Theory,
    procedure: u32,
    fillers: &mut F,
    walked: &mut Walked,
    step: &Step,
) -> Result<(), FillFault>
    requires theory { TheoryIsSmall (theory_of theory.now) }
    requires first { 1 ≤ procedure }
    requires last { procedure ≤ length theory.now.procedures }
    requires walked { IsOrderly walked.old step.now.number }
    requires within { step.now.number ≤ 65535 }
    requires small { JudgementIsSmall (judgement_of step.now.judgement) }
    requires sorted { judgement_sorted (judgement_of step.now.judgement) ≡ true }
    ensures orderly { OnOk result (IsOrderly walked.new (step.now.number + 1)) }
    ensures leads { OfProcedure (theory_of theory.now) procedure (λ f. OnOk result
        (StepLeads (theory_of theory.now) f walked.old (F.voices fillers.old)
        (step_of step.now) walked.new (F.voices fillers.new))) }
    ensures bad { OfProcedure (theory_of theory.now) procedure (λ f. IfErr result
        (Told (StepFails (theory_of theory.now) f walked.old (F.voices fillers.old)
        (step_of step.now) procedure))) }
    ensures asked { WereAsked (F.voices fillers.old) (F.voices fillers.new) }
{
    match &step.reason {
        Reason::Auto => fill_gap(alloc, table, theory, procedure, fillers, walked, step),
        Reason::Rule { .. } => add_written(alloc, table, theory, procedure, walked, step),
    }
}
