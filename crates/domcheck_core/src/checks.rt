// Checks of a file, over its bytes.
ghost use Rattle.std.specs.Prelude.{◌≡◌, ℕ, List, Some, IfOk};
ghost use Rattle.model_commands.specs.Theories.{auto};
ghost use Rattle.model_files.specs.FileFaults.{IsWellFormedTheory};
ghost use Rattle.model_files.specs.Sizes.{TheoryIsSmall};
ghost use Rattle.rule_table.specs.Accepted as bad;
ghost use Rattle.row_patterns.specs.Verdicts.{verdict_in};
ghost use Rattle.theory_syntax.specs.Judgements.{reason_of};
ghost use Rattle.theory_syntax.specs.Theories.{theory_of};
ghost use Rattle.domcheck_core.specs.Answers.{CheckAnswer, CheckVerdict, PlaceAnswer, item_numbered};
ghost use Rattle.domcheck_core.specs.Clauses.{IsSoundFile};
ghost use Rattle.domcheck_core.specs.Stands.{HasPlace, HasProcedure, HasStep, NamesRule};

use crate::file::read_file;
use crate::replies::{Reply, accepted, answered, reported};
use crate::status::Status;
use dom_terms::{Copied, OutOfMemory, Text};
use fault_report::Report;
use hoare_kernel::{Refusal, check_theory};
use std::alloc::Global;
use std::mem;
use theory_syntax::{Procedure, Reason, Step, Theory};

// The procedure of the number, counted from 1.
fn procedure_at<'a>(theory: &'a Theory, number: u32) -> &'a Procedure
    requires { HasProcedure theory.now number }
    ensures { item_numbered number theory.now.procedures ≡ Some result.now }
{
    let Some(procedure) = theory.procedures.get(number as usize - 1) else {
        unreachable!();
    };
    procedure
}

// A step of the procedure, counted from 1.
fn step_at<'a>(procedure: &'a Procedure, number: u32) -> &'a Step
    requires { HasStep procedure.now number }
    ensures { item_numbered number procedure.now.proof ≡ Some result.now }
{
    let Some(step) = procedure.proof.get(number as usize - 1) else {
        unreachable!();
    };
    step
}

// The name of the rule that the step names.
fn rule_at<'a>(step: &'a Step) -> &'a Text
    requires { reason_of step.now.reason ≡ auto → ⊥ }
    ensures { NamesRule (reason_of step.now.reason) result.now }
{
    let Reason::Rule { name, .. } = &step.reason else {
        unreachable!();
    };
    name
}

/// The answer to a bad place that is a gap: that step of that procedure, each counted from 1.
pub fn gap(alloc: Global, theory: &Theory, procedure: u32, step: u32) -> Result<Reply, OutOfMemory>
    requires { HasPlace theory.now procedure step bad.gap }
    ensures { IfOk result
        (λ r. PlaceAnswer (theory_of theory.now) procedure step bad.gap r.status r.output) }
{
    let procedure = procedure_at(theory, procedure);
    let step = step_at(procedure, step);
    let report = Report::GapLeft {
        step: step.number,
        procedure: procedure.name.copy(alloc)?,
        line: step.line,
    };
    reported(alloc, Status::GapLeft, report)
}

/// The answer to one that is a step with this verdict.
pub fn failure(
    alloc: Global,
    theory: &Theory,
    procedure: u32,
    step: u32,
    verdict: dom_terms::Verdict,
) -> Result<Reply, OutOfMemory>
    requires { HasPlace theory.now procedure step (bad.fails (verdict_in verdict)) }
    ensures { IfOk result (λ r. PlaceAnswer (theory_of theory.now) procedure step
        (bad.fails (verdict_in verdict)) r.status r.output) }
{
    let procedure = procedure_at(theory, procedure);
    let step = step_at(procedure, step);
    let report = Report::StepFails {
        step: step.number,
        procedure: procedure.name.copy(alloc)?,
        line: step.line,
        rule: rule_at(step).copy(alloc)?,
        verdict,
    };
    reported(alloc, Status::StepFails, report)
}

/// The answer to one that is the end of the proof of a procedure, after however many steps.
pub fn no_proof(alloc: Global, theory: &Theory, procedure: u32) -> Result<Reply, OutOfMemory>
    requires { HasProcedure theory.now procedure }
    ensures { (step : ℕ) → IfOk result (λ r.
        PlaceAnswer (theory_of theory.now) procedure step bad.no_proof r.status r.output) }
{
    let procedure = procedure_at(theory, procedure).name.copy(alloc)?;
    reported(alloc, Status::StepFails, Report::NoProof { procedure })
}

// The answer on the theory of a file.
fn verdict(alloc: Global, theory: &Theory) -> Result<Reply, OutOfMemory>
    requires small { TheoryIsSmall (theory_of theory.now) }
    requires formed { IsWellFormedTheory (theory_of theory.now) }
    ensures { IfOk result (λ r. CheckVerdict (theory_of theory.now) r.status r.output) }
{
    match check_theory(alloc, theory) {
        Ok(counts) => accepted(alloc, counts.procedures, counts.steps),
        Err(
            Refusal::Fails {
                procedure,
                step,
                verdict,
            },
        ) => failure(alloc, theory, procedure, step, verdict),
        Err(Refusal::NoProof { procedure }) => no_proof(alloc, theory, procedure),
        Err(Refusal::Gap { procedure, step }) => gap(alloc, theory, procedure, step),
        Err(Refusal::OutOfMemory) => Err(OutOfMemory),
    }
}

/// What is done with the memory of a theory when it was checked or filled.
#[derive(Clone, Copy)]
pub enum Ending {
    /// It is given back.
    GiveBack,
    /// It is left to the system, which takes all at once when the program ends: to give back a
    /// large theory takes a tenth of the time of its check.
    Leave,
}

/// Gives the memory of a theory back, or leaves it.
pub fn let_go(theory: Theory, ending: Ending) {
    match ending {
        Ending::GiveBack => drop(theory),
        Ending::Leave => mem::forget(theory),
    }
}

/// The answer of `check` on the bytes of a file, however many they are. The theory's memory is
/// given back or left, as it is asked for.
pub fn check_until(alloc: Global, bytes: &[u8], ending: Ending) -> Result<Reply, OutOfMemory>
    ensures { IfOk result (λ r. CheckAnswer bytes.now r.status r.output) }
{
    match read_file(alloc, bytes) {
        Ok(theory) => {
            let reply = verdict(alloc, &theory);
            let_go(theory, ending);
            reply
        }
        Err(why) => answered(alloc, why),
    }
}

/// The answer of `check` on the bytes of a file, however many they are: that of the definition, and
/// no other.
pub fn check_bytes(alloc: Global, bytes: &[u8]) -> Result<Reply, OutOfMemory>
    ensures answer { IfOk result (λ r. CheckAnswer bytes.now r.status r.output) }
    ensures exactly { (s : Status) (output : List ℕ) → CheckAnswer bytes.now s output
        → IfOk result (λ r. (r.status ≡ s) × (r.output ≡ output)) }

    // A yes is a proof.
    ensures soundness_of_yes { IfOk result (λ r. r.status ≡ Status.Done → IsSoundFile bytes.now) }
{
    check_until(alloc, bytes, Ending::GiveBack)
}
