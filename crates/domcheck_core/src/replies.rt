// Answers with what is written, and why there is none.
ghost use Rattle.std.specs.Prelude.{◌≡◌, IfOk, string_bytes};
ghost use Rattle.model_answers.specs.Output.{line, accepted_text};
ghost use Rattle.fault_report.specs.Lines.{line_of};
ghost use Rattle.domcheck_core.specs.Refusals.{Answers};
ghost use Rattle.domcheck_core.specs.declared.replies.Refusal.TheVariants.{OutOfMemory};
ghost use Rattle.domcheck_core.specs.declared.replies.Refused.TheVariants.{OutOfMemory as RanOut};

use crate::status::Status;
use dom_terms::{OutOfMemory, Text};
use fault_report::{Report, status_line};
use std::alloc::{AllocError, Global};

/// An answer with the output that is written.
#[derive(Drop)]
pub struct Reply {
    /// How the call ends.
    pub status: Status,
    /// What is written.
    pub output: Text,
}

/// Why there is no value: the answer is this one in its place.
#[derive(Drop)]
pub enum Refused {
    /// The status, with the report that is written.
    Answer(Status, Report),
    /// Memory ran out.
    OutOfMemory,
}

impl From<OutOfMemory> for Refused {
    ghost from_gives = { λ _ e. e ≡ RanOut };

    fn from(_e: OutOfMemory) -> Refused {
        Refused::OutOfMemory
    }
}

/// Why there is no answer.
#[derive(Clone, Copy, Debug, PartialEq, Eq)]
pub enum Refusal {
    /// Memory ran out.
    OutOfMemory,
    /// The library failed while a book was read.
    ReadFault,
}

impl From<OutOfMemory> for Refusal {
    ghost from_gives = { λ _ e. e ≡ OutOfMemory };

    fn from(_e: OutOfMemory) -> Refusal {
        Refusal::OutOfMemory
    }
}

// The line of a report, which is let go here and nowhere else: a report may hold a command, and
// each place where one is let go is dear to prove.
fn report_line(alloc: Global, report: Report) -> Result<Text, OutOfMemory>
    ensures { IfOk result (λ text. line text ≡ line_of report) }
{
    let text = status_line(alloc, &report);
    drop(report);
    text
}

/// The answer of a status with the line of a report.
pub fn reported(alloc: Global, status: Status, report: Report) -> Result<Reply, OutOfMemory>
    ensures status { IfOk result (λ r. r.status ≡ status) }
    ensures output { IfOk result (λ r. r.output ≡ line_of report) }
{
    let mut output = report_line(alloc, report)?;
    output.push('\n')?;
    Ok(Reply { status, output })
}

/// The answer to what is refused.
pub fn answered(alloc: Global, why: Refused) -> Result<Reply, OutOfMemory>
    ensures { IfOk result (λ r. Answers why (λ s output. (r.status ≡ s) × (r.output ≡ output))) }
{
    match why {
        Refused::Answer(status, report) => reported(alloc, status, report),
        Refused::OutOfMemory => Err(OutOfMemory),
    }
}

// The text of the line for an accepted theory.
fn accepted_text(alloc: Global, procedures: u32, steps: u32) -> Result<String, AllocError>
    ensures { IfOk result (λ s. string_bytes s ≡ accepted_text procedures steps) }
{
    format!(in alloc; "accepted: {procedures} procedures, {steps} steps")
}

/// The answer for an accepted theory of so many procedures and steps.
pub fn accepted(alloc: Global, procedures: u32, steps: u32) -> Result<Reply, OutOfMemory>
    ensures status { IfOk result (λ r. r.status ≡ Status.Done) }
    ensures output { IfOk result (λ r. r.output ≡ line (accepted_text procedures steps)) }
{
    let text = accepted_text(alloc, procedures, steps)?;
    let mut output = Text::from_str(alloc, text.as_str())?;
    output.push('\n')?;
    let status = Status::Done;
    Ok(Reply { status, output })
}
