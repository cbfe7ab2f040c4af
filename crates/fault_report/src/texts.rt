// The texts of reports.
ghost use Rattle.std.specs.Prelude.{◌≡◌, IfOk, string_bytes};
ghost use Rattle.model_answers.specs.Output.{line, range_line, repeat_line, bad_file_line};
ghost use Rattle.model_answers.specs.Output.{bad_document_text_line, limit_line, fault_line};
ghost use Rattle.model_answers.specs.Output.{fail_line, gap_line, no_proof_line, not_straight_line};
ghost use Rattle.model_answers.specs.Output.{not_watchable_requires_line};
ghost use Rattle.model_answers.specs.Output.{not_watchable_ensures_line};
ghost use Rattle.row_patterns.specs.Verdicts.{verdict_in};
ghost use Rattle.grove_data.specs.UsedNumbers.{numbered_of};
ghost use Rattle.theory_syntax.specs.Commands.{command_of};
ghost use Rattle.dom_meaning.specs.Faults.{fault_kind_of, limit_kind_of};
ghost use Rattle.fault_report.specs.Lines.{line_of};

use crate::names::{fault_name, kind_name, limit_name, verdict_name};
use crate::reports::Report;
use dom_meaning::FaultKind;
use dom_syntax::Command;
use dom_terms::{LimitKind, OutOfMemory, Text, Verdict};
use grove_data::IdKind;
use std::alloc::{AllocError, Global};
use theory_writing::write_command;

// The text of a number that is out of range.
fn range_text(alloc: Global, kind: IdKind, number: u64) -> Result<String, AllocError>
    ensures { IfOk result (λ text.
        line (string_bytes text) ≡ range_line (numbered_of kind number)) }
{
    match kind {
        IdKind::Node => format!(in alloc; "bad document: node {number} out of range"),
        IdKind::List => format!(in alloc; "bad document: list {number} out of range"),
    }
}

// The text of a number that repeats.
fn repeat_text(alloc: Global, kind: IdKind, number: u32) -> Result<String, AllocError>
    ensures { IfOk result (λ text.
        line (string_bytes text) ≡ repeat_line (numbered_of kind number)) }
{
    match kind {
        IdKind::Node => format!(in alloc; "bad document: repeated node {number}"),
        IdKind::List => format!(in alloc; "bad document: repeated list {number}"),
    }
}

// The text of a fault of a file, at a step of a procedure.
fn file_text(alloc: Global, procedure: u32, step: u32, kind: &str) -> Result<String, AllocError>
    ensures { IfOk result (λ text.
        line (string_bytes text) ≡ bad_file_line procedure step kind.now) }
{
    format!(in alloc; "bad file: procedure {procedure}, step {step}: {kind}")
}

// The text of a command that faults after so many steps.
fn fault_text(
    alloc: Global,
    kind: FaultKind,
    steps: u32,
    command: &Command,
) -> Result<String, OutOfMemory>
    ensures { IfOk result (λ text. line (string_bytes text)
        ≡ fault_line (fault_kind_of kind) steps (command_of command.now)) }
{
    let name = fault_name(kind);
    let written = write_command(alloc, command)?;
    let written = written.as_str();
    let text = format!(in alloc; "fault {name} after {steps} steps: {written}")?;
    Ok(text)
}

// The text of a document that spells no grove.
fn document_text(alloc: Global, token: u32) -> Result<String, AllocError>
    ensures { IfOk result (λ text. line (string_bytes text) ≡ bad_document_text_line token) }
{
    format!(in alloc; "bad document text at token {token}")
}

// The text of a limit that is passed.
fn limit_text(alloc: Global, kind: LimitKind) -> Result<String, AllocError>
    ensures { IfOk result (λ text. line (string_bytes text) ≡ limit_line (limit_kind_of kind)) }
{
    let name = limit_name(kind);
    format!(in alloc; "limit {name}")
}

// The text of a step that fails.
fn failure_text(
    alloc: Global,
    step: u32,
    procedure: &Text,
    at: u32,
    rule: &Text,
    verdict: Verdict,
) -> Result<String, AllocError>
    ensures { IfOk result (λ text. line (string_bytes text)
        ≡ fail_line step procedure.now at rule.now (verdict_in verdict)) }
{
    let procedure = procedure.as_str();
    let rule = rule.as_str();
    let said = verdict_name(verdict);
    format!(in alloc; "step {step} of {procedure}, line {at}: {rule}: {said}")
}

// The text of a gap.
fn gap_text(alloc: Global, step: u32, procedure: &str, at: u32) -> Result<String, AllocError>
    ensures { IfOk result (λ text. line (string_bytes text) ≡ gap_line step procedure.now at) }
{
    format!(in alloc; "step {step} of {procedure}, line {at}: gap")
}

// The text of a command that isn't straight-line.
fn straight_text(alloc: Global, command: &Command) -> Result<String, OutOfMemory>
    ensures { IfOk result (λ text. line (string_bytes text)
        ≡ not_straight_line (command_of command.now)) }
{
    let written = write_command(alloc, command)?;
    let written = written.as_str();
    let text = format!(in alloc; "not straight-line: {written}")?;
    Ok(text)
}

// The text of a requires with a part that can't be judged.
fn requires_text(alloc: Global, part: u32) -> Result<String, AllocError>
    ensures { IfOk result (λ text. line (string_bytes text) ≡ not_watchable_requires_line part) }
{
    format!(in alloc; "not watchable: requires, part {part}")
}

// The text of an ensures with a part that can't be judged.
fn ensures_text(alloc: Global, part: u32) -> Result<String, AllocError>
    ensures { IfOk result (λ text. line (string_bytes text) ≡ not_watchable_ensures_line part) }
{
    format!(in alloc; "not watchable: ensures, part {part}")
}

// The text of a proof that ends in something else.
fn end_text(alloc: Global, procedure: &str) -> Result<String, AllocError>
    ensures { IfOk result (λ text. line (string_bytes text) ≡ no_proof_line procedure.now) }
{
    format!(in alloc; "{procedure}: no proof")
}

// The text of the report.
fn report_text(alloc: Global, report: &Report) -> Result<String, OutOfMemory>
    ensures { IfOk result (λ text. line (string_bytes text) ≡ line_of report.now) }
{
    let text = match report {
        Report::StepFails {
            step,
            procedure,
            line,
            rule,
            verdict,
        } => failure_text(alloc, *step, procedure, *line, rule, *verdict)?,
        Report::NoProof { procedure } => end_text(alloc, procedure.as_str())?,
        Report::BadWords => String::from_str(alloc, "bad words")?,
        Report::BadText { token } => format!(in alloc; "bad text at token {token}")?,
        Report::BadDocumentText { token } => document_text(alloc, *token)?,
        Report::BadFile {
            procedure,
            step,
            kind,
        } => { file_text(alloc, *procedure, *step, kind_name(*kind))? }
        Report::OutOfRange { kind, number } => range_text(alloc, *kind, *number)?,
        Report::Repeated { kind, number } => repeat_text(alloc, *kind, *number)?,
        Report::Faulted {
            kind,
            steps,
            command,
        } => fault_text(alloc, *kind, *steps, command)?,
        Report::FuelSpent { steps } => format!(in alloc; "fuel spent after {steps} steps")?,
        Report::Limit { kind } => limit_text(alloc, *kind)?,
        Report::GapLeft {
            step,
            procedure,
            line,
        } => { gap_text(alloc, *step, procedure.as_str(), *line)? }
        Report::NotStraightSort => String::from_str(alloc, "not straight-line: sort")?,
        Report::NotStraight { command } => straight_text(alloc, command)?,
        Report::NotWatchableSort => String::from_str(alloc, "not watchable: sort")?,
        Report::NotWatchableRequires { part } => requires_text(alloc, *part)?,
        Report::NotWatchableEnsures { part } => ensures_text(alloc, *part)?,
    };
    Ok(text)
}

/// The line of the report, without its newline.
pub fn status_line(alloc: Global, report: &Report) -> Result<Text, OutOfMemory>
    ensures { IfOk result (λ text. line text ≡ line_of report.now) }
{
    let text = report_text(alloc, report)?;
    Text::from_str(alloc, text.as_str())
}
