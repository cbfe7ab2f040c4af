// What the program answers in one line.
ghost use Rattle.std.specs.Prelude.{◌≡◌, IfOk};
ghost use Rattle.row_patterns.specs.Verdicts.{verdict_in};
ghost use Rattle.grove_data.specs.UsedNumbers.{numbered_of};
ghost use Rattle.theory_syntax.specs.Commands.{command_of};
ghost use Rattle.dom_syntax.specs.Faults.{fault_at};
ghost use Rattle.dom_meaning.specs.Faults.{fault_kind_of};
ghost use Rattle.fault_report.specs.Reports as plain;
ghost use Rattle.fault_report.specs.Reports.{report_of};

use dom_meaning::FaultKind;
use dom_syntax::{Command, FileKind};
use dom_terms::{Copied, LimitKind, OutOfMemory, Text, Verdict};
use grove_data::IdKind;
use std::alloc::Global;

/// What the program answers in one line.
#[derive(Debug, Drop)]
pub enum Report {
    /// The first bad place of the theory is a step that isn't an instance of its rule.
    StepFails {
        /// The number of the step.
        step: u32,
        /// The name of its procedure.
        procedure: Text,
        /// The line on which it stands.
        line: u32,
        /// The name of its rule.
        rule: Text,
        /// Its verdict.
        verdict: Verdict,
    },
    /// The first bad place of the theory is the end of a proof.
    NoProof {
        /// The name of the procedure.
        procedure: Text,
    },
    /// The words have no reading, or ask for no run of the file.
    BadWords,
    /// The tokens of the file spell no theory.
    BadText {
        /// The fault token, counted from 1.
        token: u32,
    },
    /// The tokens of the document spell no grove.
    BadDocumentText {
        /// The fault token, counted from 1.
        token: u32,
    },
    /// The file isn't well formed.
    BadFile {
        /// The procedure of the first fault, counted from 1; 0 for what stands before all.
        procedure: u32,
        /// Its step, counted from 1; 0 for the header and the body.
        step: u32,
        /// The first kind of fault there.
        kind: FileKind,
    },
    /// A number of the document is 0 or too great.
    OutOfRange {
        /// What it is the number of.
        kind: IdKind,
        /// The number.
        number: u64,
    },
    /// A number of the document stands twice.
    Repeated {
        /// What it is the number of.
        kind: IdKind,
        /// The number.
        number: u32,
    },
    /// The run faults.
    Faulted {
        /// Why.
        kind: FaultKind,
        /// How many steps were taken before.
        steps: u32,
        /// The command that faults.
        command: Command,
    },
    /// The run is still going on when the fuel is spent.
    FuelSpent {
        /// How many steps were taken.
        steps: u32,
    },
    /// A counted quantity passes its limit.
    Limit {
        /// Which.
        kind: LimitKind,
    },
    /// The first bad place of the theory is a gap.
    GapLeft {
        /// The number of the step.
        step: u32,
        /// The name of its procedure.
        procedure: Text,
        /// The line on which it stands.
        line: u32,
    },
    /// The procedure whose weakest precondition is asked for doesn't speak of groves.
    NotStraightSort,
    /// Its body isn't straight-line.
    NotStraight {
        /// The first command that keeps it from being so.
        command: Command,
    },
    /// The procedure that is watched doesn't speak of groves.
    NotWatchableSort,
    /// Its requires can't be judged on a grove.
    NotWatchableRequires {
        /// The first part that can't, counted from 0.
        part: u32,
    },
    /// Its ensures can't be judged on a grove.
    NotWatchableEnsures {
        /// The first part that can't, counted from 0.
        part: u32,
    },
}

impl Copied for Report {
    ghost Seen = { plain.Report };

    ghost seen = { report_of };

    fn copy(&self, alloc: Global) -> Result<Report, OutOfMemory>
        ensures { IfOk result (λ copied. report_of copied ≡ report_of self.now) }
    {
        match self {
            Self::StepFails {
                step,
                procedure,
                line,
                rule,
                verdict,
            } => copy_of_failure(alloc, *step, procedure, *line, rule, *verdict),
            Self::NoProof { procedure } => copy_of_end(alloc, procedure),
            Self::BadWords => Ok(Self::BadWords),
            Self::BadText { token } => Ok(Self::BadText { token: *token }),
            Self::BadDocumentText { token } => Ok(Self::BadDocumentText { token: *token }),
            Self::BadFile {
                procedure,
                step,
                kind,
            } => Ok(bad_file(*procedure, *step, *kind)),
            Self::OutOfRange { kind, number } => Ok(out_of_range(*kind, *number)),
            Self::Repeated { kind, number } => Ok(repeated(*kind, *number)),
            Self::Faulted {
                kind,
                steps,
                command,
            } => copy_of_fault(alloc, *kind, *steps, command),
            Self::FuelSpent { steps } => Ok(Self::FuelSpent { steps: *steps }),
            Self::Limit { kind } => Ok(Self::Limit { kind: *kind }),
            Self::GapLeft {
                step,
                procedure,
                line,
            } => copy_of_gap(alloc, *step, procedure, *line),
            Self::NotStraightSort => Ok(Self::NotStraightSort),
            Self::NotStraight { command } => copy_of_command(alloc, command),
            Self::NotWatchableSort => Ok(Self::NotWatchableSort),
            Self::NotWatchableRequires { part } => Ok(Self::NotWatchableRequires { part: *part }),
            Self::NotWatchableEnsures { part } => Ok(Self::NotWatchableEnsures { part: *part }),
        }
    }
}

// The report of a fault of a file.
fn bad_file(procedure: u32, step: u32, kind: FileKind) -> Report
    ensures { report_of result ≡ plain.bad_file (fault_at procedure step kind) }
{
    Report::BadFile {
        procedure,
        step,
        kind,
    }
}

// The report of a number that is out of range.
fn out_of_range(kind: IdKind, number: u64) -> Report
    ensures { report_of result ≡ plain.out_of_range (numbered_of kind number) }
{
    Report::OutOfRange { kind, number }
}

// The report of a number that repeats.
fn repeated(kind: IdKind, number: u32) -> Report
    ensures { report_of result ≡ plain.repeated (numbered_of kind number) }
{
    Report::Repeated { kind, number }
}

// The report of a gap, with the name copied.
fn copy_of_gap(alloc: Global, step: u32, procedure: &Text, at: u32) -> Result<Report, OutOfMemory>
    ensures { IfOk result
        (λ copied. report_of copied ≡ plain.gap_left step procedure.now at) }
{
    Ok(Report::GapLeft {
        step,
        procedure: procedure.copy(alloc)?,
        line: at,
    })
}

// The report of a proof's end, with the name copied.
fn copy_of_end(alloc: Global, procedure: &Text) -> Result<Report, OutOfMemory>
    ensures { IfOk result (λ copied. report_of copied ≡ plain.no_proof procedure.now) }
{
    let procedure = procedure.copy(alloc)?;
    Ok(Report::NoProof { procedure })
}

// The report of a step that fails, with the names copied.
fn copy_of_failure(
    alloc: Global,
    step: u32,
    procedure: &Text,
    at: u32,
    rule: &Text,
    verdict: Verdict,
) -> Result<Report, OutOfMemory>
    ensures { IfOk result (λ copied. report_of copied
        ≡ plain.step_fails step procedure.now at rule.now (verdict_in verdict)) }
{
    Ok(Report::StepFails {
        step,
        procedure: procedure.copy(alloc)?,
        line: at,
        rule: rule.copy(alloc)?,
        verdict,
    })
}

// The report of a fault, with the command copied.
fn copy_of_fault(
    alloc: Global,
    kind: FaultKind,
    steps: u32,
    command: &Command,
) -> Result<Report, OutOfMemory>
    ensures { IfOk result (λ copied. report_of copied
        ≡ plain.faulted (fault_kind_of kind) steps (command_of command.now)) }
{
    let command = command.copy(alloc)?;
    Ok(Report::Faulted {
        kind,
        steps,
        command,
    })
}

// The report of a command that isn't straight-line, with the command copied.
fn copy_of_command(alloc: Global, command: &Command) -> Result<Report, OutOfMemory>
    ensures { IfOk result
        (λ copied. report_of copied ≡ plain.not_straight (command_of command.now)) }
{
    let command = command.copy(alloc)?;
    Ok(Report::NotStraight { command })
}
