// From the bytes of a file to its theory.
ghost use Rattle.std.specs.Prelude.{◌≡◌, ℕ, List, None, true, IfOk, IfErr};
ghost use Rattle.std.specs.Bool.{OnTrue};
ghost use Rattle.model_text.specs.Nesting.{lexemes_of};
ghost use Rattle.model_grammar.specs.Theories.{SpellsTheory};
ghost use Rattle.model_answers.specs.Texts.{IsFile, limit_passed};
ghost use Rattle.model_answers.specs.Output.{bad_text_line};
ghost use Rattle.model_files.specs.Sizes.{TheoryIsSmall};
ghost use Rattle.model_limits.specs.Limits.{standard_limits};
ghost use Rattle.theory_syntax.specs.Theories.{theory_of};
ghost use Rattle.declared_sorts.specs.Settled.{theory_settled};
ghost use Rattle.declared_sorts.specs.Judged.{theory_judged};
ghost use Rattle.domcheck_core.specs.Answers.{Unread, NoFile, theory_refusal};
ghost use Rattle.domcheck_core.specs.Refusals.{IfAnswer, IsRefusal};

use crate::limits::theory_limit;
use crate::replies::Refused;
use crate::status::Status;
use crate::texts::{pass_no_limit, past, source_of};
use dom_syntax::{ProgramFault, Told, check_told_program};
use dom_terms::limits;
use fault_report::Report;
use proof_text::{ReadTheory, theory_from};
use std::alloc::Global;
use theory_syntax::Theory;
use token_readers::TextFault;

// The theory that the bytes spell, whether a file may have it or not, and what reading it told.
fn spelled_theory(alloc: Global, bytes: &[u8]) -> Result<ReadTheory, Refused>
    ensures reads { IfOk result (λ t. limit_passed standard_limits.file_nesting bytes.now ≡ None) }
    ensures spelled { IfOk result (λ t. SpellsTheory (theory_of t.theory) (lexemes_of bytes.now)) }
    ensures small { IfOk result (λ t. TheoryIsSmall (theory_of t.theory)) }
    ensures settled { IfOk result (λ t. t.are_settled ≡ theory_settled (theory_of t.theory)) }
    ensures judged { IfOk result (λ t. OnTrue t.are_judged (theory_judged (theory_of t.theory)
        ≡ true)) }
    ensures told { IfErr result (λ e. IfAnswer e
        (Unread SpellsTheory standard_limits.file_nesting bad_text_line bytes.now)) }
{
    let source = source_of(alloc, bytes, limits::FILE_NESTING)?;
    match theory_from(alloc, source.front()) {
        Ok(read) => Ok(read),
        Err(fault) => {
            pass_no_limit(alloc, bytes, limits::FILE_NESTING)?;
            match fault {
                TextFault::BadText { token } => {
                    Err(Refused::Answer(Status::BadText, Report::BadText { token }))
                }
                TextFault::OutOfMemory => Err(Refused::OutOfMemory),
            }
        }
    }
}

// Whether a file may have the theory: it is well formed, and passes no limit.
fn admit(alloc: Global, read: &ReadTheory) -> Result<(), Refused>
    requires small { TheoryIsSmall (theory_of read.now.theory) }
    requires settled { read.now.are_settled ≡ theory_settled (theory_of read.now.theory) }
    requires judged { OnTrue read.now.are_judged (theory_judged (theory_of read.now.theory)
        ≡ true) }
    ensures passes { IfOk result (λ _. theory_refusal (theory_of read.now.theory) ≡ None) }
    ensures told { IfErr result (λ e. IsRefusal e (theory_refusal (theory_of read.now.theory))) }
{
    let told = Told {
        are_settled: read.are_settled,
        are_judged: read.are_judged,
    };
    match check_told_program(alloc, &read.theory, told) {
        Ok(()) => match theory_limit(&read.theory) {
            Some(kind) => Err(past(kind)),
            None => Ok(()),
        },
        Err(
            ProgramFault::BadProgram {
                procedure,
                step,
                kind,
            },
        ) => {
            let report = Report::BadFile {
                procedure,
                step,
                kind,
            };
            Err(Refused::Answer(Status::BadFile, report))
        }
        Err(ProgramFault::OutOfMemory) => Err(Refused::OutOfMemory),
    }
}

/// The theory of a file with these bytes: they pass no limit, and spell it, and it is well formed
/// and passes none. The refusals come in the order in which the definitions have them.
pub fn read_file(alloc: Global, bytes: &[u8]) -> Result<Theory, Refused>
    ensures is { IfOk result (λ t. IsFile bytes.now (theory_of t)) }
    ensures small { IfOk result (λ t. TheoryIsSmall (theory_of t)) }
    ensures told { IfErr result (λ e. IfAnswer e (NoFile bytes.now)) }
{
    let read = spelled_theory(alloc, bytes)?;
    admit(alloc, &read)?;
    Ok(read.theory)
}
