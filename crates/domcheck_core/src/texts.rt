// The tokens of the bytes of a file or a document.
ghost use Rattle.std.specs.Prelude.{◌≡◌, ◌≤◌, ℕ, None, Some, length, option_map, slice_get, IfOk, IfErr};
ghost use Rattle.model_limits.specs.Limits.{standard_limits};
ghost use Rattle.model_text.specs.Lexemes.{bad_lexeme};
ghost use Rattle.model_text.specs.Nesting.{lexemes_of};
ghost use Rattle.model_answers.specs.Texts.{limit_passed};
ghost use Rattle.text_tokens.specs.Sources.{lexemes_from};
ghost use Rattle.domcheck_core.specs.Answers.{limit_answer};
ghost use Rattle.domcheck_core.specs.Refusals.{IsRefusal};

use crate::replies::Refused;
use crate::status::Status;
use dom_terms::LimitKind;
use fault_report::Report;
use outside_io::MOST_BYTES;
use std::alloc::Global;
use text_tokens::{Source, bytes_limit};

/// Why a text, a theory or a grove that passes a limit is refused.
pub fn past(kind: LimitKind) -> Refused
    ensures { result ≡ Refused.Answer (Status.Limit kind) (Report.Limit kind) }
{
    Refused::Answer(Status::Limit(kind), Report::Limit { kind })
}

/// The tokens of bytes that are no more than a file may have. Where one passes a limit, with so
/// many brackets that may be open, a reader meets a bad token, and so reads nothing.
pub fn source_of(alloc: Global, bytes: &[u8], nesting: u32) -> Result<Source, Refused>
    ensures small { IfOk result (λ source. length bytes.now ≤ standard_limits.file_bytes) }
    ensures whole { IfOk result (λ source. limit_passed nesting bytes.now ≡ None
        → lexemes_from source ≡ lexemes_of bytes.now) }
    ensures passes { IfOk result (λ source. ((place : ℕ)
        → slice_get (lexemes_from source) place ≡ Some bad_lexeme → ⊥)
        → limit_passed nesting bytes.now ≡ None) }
    ensures told { IfErr result
        (λ e. IsRefusal e (option_map limit_answer (limit_passed nesting bytes.now))) }
{
    if bytes.len() > MOST_BYTES {
        return Err(past(LimitKind::File));
    }
    let source = Source::new(alloc, bytes, nesting)?;
    Ok(source)
}

/// Nothing where the bytes pass no limit; asked of bytes that spell nothing, since a limit is told
/// before any other fault.
pub fn pass_no_limit(alloc: Global, bytes: &[u8], nesting: u32) -> Result<(), Refused>
    ensures passes { IfOk result (λ _. limit_passed nesting bytes.now ≡ None) }
    ensures told { IfErr result
        (λ e. IsRefusal e (option_map limit_answer (limit_passed nesting bytes.now))) }
{
    if bytes.len() > MOST_BYTES {
        return Err(past(LimitKind::File));
    }
    let limit = bytes_limit(alloc, bytes, nesting)?;
    match limit {
        Some(kind) => Err(past(kind)),
        None => Ok(()),
    }
}
