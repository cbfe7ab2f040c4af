// From the bytes of a document to the grove that it spells.
ghost use Rattle.std.specs.Prelude.{◌≡◌, None, IfOk, IfErr};
ghost use Rattle.model_limits.specs.Limits.{standard_limits};
ghost use Rattle.model_text.specs.Nesting.{lexemes_of};
ghost use Rattle.model_documents.specs.Grammar.{SpellsGrove};
ghost use Rattle.model_answers.specs.Output.{bad_document_text_line};
ghost use Rattle.model_answers.specs.Texts.{limit_passed};
ghost use Rattle.logic_text.specs.RawGroves.{raw_forest_of};
ghost use Rattle.domcheck_core.specs.Answers.{Unread};
ghost use Rattle.domcheck_core.specs.Refusals.{IfAnswer};

use crate::replies::Refused;
use crate::status::Status;
use crate::texts::{pass_no_limit, source_of};
use dom_terms::limits;
use fault_report::Report;
use logic_text::{RawGrove, grove_from};
use std::alloc::Global;
use token_readers::TextFault;

/// The grove that the bytes of a document spell, whatever its numbers.
pub fn read_document(alloc: Global, bytes: &[u8]) -> Result<RawGrove, Refused>
    ensures reads { IfOk result
        (λ g. limit_passed standard_limits.document_nesting bytes.now ≡ None) }
    ensures spelled { IfOk result (λ g. SpellsGrove (raw_forest_of g) (lexemes_of bytes.now)) }
    ensures told { IfErr result (λ e. IfAnswer e
        (Unread SpellsGrove standard_limits.document_nesting bad_document_text_line bytes.now)) }
{
    let source = source_of(alloc, bytes, limits::DOCUMENT_NESTING)?;
    match grove_from(alloc, source.front()) {
        Ok(grove) => Ok(grove),
        Err(fault) => {
            pass_no_limit(alloc, bytes, limits::DOCUMENT_NESTING)?;
            match fault {
                TextFault::BadText { token } => {
                    let report = Report::BadDocumentText { token };
                    Err(Refused::Answer(Status::BadText, report))
                }
                TextFault::OutOfMemory => Err(Refused::OutOfMemory),
            }
        }
    }
}
