// The words of a run, whatever is shown of it.
ghost use Rattle.std.specs.Prelude.{◌≡◌, IfOk, map, string_bytes};
ghost use Rattle.model_answers.specs.Words.{RunForm, run_of};
ghost use Rattle.request_words.specs.RunWords.{asking, ReadsRun};

use crate::decimals::decimal;
use crate::faults::WordFault;
use dom_terms::limits::FUEL;
use dom_terms::{Copied, OutOfMemory, Text, Texts};
use std::alloc::Global;

/// What the words of a run name.
#[derive(Drop)]
pub struct RunWords {
    /// The name of the file.
    pub file: Text,
    /// The name of the procedure.
    pub procedure: Text,
    /// The name of the document.
    pub document: Text,
    /// The most steps.
    pub fuel: u32,
    /// The words of the arguments.
    pub arguments: Texts,
}

// The words as texts.
fn texts(alloc: Global, words: &[String]) -> Result<Texts, OutOfMemory>
    ensures { IfOk result (λ texts. texts ≡ map string_bytes words.now) }
{
    let mut texts = Texts::new(alloc);
    for word in words {
        texts.push(Text::from_str(alloc, word.as_str())?)?;
    }
    Ok(texts)
}

impl RunWords {
    /// The words `FILE PROC DOC FUEL ARG*`.
    pub fn read(alloc: Global, words: &[String]) -> Result<RunWords, WordFault>
        ensures { (form : RunForm)
            → ReadsRun form result (run_of form (map string_bytes words.now)) }
    {
        let [file, procedure, document, fuel, arguments @ ..] = words else {
            return Err(WordFault::BadWords);
        };
        let Some(fuel) = decimal(fuel.as_str().as_bytes(), u64::from(FUEL)) else {
            return Err(WordFault::BadWords);
        };
        Ok(RunWords {
            file: Text::from_str(alloc, file.as_str())?,
            procedure: Text::from_str(alloc, procedure.as_str())?,
            document: Text::from_str(alloc, document.as_str())?,
            fuel: fuel as u32,
            arguments: texts(alloc, arguments)?,
        })
    }

    /// Copies of what words name.
    pub fn of(
        alloc: Global,
        file: &Text,
        procedure: &Text,
        document: &Text,
        fuel: u32,
        arguments: &Texts,
    ) -> Result<RunWords, OutOfMemory>
        ensures file { IfOk result (λ w. w.file ≡ file.now) }
        ensures procedure { IfOk result (λ w. w.procedure ≡ procedure.now) }
        ensures document { IfOk result (λ w. w.document ≡ document.now) }
        ensures fuel { IfOk result (λ w. w.fuel ≡ fuel) }
        ensures arguments { IfOk result (λ w. w.arguments ≡ arguments.now) }
    {
        Ok(RunWords {
            file: file.copy(alloc)?,
            procedure: procedure.copy(alloc)?,
            document: document.copy(alloc)?,
            fuel,
            arguments: arguments.copy(alloc)?,
        })
    }
}
