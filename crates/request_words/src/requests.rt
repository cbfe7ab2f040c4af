// Requests.
ghost use Rattle.std.specs.Prelude.{◌≡◌, ◌≤◌, ℕ, List, [], ◌∷◌, None};
ghost use Rattle.std.specs.Prelude.{IfOk, IfSome, IsErrOf, map, string_bytes};
ghost use Rattle.std.specs.Option.{option_map};
ghost use Rattle.model_answers.specs.Words as model;
ghost use Rattle.model_answers.specs.Words.{file_of, run_of, count_of, wp_of, reading_of};
ghost use Rattle.model_answers.specs.Words.{only_outcome, with_changes, with_verdicts};
ghost use Rattle.model_generator.specs.Made.{most_makers};
ghost use Rattle.request_words.specs.Requests.{Reads, Counts, request_of};
ghost use Rattle.request_words.specs.RunWords.{asking};

use crate::decimals::decimal;
use crate::faults::WordFault;
use crate::run_words::RunWords;
use dom_terms::{Copied, OutOfMemory, Text, Texts};
use std::alloc::Global;

/// The most procedures of a generated theory that may be asked for.
pub const MOST_PROCEDURES: u32 = 200;

/// What the words after the program's name ask for.
#[derive(Debug, Drop)]
pub enum Request {
    /// `check FILE`
    Check {
        /// The name of the file.
        file: Text,
    },
    /// `run FILE PROC DOC FUEL ARG*`
    Run {
        /// The name of the file.
        file: Text,
        /// The name of the procedure.
        procedure: Text,
        /// The name of the document.
        document: Text,
        /// The most steps.
        fuel: u32,
        /// The words of the arguments.
        arguments: Texts,
    },
    /// `trace FILE PROC DOC FUEL ARG*`
    Trace {
        /// The name of the file.
        file: Text,
        /// The name of the procedure.
        procedure: Text,
        /// The name of the document.
        document: Text,
        /// The most steps.
        fuel: u32,
        /// The words of the arguments.
        arguments: Texts,
    },
    /// `watch FILE PROC DOC FUEL ARG*`
    Watch {
        /// The name of the file.
        file: Text,
        /// The name of the procedure.
        procedure: Text,
        /// The name of the document.
        document: Text,
        /// The most steps.
        fuel: u32,
        /// The words of the arguments.
        arguments: Texts,
    },
    /// `fill FILE`
    Fill {
        /// The name of the file.
        file: Text,
    },
    /// `wp FILE PROC`
    Wp {
        /// The name of the file.
        file: Text,
        /// The name of the procedure.
        procedure: Text,
    },
    /// `make N`
    Make {
        /// The number of procedures, from 1 to `MOST_PROCEDURES`.
        count: u32,
    },
    /// `trial N`
    Trial {
        /// The number of procedures, from 1 to `MOST_PROCEDURES`.
        count: u32,
    },
}

impl Copied for Request {
    ghost use Rattle.request_words.specs.Requests.{request_of};

    ghost Seen = { model.Request };

    ghost seen = { request_of };

    fn copy(&self, alloc: Global) -> Result<Request, OutOfMemory>
        ensures { IfOk result (λ copied. request_of copied ≡ request_of self.now) }
    {
        match self {
            Self::Check { file } => {
                Ok(Self::Check {
                    file: file.copy(alloc)?,
                })
            }
            Self::Run {
                file,
                procedure,
                document,
                fuel,
                arguments,
            } => {
                let words = RunWords::of(alloc, file, procedure, document, *fuel, arguments)?;
                Ok(plain(words))
            }
            Self::Trace {
                file,
                procedure,
                document,
                fuel,
                arguments,
            } => {
                let words = RunWords::of(alloc, file, procedure, document, *fuel, arguments)?;
                Ok(traced(words))
            }
            Self::Watch {
                file,
                procedure,
                document,
                fuel,
                arguments,
            } => {
                let words = RunWords::of(alloc, file, procedure, document, *fuel, arguments)?;
                Ok(watched(words))
            }
            Self::Fill { file } => {
                Ok(Self::Fill {
                    file: file.copy(alloc)?,
                })
            }
            Self::Wp { file, procedure } => {
                let file = file.copy(alloc)?;
                let procedure = procedure.copy(alloc)?;
                Ok(Self::Wp { file, procedure })
            }
            Self::Make { count } => Ok(Self::Make { count: *count }),
            Self::Trial { count } => Ok(Self::Trial { count: *count }),
        }
    }
}

// The run of which only the outcome is shown.
fn plain(words: RunWords) -> Request
    ensures { request_of result ≡ asking only_outcome words }
{
    Request::Run {
        file: words.file,
        procedure: words.procedure,
        document: words.document,
        fuel: words.fuel,
        arguments: words.arguments,
    }
}

// The run before and after which the specification is judged.
fn watched(words: RunWords) -> Request
    ensures { request_of result ≡ asking with_verdicts words }
{
    Request::Watch {
        file: words.file,
        procedure: words.procedure,
        document: words.document,
        fuel: words.fuel,
        arguments: words.arguments,
    }
}

// The run whose changes are shown.
fn traced(words: RunWords) -> Request
    ensures { request_of result ≡ asking with_changes words }
{
    Request::Trace {
        file: words.file,
        procedure: words.procedure,
        document: words.document,
        fuel: words.fuel,
        arguments: words.arguments,
    }
}

// The name of the file after `check` or `fill`.
fn file_name(alloc: Global, words: &[String]) -> Result<Text, WordFault>
    ensures named { IfOk result (λ file. map string_bytes words.now ≡ file ∷ []) }
    ensures none { IsErrOf result WordFault.BadWords → (form : List ℕ → model.Request)
        → file_of form (map string_bytes words.now) ≡ None }
{
    let [file] = words else {
        return Err(WordFault::BadWords);
    };
    Ok(Text::from_str(alloc, file.as_str())?)
}

// The words after `check`.
fn read_check(alloc: Global, words: &[String]) -> Result<Request, WordFault>
    ensures reading { Reads result (file_of model.check (map string_bytes words.now)) }
    ensures counts { IfOk result Counts }
{
    let file = file_name(alloc, words)?;
    Ok(Request::Check { file })
}

// The words after `fill`.
fn read_fill(alloc: Global, words: &[String]) -> Result<Request, WordFault>
    ensures reading { Reads result (file_of model.fill (map string_bytes words.now)) }
    ensures counts { IfOk result Counts }
{
    let file = file_name(alloc, words)?;
    Ok(Request::Fill { file })
}

// The words after `wp`.
fn read_wp(alloc: Global, words: &[String]) -> Result<Request, WordFault>
    ensures reading { Reads result (wp_of (map string_bytes words.now)) }
    ensures counts { IfOk result Counts }
{
    let [file, procedure] = words else {
        return Err(WordFault::BadWords);
    };
    let file = Text::from_str(alloc, file.as_str())?;
    let procedure = Text::from_str(alloc, procedure.as_str())?;
    Ok(Request::Wp { file, procedure })
}

// The words after `run`.
fn read_run(alloc: Global, words: &[String]) -> Result<Request, WordFault>
    ensures reading { Reads result (run_of only_outcome (map string_bytes words.now)) }
    ensures counts { IfOk result Counts }
{
    Ok(plain(RunWords::read(alloc, words)?))
}

// The words after `trace`.
fn read_trace(alloc: Global, words: &[String]) -> Result<Request, WordFault>
    ensures reading { Reads result (run_of with_changes (map string_bytes words.now)) }
    ensures counts { IfOk result Counts }
{
    Ok(traced(RunWords::read(alloc, words)?))
}

// The words after `watch`.
fn read_watch(alloc: Global, words: &[String]) -> Result<Request, WordFault>
    ensures reading { Reads result (run_of with_verdicts (map string_bytes words.now)) }
    ensures counts { IfOk result Counts }
{
    Ok(watched(RunWords::read(alloc, words)?))
}

// The number after `make` or `trial`, or none.
fn count(words: &[String]) -> Option<u32>
    ensures reading { (form : ℕ → model.Request)
        → option_map form result ≡ count_of form (map string_bytes words.now) }
    ensures counts { IfSome result (λ n. (1 ≤ n) × (n ≤ most_makers)) }
{
    let [count] = words else {
        return None;
    };
    match decimal(count.as_str().as_bytes(), u64::from(MOST_PROCEDURES)) {
        None | Some(0) => None,
        Some(number) => Some(number as u32),
    }
}

// The words after `make`.
fn read_make(words: &[String]) -> Result<Request, WordFault>
    ensures reading { Reads result (count_of model.make (map string_bytes words.now)) }
    ensures counts { IfOk result Counts }
{
    let Some(count) = count(words) else {
        return Err(WordFault::BadWords);
    };
    Ok(Request::Make { count })
}

// The words after `trial`.
fn read_trial(words: &[String]) -> Result<Request, WordFault>
    ensures reading { Reads result (count_of model.trial (map string_bytes words.now)) }
    ensures counts { IfOk result Counts }
{
    let Some(count) = count(words) else {
        return Err(WordFault::BadWords);
    };
    Ok(Request::Trial { count })
}

/// The request that the words after the program's name are. `BadWords` comes exactly where they
/// have none of the forms.
pub fn read_words(alloc: Global, words: &[String]) -> Result<Request, WordFault>
    ensures reading { Reads result (reading_of (map string_bytes words.now)) }
    ensures counts { IfOk result Counts }
{
    let [command, words @ ..] = words else {
        return Err(WordFault::BadWords);
    };
    match command.as_str() {
        "check" => read_check(alloc, words),
        "run" => read_run(alloc, words),
        "fill" => read_fill(alloc, words),
        "make" => read_make(words),
        "trial" => read_trial(words),
        "wp" => read_wp(alloc, words),
        "trace" => read_trace(alloc, words),
        "watch" => read_watch(alloc, words),
        _ => Err(WordFault::BadWords),
    }
}
