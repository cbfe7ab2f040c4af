// From the words to the answer.
ghost use Rattle.std.specs.Prelude.{◌≡◌, ◌≤◌, ◌⊎◌, ℕ, List, None, Some, IfOk, IsErrOf};
ghost use Rattle.outside_io.specs.Causes.{Rose, Told};
ghost use Rattle.model_answers.specs.Words as words;
ghost use Rattle.model_filling.specs.Offers.{Voice};
ghost use Rattle.boxed_fillers.specs.Voices.{voices_of};
ghost use Rattle.run_trace.specs.Listeners.{listeners_of};
ghost use Rattle.domcheck_core.specs.Answers.{IsCalled};
ghost use Rattle.domcheck_core.specs.Books.{IsReply};
ghost use Rattle.domcheck_core.specs.Clauses.{asked, ReadRose};
ghost use Rattle.domcheck_core.specs.Replies.{form_of, end_of, HeardRead, HeardReply};

use crate::books::{check_book, fill_book, open_book, run_book, wp_book};
use crate::forms::RunForm;
use crate::generated::{print_generated, try_generated};
use crate::replies::{Refusal, Reply, reported};
use crate::runs::Opened;
use crate::status::Status;
use dom_terms::{Text, Texts};
use fault_report::Report;
use outside_io::Library;
use request_words::{Request, WordFault, read_words};
use run_trace::Observer;
use std::alloc::Global;
use std::mem;
use step_filler::Filler;

// The answer of a run with these words.
fn run<L: Library>(
    alloc: Global,
    library: &mut L,
    file: &Text,
    procedure: &Text,
    document: &Text,
    fuel: u32,
    arguments: &Texts,
    form: RunForm,
    observers: &mut Vec<Box<dyn Observer>>,
) -> Result<Reply, Refusal>
    ensures answer { (voices : List Voice) → IfOk result (λ r. IsReply voices
        (listeners_of face after says observers.old.items)
        (Some (words.run (form_of form) file.now procedure.now document.now fuel arguments.now))
        (L.book library.old) r.status r.output) }
    ensures heard { HeardRead (form_of form) (L.book library.old) file.now procedure.now
        arguments.now document.now fuel (end_of result)
        (listeners_of face after says observers.old.items)
        (listeners_of face after says observers.new.items) }
    ensures cause { IsErrOf result Refusal.ReadFault
        → Rose (L.faults library.old file.now) (L.faults library.new file.now)
        ⊎ (Rose (L.faults library.old document.now) (L.faults library.new document.now)
        × Told (L.book library.old file.now) (λ b. IsCalled b procedure.now arguments.now)) }
    ensures kept { (name : List ℕ)
        → Told (L.book library.old name) (λ b. L.book library.new name ≡ Some b) }
    ensures later { (name : List ℕ) → L.faults library.old name ≤ L.faults library.new name }
{
    match open_book(alloc, library, file, procedure, arguments)? {
        Opened::Called(theory, call) => {
            let reply = run_book(
                alloc, library, &theory, call, document, fuel, form, observers,
            );
            // as in a check, its memory is left to the system
            mem::forget(theory);
            reply
        }
        Opened::Answered(reply) => Ok(reply),
    }
}

/// The answer to the words after the program's name.
pub fn answer_words<L: Library>(
    alloc: Global,
    words: &[String],
    library: &mut L,
    fillers: &mut Vec<Box<dyn Filler>>,
    observers: &mut Vec<Box<dyn Observer>>,
) -> Result<Reply, Refusal>
    ensures answer { IfOk result (λ r. IsReply (voices_of turn offers fillers.old.items)
        (listeners_of face after says observers.old.items) (asked words.now) (L.book library.old)
        r.status r.output) }
    ensures heard { HeardReply (asked words.now) (L.book library.old) (end_of result)
        (listeners_of face after says observers.old.items)
        (listeners_of face after says observers.new.items) }
    ensures cause { IsErrOf result Refusal.ReadFault
        → ReadRose (asked words.now) (L.book library.old) (λ name.
        Rose (L.faults library.old name) (L.faults library.new name)) }
    ensures words_first { asked words.now ≡ None → library.new ≡ library.old }
    ensures kept { (name : List ℕ)
        → Told (L.book library.old name) (λ b. L.book library.new name ≡ Some b) }
    ensures later { (name : List ℕ) → L.faults library.old name ≤ L.faults library.new name }
{
    match read_words(alloc, words) {
        Ok(Request::Check { file }) => check_book(alloc, library, &file),
        Ok(Request::Fill { file }) => fill_book(alloc, library, &file, fillers),
        Ok(Request::Wp { file, procedure }) => wp_book(alloc, library, &file, &procedure),
        Ok(
            Request::Run {
                file,
                procedure,
                document,
                fuel,
                arguments,
            },
        ) => {
            let form = RunForm::OnlyOutcome;
            run(
                alloc, library, &file, &procedure, &document, fuel, &arguments, form, observers,
            )
        }
        Ok(
            Request::Trace {
                file,
                procedure,
                document,
                fuel,
                arguments,
            },
        ) => {
            let form = RunForm::WithChanges;
            run(
                alloc, library, &file, &procedure, &document, fuel, &arguments, form, observers,
            )
        }
        Ok(
            Request::Watch {
                file,
                procedure,
                document,
                fuel,
                arguments,
            },
        ) => {
            let form = RunForm::WithVerdicts;
            run(
                alloc, library, &file, &procedure, &document, fuel, &arguments, form, observers,
            )
        }
        Ok(Request::Make { count }) => Ok(print_generated(alloc, count)?),
        Ok(Request::Trial { count }) => Ok(try_generated(alloc, count)?),
        Err(WordFault::BadWords) => Ok(reported(alloc, Status::BadWords, Report::BadWords)?),
        Err(WordFault::OutOfMemory) => Err(Refusal::OutOfMemory),
    }
}
