//! Checks annotated program files, fills the gaps of their proofs, prints weakest preconditions of
//! their procedures, and runs these on documents. `check_bytes`, `fill_bytes`, `wp_bytes` and
//! `run_bytes` give the answer to bytes in hand, and `domcheck` is the thin layer over them: it
//! reads the words, fetches what they name and writes the answer. Its contract says what each
//! answer means, when it comes and what is written, for every library, every sink and whatever
//! fillers. Stands on the readers of words, files and documents, the checker of theories, the
//! fillers of gaps, weakest preconditions, the machine and the outside.
#![tactic(auto)]

ghost use Rattle.std.specs.Prelude.{◌≡◌, ◌≤◌, ◌⊎◌, ℕ, List, Contains, None, Some};
ghost use Rattle.outside_io.specs.Causes.{Rose, Told};
ghost use Rattle.boxed_fillers.specs.Voices.{voices_of};
ghost use Rattle.run_trace.specs.Listeners.{listeners_of};
ghost use Rattle.domcheck_core.specs.Answers.{IsAnswer};
ghost use Rattle.domcheck_core.specs.Clauses.{asked, OfFile, IsSoundFile, OfGaps, TookFilled, OfBody, TookPrecondition, BadWordsExactly, GivesUp, Says, IsAnswered, statuses, ReadRose, Wrote};
ghost use Rattle.domcheck_core.specs.Heard.{Heard};
ghost use Rattle.domcheck_core.specs.Numbers.{status_number};
ghost use Rattle.domcheck_core.specs.Watched.{JudgesSatisfaction, KeepsPromises};

mod answers;
mod books;
mod calls;
mod checks;
mod document;
mod file;
mod fills;
mod forms;
mod generated;
mod groves;
mod limits;
mod preconditions;
mod replies;
mod runs;
mod status;
mod texts;
mod traces;
mod watches;

use answers::answer_words;
pub use boxed_fillers::FillFault;
pub use checks::check_bytes;
pub use fills::{fill_bytes, fill_theory};
use outside_io::{Library, Sink, write_all_of};
pub use preconditions::wp_bytes;
use replies::Refusal;
pub use replies::Reply;
pub use request_words::{Request, WordFault, read_words};
pub use run_trace::{Change, Changes, Observer, Tally};
pub use runs::run_bytes;
pub use status::Status;
use std::alloc::Global;
pub use step_filler::Filler;
pub use traces::{Traced, trace_heap};

/// Does what the words after the program's name ask for, and answers how it ended. The forms today
/// are `check FILE`, `fill FILE`, `wp FILE PROC`, `run FILE PROC DOC FUEL ARG*`,
/// `trace FILE PROC DOC FUEL ARG*`, `watch FILE PROC DOC FUEL ARG*`, `make N` and `trial N`. The
/// output is built whole and then written. The fillers are asked in their order for the steps of
/// the gaps of a file that is filled; nobody trusts them. The observers are told in their order
/// what each step of a traced run changes, when it is taken. It is made for a program that ends
/// after it: the memory of the theory of a file that was read is mostly left to the system.
/// `check_bytes`, `fill_bytes`, `wp_bytes` and `run_bytes` give all back.
pub fn domcheck<L: Library, S: Sink>(
    alloc: Global,
    words: &[String],
    library: &mut L,
    sink: &mut S,
    fillers: Vec<Box<dyn Filler>>,
    observers: &mut Vec<Box<dyn Observer>>,
) -> Status
    // A yes is a proof.
    ensures soundness_of_yes { OfFile (asked words.now) (L.book library.old)
        (λ bytes. result ≡ Status.Done → IsSoundFile bytes) }

    // What is filled is a file of its own, which is accepted.
    ensures filled { OfGaps (asked words.now) (L.book library.old)
        (λ bytes. result ≡ Status.Done
        → TookFilled (voices_of turn offers fillers.items) bytes
        (S.taken sink.old) (S.taken sink.new)) }

    // What is printed for a procedure is its weakest precondition.
    ensures precondition { OfBody (asked words.now) (L.book library.old) (λ procedure bytes.
        result ≡ Status.Done
        → TookPrecondition procedure bytes (S.taken sink.old) (S.taken sink.new)) }

    // The answer to each request is the one that is defined, status and output, and no other.
    ensures answered { IsAnswered (voices_of turn offers fillers.items)
        (listeners_of face after says observers.old.items) (asked words.now) (L.book library.old)
        result }
    ensures exactly { (s : Status) (output : List ℕ)
        → IsAnswer (voices_of turn offers fillers.items)
        (listeners_of face after says observers.old.items) (L.book library.old) (asked words.now) s
        output
        → Says result (S.taken sink.old) (S.taken sink.new) s output ⊎ GivesUp result }

    // It is given where nothing failed, but for want of memory.
    ensures complete { (s : Status) (output : List ℕ)
        → IsAnswer (voices_of turn offers fillers.items)
        (listeners_of face after says observers.old.items) (L.book library.old) (asked words.now) s
        output
        → (ReadRose (asked words.now) (L.book library.old) (λ name.
        Rose (L.faults library.old name) (L.faults library.new name)) → ⊥)
        → (Rose (S.faults sink.old) (S.faults sink.new) → ⊥)
        → Says result (S.taken sink.old) (S.taken sink.new) s output
        ⊎ (result ≡ Status.OutOfMemory) }

    // Whatever is told, a request has no other status than its own, and bad words of a run that is
    // called come nowhere.
    ensures possible { Contains (statuses (asked words.now)) (status_number result) }
    ensures bad_words_exactly { BadWordsExactly (asked words.now) (L.book library.old) result }

    // Faults come only where their counts rose.
    ensures read_fault { result ≡ Status.ReadFault
        → ReadRose (asked words.now) (L.book library.old) (λ name.
        Rose (L.faults library.old name) (L.faults library.new name)) }
    ensures write_fault { result ≡ Status.WriteFault
        → Rose (S.faults sink.old) (S.faults sink.new) }

    // What the sink took.
    ensures wrote { Wrote (voices_of turn offers fillers.items)
        (listeners_of face after says observers.old.items) (asked words.now) (L.book library.old)
        result (S.taken sink.old) (S.taken sink.new) }

    // What is judged of a run that is watched, and what comes of a procedure that is accepted.
    ensures judged { JudgesSatisfaction }
    ensures watched { KeepsPromises }

    // What the observers were told.
    ensures heard { Heard (asked words.now) (L.book library.old) result
        (listeners_of face after says observers.old.items)
        (listeners_of face after says observers.new.items) }

    // The words are read first: where they have no reading the library isn't asked.
    ensures words_first { asked words.now ≡ None → library.new ≡ library.old }

    // The library tells what it told, and no count has fallen.
    ensures kept { (name : List ℕ)
        → Told (L.book library.old name) (λ b. L.book library.new name ≡ Some b) }
    ensures later { (name : List ℕ) → L.faults library.old name ≤ L.faults library.new name }
    ensures sink_later { S.faults sink.old ≤ S.faults sink.new }
{
    let mut fillers = fillers;
    match answer_words(alloc, words, library, &mut fillers, observers) {
        Ok(reply) => {
            // so the text of a filled theory is a file, whose literals are UTF-8
            reply.output.is_utf8();
            if write_all_of(sink, reply.output.as_str().as_bytes()).is_err() {
                return Status::WriteFault;
            }
            reply.status
        }
        Err(Refusal::OutOfMemory) => Status::OutOfMemory,
        Err(Refusal::ReadFault) => Status::ReadFault,
    }
}
