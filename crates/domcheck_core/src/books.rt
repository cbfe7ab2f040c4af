// The books that the words name: what is done with their bytes once they are read.
ghost use Rattle.std.specs.Prelude.{◌≡◌, ◌≤◌, ◌<◌, ℕ, List, Some, length, map, slice_get, IfOk, IsErrOf, MatchOption};
ghost use Rattle.outside_io.specs.Causes.{Rose, Told};
ghost use Rattle.model_limits.specs.Limits.{file_limit, standard_limits};
ghost use Rattle.boxed_fillers.specs.Voices.{voices_of};
ghost use Rattle.run_trace.specs.Listeners.{listeners_of};
ghost use Rattle.theory_syntax.specs.declared.theories.Procedure.{Procedure};
ghost use Rattle.theory_syntax.specs.Theories.{procedure_of, theory_of};
ghost use Rattle.dom_terms.specs.Values.{value_seen};
ghost use Rattle.domcheck_core.specs.Answers.{CheckAnswer, FillAnswer, WpAnswer, grove_answer, limit_answer};
ghost use Rattle.domcheck_core.specs.Books.{ReadFrom};
ghost use Rattle.domcheck_core.specs.Calls.{FitsCall, IsOpened, CallAnswer};
ghost use Rattle.domcheck_core.specs.Heard.{DocumentRuns};
ghost use Rattle.domcheck_core.specs.Replies.{form_of, end_of, HeardIn};

use crate::calls::Call;
use crate::checks::{Ending, check_until};
use crate::fills::fill_until;
use crate::forms::RunForm;
use crate::preconditions::wp_until;
use crate::replies::{Refusal, Reply, answered};
use crate::runs::{Opened, open_file, run_document};
use crate::texts::past;
use dom_terms::{LimitKind, OutOfMemory, Text, Texts};
use outside_io::{Library, ReadAllFault, read_all};
use run_trace::Observer;
use std::alloc::Global;
use step_filler::Filler;
use theory_syntax::Theory;

// The bytes of a book, or none where it has more than a file may have.
fn read_book<L: Library>(
    alloc: Global,
    library: &mut L,
    name: &str,
) -> Result<Option<Vec<u8>>, Refusal>
    ensures read { IfOk result (λ found. ReadFrom (L.book library.old name.now) (λ b.
        MatchOption found (standard_limits.file_bytes < length b) (λ bytes. bytes.items ≡ b))) }
    ensures cause { IsErrOf result Refusal.ReadFault
        → Rose (L.faults library.old name.now) (L.faults library.new name.now) }
    ensures kept { (other : List ℕ)
        → Told (L.book library.old other) (λ b. L.book library.new other ≡ Some b) }
    ensures later { (other : List ℕ) → L.faults library.old other ≤ L.faults library.new other }
{
    match read_all(alloc, library, name) {
        Ok(bytes) => Ok(Some(bytes)),
        Err(ReadAllFault::TooLarge) => Ok(None),
        Err(ReadAllFault::Failed) => Err(Refusal::ReadFault),
        Err(ReadAllFault::OutOfMemory) => Err(Refusal::OutOfMemory),
    }
}

// The answer to a book with more bytes than a file or a document may have.
fn too_large(alloc: Global) -> Result<Reply, OutOfMemory>
    ensures { IfOk result (λ r. limit_answer file_limit ≡ (r.status, r.output)) }
{
    answered(alloc, past(LimitKind::File))
}

/// The answer of `check` on the file of this name. The theory's memory is left to the system.
pub fn check_book<L: Library>(alloc: Global, library: &mut L, file: &Text) -> Result<Reply, Refusal>
    ensures answer { IfOk result (λ r. ReadFrom (L.book library.old file.now)
        (λ bytes. CheckAnswer bytes r.status r.output)) }
    ensures cause { IsErrOf result Refusal.ReadFault
        → Rose (L.faults library.old file.now) (L.faults library.new file.now) }
    ensures kept { (other : List ℕ)
        → Told (L.book library.old other) (λ b. L.book library.new other ≡ Some b) }
    ensures later { (other : List ℕ) → L.faults library.old other ≤ L.faults library.new other }
{
    match read_book(alloc, library, file.as_str())? {
        Some(bytes) => Ok(check_until(alloc, &bytes, Ending::Leave)?),
        None => Ok(too_large(alloc)?),
    }
}

/// The answer of `fill` on the file of this name. The memory of the theories is left to the system.
pub fn fill_book<L: Library>(
    alloc: Global,
    library: &mut L,
    file: &Text,
    fillers: &mut Vec<Box<dyn Filler>>,
) -> Result<Reply, Refusal>
    ensures answer { IfOk result (λ r. ReadFrom (L.book library.old file.now)
        (λ bytes. FillAnswer (voices_of turn offers fillers.old.items) bytes r.status r.output)) }
    ensures cause { IsErrOf result Refusal.ReadFault
        → Rose (L.faults library.old file.now) (L.faults library.new file.now) }
    ensures kept { (other : List ℕ)
        → Told (L.book library.old other) (λ b. L.book library.new other ≡ Some b) }
    ensures later { (other : List ℕ) → L.faults library.old other ≤ L.faults library.new other }
{
    match read_book(alloc, library, file.as_str())? {
        Some(bytes) => Ok(fill_until(alloc, &bytes, fillers, Ending::Leave)?),
        None => Ok(too_large(alloc)?),
    }
}

/// The answer of `wp` on the file of this name. The theory's memory is left to the system.
pub fn wp_book<L: Library>(
    alloc: Global,
    library: &mut L,
    file: &Text,
    procedure: &Text,
) -> Result<Reply, Refusal>
    ensures answer { IfOk result (λ r. ReadFrom (L.book library.old file.now)
        (λ bytes. WpAnswer procedure.now bytes r.status r.output)) }
    ensures cause { IsErrOf result Refusal.ReadFault
        → Rose (L.faults library.old file.now) (L.faults library.new file.now) }
    ensures kept { (other : List ℕ)
        → Told (L.book library.old other) (λ b. L.book library.new other ≡ Some b) }
    ensures later { (other : List ℕ) → L.faults library.old other ≤ L.faults library.new other }
{
    match read_book(alloc, library, file.as_str())? {
        Some(bytes) => Ok(wp_until(alloc, &bytes, procedure, Ending::Leave)?),
        None => Ok(too_large(alloc)?),
    }
}

/// The call that the words ask for of the file of this name, or the answer where there is none.
pub fn open_book<L: Library>(
    alloc: Global,
    library: &mut L,
    file: &Text,
    procedure: &Text,
    arguments: &Texts,
) -> Result<Opened, Refusal>
    ensures opened { IfOk result (λ o. ReadFrom (L.book library.old file.now)
        (λ bytes. IsOpened bytes procedure.now arguments.now o)) }
    ensures cause { IsErrOf result Refusal.ReadFault
        → Rose (L.faults library.old file.now) (L.faults library.new file.now) }
    ensures kept { (other : List ℕ)
        → Told (L.book library.old other) (λ b. L.book library.new other ≡ Some b) }
    ensures later { (other : List ℕ) → L.faults library.old other ≤ L.faults library.new other }
{
    match read_book(alloc, library, file.as_str())? {
        Some(bytes) => Ok(open_file(alloc, &bytes, procedure, arguments)?),
        None => Ok(Opened::Answered(too_large(alloc)?)),
    }
}

/// The answer of a call on the document of this name.
pub fn run_book<L: Library>(
    alloc: Global,
    library: &mut L,
    theory: &Theory,
    call: Call,
    document: &Text,
    fuel: u32,
    form: RunForm,
    observers: &mut Vec<Box<dyn Observer>>,
) -> Result<Reply, Refusal>
    requires { FitsCall theory.now call }
    ensures answer { IfOk result (λ r. ReadFrom (L.book library.old document.now)
        (λ bytes. CallAnswer (grove_answer (form_of form)
        (listeners_of face after says observers.old.items)) theory.now call fuel bytes r.status
        r.output)) }
    ensures heard { (p : Procedure) → slice_get theory.now.procedures call.procedure ≡ Some p
        → ReadFrom (L.book library.old document.now) (λ bytes. HeardIn (form_of form)
        (DocumentRuns (theory_of theory.now) (procedure_of p) (map value_seen call.values) bytes)
        fuel (end_of result) (listeners_of face after says observers.old.items)
        (listeners_of face after says observers.new.items)) }
    ensures cause { IsErrOf result Refusal.ReadFault
        → Rose (L.faults library.old document.now) (L.faults library.new document.now) }
    ensures kept { (other : List ℕ)
        → Told (L.book library.old other) (λ b. L.book library.new other ≡ Some b) }
    ensures later { (other : List ℕ) → L.faults library.old other ≤ L.faults library.new other }
{
    match read_book(alloc, library, document.as_str())? {
        Some(bytes) => {
            let reply = run_document(alloc, theory, call, &bytes, fuel, form, observers)?;
            Ok(reply)
        }
        None => Ok(too_large(alloc)?),
    }
}
