// Runs of a file's procedure on a document, over the bytes of both.
ghost use Rattle.std.specs.Prelude.{◌≡◌, ℕ, List, [], None, Some, map, slice_get, IfOk};
ghost use Rattle.model_shapes.specs.Trees.{Trees};
ghost use Rattle.model_shapes.specs.Shapes.{SameAt};
ghost use Rattle.model_shapes.specs.Sorts.{grove};
ghost use Rattle.model_machine.specs.Outcomes as outcomes;
ghost use Rattle.dom_terms.specs.Terms.{prog_var_of};
ghost use Rattle.dom_terms.specs.Values.{value_seen};
ghost use Rattle.theory_syntax.specs.declared.theories.Procedure.{Procedure};
ghost use Rattle.theory_syntax.specs.Theories.{procedure_of, theory_of};
ghost use Rattle.logic_text.specs.RawGroves.{raw_forest_of};
ghost use Rattle.model_answers.specs.Texts.{IsFile};
ghost use Rattle.model_answers.specs.Words.{only_outcome};
ghost use Rattle.run_trace.specs.Listeners.{listeners_of};
ghost use Rattle.domcheck_core.specs.Answers.{outcome_on, outcome_answer, changes_on, traced_answer};
ghost use Rattle.domcheck_core.specs.Answers.{grove_answer, refusal, RunAnswer};
ghost use Rattle.domcheck_core.specs.Calls.{FitsCall, CameOut, IsOpened, CallAnswer};
ghost use Rattle.domcheck_core.specs.Heard.{GroveRuns, DocumentRuns, HearsWhere};
ghost use Rattle.domcheck_core.specs.Replies.{form_of, status_of, HeardIn};

use crate::calls::{Call, read_call};
use crate::document::read_document;
use crate::file::read_file;
use crate::forms::RunForm;
use crate::groves::fit_heap;
use crate::replies::{Reply, answered, reported};
use crate::status::Status;
use crate::traces::{trace_heap, traced_reply};
use crate::watches::watched_reply;
use dom_terms::{OutOfMemory, ProgVar, Text, Texts, Values};
use fault_report::{Report, ended_text};
use heap_runner::{HeapOutcome, run_heap};
use logic_text::RawGrove;
use node_heap::NodeHeap;
use run_trace::Observer;
use std::alloc::Global;
use theory_syntax::Theory;

/// What the bytes of a file come to before the document is read.
#[derive(Drop)]
pub enum Opened {
    /// The theory, and the call of one of its procedures.
    Called(Theory, Call),
    /// The answer, whatever the document is.
    Answered(Reply),
}

// The call that the words ask for of a theory, or the answer where there is none.
fn open_theory(
    alloc: Global,
    theory: Theory,
    procedure: &Text,
    arguments: &Texts,
) -> Result<Opened, OutOfMemory>
    ensures { (file : List ℕ) → IsFile file (theory_of theory)
        → IfOk result (IsOpened file procedure.now arguments.now) }
{
    match read_call(alloc, &theory, procedure, arguments)? {
        Some(call) => Ok(Opened::Called(theory, call)),
        None => {
            let reply = reported(alloc, Status::BadWords, Report::BadWords)?;
            Ok(Opened::Answered(reply))
        }
    }
}

/// The call that the words ask for of a file with these bytes, or the answer where there is none.
pub fn open_file(
    alloc: Global,
    file: &[u8],
    procedure: &Text,
    arguments: &Texts,
) -> Result<Opened, OutOfMemory>
    ensures { IfOk result (IsOpened file.now procedure.now arguments.now) }
{
    match read_file(alloc, file) {
        Ok(theory) => open_theory(alloc, theory, procedure, arguments),
        Err(why) => Ok(Opened::Answered(answered(alloc, why)?)),
    }
}

// The answer of a run that ended and left this heap, in any order of the roots.
fn ended(
    alloc: Global,
    steps: u32,
    results: &[ProgVar],
    values: &Values,
    heap: &NodeHeap,
) -> Result<Reply, OutOfMemory>
    ensures { (left : Trees) → SameAt grove heap.now.grove left
        → IfOk result (λ r. outcome_answer (map prog_var_of results.now)
        (outcomes.ends steps (map value_seen values.now) left) ≡ Some (r.status, r.output)) }
{
    let text = heap.write_text(alloc)?;
    let output = ended_text(alloc, steps, results, values.as_slice(), &text)?;
    let status = Status::Done;
    Ok(Reply { status, output })
}

/// The answer of an outcome of a run that left this heap.
pub fn outcome_reply(
    alloc: Global,
    results: &[ProgVar],
    outcome: HeapOutcome,
    heap: &NodeHeap,
) -> Result<Reply, OutOfMemory>
    ensures { (o : outcomes.Outcome) → CameOut outcome heap.now.grove o → IfOk result (λ r.
        outcome_answer (map prog_var_of results.now) o ≡ Some (r.status, r.output)) }
{
    match outcome {
        HeapOutcome::Ended { steps, values } => ended(alloc, steps, results, &values, heap),
        HeapOutcome::Fault {
            kind,
            steps,
            command,
        } => {
            let report = Report::Faulted {
                kind,
                steps,
                command,
            };
            reported(alloc, Status::Faulted, report)
        }
        HeapOutcome::Spent { steps } => {
            reported(alloc, Status::FuelSpent, Report::FuelSpent { steps })
        }
        HeapOutcome::Limit(kind) => reported(alloc, Status::Limit(kind), Report::Limit { kind }),
        HeapOutcome::OutOfMemory => Err(OutOfMemory),
    }
}

// The answer of a call on a heap.
fn plain_reply(
    alloc: Global,
    theory: &Theory,
    call: Call,
    heap: NodeHeap,
    fuel: u32,
) -> Result<Reply, OutOfMemory>
    requires { FitsCall theory.now call }
    ensures { (p : Procedure) → slice_get theory.now.procedures call.procedure ≡ Some p
        → (document : Trees) → SameAt grove document heap.grove
        → IfOk result (λ r. outcome_answer (procedure_of p).results
        (outcome_on (theory_of theory.now) (procedure_of p) (map value_seen call.values) fuel
        document) ≡ Some (r.status, r.output)) }
{
    let mut heap = heap;
    let Call { procedure, values } = call;
    let Some(called) = theory.procedures.get(procedure) else {
        unreachable!();
    };
    let outcome = run_heap(alloc, theory, procedure, &mut heap, values, fuel);
    outcome_reply(alloc, called.results.as_slice(), outcome, &heap)
}

// The answer of a call on a heap, whose changes the observers are told.
fn told_reply(
    alloc: Global,
    theory: &Theory,
    call: Call,
    heap: NodeHeap,
    fuel: u32,
    observers: &mut Vec<Box<dyn Observer>>,
) -> Result<Reply, OutOfMemory>
    requires { FitsCall theory.now call }
    ensures answer { (p : Procedure) → slice_get theory.now.procedures call.procedure ≡ Some p
        → (document : Trees) → SameAt grove document heap.grove
        → IfOk result (λ r. traced_answer (listeners_of face after says observers.old.items)
        (changes_on (theory_of theory.now) (procedure_of p) (map value_seen call.values) document)
        (procedure_of p).results
        (outcome_on (theory_of theory.now) (procedure_of p) (map value_seen call.values) fuel
        document) ≡ Some (r.status, r.output)) }
    ensures heard { (p : Procedure) → slice_get theory.now.procedures call.procedure ≡ Some p
        → (document : Trees) → SameAt grove document heap.grove → refusal document ≡ None
        → HearsWhere
        (GroveRuns (theory_of theory.now) (procedure_of p) (map value_seen call.values) document)
        fuel (status_of result) (listeners_of face after says observers.old.items)
        (listeners_of face after says observers.new.items) }
{
    let mut heap = heap;
    let Call { procedure, values } = call;
    let Some(called) = theory.procedures.get(procedure) else {
        unreachable!();
    };
    let traced = trace_heap(alloc, theory, procedure, &mut heap, values, fuel, observers);
    traced_reply(alloc, called.results.as_slice(), traced, &heap, observers)
}

// The answer of a call on a heap, in each form.
fn heap_reply(
    alloc: Global,
    theory: &Theory,
    call: Call,
    heap: NodeHeap,
    fuel: u32,
    form: RunForm,
    observers: &mut Vec<Box<dyn Observer>>,
) -> Result<Reply, OutOfMemory>
    requires { FitsCall theory.now call }
    ensures answer { (p : Procedure) → slice_get theory.now.procedures call.procedure ≡ Some p
        → (document : Trees) → SameAt grove document heap.grove → refusal document ≡ None
        → IfOk result (λ r. grove_answer (form_of form)
        (listeners_of face after says observers.old.items) (theory_of theory.now) (procedure_of p)
        (map value_seen call.values) fuel document ≡ Some (r.status, r.output)) }
    ensures heard { (p : Procedure) → slice_get theory.now.procedures call.procedure ≡ Some p
        → (document : Trees) → SameAt grove document heap.grove → refusal document ≡ None
        → HeardIn (form_of form)
        (GroveRuns (theory_of theory.now) (procedure_of p) (map value_seen call.values) document)
        fuel (status_of result) (listeners_of face after says observers.old.items)
        (listeners_of face after says observers.new.items) }
{
    match form {
        RunForm::OnlyOutcome => plain_reply(alloc, theory, call, heap, fuel),
        RunForm::WithChanges => told_reply(alloc, theory, call, heap, fuel, observers),
        RunForm::WithVerdicts => watched_reply(alloc, theory, call, heap, fuel),
    }
}

// The answer of a run on the grove that a document spells.
fn run_on(
    alloc: Global,
    theory: &Theory,
    call: Call,
    raw: &RawGrove,
    fuel: u32,
    form: RunForm,
    observers: &mut Vec<Box<dyn Observer>>,
) -> Result<Reply, OutOfMemory>
    requires { FitsCall theory.now call }
    ensures answer { (p : Procedure) → slice_get theory.now.procedures call.procedure ≡ Some p
        → IfOk result (λ r. grove_answer (form_of form)
        (listeners_of face after says observers.old.items) (theory_of theory.now) (procedure_of p)
        (map value_seen call.values) fuel (raw_forest_of raw.now) ≡ Some (r.status, r.output)) }
    ensures heard { (p : Procedure) → slice_get theory.now.procedures call.procedure ≡ Some p
        → HeardIn (form_of form) (GroveRuns (theory_of theory.now) (procedure_of p)
        (map value_seen call.values) (raw_forest_of raw.now)) fuel (status_of result)
        (listeners_of face after says observers.old.items)
        (listeners_of face after says observers.new.items) }
{
    match fit_heap(alloc, raw) {
        Ok(heap) => heap_reply(alloc, theory, call, heap, fuel, form, observers),
        Err(why) => answered(alloc, why),
    }
}

/// The answer of a call on a document with these bytes.
pub fn run_document(
    alloc: Global,
    theory: &Theory,
    call: Call,
    document: &[u8],
    fuel: u32,
    form: RunForm,
    observers: &mut Vec<Box<dyn Observer>>,
) -> Result<Reply, OutOfMemory>
    requires { FitsCall theory.now call }
    ensures answer { IfOk result (λ r. CallAnswer (grove_answer (form_of form)
        (listeners_of face after says observers.old.items)) theory.now call fuel document.now
        r.status r.output) }
    ensures heard { (p : Procedure) → slice_get theory.now.procedures call.procedure ≡ Some p
        → HeardIn (form_of form) (DocumentRuns (theory_of theory.now) (procedure_of p)
        (map value_seen call.values) document.now) fuel (status_of result)
        (listeners_of face after says observers.old.items)
        (listeners_of face after says observers.new.items) }
{
    match read_document(alloc, document) {
        Ok(raw) => run_on(alloc, theory, call, &raw, fuel, form, observers),
        Err(why) => answered(alloc, why),
    }
}

/// The answer of `run` on the bytes of a file and of a document, however many they are: that of the
/// definition, and no other.
pub fn run_bytes(
    alloc: Global,
    file: &[u8],
    procedure: &Text,
    document: &[u8],
    fuel: u32,
    arguments: &Texts,
) -> Result<Reply, OutOfMemory>
    ensures answer { IfOk result (λ r. RunAnswer (grove_answer only_outcome []) (Some document.now)
        file.now procedure.now fuel arguments.now r.status r.output) }
    ensures exactly { (s : Status) (output : List ℕ)
        → RunAnswer (grove_answer only_outcome []) (Some document.now) file.now procedure.now fuel
        arguments.now s output
        → IfOk result (λ r. (r.status ≡ s) × (r.output ≡ output)) }
{
    match open_file(alloc, file, procedure, arguments)? {
        Opened::Called(theory, call) => {
            let mut nobody: Vec<Box<dyn Observer>> = Vec::new(alloc);
            let form = RunForm::OnlyOutcome;
            run_document(alloc, &theory, call, document, fuel, form, &mut nobody)
        }
        Opened::Answered(reply) => Ok(reply),
    }
}
