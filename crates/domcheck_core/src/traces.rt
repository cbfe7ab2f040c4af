// Runs of a file's procedure whose changes are told to observers.
ghost use Rattle.std.specs.Prelude.{◌≡◌, ◌<◌, ℕ, List, Some, length, map, slice_get, IfOk};
ghost use Rattle.model_commands.specs.Theories.{procedures_of};
ghost use Rattle.model_files.specs.FileFaults.{IsWellFormedTheory};
ghost use Rattle.model_limits.specs.Limits.{standard_limits};
ghost use Rattle.model_machine.specs.Changes as model;
ghost use Rattle.model_machine.specs.Fitting.{ValuesFit};
ghost use Rattle.model_machine.specs.Machine.{start};
ghost use Rattle.model_machine.specs.Outcomes as outcomes;
ghost use Rattle.model_machine.specs.Outcomes.{outcome};
ghost use Rattle.model_shapes.specs.Shapes.{SameAt};
ghost use Rattle.model_shapes.specs.Sorts.{grove};
ghost use Rattle.model_shapes.specs.Trees.{Trees};
ghost use Rattle.dom_terms.specs.Terms.{prog_var_of};
ghost use Rattle.dom_terms.specs.Values.{value_seen};
ghost use Rattle.theory_syntax.specs.Theories.{procedure_of, theory_of};
ghost use Rattle.heap_runner.specs.Answers.{Answers};
ghost use Rattle.heap_tracer.specs.Traces.{Traces, Hears};
ghost use Rattle.run_trace.specs.Changes.{change_of};
ghost use Rattle.run_trace.specs.Listeners.{Listener, listeners_of, told_all};
ghost use Rattle.domcheck_core.specs.Answers.{traced_answer, with_trace};
ghost use Rattle.domcheck_core.specs.Calls.{CameOut};

use crate::replies::Reply;
use crate::runs::outcome_reply;
use crate::status::Status;
use dom_terms::{OutOfMemory, ProgVar, Values};
use fault_report::change_lines;
pub use heap_tracer::Traced;
use node_heap::NodeHeap;
use observer_lists::push_lines;
use run_trace::{Change, Observer};
use std::alloc::Global;
use theory_syntax::{Procedure, Theory};

/// Runs the procedure at a place, counted from 0, with these arguments on the grove that the heap
/// stands for, as a run on the heap does, and tells each observer what each step changes, when it
/// is taken. Where memory is refused each was told the first few of the changes. Room for one more
/// change is made before each step.
pub fn trace_heap(
    alloc: Global,
    theory: &Theory,
    procedure: usize,
    heap: &mut NodeHeap,
    arguments: Values,
    fuel: u32,
    observers: &mut Vec<Box<dyn Observer>>,
) -> Traced
    requires well_formed { IsWellFormedTheory (theory_of theory.now) }
    requires procedure { procedure < length theory.now.procedures }
    requires arguments { (started : Procedure)
        → slice_get theory.now.procedures procedure ≡ Some started
        → ValuesFit (procedure_of started).params (map value_seen arguments) }
    ensures outcome { (started : Procedure)
        → slice_get theory.now.procedures procedure ≡ Some started
        → (roots : Trees) → SameAt grove roots heap.old.grove
        → Answers (λ within. outcome standard_limits (procedures_of (theory_of theory.now))
        (procedure_of started).results within 0
        (start (procedure_of started) (map value_seen arguments) roots))
        fuel result.outcome heap.new.grove }
    ensures changes { (started : Procedure)
        → slice_get theory.now.procedures procedure ≡ Some started
        → (roots : Trees) → SameAt grove roots heap.old.grove
        → Traces (λ within. outcome standard_limits (procedures_of (theory_of theory.now))
        (procedure_of started).results within 0
        (start (procedure_of started) (map value_seen arguments) roots))
        (λ steps. model.changes (procedures_of (theory_of theory.now)) steps 0
        (start (procedure_of started) (map value_seen arguments) roots))
        fuel result.outcome heap.new.grove (map change_of result.changes.items) }
    ensures heard { Hears result.outcome (map change_of result.changes.items)
        (listeners_of face after says observers.old.items)
        (listeners_of face after says observers.new.items) }
{
    heap_tracer::trace_heap(alloc, theory, procedure, heap, arguments, fuel, observers)
}

// The same answer with a line for each change before its own, and one for each observer after it.
fn surrounded(
    alloc: Global,
    changes: &[Change],
    reply: Reply,
    observers: &Vec<Box<dyn Observer>>,
) -> Result<Reply, OutOfMemory>
    ensures { (before : List Listener) → listeners_of face after says observers.now.items
        ≡ map (told_all (map change_of changes.now)) before
        → IfOk result (λ r. (r.status, r.output)
        ≡ with_trace before (map change_of changes.now) (reply.status, reply.output)) }
{
    let mut output = change_lines(alloc, changes)?;
    output.append(&reply.output)?;
    push_lines(alloc, &mut output, observers.as_slice())?;
    let status = reply.status;
    Ok(Reply { status, output })
}

/// The answer of a run that left this heap, whose changes the observers were told.
pub fn traced_reply(
    alloc: Global,
    results: &[ProgVar],
    traced: Traced,
    heap: &NodeHeap,
    observers: &Vec<Box<dyn Observer>>,
) -> Result<Reply, OutOfMemory>
    ensures { (o : outcomes.Outcome) → CameOut traced.outcome heap.now.grove o
        → (run : ℕ → outcomes.Outcome) (changes_in : ℕ → List model.Change) (fuel : ℕ)
        → Traces run changes_in fuel traced.outcome heap.now.grove
        (map change_of traced.changes.items)
        → (before : List Listener)
        → Hears traced.outcome (map change_of traced.changes.items) before
        (listeners_of face after says observers.now.items)
        → IfOk result (λ r. traced_answer before changes_in (map prog_var_of results.now) o
        ≡ Some (r.status, r.output)) }
{
    let Traced { outcome, changes } = traced;
    let reply = outcome_reply(alloc, results, outcome, heap)?;
    match reply.status {
        Status::Limit(_) => Ok(reply),
        _ => surrounded(alloc, changes.as_slice(), reply, observers),
    }
}
