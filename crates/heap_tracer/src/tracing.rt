// Runs on a heap whose changes are told.
ghost use Rattle.std.specs.Prelude.{◌≡◌, ◌<◌, ◌+◌, ℕ, List, [], length, map, slice_get};
ghost use Rattle.std.specs.Prelude.{Some, IfOk, MatchResult};
ghost use Rattle.model_commands.specs.Theories.{Procedures, procedures_of};
ghost use Rattle.model_files.specs.FileFaults.{IsWellFormedTheory};
ghost use Rattle.model_limits.specs.Limits.{standard_limits};
ghost use Rattle.model_machine.specs.Changes as model;
ghost use Rattle.model_machine.specs.Fitting.{ValuesFit, FitsConfig};
ghost use Rattle.model_machine.specs.Machine.{start};
ghost use Rattle.model_machine.specs.Outcomes.{Outcome, outcome};
ghost use Rattle.model_shapes.specs.Trees.{Trees};
ghost use Rattle.model_shapes.specs.Shapes.{SameAt};
ghost use Rattle.model_shapes.specs.Sorts.{grove};
ghost use Rattle.dom_terms.specs.Values.{value_seen};
ghost use Rattle.theory_syntax.specs.Theories.{procedure_of, theory_of};
ghost use Rattle.heap_runner.specs.Answers.{Answers};
ghost use Rattle.heap_runner.specs.RunViews.{config_on};
ghost use Rattle.run_trace.specs.Changes.{change_of};
ghost use Rattle.run_trace.specs.Listeners.{Listener, listeners_of, told_all};
ghost use Rattle.heap_tracer.specs.Traces.{Traces, Hears, Follows};

use dom_terms::{OutOfMemory, Values};
use heap_runner::{HeapOutcome, HeapRun, HeapStep};
use node_heap::NodeHeap;
use observer_lists::tell_each;
use run_trace::{Changes, Observer};
use std::alloc::Global;
use theory_syntax::{Procedure, Theory};

/// How a run on a heap came out, and what it changed.
#[derive(Drop)]
pub struct Traced {
    /// How it came out.
    pub outcome: HeapOutcome,
    /// The changes of the steps taken, in their order.
    pub changes: Changes,
}

/// Runs the procedure at a place, counted from 0, with these arguments on the grove that the heap
/// stands for, as a run on the heap does, and tells each observer what each step changes, when it
/// is taken. Where memory is refused each was told the first few of the changes. Room for one more
/// change is made before each step.
pub fn trace_heap<O: Observer>(
    alloc: Global,
    theory: &Theory,
    procedure: usize,
    heap: &mut NodeHeap,
    arguments: Values,
    fuel: u32,
    observers: &mut Vec<O>,
) -> Traced
    requires well_formed { IsWellFormedTheory (theory_of theory.now) }
    requires procedure { procedure < length theory.now.procedures }
    requires arguments { (started : Procedure)
        → slice_get theory.now.procedures procedure ≡ Some started
        → ValuesFit (procedure_of started).params (map value_seen arguments) }
    ensures outcome { (started : Procedure)
        → slice_get theory.now.procedures procedure ≡ Some started
        → (roots : Trees) → SameAt grove roots heap.old.grove
        → Answers (λ within. outcome standard_limits (procedures_of (theory_of theory.now))
        (procedure_of started).results within 0
        (start (procedure_of started) (map value_seen arguments) roots))
        fuel result.outcome heap.new.grove }
    ensures changes { (started : Procedure)
        → slice_get theory.now.procedures procedure ≡ Some started
        → (roots : Trees) → SameAt grove roots heap.old.grove
        → Traces (λ within. outcome standard_limits (procedures_of (theory_of theory.now))
        (procedure_of started).results within 0
        (start (procedure_of started) (map value_seen arguments) roots))
        (λ steps. model.changes (procedures_of (theory_of theory.now)) steps 0
        (start (procedure_of started) (map value_seen arguments) roots))
        fuel result.outcome heap.new.grove (map change_of result.changes.items) }
    ensures heard { Hears result.outcome (map change_of result.changes.items)
        (listeners_of O.face O.after O.says observers.old.items)
        (listeners_of O.face O.after O.says observers.new.items) }
{
    // a heap stands for a well-formed grove: so says the call for its size
    let _size = heap.len();
    match HeapRun::begin(alloc, theory, procedure, arguments) {
        Ok(run) => trace_from(alloc, theory, run, heap, fuel, observers),
        Err(OutOfMemory) => Traced {
            outcome: HeapOutcome::OutOfMemory,
            changes: Vec::new(alloc),
        },
    }
}

// Traces the run from its beginning.
fn trace_from<'a, O: Observer>(
    alloc: Global,
    theory: &'a Theory,
    run: HeapRun<'a>,
    heap: &mut NodeHeap,
    fuel: u32,
    observers: &mut Vec<O>,
) -> Traced
    requires well_formed { IsWellFormedTheory (theory_of theory.now) }
    requires fits { FitsConfig (procedures_of (theory_of theory.now))
        (config_on run heap.old.grove) }
    requires none { run.steps ≡ 0 }
    ensures run { (outcomes : ℕ → Outcome) (changes : ℕ → List model.Change)
        → Follows outcomes changes (procedures_of (theory_of theory.now)) run.entry.results 0 []
        (config_on run.entry heap.old.grove)
        → Answers outcomes fuel result.outcome heap.new.grove
        × Traces outcomes changes fuel result.outcome heap.new.grove
        (map change_of result.changes.items) }
    ensures heard { Hears result.outcome (map change_of result.changes.items)
        (listeners_of O.face O.after O.says observers.old.items)
        (listeners_of O.face O.after O.says observers.new.items) }
{
    let mut run = run;
    let mut changes = Vec::new(alloc);
    for steps in 0..fuel {
        let turn = turned(
            alloc,
            theory,
            &mut run,
            heap,
            steps,
            &mut changes,
            observers,
        );
        match turn {
            Ok(()) => (),
            Err(outcome) => return Traced { outcome, changes },
        }
    }
    let outcome = spent(alloc, &run, heap, fuel);
    Traced { outcome, changes }
}

// One turn of a run: it goes on, or how it comes out there.
fn turned<'a, O: Observer>(
    alloc: Global,
    theory: &'a Theory,
    run: &mut HeapRun<'a>,
    heap: &mut NodeHeap,
    steps: u32,
    changes: &mut Changes,
    observers: &mut Vec<O>,
) -> Result<(), HeapOutcome>
    requires well_formed { IsWellFormedTheory (theory_of theory.now) }
    requires fits { FitsConfig (procedures_of (theory_of theory.now))
        (config_on run.old heap.old.grove) }
    requires steps { run.old.steps ≡ steps }
    requires most { steps < 4294967295 }
    ensures run { let ps = procedures_of (theory_of theory.now) in
        (outcomes : ℕ → Outcome) (told : ℕ → List model.Change)
        → Follows outcomes told ps run.old.results steps (map change_of changes.old.items)
        (config_on run.old heap.old.grove)
        → MatchResult result
        (λ _. Follows outcomes told ps run.old.results (steps + 1) (map change_of changes.new.items)
        (config_on run.new heap.new.grove))
        (λ came_out. (fuel : ℕ) → steps < fuel → Answers outcomes fuel came_out heap.new.grove
        × Traces outcomes told fuel came_out heap.new.grove (map change_of changes.new.items)) }
    ensures heard { (before : List Listener)
        → listeners_of O.face O.after O.says observers.old.items
        ≡ map (told_all (map change_of changes.old.items)) before
        → MatchResult result
        (λ _. listeners_of O.face O.after O.says observers.new.items
        ≡ map (told_all (map change_of changes.new.items)) before)
        (λ came_out. Hears came_out (map change_of changes.new.items) before
        (listeners_of O.face O.after O.says observers.new.items)) }
    ensures fits { IfOk result (λ _. FitsConfig (procedures_of (theory_of theory.now))
        (config_on run.new heap.new.grove)) }
    ensures results { IfOk result (λ _. run.new.results ≡ run.old.results) }
    ensures steps { IfOk result (λ _. run.new.steps ≡ steps + 1) }
{
    if changes.reserve(1).is_err() {
        return Err(HeapOutcome::OutOfMemory);
    }
    match run.advance(alloc, theory, heap) {
        HeapStep::Next { change: None } => Ok(()),
        HeapStep::Next {
            change: Some(change),
        } => {
            changes.push_reserved(change);
            match tell_each(alloc, observers, &change) {
                Ok(()) => Ok(()),
                Err(OutOfMemory) => Err(HeapOutcome::OutOfMemory),
            }
        }
        HeapStep::Done { values } => Err(HeapOutcome::Ended { steps, values }),
        HeapStep::Fault { kind, command } => Err(HeapOutcome::Fault {
            kind,
            steps,
            command,
        }),
        HeapStep::Limit(kind) => Err(HeapOutcome::Limit(kind)),
        HeapStep::OutOfMemory => Err(HeapOutcome::OutOfMemory),
    }
}

// How a run comes out that has taken as many steps as it may.
fn spent(alloc: Global, run: &HeapRun, heap: &NodeHeap, fuel: u32) -> HeapOutcome
    ensures { (outcomes : ℕ → Outcome) (told : ℕ → List model.Change) (ps : Procedures)
        (so_far : List model.Change)
        → Follows outcomes told ps run.now.results fuel so_far (config_on run.now heap.now.grove)
        → Answers outcomes fuel result heap.now.grove
        × Traces outcomes told fuel result heap.now.grove so_far }
{
    if !run.is_done() {
        return HeapOutcome::Spent { steps: fuel };
    }
    match run.values(alloc) {
        Ok(values) => HeapOutcome::Ended {
            steps: fuel,
            values,
        },
        Err(_) => HeapOutcome::OutOfMemory,
    }
}
