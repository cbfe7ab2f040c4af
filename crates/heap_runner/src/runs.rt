// Runs on a heap within their fuel.
ghost use Rattle.std.specs.Prelude.{◌≡◌, ◌<◌, ◌≤◌, ℕ, length, map, slice_get};
ghost use Rattle.std.specs.Prelude.{Some};
ghost use Rattle.model_commands.specs.Theories.{procedures_of};
ghost use Rattle.model_files.specs.FileFaults.{IsWellFormedTheory};
ghost use Rattle.model_limits.specs.Limits.{standard_limits};
ghost use Rattle.model_machine.specs.Machine as model;
ghost use Rattle.model_machine.specs.Fitting.{ValuesFit, FitsConfig};
ghost use Rattle.model_machine.specs.Outcomes as outcomes;
ghost use Rattle.model_machine.specs.Outcomes.{outcome, ends_at};
ghost use Rattle.model_shapes.specs.Trees.{Trees};
ghost use Rattle.model_shapes.specs.Shapes.{SameAt};
ghost use Rattle.model_shapes.specs.Sorts as sorts;
ghost use Rattle.dom_terms.specs.Stores.{store_of};
ghost use Rattle.dom_terms.specs.Values.{value_seen};
ghost use Rattle.theory_syntax.specs.Theories.{procedure_of, theory_of};
ghost use Rattle.heap_runner.specs.Answers.{Answers, Leaves};
ghost use Rattle.heap_runner.specs.RunViews.{config_on};
ghost use Rattle.heap_runner.specs.Reached.{Reached};

use crate::advancing::{HeapRun, HeapStep};
use crate::outcomes::HeapOutcome;
use dom_terms::Values;
use node_heap::NodeHeap;
use std::alloc::Global;
use theory_syntax::{Procedure, Theory};

/// Runs the procedure at a place, counted from 0, with these arguments on the grove that the heap
/// stands for, in any order of its roots, for at most `fuel` steps. A new node takes one more than
/// the greatest node number, and one more than the greatest list number, of the grove. Before each
/// step it is asked, in this order, whether nothing is pending, whether the fuel is spent, and
/// whether a limit is passed: Number or Text of the terms of the first piece, then Nodes or Depth,
/// then Identifier. At every answer the heap stands for the grove of the steps taken, up to the
/// order of its roots.
pub fn run_heap(
    alloc: Global,
    theory: &Theory,
    procedure: usize,
    heap: &mut NodeHeap,
    arguments: Values,
    fuel: u32,
) -> HeapOutcome
    requires well_formed { IsWellFormedTheory (theory_of theory.now) }
    requires procedure { procedure < length theory.now.procedures }
    requires arguments { (started : Procedure)
        → slice_get theory.now.procedures procedure ≡ Some started
        → ValuesFit (procedure_of started).params (map value_seen arguments) }
    ensures { (started : Procedure) → slice_get theory.now.procedures procedure ≡ Some started
        → (roots : Trees) → SameAt sorts.grove roots heap.old.grove
        → Answers (λ within. outcome standard_limits (procedures_of (theory_of theory.now))
        (procedure_of started).results within 0
        (model.start (procedure_of started) (map value_seen arguments) roots))
        fuel result heap.new.grove }
{
    // a heap stands for a well-formed grove: so says the call for its size
    let _size = heap.len();
    match HeapRun::begin(alloc, theory, procedure, arguments) {
        Ok(run) => run_from(alloc, theory, run, heap, fuel),
        Err(_) => HeapOutcome::OutOfMemory,
    }
}

// Runs on, for at most `fuel` steps.
fn run_from<'a>(
    alloc: Global,
    theory: &'a Theory,
    mut run: HeapRun<'a>,
    heap: &mut NodeHeap,
    fuel: u32,
) -> HeapOutcome
    requires well_formed { IsWellFormedTheory (theory_of theory.now) }
    requires fits { FitsConfig (procedures_of (theory_of theory.now))
        (config_on run heap.old.grove) }
    requires steps { run.steps ≡ 0 }
    ensures { (runs : ℕ → outcomes.Outcome)
        → Reached runs (procedures_of (theory_of theory.now)) (run.entry).results 0
        (config_on (run.entry) heap.old.grove)
        → Answers runs fuel result heap.new.grove }
{
    for steps in 0..fuel {
        match run.advance(alloc, theory, heap) {
            HeapStep::Next { .. } => (),
            HeapStep::Done { values } => return HeapOutcome::Ended { steps, values },
            HeapStep::Fault { kind, command } => {
                return HeapOutcome::Fault {
                    kind,
                    steps,
                    command,
                };
            }
            HeapStep::Limit(kind) => return HeapOutcome::Limit(kind),
            HeapStep::OutOfMemory => return HeapOutcome::OutOfMemory,
        }
    }
    if run.is_done() {
        return ended(alloc, &run, fuel);
    }
    HeapOutcome::Spent { steps: fuel }
}

// The end of a run.
fn ended(alloc: Global, run: &HeapRun, steps: u32) -> HeapOutcome
    ensures { (runs : ℕ → outcomes.Outcome) (fuel : ℕ) (left : model.Config) (trees : Trees)
        → left.store ≡ store_of run.now.store → steps ≤ fuel
        → runs fuel ≡ ends_at run.now.results steps left
        → Leaves (runs steps) trees → SameAt sorts.grove trees left.grove
        → Answers runs fuel result trees }
{
    match run.values(alloc) {
        Ok(values) => HeapOutcome::Ended { steps, values },
        Err(_) => HeapOutcome::OutOfMemory,
    }
}
