// A run on a heap, step by step.
ghost use Rattle.std.specs.Prelude.{◌≡◌, ◌<◌, ◌↔◌, [], length, map, option_map, slice_get, Some, IfOk, IsTrue};
ghost use Rattle.model_shapes.specs.Shapes.{Shaped};
ghost use Rattle.model_shapes.specs.Sorts.{shape};
ghost use Rattle.model_shapes.specs.Sorts as sorts;
ghost use Rattle.model_shapes.specs.Trees.{Trees};
ghost use Rattle.model_commands.specs.Theories.{procedures_of};
ghost use Rattle.model_files.specs.FileFaults.{IsWellFormedTheory};
ghost use Rattle.model_groves.specs.Picks.{next_pick};
ghost use Rattle.model_machine.specs.Machine as model;
ghost use Rattle.model_machine.specs.Fitting.{ValuesFit, FitsConfig};
ghost use Rattle.model_machine.specs.Outcomes.{values_in};
ghost use Rattle.dom_terms.specs.Stores.{store_of};
ghost use Rattle.dom_terms.specs.Values.{value_seen};
ghost use Rattle.theory_syntax.specs.Theories.{procedure_of, theory_of};
ghost use Rattle.run_trace.specs.Changes.{change_of as change_seen};
ghost use Rattle.dom_meaning.specs.Effects.{change_in, FitsStore};
ghost use Rattle.heap_runner.specs.Effects.{GoesOn};
ghost use Rattle.heap_runner.specs.RunViews.{config_on};
ghost use Rattle.heap_runner.specs.Pieces.{first_seen};
ghost use Rattle.heap_runner.specs.Runs.{Advanced};
ghost use Rattle.heap_runner.specs.Told.{IsCommand, FaultTold, WentOn, done_with, refused_with};

use crate::effects::piece_effect;
use crate::pieces::{First, Piece};
use crate::placing::put;
use crate::stack::Stack;
use dom_meaning::{Effect, FaultKind, StepFault, holding, values_of};
use dom_terms::{Copied, LimitKind, OutOfMemory, Store, Values, Vars};
use node_heap::NodeHeap;
use run_trace::Change;
use std::alloc::Global;
use std::marker::Model;
use theory_syntax::{Command, Procedure, Theory};

/// A run of a procedure on a heap: what is pending, the store, the result variables and the steps
/// taken.
#[derive(Drop)]
pub struct HeapRun<'a> {
    stack: Stack<'a>,
    store: Store,
    results: &'a Vars,
    steps: u32,
}

impl<'a> Model for HeapRun<'a> {
    ghost use Rattle.std.specs.Prelude.{map};
    ghost use Rattle.dom_terms.specs.Terms.{prog_var_of};
    ghost use Rattle.heap_runner.specs.RunViews.{RunView, run_code};

    ghost Value = { RunView };

    ghost coded = { run_code };

    ghost view = { λ run. record {
      pending = run.stack.pieces;
      store = run.store;
      results = map prog_var_of run.results.now;
      steps = run.steps;
    } };
}

/// What came of a step of a run on a heap.
#[derive(Debug, Drop)]
pub enum HeapStep {
    /// The step was taken, with this change of the grove.
    Next { change: Option<Change> },
    /// Nothing is pending: the values of the results in order.
    Done { values: Values },
    /// A command faults: why, and the command.
    Fault { kind: FaultKind, command: Command },
    /// The step would pass a limit.
    Limit(LimitKind),
    /// Memory was refused.
    OutOfMemory,
}

impl<'a> HeapRun<'a> {
    /// The run of the procedure at a place, counted from 0, with these arguments.
    pub fn begin(
        alloc: Global,
        theory: &'a Theory,
        procedure: usize,
        arguments: Values,
    ) -> Result<HeapRun<'a>, OutOfMemory>
        requires well_formed { IsWellFormedTheory (theory_of theory.now) }
        requires procedure { procedure < length theory.now.procedures }
        requires arguments { (started : Procedure)
            → slice_get theory.now.procedures procedure ≡ Some started
            → ValuesFit (procedure_of started).params (map value_seen arguments) }
        ensures begins { IfOk result (λ run. (started : Procedure)
            → slice_get theory.now.procedures procedure ≡ Some started → (roots : Trees)
            → config_on run roots
            ≡ model.start (procedure_of started) (map value_seen arguments) roots) }
        ensures results { IfOk result (λ run. (started : Procedure)
            → slice_get theory.now.procedures procedure ≡ Some started
            → run.results ≡ (procedure_of started).results) }
        ensures steps { IfOk result (λ run. run.steps ≡ 0) }
        ensures fits { IfOk result (λ run. (roots : Trees) → Shaped (shape sorts.grove) roots
            → FitsConfig (procedures_of (theory_of theory.now)) (config_on run roots)) }
    {
        let Some(started) = theory.procedures.get(procedure) else {
            unreachable!();
        };
        begun(alloc, started, &arguments)
    }

    /// Whether nothing is pending.
    pub fn is_done(&self) -> bool
        ensures { IsTrue result ↔ (self.now.pending ≡ []) }
    {
        self.stack.first().is_none()
    }

    /// Takes one step, and tells its change. A limit comes before a fault. After every answer but
    /// Next the run and the heap are as they were; where memory was refused the heap may have more
    /// room.
    pub fn advance(&mut self, alloc: Global, theory: &'a Theory, heap: &mut NodeHeap) -> HeapStep
        requires well_formed { IsWellFormedTheory (theory_of theory.now) }
        requires fits { FitsConfig (procedures_of (theory_of theory.now))
            (config_on self.old heap.old.grove) }
        requires steps { self.old.steps < u32.MAX }
        ensures advanced { Advanced (procedures_of (theory_of theory.now)) self.old self.new
            heap.old.grove heap.new.grove result }
        ensures fits { FitsConfig (procedures_of (theory_of theory.now))
            (config_on self.new heap.new.grove) }
    {
        let returns = self.stack.returns();
        let Some(first) = self.stack.first() else {
            return done(self.values(alloc));
        };
        match piece_effect(alloc, theory, first, returns, &mut self.store, heap) {
            Ok(effect) => match effect {
                Effect::Fault(kind) => faulted(alloc, kind, first),
                _ => self.go_on(alloc, effect),
            },
            Err(fault) => refused(fault),
        }
    }

    // Puts what the effect says in place, and counts the step.
    fn go_on(&mut self, alloc: Global, effect: Effect<'a>) -> HeapStep
        requires goes_on { GoesOn effect }
        requires fits { FitsStore effect }
        requires steps { self.old.steps < u32.MAX }
        ensures { WentOn effect.entry self.old self.new result }
    {
        let steps = self.steps + 1;
        let change = change_of(steps, &effect);
        match put(alloc, effect, &mut self.stack, &mut self.store) {
            Ok(()) => {
                self.steps = steps;
                HeapStep::Next { change }
            }
            Err(OutOfMemory) => HeapStep::OutOfMemory,
        }
    }

    /// The values of the results, in order.
    pub fn values(&self, alloc: Global) -> Result<Values, OutOfMemory>
        ensures { IfOk result (λ values. map value_seen values
            ≡ values_in self.now.results (store_of self.now.store)) }
    {
        values_of(alloc, self.results, &self.store)
    }
}

// The run of the procedure with these arguments.
fn begun<'a>(
    alloc: Global,
    started: &'a Procedure,
    arguments: &Values,
) -> Result<HeapRun<'a>, OutOfMemory>
    requires { ValuesFit (procedure_of started.now).params (map value_seen arguments.now) }
    ensures begins { IfOk result (λ run. (roots : Trees) → config_on run roots
        ≡ model.start (procedure_of started.now) (map value_seen arguments.now) roots) }
    ensures results { IfOk result (λ run. run.results ≡ (procedure_of started.now).results) }
    ensures steps { IfOk result (λ run. run.steps ≡ 0) }
{
    let store = holding(alloc, started.params.as_slice(), arguments.as_slice())?;
    let mut stack = Stack::new(alloc);
    stack.make_room()?;
    stack.push(Piece::Commands(&started.body, &[]));
    Ok(HeapRun {
        stack,
        store,
        results: &started.results,
        steps: 0,
    })
}

// What comes of a run that is at its end.
fn done(values: Result<Values, OutOfMemory>) -> HeapStep
    ensures { result ≡ done_with values }
{
    match values {
        Ok(values) => HeapStep::Done { values },
        Err(_) => HeapStep::OutOfMemory,
    }
}

// What comes of a step that isn't taken.
fn refused(fault: StepFault) -> HeapStep
    ensures { result ≡ refused_with fault }
{
    match fault {
        StepFault::Limit(kind) => HeapStep::Limit(kind),
        StepFault::OutOfMemory => HeapStep::OutOfMemory,
    }
}

// The fault of the first piece, which is a command: no other piece faults.
fn faulted(alloc: Global, kind: FaultKind, first: First) -> HeapStep
    requires { IsCommand first }
    ensures { FaultTold kind (first_seen first.entry) result }
{
    let First::Command(command) = first else {
        unreachable!();
    };
    match command.copy(alloc) {
        Ok(command) => HeapStep::Fault { kind, command },
        Err(_) => HeapStep::OutOfMemory,
    }
}

// The change that the effect tells of the step with this number. The number 0 stands for no parent
// and for no child.
fn change_of(step: u32, effect: &Effect) -> Option<Change>
    ensures { option_map change_seen result ≡ change_in step effect.now }
{
    match effect {
        Effect::Created { node, list } => Some(Change::Created {
            step,
            node: *node,
            list: *list,
        }),
        Effect::Moved {
            node,
            from,
            to,
            before,
        } => Some(Change::Moved {
            step,
            node: *node,
            from: from.unwrap_or(0),
            to: *to,
            before: before.unwrap_or(0),
        }),
        Effect::Removed { node, from } => Some(Change::Removed {
            step,
            node: *node,
            from: *from,
        }),
        _ => None,
    }
}
