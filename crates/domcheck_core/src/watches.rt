// Runs of a file's procedure, before and after which its specification is judged.
ghost use Rattle.std.specs.Prelude.{◌≡◌, List, None, Some, map, slice_get, IfOk, IfErr};
ghost use Rattle.std.specs.Option.{option_map};
ghost use Rattle.model_shapes.specs.Trees.{Trees};
ghost use Rattle.model_shapes.specs.Shapes.{SameAt};
ghost use Rattle.model_shapes.specs.Sorts.{shape, grove};
ghost use Rattle.model_shapes.specs.Values as model;
ghost use Rattle.model_formulas.specs.WellSorted.{first_fault};
ghost use Rattle.model_machine.specs.Fitting.{ValuesFit};
ghost use Rattle.model_machine.specs.Outcomes as outcomes;
ghost use Rattle.model_watch.specs.Watchable.{first_unwatchable};
ghost use Rattle.model_watch.specs.Watching.{is_met};
ghost use Rattle.model_answers.specs.Output as output;
ghost use Rattle.dom_terms.specs.Stores.{store_of};
ghost use Rattle.dom_terms.specs.Terms.{prog_var_of};
ghost use Rattle.dom_terms.specs.Values.{value_seen};
ghost use Rattle.formula_syntax.specs.Formulas.{formula_of};
ghost use Rattle.theory_syntax.specs.Theories.{procedure_of, theory_of};
ghost use Rattle.watch_laws.specs.WatchedStores.{before_store, with_values};
ghost use Rattle.domcheck_core.specs.Answers.{watching_refusal, judging_refusal, between};
ghost use Rattle.domcheck_core.specs.Answers.{judged_answer, watched_answer, outcome_on};
ghost use Rattle.domcheck_core.specs.Calls.{FitsCall, CameOut, ResultsFit};
ghost use Rattle.domcheck_core.specs.Refusals.{IsRefusal};

use crate::calls::Call;
use crate::replies::{Refused, Reply, answered};
use crate::runs::outcome_reply;
use crate::status::Status;
use crate::texts::past;
use dom_meaning::holding;
use dom_terms::{
    Copied, DataSort, OutOfMemory, ProgVar, Store, Text, Value, Values, same_data_sort,
};
use dom_watch::{WatchFault, can_be_watched, meets};
use fault_report::Report;
use formula_syntax::Formula;
use heap_runner::{HeapOutcome, run_heap};
use node_heap::NodeHeap;
use std::alloc::Global;
use theory_syntax::{Procedure, Theory};

// The refusal of a requires that can't be judged.
fn pass_requires(formula: &Formula) -> Result<(), Refused>
    ensures passes { IfOk result (λ _. first_unwatchable (formula_of formula.now) ≡ None) }
    ensures told { IfErr result (λ e. IsRefusal e
        (option_map (λ part. (Status.NotWatchable, output.not_watchable_requires_line part))
        (first_unwatchable (formula_of formula.now)))) }
{
    match can_be_watched(formula) {
        Ok(()) => Ok(()),
        Err(WatchFault::NotWatchable { part }) => {
            let report = Report::NotWatchableRequires { part };
            Err(Refused::Answer(Status::NotWatchable, report))
        }
        Err(_) => Err(Refused::OutOfMemory),
    }
}

// The refusal of an ensures that can't be judged.
fn pass_ensures(formula: &Formula) -> Result<(), Refused>
    ensures passes { IfOk result (λ _. first_unwatchable (formula_of formula.now) ≡ None) }
    ensures told { IfErr result (λ e. IsRefusal e
        (option_map (λ part. (Status.NotWatchable, output.not_watchable_ensures_line part))
        (first_unwatchable (formula_of formula.now)))) }
{
    match can_be_watched(formula) {
        Ok(()) => Ok(()),
        Err(WatchFault::NotWatchable { part }) => {
            let report = Report::NotWatchableEnsures { part };
            Err(Refused::Answer(Status::NotWatchable, report))
        }
        Err(_) => Err(Refused::OutOfMemory),
    }
}

// The refusal of a procedure that can't be watched.
fn pass_watchable(procedure: &Procedure) -> Result<(), Refused>
    ensures passes { IfOk result
        (λ _. watching_refusal (procedure_of procedure.now) ≡ None) }
    ensures told { IfErr result
        (λ e. IsRefusal e (watching_refusal (procedure_of procedure.now))) }
{
    if !same_data_sort(procedure.sort, DataSort::Grove) {
        return Err(Refused::Answer(Status::NotWatchable, Report::NotWatchableSort));
    }
    match pass_requires(&procedure.pre) {
        Ok(()) => pass_ensures(&procedure.post),
        Err(why) => Err(why),
    }
}

// Whether the grove of the heap meets the formula in the store, in any order of the roots.
fn judged(alloc: Global, heap: &NodeHeap, store: &Store, formula: &Formula) -> Result<bool, Refused>
    requires watchable { first_unwatchable (formula_of formula.now) ≡ None }
    requires sorted { first_fault (formula_of formula.now) (shape grove) ≡ None }
    ensures passes { (trees : Trees) → SameAt grove trees heap.now.grove → IfOk result (λ _.
        judging_refusal (store_of store.now) trees (formula_of formula.now) ≡ None) }
    ensures met { (trees : Trees) → SameAt grove trees heap.now.grove → IfOk result (λ yes.
        is_met (store_of store.now) trees (formula_of formula.now) ≡ yes) }
    ensures told { (trees : Trees) → SameAt grove trees heap.now.grove → IfErr result (λ e.
        IsRefusal e (judging_refusal (store_of store.now) trees (formula_of formula.now))) }
{
    // a heap stands for a well-formed grove: so says the call for its size
    let _size = heap.len();
    match meets(alloc, heap, store, formula) {
        Ok(yes) => Ok(yes),
        Err(WatchFault::Limit(kind)) => Err(past(kind)),
        Err(WatchFault::OutOfMemory) => Err(Refused::OutOfMemory),
        Err(WatchFault::NotWatchable { .. }) => unreachable!(),
    }
}

// The store in which the variables have these values, and all others what they have in this one.
fn with_values(
    alloc: Global,
    variables: &[ProgVar],
    values: &[Value],
    store: Store,
) -> Result<Store, OutOfMemory>
    requires { ValuesFit (map prog_var_of variables.now) (map value_seen values.now) }
    ensures { IfOk result (λ new. store_of new ≡ with_values (map prog_var_of variables.now)
        (map value_seen values.now) (store_of store)) }
{
    let [variable, variables @ ..] = variables else {
        return Ok(store);
    };
    let [value, values @ ..] = values else {
        unreachable!();
    };
    let mut store = with_values(alloc, variables, values, store)?;
    store.set(variable.copy(alloc)?, value.copy(alloc)?)?;
    Ok(store)
}

// The line of the verdict on requires.
fn requires_line(yes: bool) -> &'static str
    ensures { result.now ≡ output.requires_line yes }
{
    if yes {
        "requires yes\n"
    } else {
        "requires no\n"
    }
}

// The line of the verdict on ensures.
fn ensures_line(yes: bool) -> &'static str
    ensures { result.now ≡ output.ensures_line yes }
{
    if yes { "ensures yes\n" } else { "ensures no\n" }
}

// The same answer between two texts.
fn between(alloc: Global, before: &str, reply: Reply, after: &str) -> Result<Reply, OutOfMemory>
    ensures { IfOk result (λ r. (r.status, r.output)
        ≡ between before.now after.now (reply.status, reply.output)) }
{
    let Reply { status, output } = reply;
    let mut said = output;
    said.append(&Text::from_str(alloc, after)?)?;
    let mut output = Text::from_str(alloc, before)?;
    output.append(&said)?;
    Ok(Reply { status, output })
}

// The answer of a run that ended and left this heap, with the verdict on ensures.
fn ended_reply(
    alloc: Global,
    procedure: &Procedure,
    before: bool,
    store: Store,
    steps: u32,
    values: Values,
    heap: &NodeHeap,
) -> Result<Reply, OutOfMemory>
    requires watchable { first_unwatchable (procedure_of procedure.now).post ≡ None }
    requires sorted { first_fault (procedure_of procedure.now).post (shape grove) ≡ None }
    requires fits { ValuesFit (procedure_of procedure.now).results (map value_seen values) }
    ensures { (arguments : List model.Value)
        → store_of store ≡ before_store (procedure_of procedure.now) arguments
        → (left : Trees) → SameAt grove heap.now.grove left → IfOk result (λ r. judged_answer
        (output.requires_line before) (procedure_of procedure.now) arguments
        (outcomes.ends steps (map value_seen values) left) ≡ Some (r.status, r.output)) }
{
    let results = procedure.results.as_slice();
    let store = with_values(alloc, results, values.as_slice(), store)?;
    match judged(alloc, heap, &store, &procedure.post) {
        Ok(after) => {
            let outcome = HeapOutcome::Ended { steps, values };
            let reply = outcome_reply(alloc, results, outcome, heap)?;
            between(alloc, requires_line(before), reply, ensures_line(after))
        }
        Err(why) => answered(alloc, why),
    }
}

// The answer of a run before which requires was judged so.
fn judged_reply(
    alloc: Global,
    procedure: &Procedure,
    before: bool,
    store: Store,
    outcome: HeapOutcome,
    heap: &NodeHeap,
) -> Result<Reply, OutOfMemory>
    requires watchable { first_unwatchable (procedure_of procedure.now).post ≡ None }
    requires sorted { first_fault (procedure_of procedure.now).post (shape grove) ≡ None }
    requires fits { ResultsFit (procedure_of procedure.now).results outcome }
    ensures { (arguments : List model.Value)
        → store_of store ≡ before_store (procedure_of procedure.now) arguments
        → (o : outcomes.Outcome) → CameOut outcome heap.now.grove o → IfOk result (λ r.
        judged_answer (output.requires_line before) (procedure_of procedure.now) arguments o
        ≡ Some (r.status, r.output)) }
{
    match outcome {
        HeapOutcome::Ended { steps, values } => {
            ended_reply(alloc, procedure, before, store, steps, values, heap)
        }
        outcome => {
            let reply = outcome_reply(alloc, procedure.results.as_slice(), outcome, heap)?;
            match reply.status {
                Status::Limit(_) => Ok(reply),
                _ => between(alloc, requires_line(before), reply, ""),
            }
        }
    }
}

/// The answer of a call on a heap, before and after which the procedure's specification is judged.
pub fn watched_reply(
    alloc: Global,
    theory: &Theory,
    call: Call,
    heap: NodeHeap,
    fuel: u32,
) -> Result<Reply, OutOfMemory>
    requires { FitsCall theory.now call }
    ensures { (p : Procedure) → slice_get theory.now.procedures call.procedure ≡ Some p
        → (document : Trees) → SameAt grove document heap.grove
        → IfOk result (λ r. watched_answer (procedure_of p) (map value_seen call.values) document
        (outcome_on (theory_of theory.now) (procedure_of p) (map value_seen call.values) fuel
        document) ≡ Some (r.status, r.output)) }
{
    let mut heap = heap;
    let Call { procedure, values } = call;
    let Some(called) = theory.procedures.get(procedure) else {
        unreachable!();
    };
    if let Err(why) = pass_watchable(called) {
        return answered(alloc, why);
    }
    let store = holding(alloc, called.params.as_slice(), values.as_slice())?;
    match judged(alloc, &heap, &store, &called.pre) {
        Ok(before) => {
            let outcome = run_heap(alloc, theory, procedure, &mut heap, values, fuel);
            judged_reply(alloc, called, before, store, outcome, &heap)
        }
        Err(why) => answered(alloc, why),
    }
}
