// What comes of assignments, choice, loops, local variables and calls.
ghost use Rattle.std.specs.Prelude as plain;
ghost use Rattle.std.specs.Prelude.{◌≡◌, [], ◌∷◌, true, cond as either, map, find, bytes_eq, option_copied, IfOk};
ghost use Rattle.std.specs.Option.{option_map};
ghost use Rattle.model_shapes.specs.Trees.{Trees};
ghost use Rattle.model_terms.specs.Stores as stores;
ghost use Rattle.model_terms.specs.Stores.{value_in, value_of};
ghost use Rattle.model_terms.specs.TermSorts.{evaluates};
ghost use Rattle.model_terms.specs.Conditions.{condition_sorted, terms_of_cond, truth_of};
ghost use Rattle.model_commands.specs.Commands as commands;
ghost use Rattle.model_commands.specs.Sorting.{Receive};
ghost use Rattle.model_commands.specs.Theories.{procedures_of, procedure_named};
ghost use Rattle.model_machine.specs.Machine as machine;
ghost use Rattle.model_machine.specs.Machine.{Piece, run, becomes, entering, returning, calling};
ghost use Rattle.model_machine.specs.Outcomes.{returns_in, step_limit};
ghost use Rattle.model_limits.specs.Limits.{standard_limits};
ghost use Rattle.model_terms.specs.TermLimits.{term_limit, terms_limit};
ghost use Rattle.dom_terms.specs.Evaluation.{Reports};
ghost use Rattle.dom_terms.specs.Sorts.{value_sort_of};
ghost use Rattle.dom_terms.specs.Terms.{prog_var_of, term_of};
ghost use Rattle.dom_terms.specs.Conditions.{cond_of};
ghost use Rattle.dom_terms.specs.Stores.{store_of};
ghost use Rattle.theory_syntax.specs.Commands.{block_of};
ghost use Rattle.theory_syntax.specs.Theories.{theory_of};
ghost use Rattle.dom_meaning.specs.Faults.{TellsLimit};
ghost use Rattle.dom_meaning.specs.OwnTerms.{Fed, Enters};
ghost use Rattle.dom_meaning.specs.Effects.{move_of, nameless_of, TellsNone};

use crate::effects::Effect;
use crate::faults::StepFault;
use dom_terms::limits::DEPTH;
use dom_terms::{
    Cond, Copied, EvalFault, LimitKind, OutOfMemory, ProgVar, Store, Term, Terms, Text, Vars, eval,
    holds, same_text, value_or_default,
};
use std::alloc::Global;
use theory_syntax::{Block, Procedure, Theory};

/// The variable is to be set to the value of the term.
pub(crate) fn assigned<'a>(
    alloc: Global,
    variable: &'a ProgVar,
    value: &Term,
    store: &Store,
) -> Result<Effect<'a>, StepFault>
    requires { evaluates (value_sort_of variable.now.sort) (term_of value.now) ≡ true }
    ensures moves { IfOk result (λ effect. (piece : Piece) (grove : Trees)
        → move_of effect piece (store_of store.now) grove
        ≡ becomes [] (stores.set (prog_var_of variable.now)
        (value_of (store_of store.now) (term_of value.now)) (store_of store.now)) grove) }
    ensures change { IfOk result TellsNone }
    ensures limit { TellsLimit result
        (term_limit standard_limits (store_of store.now) (term_of value.now)) }
{
    Ok(Effect::Set(variable, eval(alloc, value, store)?))
}

/// The block, after which the variable is given its value back. The variable has its default in
/// the block.
pub(crate) fn opened<'a>(
    alloc: Global,
    variable: &'a ProgVar,
    block: &'a Block,
    store: &Store,
) -> Result<Effect<'a>, OutOfMemory>
    ensures moves { IfOk result (λ effect. (piece : Piece) (grove : Trees)
        → move_of effect piece (store_of store.now) grove
        ≡ becomes (run (commands.block (block_of block.now))
        ∷ machine.restore (prog_var_of variable.now)
        (value_in (store_of store.now) (prog_var_of variable.now)) ∷ [])
        (stores.set (prog_var_of variable.now) (stores.default (value_sort_of variable.now.sort))
        (store_of store.now)) grove) }
    ensures change { IfOk result TellsNone }
{
    let old = value_or_default(alloc, variable, store)?;
    Ok(Effect::Local(variable, old, block))
}

/// The block that the condition chooses.
pub(crate) fn chosen<'a>(
    alloc: Global,
    cond: &Cond,
    first: &'a Block,
    second: &'a Block,
    store: &Store,
) -> Result<Effect<'a>, StepFault>
    requires { condition_sorted (cond_of cond.now) ≡ true }
    ensures moves { IfOk result (λ effect. (piece : Piece) (grove : Trees)
        → move_of effect piece (store_of store.now) grove
        ≡ becomes (run (commands.block (either (truth_of (store_of store.now) (cond_of cond.now))
        (block_of first.now) (block_of second.now))) ∷ []) (store_of store.now) grove) }
    ensures change { IfOk result TellsNone }
    ensures limit { TellsLimit result (terms_limit standard_limits (store_of store.now)
        (terms_of_cond (cond_of cond.now))) }
{
    if holds(alloc, cond, store)? {
        return Ok(Effect::Block(first));
    }
    Ok(Effect::Block(second))
}

/// The block before the loop where the condition holds, and nothing else.
pub(crate) fn repeated<'a>(
    alloc: Global,
    cond: &Cond,
    block: &'a Block,
    store: &Store,
) -> Result<Effect<'a>, StepFault>
    requires { condition_sorted (cond_of cond.now) ≡ true }
    ensures moves { IfOk result (λ effect. (piece : Piece) (grove : Trees)
        → move_of effect piece (store_of store.now) grove
        ≡ becomes (either (truth_of (store_of store.now) (cond_of cond.now))
        (run (commands.block (block_of block.now)) ∷ piece ∷ []) []) (store_of store.now) grove) }
    ensures change { IfOk result TellsNone }
    ensures limit { TellsLimit result (terms_limit standard_limits (store_of store.now)
        (terms_of_cond (cond_of cond.now))) }
{
    if holds(alloc, cond, store)? {
        return Ok(Effect::Again(block));
    }
    Ok(Effect::Nothing)
}

/// The body of the procedure with the name, and after it the return. The store is that of the
/// callee: its parameters with the values of the arguments. So many returns are pending.
#[tactic(auto, using(crate::proofs::Calls::call_rules))]
pub(crate) fn called<'a>(
    alloc: Global,
    theory: &'a Theory,
    results: &'a Vars,
    name: &Text,
    arguments: &Terms,
    returns: usize,
    store: &Store,
) -> Result<Effect<'a>, StepFault>
    requires { Enters (procedure_named name.now (procedures_of (theory_of theory.now)))
        (map term_of arguments.now) }
    ensures moves { IfOk result (λ effect. (piece : Piece) (grove : Trees)
        → move_of effect piece (store_of store.now) grove
        ≡ calling (procedure_named name.now (procedures_of (theory_of theory.now)))
        (map prog_var_of results.now) (map term_of arguments.now) (store_of store.now) grove) }
    ensures change { IfOk result TellsNone }
    ensures limit { (rest : plain.List Piece) (grove : Trees) → returns_in rest ≡ returns
        → TellsLimit result (step_limit standard_limits
        (run (commands.call (map prog_var_of results.now) name.now (map term_of arguments.now)))
        rest (store_of store.now) grove) }
{
    let Some(procedure) = procedure_with(theory, name) else {
        unreachable!();
    };
    let params = procedure.params.as_slice();
    let callee = entered(alloc, params, arguments.as_slice(), store)?;
    if returns >= DEPTH {
        return Err(StepFault::Limit(LimitKind::Depth));
    }
    Ok(Effect::Call(procedure, results, callee))
}

// The first procedure with the name.
#[tactic(auto, using(crate::proofs::Calls::found_by_name))]
fn procedure_with<'a>(theory: &'a Theory, name: &Text) -> Option<&'a Procedure>
    ensures { option_map nameless_of (option_copied result)
        ≡ procedure_named name.now (procedures_of (theory_of theory.now)) }
{
    first_named(theory.procedures.as_slice(), name)
}

// The first of these with the name.
fn first_named<'a>(procedures: &'a [Procedure], name: &Text) -> Option<&'a Procedure>
    ensures { option_copied result ≡ find (λ procedure. bytes_eq name.now procedure.name)
        procedures.now }
{
    procedures
        .iter()
        .find(|procedure| same_text(name, &procedure.name))
}

// The store of a callee: the parameters with the values of the arguments, which are evaluated from
// left to right.
fn entered(
    alloc: Global,
    params: &[ProgVar],
    arguments: &[Term],
    store: &Store,
) -> Result<Store, EvalFault>
    requires { Fed (map prog_var_of params.now) (map term_of arguments.now) }
    ensures store { IfOk result (λ callee. store_of callee
        ≡ entering (map prog_var_of params.now) (map term_of arguments.now) (store_of store.now)) }
    ensures limit { Reports result (terms_limit standard_limits (store_of store.now)
        (map term_of arguments.now)) }
{
    let [param, params @ ..] = params else {
        return Ok(Store::new(alloc));
    };
    let [argument, arguments @ ..] = arguments else {
        unreachable!();
    };
    let value = eval(alloc, argument, store)?;
    let mut callee = entered(alloc, params, arguments, store)?;
    callee.set(param.copy(alloc)?, value)?;
    Ok(callee)
}

/// The caller's store, with the values of the callee's results in the variables that take them.
pub fn with_results(
    alloc: Global,
    results: &[ProgVar],
    variables: &[ProgVar],
    callee: &Store,
    caller: &Store,
) -> Result<Store, OutOfMemory>
    requires { Receive (map prog_var_of results.now) (map prog_var_of variables.now) }
    ensures { IfOk result (λ store. store_of store
        ≡ returning (map prog_var_of results.now) (map prog_var_of variables.now)
        (store_of callee.now) (store_of caller.now)) }
{
    let [result, results @ ..] = results else {
        return caller.copy(alloc);
    };
    let [variable, variables @ ..] = variables else {
        unreachable!();
    };
    let mut store = with_results(alloc, results, variables, callee, caller)?;
    store.set(
        variable.copy(alloc)?,
        value_or_default(alloc, result, callee)?,
    )?;
    Ok(store)
}
