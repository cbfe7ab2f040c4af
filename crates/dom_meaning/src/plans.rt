// What is planned for the first piece of a configuration, with pieces of its own.
ghost use Rattle.std.specs.Prelude as plain;
ghost use Rattle.std.specs.Prelude.{◌≡◌, ◌≢◌, [], ◌∷◌, Ok, IfOk};
ghost use Rattle.model_shapes.specs.Sorts.{shape};
ghost use Rattle.model_shapes.specs.Sorts as sorts;
ghost use Rattle.model_shapes.specs.Shapes.{Shaped};
ghost use Rattle.model_shapes.specs.Trees.{Trees};
ghost use Rattle.model_terms.specs.Stores.{ProperStore, set, default};
ghost use Rattle.model_commands.specs.Commands as commands;
ghost use Rattle.model_commands.specs.Theories.{procedures_of};
ghost use Rattle.model_files.specs.FileFaults.{IsWellFormedTheory};
ghost use Rattle.model_machine.specs.Machine.{Piece, run, restore, move};
ghost use Rattle.model_machine.specs.Fitting.{FitsPiece};
ghost use Rattle.model_machine.specs.Outcomes.{step_limit};
ghost use Rattle.model_limits.specs.Limits.{standard_limits};
ghost use Rattle.dom_terms.specs.Sorts.{value_sort_of};
ghost use Rattle.dom_terms.specs.Terms.{prog_var_of};
ghost use Rattle.dom_terms.specs.Values.{value_seen};
ghost use Rattle.dom_terms.specs.Stores.{store_of};
ghost use Rattle.grove_data.specs.Trees.{forest_of};
ghost use Rattle.theory_syntax.specs.Commands.{block_of};
ghost use Rattle.theory_syntax.specs.Theories.{theory_of};
ghost use Rattle.dom_meaning.specs.Configs.{piece_of, pieces_in, pick_of};
ghost use Rattle.dom_meaning.specs.Documents.{Kept};
ghost use Rattle.dom_meaning.specs.Faults.{TellsLimit};
ghost use Rattle.dom_meaning.specs.Effects.{Comes, move_of, if_quiet, FitsStore, Counted};
ghost use Rattle.dom_meaning.specs.Plans.{move_planned, pieces_after, store_after, FitsStores, FitsPlan, Takes};
ghost use Rattle.dom_meaning.specs.declared.plans.Plan.TheVariants.{Taken};

use crate::commands::command_effect;
use crate::configurations::{Pending, Pieces};
use crate::effects::Effect;
use crate::faults::{FaultKind, StepFault};
use crate::flow::with_results;
use crate::pieces::{block_piece, body_and_return, commands_in, returns_after};
use crate::plain::Picked;
use dom_terms::{Copied, List, OutOfMemory, ProgVar, Store, Value, default_of};
use std::alloc::Global;
use theory_syntax::{Block, Command, Theory};

/// What is still to be changed in the place of a piece.
#[derive(Drop)]
pub(crate) enum Change {
    /// These pieces stand in its place, the first one last.
    Pieces(Pieces),
    /// These pieces come before it, the first one last, and it stays.
    Before(Pieces),
    /// A variable is set.
    Set(ProgVar, Value),
    /// These pieces stand in its place, and the store is another.
    Switch(Pieces, Store),
}

/// What is planned for a piece.
#[derive(Drop)]
pub(crate) enum Plan {
    /// It is taken away.
    Taken,
    /// A change, in place of the piece.
    Becomes(Change),
    /// A fault.
    Faults(FaultKind),
    /// The pick may not be used.
    BadPick,
}

/// What is planned for the piece, with the others pending after it.
pub(crate) fn planned(
    alloc: Global,
    theory: &Theory,
    piece: &Pending,
    others: &[Pending],
    store: &mut Store,
    document: &mut Picked,
) -> Result<Plan, StepFault>
    requires well_formed { IsWellFormedTheory (theory_of theory.now) }
    requires fits { FitsPiece (procedures_of (theory_of theory.now)) (piece_of piece.now) }
    requires proper { ProperStore (store_of store.old) }
    requires shaped { Shaped (shape sorts.grove) (forest_of document.old.grove) }
    ensures moves { IfOk result (λ plan. move_planned plan (piece_of piece.now)
        (store_of store.new) (forest_of document.new.grove)
        ≡ move (procedures_of (theory_of theory.now)) (pick_of document.old.pick)
        (piece_of piece.now) (store_of store.old) (forest_of document.old.grove)) }
    ensures unchanged { result ≢ Ok Taken
        → (store.new ≡ store.old) × (document.new ≡ document.old) }
    ensures limit { TellsLimit result (step_limit standard_limits (piece_of piece.now)
        (pieces_in others.now) (store_of store.old) (forest_of document.old.grove)) }
    ensures store { IfOk result FitsPlan }
{
    let returns = returns_after(piece, others);
    let effect = piece_effect(alloc, theory, piece, returns, store, document)?;
    Ok(plan_of(alloc, effect, store)?)
}

// What comes of the piece.
#[tactic(auto, using(crate::proofs::TermLaws::received))]
fn piece_effect<'a>(
    alloc: Global,
    theory: &'a Theory,
    piece: &'a Pending,
    returns: usize,
    store: &mut Store,
    document: &mut Picked,
) -> Result<Effect<'a>, StepFault>
    requires well_formed { IsWellFormedTheory (theory_of theory.now) }
    requires fits { FitsPiece (procedures_of (theory_of theory.now)) (piece_of piece.now) }
    requires proper { ProperStore (store_of store.old) }
    requires shaped { Shaped (shape sorts.grove) (forest_of document.old.grove) }
    ensures comes { IfOk result (Comes (λ trees. trees ≡ forest_of document.new.grove)
        (move (procedures_of (theory_of theory.now)) (pick_of document.old.pick)
        (piece_of piece.now) (store_of store.old) (forest_of document.old.grove))
        (piece_of piece.now) (store_of store.new)) }
    ensures kept { Kept if_quiet (λ before after. after ≡ before) result (store.new ≡ store.old)
        document.old document.new }
    ensures limit { (rest : plain.List Piece) → Counted (piece_of piece.now) rest returns
        → TellsLimit result (step_limit standard_limits (piece_of piece.now) rest
        (store_of store.old) (forest_of document.old.grove)) }
    ensures store { IfOk result FitsStore }
{
    match piece {
        Pending::Run(command) => command_effect(alloc, theory, command, returns, store, document),
        Pending::Restore(variable, value) => Ok(Effect::Set(variable, value.copy(alloc)?)),
        Pending::Return(caller, results, variables) => {
            let (results, variables) = (results.as_slice(), variables.as_slice());
            Ok(Effect::Back(with_results(alloc, results, variables, store, caller)?))
        }
    }
}

// The effect with pieces of its own.
fn plan_of(alloc: Global, effect: Effect, store: &Store) -> Result<Plan, OutOfMemory>
    ensures moves { IfOk result (λ plan. (piece : Piece) (grove : Trees)
        → move_planned plan piece (store_of store.now) grove
        ≡ move_of effect.entry piece (store_of store.now) grove) }
    ensures takes { Takes effect.entry result }
    ensures store { FitsStore effect.entry → IfOk result FitsPlan }
{
    match effect {
        Effect::Nothing | Effect::Created { .. } | Effect::Moved { .. } | Effect::Removed { .. } =>
            Ok(Plan::Taken),
        Effect::Set(variable, value) => {
            Ok(Plan::Becomes(Change::Set(variable.copy(alloc)?, value)))
        }
        Effect::Commands(block) => { Ok(Plan::Becomes(Change::Pieces(commands_in(alloc, block)?))) }
        Effect::Block(block) => Ok(Plan::Becomes(Change::Pieces(block_piece(alloc, block)?))),
        Effect::Again(block) => Ok(Plan::Becomes(Change::Before(block_piece(alloc, block)?))),
        Effect::Local(variable, old, block) => {
            Ok(Plan::Becomes(opened(alloc, variable, old, block, store)?))
        }
        Effect::Call(procedure, variables, callee) => {
            let pieces = body_and_return(alloc, procedure, variables, store)?;
            Ok(Plan::Becomes(Change::Switch(pieces, callee)))
        }
        Effect::Back(caller) => Ok(Plan::Becomes(Change::Switch(List::new(alloc), caller))),
        Effect::Fault(kind) => Ok(Plan::Faults(kind)),
        Effect::BadPick => Ok(Plan::BadPick),
    }
}

// The block, and after it the value that the variable is given back. The variable has its default
// in the block.
fn opened(
    alloc: Global,
    variable: &ProgVar,
    old: Value,
    block: &Block,
    store: &Store,
) -> Result<Change, OutOfMemory>
    ensures pieces { IfOk result (λ change. (piece : Piece) → pieces_after change piece
        ≡ run (commands.block (block_of block.now))
        ∷ restore (prog_var_of variable.now) (value_seen old) ∷ []) }
    ensures store { IfOk result (λ change. store_after change (store_of store.now)
        ≡ set (prog_var_of variable.now) (default (value_sort_of variable.now.sort))
        (store_of store.now)) }
    ensures fits { IfOk result FitsStores }
{
    let mut pieces = List::new(alloc);
    pieces.push(Pending::Restore(variable.copy(alloc)?, old))?;
    pieces.push(Pending::Run(Command::Block(block.copy(alloc)?)))?;
    let mut inner = store.copy(alloc)?;
    inner.set(variable.copy(alloc)?, default_of(alloc, variable.sort))?;
    Ok(Change::Switch(pieces, inner))
}
