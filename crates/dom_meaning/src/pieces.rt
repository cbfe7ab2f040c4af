// Pieces that are pending, the first one last.
ghost use Rattle.std.specs.Prelude as plain;
ghost use Rattle.std.specs.Prelude.{◌≡◌, ◌<◌, [], ◌∷◌, ◌++◌, length, map, OnOk, OnErr, IfOk};
ghost use Rattle.model_commands.specs.Commands as commands;
ghost use Rattle.model_machine.specs.Machine as machine;
ghost use Rattle.model_machine.specs.Machine.{run, pieces_of};
ghost use Rattle.model_machine.specs.Outcomes.{returns_in};
ghost use Rattle.dom_terms.specs.Terms.{prog_var_of};
ghost use Rattle.dom_terms.specs.Stores.{store_of};
ghost use Rattle.theory_syntax.specs.Commands.{command_of, block_of};
ghost use Rattle.dom_meaning.specs.Configs.{piece_of, pieces_in};
ghost use Rattle.dom_meaning.specs.Effects.{Counted};

use crate::configurations::{Pending, Pieces};
use dom_terms::{Copied, List, OutOfMemory, Store, Vars};
use std::alloc::Global;
use theory_syntax::{Block, Command, Procedure};

/// Takes the first piece away.
pub(crate) fn drop_first(pending: &mut Pieces)
    requires { 0 < length pending.old }
    ensures { (piece : Pending) (others : plain.List Pending)
        → pending.old ≡ others ++ piece ∷ [] → pending.new ≡ others }
{
    let place = pending.len() - 1;
    drop(pending.remove(place));
}

/// Puts the pieces in the place of the first one. Where memory is refused nothing is changed.
pub(crate) fn replace_first(pending: &mut Pieces, pieces: Pieces) -> Result<(), OutOfMemory>
    requires { 0 < length pending.old }
    ensures ok { OnOk result ((piece : Pending) (others : plain.List Pending)
        → pending.old ≡ others ++ piece ∷ [] → pending.new ≡ others ++ pieces) }
    ensures err { OnErr result (pending.new ≡ pending.old) }
{
    let mut pieces = pieces;
    let place = pending.len() - 1;
    pending.append(&mut pieces)?;
    drop(pending.remove(place));
    Ok(())
}

/// The commands of the block.
#[tactic(auto, using(crate::proofs::PieceLaws::unfolded))]
pub(crate) fn commands_in(alloc: Global, block: &Block) -> Result<Pieces, OutOfMemory>
    ensures { IfOk result (λ pieces. pieces_in pieces ≡ pieces_of (block_of block.now)) }
{
    let mut commands = block.copy(alloc)?;
    let mut pieces = List::new(alloc);
    pieces.append_reversed(&mut commands)?;
    Ok(pieces)
}

/// The block as the only piece.
pub(crate) fn block_piece(alloc: Global, block: &Block) -> Result<Pieces, OutOfMemory>
    ensures { IfOk result (λ pieces.
        pieces_in pieces ≡ run (commands.block (block_of block.now)) ∷ []) }
{
    let mut pieces = List::new(alloc);
    pieces.push(Pending::Run(Command::Block(block.copy(alloc)?)))?;
    Ok(pieces)
}

/// The body of the procedure, and after it the return to the store.
pub(crate) fn body_and_return(
    alloc: Global,
    procedure: &Procedure,
    variables: &Vars,
    store: &Store,
) -> Result<Pieces, OutOfMemory>
    ensures { IfOk result (λ pieces. pieces_in pieces ≡ run (command_of procedure.now.body)
        ∷ machine.return (store_of store.now) (map prog_var_of procedure.now.results)
        (map prog_var_of variables.now) ∷ []) }
{
    let caller = store.copy(alloc)?;
    let given = procedure.results.copy(alloc)?;
    let mut pieces = List::new(alloc);
    pieces.push(Pending::Return(caller, given, variables.copy(alloc)?))?;
    pieces.push(Pending::Run(procedure.body.copy(alloc)?))?;
    Ok(pieces)
}

/// How many returns are pending after a call. After another piece they aren't counted.
pub(crate) fn returns_after(piece: &Pending, others: &[Pending]) -> usize
    ensures { Counted (piece_of piece.now) (pieces_in others.now) result }
{
    match piece {
        Pending::Run(Command::Call(_, _, _)) => returns_among(others),
        _ => 0,
    }
}

// How many returns are pending.
#[tactic(auto, using(crate::proofs::PieceLaws::returns_counted))]
fn returns_among(pending: &[Pending]) -> usize
    ensures { result ≡ returns_in (pieces_in pending.now) }
{
    pending
        .iter()
        .filter(|piece| matches!(piece, Pending::Return(_, _, _)))
        .count()
}
