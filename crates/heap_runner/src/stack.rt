// The pieces that a run has pending.
ghost use Rattle.std.specs.Prelude.{◌≡◌, ◌≤◌, ◌+◌, [], ◌∷◌, ◌++◌, OnOk, MatchOption};
ghost use Rattle.heap_runner.specs.Pieces.{pieces_seen, first_seen, returns_seen};
ghost use Rattle.heap_runner.specs.Stacks.{StackView};
ghost use Rattle.std.specs.Prelude as plain;
ghost use Rattle.dom_meaning.specs.declared.configurations.Pending.{Pending};

use crate::pieces::{First, Piece};
use dom_terms::OutOfMemory;
use std::alloc::Global;
use std::marker::Model;

/// The pieces that are pending. Contracts see them, the first one first, and for how many there is
/// room.
#[derive(Drop)]
pub(crate) struct Stack<'a> {
    // the first one last
    pieces: Vec<Piece<'a>>,
    // how many of them are returns
    returns: usize,
}

impl<'a> Model for Stack<'a> {
    ghost use Rattle.std.specs.Prelude.{◌≡◌, ◌-◌, vec_len, vec_capacity};
    ghost use Rattle.heap_runner.specs.Stacks.{StackView, stack_code};

    ghost Value = { StackView };

    ghost coded = { stack_code };

    ghost use Rattle.heap_runner.specs.Pieces.{pending_seen, returns_seen};

    ghost view = { λ stack. record {
      pieces = pending_seen stack.pieces.items;
      room = vec_capacity stack.pieces - vec_len stack.pieces;
    } };

    ghost invariant = { λ stack. stack.returns ≡ returns_seen (pending_seen stack.pieces.items) };
}

impl<'a> Stack<'a> {
    /// No pieces. It takes memory only when it grows.
    pub(crate) fn new(alloc: Global) -> Stack<'a>
        ensures { result.pieces ≡ [] }
    {
        Stack {
            pieces: Vec::new(alloc),
            returns: 0,
        }
    }

    /// How many returns there are.
    pub(crate) fn returns(&self) -> usize
        ensures { result ≡ returns_seen self.now.pieces }
    {
        self.returns
    }

    /// The piece that comes first: none exactly where there is none.
    pub(crate) fn first<'p>(&'p self) -> Option<First<'a, 'p>>
        ensures { MatchOption result (self.now.pieces ≡ []) (λ first.
            (others : plain.List Pending) × (self.now.pieces ≡ first_seen first ∷ others)) }
    {
        let Some((last, _)) = self.pieces.split_last() else {
            return None;
        };
        Some(last.first())
    }

    /// Makes room for two pieces. Where memory is refused there is as much room as before.
    pub(crate) fn make_room(&mut self) -> Result<(), OutOfMemory>
        ensures pieces { self.new.pieces ≡ self.old.pieces }
        ensures room { OnOk result (2 ≤ self.new.room) }
    {
        self.pieces.reserve(2)?;
        Ok(())
    }

    /// Takes the first piece away. It takes no memory, and there is no less room.
    pub(crate) fn drop_first(&mut self)
        ensures pieces { (first : Pending) (others : plain.List Pending)
            → self.old.pieces ≡ first ∷ others → self.new.pieces ≡ others }
        ensures room { self.old.room ≤ self.new.room }
    {
        let Some(last) = self.pieces.pop() else {
            return;
        };
        self.returns -= last.returns();
        if let Some(left) = last.without_first() {
            self.pieces.push_reserved(left);
        }
    }

    /// Puts the pieces that one stands for before the others. It takes no memory.
    pub(crate) fn push(&mut self, piece: Piece<'a>)
        requires { 1 ≤ self.old.room }
        ensures pieces { self.new.pieces ≡ pieces_seen piece.entry ++ self.old.pieces }
        ensures room { self.new.room + 1 ≡ self.old.room }
    {
        self.returns += piece.returns();
        self.pieces.push_reserved(piece);
    }
}
