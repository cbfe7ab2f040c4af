// Pieces that are pending. What stands in the theory is borrowed from it, so that a block is
// entered with no copy of its commands.
ghost use Rattle.std.specs.Prelude.{◌≡◌, ◌∷◌};
ghost use Rattle.heap_runner.specs.Pieces.{pieces_seen, later_seen, left_seen, first_seen};
ghost use Rattle.heap_runner.specs.Pieces.{returns_seen};

use dom_terms::{ProgVar, Store, Value, Vars};
use theory_syntax::{Block, Command};

/// One or more pieces that are pending.
#[derive(Drop)]
pub(crate) enum Piece<'a> {
    /// A command, and then the commands that follow it in its block.
    Commands(&'a Command, &'a [Command]),
    /// A block as a command.
    Block(&'a Block),
    /// A variable to be given back its old value.
    Restore(&'a ProgVar, Value),
    /// The caller's store to be given back, with the callee's results in the variables that take
    /// them.
    Return(Store, &'a Vars, &'a Vars),
}

/// The piece that comes first.
#[derive(Clone, Copy)]
pub(crate) enum First<'a, 'p> {
    /// A command.
    Command(&'a Command),
    /// A block as a command.
    Block(&'a Block),
    /// A variable to be given back its old value.
    Restore(&'a ProgVar, &'p Value),
    /// The caller's store to be given back, with the callee's results in the variables that take
    /// them.
    Return(&'p Store, &'a Vars, &'a Vars),
}

impl<'a> Piece<'a> {
    /// How many returns it stands for.
    pub(crate) fn returns(&self) -> usize
        ensures { result ≡ returns_seen (pieces_seen self.now) }
    {
        match self {
            Piece::Return(_, _, _) => 1,
            _ => 0,
        }
    }

    /// The piece that comes first.
    pub(crate) fn first<'p>(&'p self) -> First<'a, 'p>
        ensures { pieces_seen self.now ≡ first_seen result ∷ later_seen self.now }
    {
        match self {
            Piece::Commands(command, _) => First::Command(command),
            Piece::Block(block) => First::Block(block),
            Piece::Restore(variable, value) => First::Restore(variable, value),
            Piece::Return(caller, results, variables) => First::Return(caller, results, variables),
        }
    }

    /// What is left when the piece that comes first is taken away.
    pub(crate) fn without_first(self) -> Option<Piece<'a>>
        ensures { left_seen result ≡ later_seen self.entry }
    {
        match self {
            Piece::Commands(_, [next, rest @ ..]) => Some(Piece::Commands(next, rest)),
            _ => None,
        }
    }
}
