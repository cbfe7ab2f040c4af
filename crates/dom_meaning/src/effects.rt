// What comes in the place of a piece.
use crate::faults::FaultKind;
use dom_terms::{ProgVar, Store, Value, Vars};
use theory_syntax::{Block, Procedure};

/// What comes in the place of a piece. What it says of the store and of the pieces is still to be
/// done; the document has changed already.
#[derive(Drop)]
pub enum Effect<'a> {
    /// Nothing.
    Nothing,
    /// Nothing, and a variable is set to a value.
    Set(&'a ProgVar, Value),
    /// The commands of the block.
    Commands(&'a Block),
    /// The block as a command.
    Block(&'a Block),
    /// The block as a command, and then the piece again.
    Again(&'a Block),
    /// The block as a command, and then the variable is to be given the value back. It is set to
    /// its default.
    Local(&'a ProgVar, Value, &'a Block),
    /// The body of the procedure, and then the return to the store as it is, with the variables
    /// that take the results. The store is the callee's.
    Call(&'a Procedure, &'a Vars, Store),
    /// Nothing, and the store is the caller's.
    Back(Store),
    /// Nothing. A node was made, and a variable set to it.
    Created {
        /// Its number.
        node: u32,
        /// The number of its list of children.
        list: u32,
    },
    /// Nothing. A node was put among the children of another.
    Moved {
        /// Its number.
        node: u32,
        /// Its parent before.
        from: Option<u32>,
        /// Its parent after.
        to: u32,
        /// The child before which it was put.
        before: Option<u32>,
    },
    /// Nothing. A node was taken from its parent and put to the roots.
    Removed {
        /// Its number.
        node: u32,
        /// Its parent before.
        from: u32,
    },
    /// The piece faults.
    Fault(FaultKind),
    /// The numbers for a new node may not be used.
    BadPick,
}
