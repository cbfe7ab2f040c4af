//! Whether the grove of a heap meets a formula, for formulas whose truth is found by going over the
//! nodes that are there.
//! Promises that the answer is that of the satisfaction of the definitions, in the store and
//! whatever the other variables stand for, and that a formula is refused exactly where it can't be
//! watched or passes a limit.
//! Stands on heaps and formulas as the program holds them, and on the laws of watching.
#![tactic(auto)]

mod bindings;
mod bounds;
mod faults;
mod flags;
mod judging;
mod limits;
mod rows;
mod table;
mod watching;
mod weights;

pub use bounds::can_be_watched;
pub use faults::WatchFault;
pub use watching::meets;
