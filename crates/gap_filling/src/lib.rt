//! Filling the gaps of proofs: steps with new numbers, whether an offer may stand in the place of a
//! gap, and the limits of a filled theory.
//! Promises that each answer is exactly that of the definitions of filling.
//! Stands on the kernel of proofs, on the writer of theories and on the definitions of filling.
#![tactic(auto)]

mod commands;
mod conditions;
mod formulas;
mod items;
mod judgements;
mod limits;
mod meters;
mod renumbering;
mod sizes;
mod steps;
mod terms;
mod usable;

pub use judgements::ends_in;
pub use limits::filled_limit;
pub use renumbering::{FilledGap, renumbered};
pub use usable::{is_usable, take_usable};
