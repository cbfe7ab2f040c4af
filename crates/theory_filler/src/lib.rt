//! Filling the gaps of a proof in a theory: it is walked through in order, its written steps are
//! renumbered and checked, and for each gap whoever offers steps is asked.
//! Promises that what comes of it is the filled proof of the definitions, or the first place of it
//! that fails. Stands on the kernel of proofs, on the parts of filling and on their definitions.
#![tactic(auto)]

mod faults;
mod fillers;
mod procedures;
mod steps;
mod walks;

pub use faults::FillFault;
pub use fillers::Fillers;
pub use procedures::fill;
pub use walks::fill_proof;
