//! The four rules of entailment that compute: `eq_subst`, `distinct`, `linear` and `concat`.
//! Promises for each step that cites no other step the exact verdict of the table of rules.
//! Stands on the table of rules and on the formulas of the program.
#![tactic(auto)]

mod comparisons;
mod forms;
mod literals;
mod replacing;
mod sums;
mod texts;

pub use literals::distinct;
pub use replacing::eq_subst;
pub use sums::linear;
pub use texts::concat;
