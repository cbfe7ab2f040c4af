//! The names of the rules of entailment, and the rows of those that are matched, as constants.
//! Promises that the names are those of the language and the rows those of rule_patterns.
//! Stands on row_patterns.
#![tactic(auto)]

mod contexts;
mod logic;
mod monotony;
mod names;
mod nodes;
mod notation;
mod structure;
mod ways;

pub use names::{EntailRule, rule_of};
pub use notation::Rows;
pub use ways::{Computed, Way, way_of};
