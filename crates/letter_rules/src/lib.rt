//! The rule for triples that binds a logic variable, eliminate, with the exact verdict on what is
//! written at a step.
//! Promises that the verdict is the one that the table of rules gives.
//! Stands on the table of rules, on what is written at a step for a triple, on formulas by number,
//! and on what is settled of a logic variable that was bound.
#![tactic(auto)]

mod eliminating;
mod rules;

pub use rules::{eliminate, the_rows_are_those_of_the_table};
