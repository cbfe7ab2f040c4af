//! Rules for triples, each with the exact verdict on what is written at a step.
//! Promises that the verdict is the one that the table of rules gives.
//! Stands on the table of rules, on the types of triples and judgements, on cited steps, and on
//! tables of names.
#![tactic(auto)]

mod assignments;
mod blocks;
mod callees;
mod calls;
mod conditions;
mod coverage;
mod framing;
mod instancing;
mod locals;
mod occurrences;
mod rules;
mod same;
mod sequences;
mod simple;
mod written;

pub use callees::{Callees, first_by_name};
pub use rules::{
    absurd, assign, call, consequence, disjunction, frame, if_else, instance, local, seq, skip,
    the_rows_are_those_of_the_table, while_do,
};
pub use written::Written;
