//! The verdict on each step of a well-formed theory, and which theories are accepted: each step an
//! instance of the rule that it names, each proof ending in its procedure's own triple. Of another
//! theory the first bad place, and why it is bad.
//! Promises to answer exactly that, by the table of rules, and that each number of a table of
//! formulas keeps its meaning.
//! Stands on the kernel of entailments, on the rules for triples, and on tables of formulas.
#![tactic(auto)]

mod axioms;
mod ends;
mod entailments;
mod letters;
mod names;
mod refusals;
mod rows;
mod steps;
mod theories;
mod triples;
mod verdicts;

pub use refusals::{Accepted, Refusal};
pub use theories::check_theory;
pub use verdicts::{check_step, check_step_in};
