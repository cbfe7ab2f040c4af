//! The axioms of the commands of the document, and whether a triple is an instance of one.
//! Promises the verdict of the table of rules on what is written at a step, by any of the eleven.
//! Stands on the walks over patterns, which learn the letters of a line by numbers of formulas.
#![tactic(auto)]

mod instances;
mod notation;
mod numbering;
mod parts;
mod rows;
mod verdicts;

pub use instances::axiom_instance;
pub use verdicts::axiom_verdict;
