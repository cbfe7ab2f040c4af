//! The verdict on a step by a rule of entailment, over the numbers that what is written has in a
//! table of formulas. Promises the verdict that the table of rules gives, and that each number
//! keeps its meaning. Stands on the rows as constants, on the walks over them, and on the four
//! rules that compute.
#![tactic(auto)]

mod cited;
mod matching;
mod numbering;

pub use cited::{Cited, Premise, StepVerdict};
pub use matching::{matches, matches_in, verdict_on};
pub use row_walks::Numbered;
pub use rule_rows::{EntailRule, rule_of};
