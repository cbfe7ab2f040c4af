//! The rows of the rules of entailment as plain constants can hold them: letters, patterns of
//! sorts, terms and formulas, rows. Promises no more than one view of each type: the pattern of
//! rule_patterns that it stands for. Stands on rule_patterns and on the program's sorts.
#![tactic(auto)]

mod letters;
mod patterns;
mod rows;

pub use letters::{DataLetter, FormulaLetter, TermLetter};
pub use patterns::{Closed, DataPattern, Pattern, SortPattern, TermPattern};
pub use rows::{Asked, Condition, Judged, Premises, Row};
