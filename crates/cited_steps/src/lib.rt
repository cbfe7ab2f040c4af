//! What the earlier steps of a proof say that a step cites, found by its number in one look-up.
//! Promises the judgement of the step with the number, where the steps are numbered 1, 2, 3 ...
//! Stands on theory_syntax, and on rule_table for what a citation means.
#![tactic(auto)]

mod citations;

pub use citations::{are_numbered, cited};
