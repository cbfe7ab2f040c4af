//! The verdict on a step of a proof that names a rule of entailment, over the steps before it.
//! Promises the verdict that the table of rules gives; a cited triple is of the kind Premises where
//! the conclusion fits. Stands on the matcher of the rules and on the search for cited steps.
#![tactic(auto)]

mod steps;

pub use entail_rules::{EntailRule, rule_of};
pub use steps::{check_entailment, check_entailment_in, entailment_by};
