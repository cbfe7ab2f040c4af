//! Commands, judgements, proofs, procedures and theories as the program holds them.
//! Promises that each type is seen as the plain data of the definitions, and that a copy has the
//! same view.
//! Stands on the formulas of the program.
#![tactic(auto)]

mod commands;
mod judgements;
mod same;
mod steps;
mod theories;

pub use commands::{Block, Command};
pub use judgements::{Judgement, Triple};
pub use same::same_command;
pub use steps::{Reason, Step, Steps};
pub use theories::{Procedure, Procedures, Theory};
