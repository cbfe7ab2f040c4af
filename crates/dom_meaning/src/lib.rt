//! Runs of procedures on plain groves.
//! Promises exactly the steps and outcomes of the machine of the definitions.
//! Stands on the terms, commands and trees of the program.
#![tactic(auto)]

mod commands;
mod configurations;
mod documents;
mod effects;
mod faults;
mod flow;
mod moves;
mod picks;
mod pieces;
mod plain;
mod plans;
mod reads;
mod results;
mod runs;
mod starts;
mod steps;

pub use commands::command_effect;
pub use configurations::{Config, Pending, Pieces};
pub use documents::Document;
pub use effects::Effect;
pub use faults::{Creation, FaultKind, MoveFault, StepFault};
pub use flow::with_results;
pub use results::values_of;
pub use runs::{Outcome, run_plain};
pub use starts::{holding, start};
pub use steps::{StepOut, step};
