//! Theories, commands and preconditions as text. Promises that they are printed byte by byte as
//! their definitions say, and that what was written of a value that can be written reads back.
//! Stands on the types of theories, the writers of formulas, the grammar and what is said of round
//! trips.
#![tactic(auto)]

mod lines;
mod preconditions;
mod writing;
mod written;

pub use lines::write_theory;
pub use preconditions::write_precondition;
pub use writing::{push_command, write_command};
