//! The lines that the program prints, but for that of an accepted theory.
//! Promises that each is the text of the definitions, byte by byte.
//! Stands on the text of groves and commands, on the faults of files and of the machine, on the
//! changes of runs and on the verdicts on steps.
#![tactic(auto)]

mod changes;
mod endings;
mod names;
mod reports;
mod texts;
mod values;

pub use changes::change_lines;
pub use endings::ended_text;
pub use reports::Report;
pub use texts::status_line;
