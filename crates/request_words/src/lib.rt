//! What the words after the program's name ask for, and the values that the words of a run stand
//! for. Promises that a reading is given exactly where the definition has one, and that reading.
//! Stands on the values of terms and on the numbers of tokens.
#![tactic(auto)]

mod arguments;
mod decimals;
mod faults;
mod requests;
mod run_words;

pub use arguments::read_arguments;
pub use faults::WordFault;
pub use requests::{MOST_PROCEDURES, Request, read_words};
