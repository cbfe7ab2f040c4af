//! Observers in a list, boxed or not: told what a run changes, and asked for their lines.
//! Promises that each is told in the order of the list, and that their lines stand in it.
//! Stands on the trait of an observer and on the lines that the program prints.
#![tactic(auto)]

mod saying;
mod telling;

pub use saying::push_lines;
pub use telling::tell_each;
