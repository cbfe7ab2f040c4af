//! Exact weakest preconditions of straight-line commands.
//! Promises that the formula is the one that is written for the command with names that are new,
//! that it is the one of the table up to the names of bound variables, that a grove and a store
//! meet it exactly where no run of the command goes wrong, and which command isn't straight-line,
//! or that there are too many.
//! Stands on the theories of the program, on tables of declarations and on the laws of weakest
//! preconditions.
#![tactic(auto)]

mod commands;
mod entries;
mod names;
mod preconditions;
mod putting;
mod rows;
mod sorts;
mod straight;
mod table;
mod walk;

pub use preconditions::{Precondition, WpFault, weakest, weakest_with_names};
pub use straight::first_not_straight;
