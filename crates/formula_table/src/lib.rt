//! Formulas by number: nameless formulas as rows of a table, each there once.
//! Promises that equal formulas have equal numbers, that a number keeps its meaning, and which
//! formulas there are after one was added, or where there is no room.
//! Stands on the formulas of the program and on the kit's indexmap.
#![tactic(auto)]

mod copying;
mod faults;
mod heads;
mod interning;
mod interning_terms;
mod over_names;
mod recent;
mod rows;
mod same_names;
mod sets;
mod tables;

pub use faults::TableFault;
pub use heads::Head;
pub use rows::{FormRow, TermRow};
pub use tables::{FormulaId, Table};
