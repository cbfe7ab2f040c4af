//! What is asked of formulas that are rows of a table: whether a variable stands free in one,
//! whether one is another shifted or a closed formula of the rules, which variable a binder bound,
//! which sort a term has. Promises that each answer is that of the definitions, at the formulas
//! that the rows stand for. No memory is taken. Stands on tables of formulas.
#![tactic(auto)]

mod closed;
mod finding;
mod occurring;
mod parts;
mod shifting;
mod sorting;
mod variables;

pub use closed::is_closed;
pub use finding::bound_in;
pub use occurring::{is_free, is_in_term, is_pure, stands_free};
pub use shifting::{Shift, is_shifted, is_term_raised};
pub use sorting::has_sort_at;
pub use variables::{Unbound, Variable, is_bound, same_variables};
