//! Formulas, substitutions and entailments as the program holds them.
//! Promises that each type is seen as the plain data of the definitions, that a copy has the same
//! view, and that sorts, purity, free variables, sameness and substitution are the definitions'.
//! Stands on the values and terms of the program.
#![tactic(auto)]

mod binders;
mod entailments;
mod formulas;
mod free;
mod gathered;
mod identical;
mod purity;
mod renaming;
mod replaced;
mod same;
mod sort_tests;
mod sorting;
mod substituting;
mod variables;

pub use binders::{Binders, same_term, same_variable};
pub use dom_terms::{both_have, has_sort};
pub use entailments::Entailment;
pub use formulas::{Formula, Side};
pub use free::{free_vars, the_list_has_the_free_variables};
pub use purity::is_pure;
pub use same::{is_replacement, is_substitution, same_formula};
pub use sort_tests::{giving, inner, left_at, outer, right_at};
pub use sorting::{IllSorted, fits, sorted_as};
pub use substituting::substitute;
pub use variables::{AnyVar, Pair};
