//! Groves and formulas from tokens and back to text. Promises that a list of tokens is read as the
//! grove or the formula that it spells by the grammar, a formula with the sorts of the variables
//! that are given, and refused exactly where it spells none, at the fault token; that the first
//! number out of range is told; and that groves, terms and formulas are printed byte by byte as
//! their definitions say.
//! Stands on the readers of tokens, the trees and formulas of the program, the walk that sets
//! sorts, and the definitions of documents and of the grammar.
#![tactic(auto)]

mod connectives;
mod declared_formulas;
mod formula_reading;
mod formula_writing;
mod grove_reading;
mod grove_writing;
mod logic_names;
mod ranges;
mod raw_groves;
mod term_reading;
mod term_writing;
mod tokens;

pub use declared_formulas::{one_formula, read_formula};
pub use formula_reading::formula;
pub use formula_writing::{push_compared, push_formula, write_formula};
pub use grove_reading::{MOST_DEPTH, grove_from, one_grove, read_grove};
pub use grove_writing::{push_str, write_grove, write_literal};
pub use logic_names::LogicNameReader;
pub use ranges::{RangeFault, to_grove};
pub use raw_groves::{RawForest, RawGrove, RawTree};
pub use term_reading::{Place, term};
pub use term_writing::push_term;
pub use tokens::{push_numeral, push_quoted, push_token, without_space};
