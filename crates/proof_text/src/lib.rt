//! Theories from tokens. Promises that a list of tokens is read as the theory that it spells by the
//! grammar, each variable with the sort of its declaration, and refused exactly where it spells
//! none, at the fault token. Stands on the readers of tokens, the types of theories, the readers of
//! formulas, the walk that sets sorts and the grammar.
#![tactic(auto)]

mod bracketed;
mod commands;
mod conditions;
mod declarations;
mod judgements;
mod logics;
mod procedures;
mod sorts;
mod steps;
mod theories;

pub use theories::{MOST_DEPTH, ReadTheory, one_theory, read_theory, theory_from};
