//! The language as a whole: the types of commands and theories, which theories are well formed, the
//! variables that a command modifies, and the formula of a condition.
//! Promises that the first place at fault, and its kind, are those of the definitions.
//! Stands on the types of theories.
#![tactic(auto)]

mod command_tests;
mod cond_formulas;
mod contents;
mod kinds;
mod limits;
mod modifying;
mod own_variables;
mod part_tests;
mod places;
mod programs;
mod rule_names;
mod scope_tests;
mod scopes;
mod sort_tests;
mod tables;
mod variable_sets;
mod variable_tests;

pub use cond_formulas::cond_formula;
pub use kinds::FileKind;
pub use limits::variables_within;
pub use modifying::modified;
pub use programs::{ProgramFault, Told, check_one, check_program, check_told_program};
pub use theory_syntax::{
    Block, Command, Judgement, Procedure, Procedures, Reason, Step, Steps, Theory, Triple,
    same_command,
};
