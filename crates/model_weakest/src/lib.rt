//! The definitions of weakest preconditions, with no Rust data: what it means to meet that of a
//! command, the straight-line commands, and the formula that is written for such a command, by a
//! table of commands. Promises nothing by itself: the definitions stand in `specs/`. Stands on the
//! definitions of formulas, commands and the machine.
#![tactic(auto)]
