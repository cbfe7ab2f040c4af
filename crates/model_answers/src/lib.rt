//! The definitions of what the program is asked and answers: the words after its name, the
//! arguments of a run, the files that are taken and the lines that are printed, with no Rust data.
//! Promises nothing by itself: the definitions stand in `specs/`. Stands on the other definitions.
#![tactic(auto)]
