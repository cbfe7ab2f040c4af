//! Tests of calls that no row of words shows: the happy path of each call that takes memory and
//! that the program doesn't make, and each generic call at one type through its bound. What the
//! words of the program show stands in `tests/` at the top of the repository, and the tests of the
//! top call in `request_tests`. No other crate has tests, so none is proved twice.
//! Stands on each crate whose calls it runs.
#![tactic(auto)]

#[cfg(test)]
mod axioms;
#[cfg(test)]
mod contexts;
#[cfg(test)]
mod copies;
#[cfg(test)]
mod entailments;
#[cfg(test)]
mod fillers;
#[cfg(test)]
mod formulas;
#[cfg(test)]
mod groves;
#[cfg(test)]
mod heaps;
#[cfg(test)]
mod runs;
#[cfg(test)]
mod tables;
#[cfg(test)]
mod terms;
#[cfg(test)]
mod texts;
#[cfg(test)]
mod theories;
