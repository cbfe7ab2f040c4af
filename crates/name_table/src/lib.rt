//! Tables of names, for look-ups by name where there are mostly few names.
//! Promises that a name has the value that was put for it last.
//! Stands on the want of memory of dom_terms and on the kit's indexmap.
#![tactic(auto)]

mod rows;
mod tables;

pub use tables::NameTable;
