//! The limits of the language, as one record of numbers, with no Rust data. Promises nothing by
//! itself. Stands on std alone.
#![tactic(auto)]
