//! Readers of lists of tokens, how they are put together, and why what they read is what a grammar
//! spells. A reader moves the front of tokens that it is lent past what it reads; where it is
//! refused, the front may stand anywhere. Promises that a reader put together by these rules is
//! exact; the lemmas that say so, with the fault token, stand in proofs/. Stands on text_tokens and
//! on what the grammar sees of a token.
#![tactic(auto)]

mod fault;
mod leaves;
mod listed;
mod terminals;

pub use fault::{ReadFault, TextFault};
pub use leaves::{name, number, step_line, word};
pub use listed::{Gathers, Reader, repeated, separated};
pub use terminals::{expect, followed_by, is_this, skip};
