//! The tokens of the bytes of a file, as a list or each read where it is asked for, and what a
//! reader asks of a token. Promises that they are exactly the tokens of the bytes as they are
//! defined, up to the first that passes a limit, where a bad one stands, and that each question is
//! answered by what the grammar sees of the token.
//! Stands on the types of terms, on the definition of tokens and on the Unicode tables.
#![tactic(auto)]

mod ascii;
mod ascii_bytes;
mod ascii_limits;
mod ascii_reading;
mod ascii_watching;
mod brackets;
mod fronts;
mod letters;
mod lexemes;
mod limits;
mod lines;
mod literals;
mod numbers;
mod pieces;
mod positions;
mod reading;
mod reserved;
mod source_reading;
mod sources;
mod symbols;
mod tokens;
mod words;
mod written;

pub use fronts::Front;
pub use lexemes::Lexeme;
pub use limits::{bytes_limit, token_limit};
pub use numbers::number_value;
pub use reading::token_list;
pub use reserved::{is_insert, is_reserved};
pub use sources::Source;
pub use tokens::{Token, TokenKind, Tokens};
