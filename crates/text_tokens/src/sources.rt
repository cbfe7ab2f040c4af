// The tokens of bytes, held where they have to be.
use crate::ascii::AsciiFront;
use crate::tokens::Tokens;

/// The tokens of bytes, held as a list only where they have to be.
#[derive(Drop)]
pub enum Source<'a> {
    /// Those of ASCII bytes, each read where it is asked for.
    Ascii(AsciiFront<'a>),
    /// Those of other bytes.
    Listed(Tokens),
}
