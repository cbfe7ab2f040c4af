// What is left of the tokens of ASCII bytes.
ghost use Rattle.std.specs.Prelude.{◌≤◌};
ghost use Rattle.text_tokens.specs.Standing.{IsSettled};

use crate::tokens::TokenKind;

/// The tokens of ASCII bytes from one on, the first of which is found already. They end where one
/// passes a limit: a bad one stands in its place.
#[derive(Clone, Copy)]
pub struct AsciiFront<'a> {
    /// The bytes.
    pub(crate) bytes: &'a [u8],
    /// The place of the first token.
    pub(crate) from: u32,
    /// How many bytes it has.
    pub(crate) length: u32,
    /// Its line.
    pub(crate) line: u32,
    /// Its kind: none where no token begins, or the bytes end.
    pub(crate) kind: Option<TokenKind>,
    /// How many brackets may be open.
    pub(crate) most: u32,
    /// How many are open after the first token.
    pub(crate) open: u32,
    ghost settled: { IsSettled bytes.now from length line kind },
    ghost few: { «open» ≤ most },
}
