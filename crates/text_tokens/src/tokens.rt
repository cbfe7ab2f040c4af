// Tokens.
ghost use Rattle.std.specs.Prelude.{◌≡◌, IfOk};
ghost use Rattle.text_tokens.specs.Lexemes.{lexeme_seen, seen};
ghost use Rattle.text_tokens.specs.Tokens.{token_of};

use crate::lexemes::Lexeme;
use dom_terms::{Copied, List, OutOfMemory, Text};
use std::alloc::Global;

/// The kind of a token.
#[derive(Clone, Copy, Debug, PartialEq, Eq)]
pub enum TokenKind {
    /// A word, which may be reserved.
    Word,
    /// `$` and a word.
    LogicName,
    /// A number.
    Number,
    /// A text literal.
    Literal,
    /// A symbol.
    Symbol,
    /// No token begins at the place, and the list ends there.
    Bad,
}

/// A token, with its place in the bytes.
#[derive(Debug, Drop)]
pub struct Token {
    /// The text that a literal stands for, empty for a bad token, and else the token's own text.
    pub text: Text,
    /// The place of its first byte, counted from 0.
    pub start: usize,
    /// The place after its last byte; for a bad token the same as `start`.
    pub end: usize,
    /// 1 and the newline bytes before `start`.
    pub line: u32,
    /// What kind of token it is.
    pub kind: TokenKind,
}

/// The tokens of a text.
pub type Tokens = List<Token>;

impl Token {
    /// The token as the grammar sees it.
    #[inline(always)]
    pub fn seen(&self) -> Lexeme
        ensures { lexeme_seen result ≡ seen self.now }
    {
        Lexeme {
            kind: self.kind,
            text: self.text.as_str(),
            line: self.line,
            is_written: false,
        }
    }
}

impl Copied for Token {
    ghost use Rattle.model_text.specs.Tokens as model;

    ghost Seen = { model.Token };

    ghost seen = { token_of };

    fn copy(&self, alloc: Global) -> Result<Token, OutOfMemory>
        ensures { IfOk result (λ copied. token_of copied ≡ token_of self.now) }
    {
        Ok(Token {
            kind: self.kind,
            text: self.text.copy(alloc)?,
            start: self.start,
            end: self.end,
            line: self.line,
        })
    }
}
