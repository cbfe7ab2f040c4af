// Tokens as the grammar sees them, and its questions to them.
ghost use Rattle.std.specs.Prelude.{◌≡◌, ◌≢◌, ◌↔◌, ℕ, List, false, IsTrue, IfOk, MatchOption};
ghost use Rattle.model_text.specs.Lexemes.{terminal, step_word, name_lexeme, logic_lexeme, number_lexeme, literal_lexeme, word_lexeme};
ghost use Rattle.model_text.specs.Tokens.{word_token};
ghost use Rattle.text_tokens.specs.Lexemes.{lexeme_seen};
ghost use Rattle.text_tokens.specs.Tokens.{kind_of};

use crate::literals::unescape;
use crate::numbers::number_value;
use crate::reserved::{is_reserved, is_same, is_word_reserved};
use crate::tokens::TokenKind;
use dom_terms::{OutOfMemory, Text};
use std::alloc::Global;

/// A token as the grammar sees it: all but its places.
#[derive(Clone, Copy, Debug)]
pub struct Lexeme<'a> {
    /// Its text. Of a literal it is what stands between the quotes, or what that stands for.
    pub text: &'a str,
    /// 1 and the newline bytes before it.
    pub line: u32,
    /// What kind of token it is.
    pub kind: TokenKind,
    /// Whether the text is that of a literal as it is written.
    pub is_written: bool,
}

impl<'a> Lexeme<'a> {
    /// Whether the token is the symbol or the reserved word of this text. It never is for `step`,
    /// which `is_step` asks for. Most that are asked have another length, and whether a word is
    /// reserved is asked of the text that is wanted: that is mostly a constant, so the compiler
    /// answers.
    #[inline(always)]
    pub fn is_terminal(self, text: &str) -> bool
        ensures { IsTrue result ↔ (lexeme_seen self.entry ≡ terminal text.now) }
    {
        if self.text.len() != text.len() {
            return false;
        }
        match self.kind {
            TokenKind::Symbol => is_same(self.text, text),
            TokenKind::Word => {
                is_same(self.text, text) && !is_same(text, "step") && is_word_reserved(text)
            }
            _ => false,
        }
    }

    /// Whether the token is the reserved word `step`; its line is the token's.
    #[inline(always)]
    pub fn is_step(self) -> bool
        ensures { IsTrue result ↔ (lexeme_seen self.entry ≡ step_word self.entry.line) }
    {
        self.kind == TokenKind::Word && is_same(self.text, "step")
    }

    /// The word, reserved or not: none exactly where the token is of another kind.
    #[inline(always)]
    pub fn word(self) -> Option<&'a str>
        ensures { MatchOption result (kind_of self.entry.kind ≢ word_token)
            (λ text. (kind_of self.entry.kind ≡ word_token)
            × (lexeme_seen self.entry ≡ word_lexeme text.now self.entry.line)) }
    {
        match self.kind {
            TokenKind::Word => Some(self.text),
            _ => None,
        }
    }

    /// The name: none exactly where the token is no word or a reserved one.
    #[inline(always)]
    pub fn name(self) -> Option<&'a str>
        ensures { MatchOption result
            ((text : List ℕ) → lexeme_seen self.entry ≢ name_lexeme text)
            (λ text. lexeme_seen self.entry ≡ name_lexeme text.now) }
    {
        match self.kind {
            TokenKind::Word if !is_reserved(self.text) => Some(self.text),
            _ => None,
        }
    }

    /// The logic name, with its `$`: none exactly where the token is of another kind.
    #[inline(always)]
    pub fn logic_name(self) -> Option<&'a str>
        ensures { MatchOption result
            ((text : List ℕ) → lexeme_seen self.entry ≢ logic_lexeme text)
            (λ text. lexeme_seen self.entry ≡ logic_lexeme text.now) }
    {
        match self.kind {
            TokenKind::LogicName => Some(self.text),
            _ => None,
        }
    }

    /// The number: none exactly where the token isn't one.
    pub fn number(self) -> Option<u64>
        ensures { MatchOption result
            ((number : ℕ) → lexeme_seen self.entry ≢ number_lexeme number)
            (λ number. lexeme_seen self.entry ≡ number_lexeme number) }
    {
        match self.kind {
            TokenKind::Number => number_value(self.text.as_bytes()),
            _ => None,
        }
    }

    /// The text that the literal stands for: none exactly where the token is of another kind.
    /// OutOfMemory comes only where memory is refused.
    #[inline(always)]
    pub fn literal(self, alloc: Global) -> Result<Option<Text>, OutOfMemory>
        ensures { IfOk result (λ found. MatchOption found
            ((text : List ℕ) → lexeme_seen self.entry ≢ literal_lexeme text)
            (λ text. lexeme_seen self.entry ≡ literal_lexeme text)) }
    {
        if self.kind != TokenKind::Literal {
            return Ok(None);
        }
        if !self.is_written {
            return Ok(Some(Text::from_str(alloc, self.text)?));
        }
        let mut text = Text::new(alloc);
        unescape(self.text.as_bytes(), &mut text)?;
        Ok(Some(text))
    }
}
