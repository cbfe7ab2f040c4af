// The tokens that are left to a reader.
ghost use Rattle.std.specs.Prelude.{◌≡◌, [], ◌∷◌, length, drop, MatchOption, IsTrue, ◌↔◌};
ghost use Rattle.model_text.specs.Versions as model;
ghost use Rattle.model_text.specs.Versions.{reserving};
ghost use Rattle.text_tokens.specs.Lexemes.{lexeme_seen, listed, lexemes_left, lexemes_in};
ghost use Rattle.text_tokens.specs.Seconds.{second_is_two};

use crate::ascii::AsciiFront;
use crate::lexemes::Lexeme;
use crate::reserved::is_insert;
use crate::tokens::{Token, TokenKind, Tokens};

// The first token of a list, if there is one.
#[inline(always)]
fn first_listed(tokens: &[Token]) -> Option<Lexeme>
    ensures { MatchOption result (listed tokens.now ≡ [])
        (λ first. listed tokens.now ≡ lexeme_seen first ∷ drop 1 (listed tokens.now)) }
{
    match tokens {
        [first, ..] => Some(first.seen()),
        [] => None,
    }
}

// The tokens of a list but the first.
#[inline(always)]
fn behind_listed(tokens: &[Token]) -> &[Token]
    ensures { listed result.now ≡ drop 1 (listed tokens.now) }
{
    match tokens {
        [_, rest @ ..] => rest,
        [] => tokens,
    }
}

/// The tokens that are left, as they are seen where no version is told.
#[derive(Clone, Copy)]
pub enum Left<'a> {
    /// Those of a list.
    Listed(&'a [Token]),
    /// Those of ASCII bytes, each read where it is asked for.
    Ascii(AsciiFront<'a>),
}

impl<'a> Left<'a> {
    // The first token: none exactly where none is left.
    #[tactic(auto, unfolding(crate::specs::Lexemes::lexemes_left))]
    #[inline(always)]
    pub(crate) fn first(self) -> Option<Lexeme<'a>>
        ensures { MatchOption result (lexemes_left self.entry ≡ [])
            (λ first. lexemes_left self.entry
            ≡ lexeme_seen first ∷ drop 1 (lexemes_left self.entry)) }
    {
        match self {
            Left::Listed(tokens) => first_listed(tokens),
            Left::Ascii(front) => front.first(),
        }
    }

    // Moves on to the tokens after the first.
    #[tactic(auto, unfolding(crate::specs::Lexemes::lexemes_left))]
    #[inline(always)]
    pub(crate) fn advance(&mut self)
        ensures { lexemes_left self.new ≡ drop 1 (lexemes_left self.old) }
    {
        match self {
            Left::Listed(tokens) => *tokens = behind_listed(tokens),
            Left::Ascii(front) => front.advance(),
        }
    }

    // How many tokens are left.
    #[tactic(auto, unfolding(crate::specs::Lexemes::lexemes_left))]
    #[inline(never)]
    pub(crate) fn count(self) -> usize
        ensures { result ≡ length (lexemes_left self.entry) }
    {
        match self {
            Left::Listed(tokens) => tokens.len(),
            Left::Ascii(front) => front.count(),
        }
    }
}

/// The tokens that are left to a reader, as the grammar sees them.
#[derive(Clone, Copy)]
pub struct Front<'a> {
    /// The tokens.
    pub(crate) left: Left<'a>,
    /// Whether `insertBefore` is reserved, as it is in a file of version 2.
    pub(crate) reserves: bool,
}

// The token where `insertBefore` is reserved: the word is lent as a symbol, since it stands for
// itself.
#[inline(always)]
fn reserved(token: Lexeme) -> Lexeme
    ensures { lexeme_seen result ≡ reserving (lexeme_seen token.entry) }
{
    if token.kind == TokenKind::Word && is_insert(token.text) {
        return Lexeme {
            kind: TokenKind::Symbol,
            ..token
        };
    }
    token
}

impl<'a> Front<'a> {
    // The tokens, in a file of any version but 2.
    #[tactic(auto, unfolding(crate::specs::Lexemes::lexemes_in))]
    pub(crate) fn of_left(left: Left<'a>) -> Front<'a>
        ensures { lexemes_in result ≡ lexemes_left left.entry }
    {
        Front {
            left,
            reserves: false,
        }
    }

    /// The tokens of a list.
    #[tactic(auto, unfolding(crate::specs::Lexemes::lexemes_left))]
    pub fn of_list(tokens: &'a Tokens) -> Front<'a>
        ensures { lexemes_in result ≡ listed tokens.now }
    {
        Front::of_left(Left::Listed(tokens.as_slice()))
    }

    /// The first token: none exactly where none is left.
    #[tactic(auto, unfolding(crate::specs::Lexemes::lexemes_in), using(crate::proofs::FrontLemmas::seen_head, crate::proofs::FrontLemmas::seen_none))]
    #[inline(always)]
    pub fn first(self) -> Option<Lexeme<'a>>
        ensures { MatchOption result (lexemes_in self.entry ≡ [])
            (λ first. lexemes_in self.entry ≡ lexeme_seen first ∷ drop 1 (lexemes_in self.entry)) }
    {
        match self.left.first() {
            Some(first) if self.reserves => Some(reserved(first)),
            Some(first) => Some(first),
            None => None,
        }
    }

    /// Moves on to the tokens after the first.
    #[tactic(auto, unfolding(crate::specs::Lexemes::lexemes_in), using(crate::proofs::FrontLemmas::seen_drop))]
    #[inline(always)]
    pub fn advance(&mut self)
        ensures { lexemes_in self.new ≡ drop 1 (lexemes_in self.old) }
    {
        self.left.advance();
    }

    /// Whether no token is left.
    #[inline(always)]
    pub fn is_empty(self) -> bool
        ensures { IsTrue result ↔ (lexemes_in self.entry ≡ []) }
    {
        self.first().is_none()
    }

    /// How many tokens are left. It reads them all, and is asked where a text is refused.
    #[tactic(auto, unfolding(crate::specs::Lexemes::lexemes_in), using(crate::proofs::FrontLemmas::seen_count))]
    pub fn count(self) -> usize
        ensures { result ≡ length (lexemes_in self.entry) }
    {
        self.left.count()
    }

    /// The tokens of a file in its version: its second token is the number of it.
    #[tactic(auto, unfolding(crate::specs::Lexemes::lexemes_in), using(crate::proofs::FrontLemmas::told_second, crate::proofs::FrontLemmas::told_other))]
    #[inline(never)]
    pub fn in_its_version(self) -> Front<'a>
        ensures { lexemes_in result ≡ model.in_its_version (lexemes_in self.entry) }
    {
        if !is_second(self) {
            return self;
        }
        Front {
            left: self.left,
            reserves: true,
        }
    }
}

// Whether the second token is the number 2.
#[tactic(auto, using(crate::proofs::FrontLemmas::second_number, crate::proofs::FrontLemmas::second_other, crate::proofs::FrontLemmas::second_none))]
fn is_second(tokens: Front) -> bool
    ensures { result ≡ second_is_two (lexemes_in tokens.entry) }
{
    let mut behind = tokens;
    behind.advance();
    match behind.first() {
        Some(second) => match second.number() {
            Some(number) => number == 2,
            None => false,
        },
        None => false,
    }
}
