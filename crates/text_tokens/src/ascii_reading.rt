// The tokens of ASCII bytes, each read where it is asked for.
ghost use Rattle.std.specs.Prelude.{◌≡◌, [], ◌∷◌, ◌<◌, ◌-◌, take, drop, length, ◌≢◌, Some, None, IfSome, MatchOption};
ghost use Rattle.std.specs.Str.{IsNotAscii};
ghost use Rattle.model_text.specs.Nesting.{lexemes_of};
ghost use Rattle.text_tokens.specs.Ascii.{left_at};
ghost use Rattle.text_tokens.specs.Lexemes.{lexeme_seen};
ghost use Rattle.text_tokens.specs.Within.{within_limits};

use crate::ascii::AsciiFront;
use crate::ascii_bytes::{behind_space, is_ascii, part, text_of};
use crate::ascii_watching::{near_token, settled};
use crate::lexemes::Lexeme;
use crate::tokens::TokenKind;
use crate::written::between_quotes;

// What stands between the quotes of a literal. It isn't inlined, so that none counts off the quotes
// of a token of another kind.
#[inline(never)]
fn inside_of(own: &[u8]) -> &[u8]
    ensures { result.now ≡ take (length own.now - 2) (drop 1 own.now) }
{
    between_quotes(own)
}

impl<'a> AsciiFront<'a> {
    /// The tokens of the bytes, up to the first that passes a limit, where so many brackets may be
    /// open: none exactly where the bytes aren't ASCII.
    pub fn of_bytes(bytes: &'a [u8], most: u32) -> Option<AsciiFront<'a>>
        requires { length bytes.now < 4294967295 }
        ensures { MatchOption result (IsNotAscii bytes.now)
            (λ front. left_at front ≡ within_limits most 0 (lexemes_of bytes.now)) }
    {
        if !is_ascii(bytes) {
            return None;
        }
        Some(settled(bytes, 0, 1, 0, most))
    }

    // The first token, which is of the kind.
    #[inline(always)]
    fn token(self, kind: TokenKind) -> Lexeme<'a>
        requires { self.kind ≡ Some kind }
        ensures { left_at self.entry ≡ lexeme_seen result ∷ drop 1 (left_at self.entry) }
    {
        let from = self.from as usize;
        let own = part(self.bytes, from, self.length as usize);
        match kind {
            TokenKind::Literal => Lexeme {
                kind,
                text: text_of(inside_of(own)),
                line: self.line,
                is_written: true,
            },
            _ => Lexeme {
                kind,
                text: text_of(own),
                line: self.line,
                is_written: false,
            },
        }
    }

    /// The first token: none exactly where none is left.
    #[inline(always)]
    pub fn first(self) -> Option<Lexeme<'a>>
        ensures { MatchOption result (left_at self.entry ≡ [])
            (λ first. left_at self.entry ≡ lexeme_seen first ∷ drop 1 (left_at self.entry)) }
    {
        match self.kind {
            Some(kind) => Some(self.token(kind)),
            None if self.from as usize == self.bytes.len() => None,
            None => Some(Lexeme {
                kind: TokenKind::Bad,
                text: "",
                line: self.line,
                is_written: false,
            }),
        }
    }

    // The tokens after the first.
    #[inline(always)]
    fn behind(self) -> AsciiFront<'a>
        ensures { left_at result ≡ drop 1 (left_at self.entry) }
    {
        match self.kind {
            None => settled(&[], 0, 1, 0, self.most),
            Some(_) => self.behind_token(),
        }
    }

    // The same where a token stands at the place. No token has a newline, so the line stays.
    #[inline(always)]
    fn behind_token(self) -> AsciiFront<'a>
        requires { self.kind ≢ None }
        ensures { left_at result ≡ drop 1 (left_at self.entry) }
    {
        let from = self.from as usize;
        let length = self.length as usize;
        settled(self.bytes, from + length, self.line, self.open, self.most)
    }

    // The same where the next token is one that its first byte tells, passes no limit, and stands
    // right after the first or after a space, as most do.
    #[inline(always)]
    fn near_behind(self) -> Option<AsciiFront<'a>>
        ensures { IfSome result (λ front. left_at front ≡ drop 1 (left_at self.entry)) }
    {
        if self.kind.is_none() {
            return None;
        }
        let place = behind_space(self.bytes, self.from as usize + self.length as usize);
        if place >= self.bytes.len() {
            return None;
        }
        match near_token(self.bytes, place, self.open, self.most) {
            Some((kind, length, open)) => Some(AsciiFront {
                bytes: self.bytes,
                from: place as u32,
                length: length as u32,
                line: self.line,
                kind: Some(kind),
                most: self.most,
                open,
            }),
            None => None,
        }
    }

    // Moves on, wherever the next token stands.
    #[inline(never)]
    fn advance_far(&mut self)
        ensures { left_at self.new ≡ drop 1 (left_at self.old) }
    {
        *self = self.behind();
    }

    /// Moves on to the tokens after the first.
    #[inline(always)]
    pub fn advance(&mut self)
        ensures { left_at self.new ≡ drop 1 (left_at self.old) }
    {
        match self.near_behind() {
            Some(front) => *self = front,
            None => self.advance_far(),
        }
    }

    /// How many tokens are left. It reads them all.
    pub fn count(self) -> usize
        ensures { result ≡ length (left_at self.entry) }
    {
        let mut left = self;
        let mut found = 0;
        while left.first().is_some() {
            left.advance();
            found += 1;
        }
        found
    }
}
