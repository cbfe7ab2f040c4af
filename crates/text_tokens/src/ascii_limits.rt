// The first token of ASCII bytes that passes a limit, found without texts and lines of tokens.
ghost use Rattle.std.specs.Prelude.{◌≡◌, ◌<◌, ◌≤◌, ℕ, Some, length, IfOk, IfErr};
ghost use Rattle.std.specs.Str.{IsAscii};
ghost use Rattle.model_text.specs.Lexemes.{literal_lexeme};
ghost use Rattle.model_text.specs.Nesting as model;
ghost use Rattle.model_text.specs.Tokens.{literal_token, token_text};
ghost use Rattle.dom_terms.specs.Limits.{NamesLimit, limit_kind_of};
ghost use Rattle.text_tokens.specs.Ascii.{IsStep, Stays, left_behind, own_lexeme};

use crate::ascii_bytes::{part, piece_from, text_of};
use crate::brackets::open_behind_symbol;
use crate::pieces::Piece;
use crate::tokens::TokenKind;
use crate::written::{between_quotes, is_written_within};
use dom_terms::LimitKind;
use dom_terms::limits::TEXT_BYTES;

// Whether a literal with these bytes stands for no longer text than the most. It has no more bytes
// than these, so few of them needn't be counted.
#[inline(always)]
fn is_literal_within(own: &[u8]) -> bool
    requires { IsAscii own.now }
    ensures { result ≡ model.text_within (literal_lexeme (token_text literal_token own.now)) }
{
    own.len() <= TEXT_BYTES || is_written_within(between_quotes(own))
}

// How many brackets are open after a token with these bytes, where so many are open before it, or
// the limit that it passes.
#[inline(always)]
pub(crate) fn open_behind_own(
    before: u32,
    most: u32,
    kind: TokenKind,
    own: &[u8],
) -> Result<u32, LimitKind>
    requires ascii { IsAscii own.now }
    requires few { before ≤ most }
    ensures few { IfOk result (λ behind. behind ≤ most) }
    ensures ok { IfOk result (λ behind. (line : ℕ)
        → Stays most before behind (own_lexeme kind own.now line)) }
    ensures err { IfErr result (λ limit. (line : ℕ)
        → model.lexeme_limit most before (own_lexeme kind own.now line)
        ≡ Some (limit_kind_of limit)) }
{
    match kind {
        TokenKind::Symbol => {
            let behind = open_behind_symbol(u64::from(before), text_of(own));
            if behind > u64::from(most) {
                Err(LimitKind::Nesting)
            } else {
                Ok(behind as u32)
            }
        }
        TokenKind::Literal => if is_literal_within(own) {
            Ok(before)
        } else {
            Err(LimitKind::Text)
        },
        _ => Ok(before),
    }
}

// Where the walk goes on from the place: how many bytes it passes, and how many brackets are open
// after them. None comes where no token begins, and the limit where the token there passes one.
#[inline(always)]
fn step_at(
    bytes: &[u8],
    place: usize,
    before: u32,
    most: u32,
) -> Result<Option<(usize, u32)>, LimitKind>
    requires ascii { IsAscii bytes.now }
    requires few { before ≤ most }
    requires within { place ≤ length bytes.now }
    ensures { IsStep most before bytes.now place result }
{
    match piece_from(bytes, place) {
        Piece::Gap(length) => Ok(Some((length, before))),
        Piece::Nothing => Ok(None),
        Piece::Token(kind, length) => {
            match open_behind_own(before, most, kind, part(bytes, place, length)) {
                Ok(behind) => Ok(Some((length, behind))),
                Err(limit) => Err(limit),
            }
        }
    }
}

/// The limit that the first token of the bytes passes that passes one.
pub fn ascii_limit(bytes: &[u8], nesting: u32) -> Option<LimitKind>
    requires ascii { IsAscii bytes.now }
    requires bounded { length bytes.now < 4294967295 }
    ensures { NamesLimit result (model.token_limit nesting 0 (left_behind bytes.now 0)) }
{
    let mut open = 0;
    let mut place = 0;
    loop {
        match step_at(bytes, place, open, nesting) {
            Ok(Some((length, behind))) => {
                place += length;
                open = behind;
            }
            Ok(None) => return None,
            Err(limit) => return Some(limit),
        }
    }
}
