// The first token that passes a limit.
ghost use Rattle.std.specs.Prelude.{◌≡◌, ◌<◌, length, IfOk};
ghost use Rattle.model_text.specs.Nesting as model;
ghost use Rattle.model_text.specs.Nesting.{lexemes_of};
ghost use Rattle.dom_terms.specs.Limits.{NamesLimit};
ghost use Rattle.text_tokens.specs.Lexemes.{lexeme_seen, listed, lexemes_in};

use crate::ascii_bytes::is_ascii;
use crate::ascii_limits::ascii_limit;
use crate::brackets::open_behind_symbol;
use crate::fronts::Front;
use crate::lexemes::Lexeme;
use crate::reading::token_list;
use crate::tokens::{TokenKind, Tokens};
use crate::written::is_written_within;
use dom_terms::limits::TEXT_BYTES;
use dom_terms::{LimitKind, OutOfMemory};
use std::alloc::Global;

// How many brackets are open after the token, where so many are open before it.
#[tactic(auto, using(crate::proofs::BracketLemmas::brackets))]
#[inline(always)]
fn open_behind(before: u64, token: Lexeme) -> u64
    requires { before < 4_294_967_296 }
    ensures { result ≡ model.open_behind before (lexeme_seen token.entry) }
{
    if token.kind == TokenKind::Symbol {
        open_behind_symbol(before, token.text)
    } else {
        before
    }
}

// Whether a literal stands for no longer text than the most.
#[inline(always)]
fn is_text_within(token: Lexeme) -> bool
    ensures { result ≡ model.text_within (lexeme_seen token.entry) }
{
    match token.kind {
        TokenKind::Literal if token.is_written => is_written_within(token.text.as_bytes()),
        TokenKind::Literal => token.text.len() <= TEXT_BYTES,
        _ => true,
    }
}

// The limit that the first token passes of those that are left.
fn limit_in(tokens: Front, nesting: u32) -> Option<LimitKind>
    ensures { NamesLimit result (model.token_limit nesting 0 (lexemes_in tokens.entry)) }
{
    let mut open = 0u64;
    let mut left = tokens;
    while let Some(token) = left.first() {
        open = open_behind(open, token);
        if open > u64::from(nesting) {
            return Some(LimitKind::Nesting);
        }
        if !is_text_within(token) {
            return Some(LimitKind::Text);
        }
        left.advance();
    }
    None
}

/// The limit that the first token passes that passes one: Nesting where more brackets are open at
/// it than the most, and Text where it is a literal for a text of more than 4,096 bytes. None comes
/// exactly where no token passes one.
pub fn token_limit(tokens: &Tokens, nesting: u32) -> Option<LimitKind>
    ensures { NamesLimit result (model.token_limit nesting 0 (listed tokens.now)) }
{
    limit_in(Front::of_list(tokens), nesting)
}

/// The limit that the first token of the bytes passes that passes one. OutOfMemory comes only where
/// memory is refused.
pub fn bytes_limit(
    alloc: Global,
    bytes: &[u8],
    nesting: u32,
) -> Result<Option<LimitKind>, OutOfMemory>
    requires { length bytes.now < 4294967295 }
    ensures { IfOk result
        (λ limit. NamesLimit limit (model.token_limit nesting 0 (lexemes_of bytes.now))) }
{
    if is_ascii(bytes) {
        return Ok(ascii_limit(bytes, nesting));
    }
    let tokens = token_list(alloc, bytes)?;
    Ok(token_limit(&tokens, nesting))
}
