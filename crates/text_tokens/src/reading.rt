// The list of the tokens of bytes.
ghost use Rattle.std.specs.Prelude.{◌≡◌, ◌+◌, ◌-◌, ◌<◌, ◌≤◌, [], ◌∷◌, ◌++◌, true, length, take, drop, map, encode_utf8_all, IfOk, IfNone, IfSome, OnOk};
ghost use Rattle.std.specs.Str.Lossy.{utf8_valid_len};
ghost use Rattle.model_text.specs.Tokens.{token_text, tokens_of};
ghost use Rattle.text_tokens.specs.Positions.{IsPlace};
ghost use Rattle.text_tokens.specs.Reading.{token_between, EndsIn, GoesOn, AreRead};
ghost use Rattle.text_tokens.specs.Tokens.{kind_of, token_of};

use crate::lines::{decode, line_length};
use crate::literals::{spell, unescape};
use crate::pieces::{Piece, piece_at};
use crate::positions::{Position, advanced, first_position};
use crate::tokens::{Token, TokenKind, Tokens};
use crate::written::between_quotes;
use dom_terms::{OutOfMemory, Text};
use std::alloc::Global;
use std::str;

/// The longest prefix of the bytes that is UTF-8.
fn valid_prefix(bytes: &[u8]) -> &str
    ensures { result.now ≡ take (utf8_valid_len bytes.now) bytes.now }
{
    match str::from_utf8(bytes) {
        Ok(text) => text,
        Err(fault) => str::from_utf8(&bytes[..fault.valid_up_to()]).unwrap(),
    }
}

/// Puts the text of a token of the kind that has these characters at the end of the text.
fn put_text(kind: TokenKind, own: &[char], text: &mut Text) -> Result<(), OutOfMemory>
    ensures { OnOk result (text.new ≡ text.old ++ token_text (kind_of kind) own.now) }
{
    match kind {
        TokenKind::Literal => unescape(between_quotes(own), text),
        _ => spell(own, text),
    }
}

/// Puts the token of the kind that has these characters at the end of the list. The text is written
/// in its place there, since it is slow to move right after its characters were written.
fn push_token(
    alloc: Global,
    kind: TokenKind,
    own: &[char],
    from: Position,
    to: Position,
    tokens: &mut Tokens,
) -> Result<(), OutOfMemory>
    ensures { OnOk result
        (map token_of tokens.new
        ≡ map token_of tokens.old ++ token_between (kind_of kind) own.now from to ∷ []) }
{
    tokens.push(Token {
        kind,
        text: Text::new(alloc),
        start: from.place,
        end: to.place,
        line: from.line,
    })?;
    match tokens.last_mut() {
        Some(token) => put_text(kind, own, &mut token.text),
        None => Ok(()),
    }
}

/// Reads the piece at the front of what is left of a line, and puts its token, if it is one, at the
/// end of the list. Gives the position after the piece, and none where the list ends. Single says
/// that each character has a single byte.
fn read_piece(
    alloc: Global,
    bytes: &[u8],
    line: &[char],
    single: bool,
    from: Position,
    tokens: &mut Tokens,
) -> Result<Option<Position>, OutOfMemory>
    requires is { IsPlace bytes.now from }
    requires single { single ≡ true → length (encode_utf8_all line.now) ≡ length line.now }
    requires within { from.place + length (encode_utf8_all line.now) ≤ length bytes.now }
    requires some { 0 < length line.now }
    requires bounded { length bytes.now < 4294967295 }
    ensures ends { IfOk result (λ next. IfNone next
        (EndsIn bytes.now line.now (map token_of tokens.old) from (map token_of tokens.new))) }
    ensures goes_on { IfOk result (λ next. IfSome next (λ to. GoesOn bytes.now line.now
        (map token_of tokens.old) from (map token_of tokens.new) (to.number - from.number) to)) }
    ensures further { IfOk result (λ next. IfSome next (λ to. from.number < to.number)) }
{
    let piece = piece_at(line);
    let own = &line[..piece.len()];
    let to = advanced(bytes, own, single, from);
    match piece {
        Piece::Gap(_) => Ok(Some(to)),
        Piece::Token(kind, _) => {
            push_token(alloc, kind, own, from, to, tokens)?;
            Ok(Some(to))
        }
        Piece::Nothing => {
            push_token(alloc, TokenKind::Bad, &[], from, from, tokens)?;
            Ok(None)
        }
    }
}

/// Reads a line and puts its tokens at the end of the list. Gives the position after the line, and
/// none where the list ends. Single says that each character has a single byte.
fn read_line(
    alloc: Global,
    bytes: &[u8],
    line: &[char],
    single: bool,
    from: Position,
    tokens: &mut Tokens,
) -> Result<Option<Position>, OutOfMemory>
    requires is { IsPlace bytes.now from }
    requires single { single ≡ true → length (encode_utf8_all line.now) ≡ length line.now }
    requires within { from.place + length (encode_utf8_all line.now) ≤ length bytes.now }
    requires bounded { length bytes.now < 4294967295 }
    ensures ends { IfOk result (λ next. IfNone next
        (EndsIn bytes.now line.now (map token_of tokens.old) from (map token_of tokens.new))) }
    ensures goes_on { IfOk result (λ next. IfSome next (GoesOn bytes.now line.now
        (map token_of tokens.old) from (map token_of tokens.new) (length line.now))) }
{
    let mut position = from;
    let mut left = line;
    while !left.is_empty() {
        let Some(next) = read_piece(alloc, bytes, left, single, position, tokens)? else {
            return Ok(None);
        };
        left = &left[next.number - position.number..];
        position = next;
    }
    Ok(Some(position))
}

/// Reads the lines of the longest prefix of the bytes that is UTF-8, and puts their tokens at the
/// end of the list. Gives the position after them, and none where the list ends.
fn read_lines(
    alloc: Global,
    bytes: &[u8],
    text: &str,
    tokens: &mut Tokens,
) -> Result<Option<Position>, OutOfMemory>
    requires is { text.now ≡ take (utf8_valid_len bytes.now) bytes.now }
    requires bounded { length bytes.now < 4294967295 }
    ensures ends { IfOk result (λ next. IfNone next
        (map token_of tokens.old ++ tokens_of bytes.now ≡ map token_of tokens.new)) }
    ensures goes_on { IfOk result (λ next. IfSome next
        (AreRead bytes.now (map token_of tokens.old) (map token_of tokens.new) [])) }
{
    let mut line = Vec::new(alloc);
    let mut left = text;
    let mut position = first_position();
    while !left.is_empty() {
        let (own, later) = left.split_at(line_length(left));
        decode(own, &mut line)?;
        let characters = line.as_slice();
        let single = own.len() == characters.len();
        let Some(next) = read_line(alloc, bytes, characters, single, position, tokens)? else {
            return Ok(None);
        };
        left = later;
        position = next;
    }
    Ok(Some(position))
}

/// The tokens of the bytes, in their order: exactly those of the definition. At the first place
/// where no token begins, bytes that aren't UTF-8 included, the list ends with one token of kind
/// Bad. The only error is that memory was refused.
pub fn token_list(alloc: Global, bytes: &[u8]) -> Result<Tokens, OutOfMemory>
    requires { length bytes.now < 4294967295 }
    ensures { IfOk result (λ tokens. map token_of tokens ≡ tokens_of bytes.now) }
{
    let mut tokens = Tokens::new(alloc);
    let Some(end) = read_lines(alloc, bytes, valid_prefix(bytes), &mut tokens)? else {
        return Ok(tokens);
    };
    if end.place < bytes.len() {
        push_token(alloc, TokenKind::Bad, &[], end, end, &mut tokens)?;
        return Ok(tokens);
    }
    Ok(tokens)
}
