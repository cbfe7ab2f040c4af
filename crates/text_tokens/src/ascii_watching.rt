// Which token of ASCII bytes comes next, and whether it passes a limit.
ghost use Rattle.std.specs.Prelude.{◌≡◌, [], ◌∷◌, ◌+◌, ◌<◌, ◌≤◌, length, slice_index, IfSome};
ghost use Rattle.std.specs.Str.{IsAscii};
ghost use Rattle.model_text.specs.Lexemes.{bad_lexeme};
ghost use Rattle.model_text.specs.Tokens.{line_of};
ghost use Rattle.text_tokens.specs.Ascii.{Passes, left_at, left_behind, left_unasked};
ghost use Rattle.text_tokens.specs.Pieces.{start_of};
ghost use Rattle.text_tokens.specs.Within.{within_limits};

use crate::ascii::AsciiFront;
use crate::ascii_bytes::{
    digits_from, is_space_at, logic_from, newlines_in, part, piece_from, symbol_from, word_from,
};
use crate::ascii_limits::open_behind_own;
use crate::pieces::{Piece, Start, start_of};
use crate::tokens::TokenKind;

// How many brackets are open after one more, if so many may be open.
#[inline(always)]
fn opened(before: u32, most: u32) -> Option<u32>
    ensures { IfSome result (λ behind. (behind ≡ before + 1) × (behind ≤ most)) }
{
    if before >= most {
        None
    } else {
        Some(before + 1)
    }
}

// The length, if a token has it.
#[inline(always)]
fn some_length(length: usize) -> Option<usize>
    ensures { IfSome result (λ found. (found ≡ length) × (0 < found)) }
{
    if length > 0 { Some(length) } else { None }
}

// The same as near_token for a symbol that may be a longer one. Of these only `<` is a bracket.
#[inline(always)]
fn near_symbol(
    bytes: &[u8],
    place: usize,
    before: u32,
    most: u32,
) -> Option<(TokenKind, usize, u32)>
    requires ascii { IsAscii bytes.now }
    requires few { before ≤ most }
    requires within { place < length bytes.now }
    requires begins { Start.Symbol ≡ start_of (slice_index bytes.now place) }
    ensures { IfSome result (λ found.
        Passes most before bytes.now place found.0 found.1 found.2) }
{
    let length = some_length(symbol_from(bytes, place))?;
    if length == 1 && bytes[place] == b'<' {
        Some((TokenKind::Symbol, 1, opened(before, most)?))
    } else {
        Some((TokenKind::Symbol, length, before))
    }
}

// The token at the place, with its length and how many brackets are open after it, where its first
// byte tells its kind, and it passes no limit.
#[inline(always)]
pub(crate) fn near_token(
    bytes: &[u8],
    place: usize,
    before: u32,
    most: u32,
) -> Option<(TokenKind, usize, u32)>
    requires ascii { IsAscii bytes.now }
    requires few { before ≤ most }
    requires within { place < length bytes.now }
    ensures { IfSome result (λ found.
        Passes most before bytes.now place found.0 found.1 found.2) }
{
    match start_of(bytes[place] as char) {
        Start::Opening => Some((TokenKind::Symbol, 1, opened(before, most)?)),
        Start::Closing => Some((TokenKind::Symbol, 1, before.saturating_sub(1))),
        Start::LoneSymbol => Some((TokenKind::Symbol, 1, before)),
        Start::Symbol => near_symbol(bytes, place, before, most),
        Start::Word => Some((TokenKind::Word, word_from(bytes, place), before)),
        Start::LogicName => {
            let length = some_length(logic_from(bytes, place))?;
            Some((TokenKind::LogicName, length, before))
        }
        Start::Digit => match digits_from(bytes, place) {
            Piece::Token(kind, length) => Some((kind, length, before)),
            _ => None,
        },
        _ => None,
    }
}

// The tokens from the place on, which is on the line, where so many brackets are open before them.
// The first is still to be asked for its limits.
#[inline(always)]
fn found(bytes: &[u8], from: usize, line: u32, before: u32, most: u32) -> AsciiFront
    requires ascii { IsAscii bytes.now }
    requires bounded { length bytes.now < 4294967295 }
    requires within { from ≤ length bytes.now }
    requires line { line ≡ line_of bytes.now from }
    requires few { before ≤ most }
    ensures { left_unasked result ≡ within_limits most before (left_behind bytes.now from) }
{
    let mut place = from;
    let mut line = line;
    loop {
        if is_space_at(bytes, place) {
            place += 1;
            continue;
        }
        match piece_from(bytes, place) {
            Piece::Gap(length) => {
                line += newlines_in(bytes, place, length);
                place += length;
            }
            Piece::Token(kind, length) => {
                return AsciiFront {
                    bytes,
                    from: place as u32,
                    length: length as u32,
                    line,
                    kind: Some(kind),
                    most,
                    open: before,
                };
            }
            Piece::Nothing => {
                return AsciiFront {
                    bytes,
                    from: place as u32,
                    length: 0,
                    line,
                    kind: None,
                    most,
                    open: before,
                };
            }
        }
    }
}

/// The front of a bad token alone, which stands where one passes a limit.
pub(crate) fn stopped<'a>(most: u32) -> AsciiFront<'a>
    ensures { left_at result ≡ bad_lexeme ∷ [] }
{
    AsciiFront {
        bytes: b"!",
        from: 0,
        length: 0,
        line: 1,
        kind: None,
        most,
        open: 0,
    }
}

// The tokens of a front whose first is still to be asked for its limits.
#[inline(always)]
fn watched(front: AsciiFront) -> AsciiFront
    ensures { left_at result ≡ left_unasked front.entry }
{
    let Some(kind) = front.kind else {
        return front;
    };
    let own = part(front.bytes, front.from as usize, front.length as usize);
    let open = match open_behind_own(front.open, front.most, kind, own) {
        Ok(open) => open,
        Err(_) => return stopped(front.most),
    };
    AsciiFront {
        bytes: front.bytes,
        from: front.from,
        length: front.length,
        line: front.line,
        kind: front.kind,
        most: front.most,
        open,
    }
}

/// The tokens from the place on, which is on the line, where so many brackets are open before them,
/// up to the first that passes a limit.
#[inline(always)]
pub(crate) fn settled(bytes: &[u8], from: usize, line: u32, before: u32, most: u32) -> AsciiFront
    requires ascii { IsAscii bytes.now }
    requires bounded { length bytes.now < 4294967295 }
    requires within { from ≤ length bytes.now }
    requires line { line ≡ line_of bytes.now from }
    requires few { before ≤ most }
    ensures { left_at result ≡ within_limits most before (left_behind bytes.now from) }
{
    watched(found(bytes, from, line, before, most))
}
