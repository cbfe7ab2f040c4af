// What stands at a place of ASCII bytes.
ghost use Rattle.std.specs.Prelude.{◌≡◌, ◌+◌, ◌<◌, ◌≤◌, drop, take, length, count_by, ◌==◌, MatchBool};
ghost use Rattle.std.specs.Bool.{OnTrue};
ghost use Rattle.std.specs.List.{prefix_len};
ghost use Rattle.std.specs.Str.{IsAscii, IsNotAscii};
ghost use Rattle.unicode_ident.specs.Ident.{is_xid_continue};
ghost use Rattle.model_text.specs.Tokens.{digit_run, digits_piece, line_of, logic_length, longest_at_front, newline, piece_at, symbols};
ghost use Rattle.text_tokens.specs.Ascii.{SpaceStands, left_behind};
ghost use Rattle.text_tokens.specs.Pieces.{piece_of};

use crate::pieces::{Piece, digits_token, piece_at};
use crate::positions::newlines;
use crate::symbols::symbol_length;
use crate::words::{begun_length, logic_length};
use std::str;

// The bytes of so many from the place on.
#[inline(always)]
pub(crate) fn part(bytes: &[u8], place: usize, count: usize) -> &[u8]
    requires { place + count ≤ length bytes.now }
    ensures { result.now ≡ take count (drop place bytes.now) }
{
    &bytes[place..place + count]
}

// How many of them are newlines.
#[inline(always)]
pub(crate) fn newlines_in(bytes: &[u8], place: usize, count: usize) -> u32
    requires within { place + count ≤ length bytes.now }
    requires bounded { length bytes.now < 4294967295 }
    ensures { result ≡ count_by (λ b. b == newline) (take count (drop place bytes.now)) }
{
    newlines(part(bytes, place, count))
}

// What stands at the place.
#[inline(always)]
pub(crate) fn piece_from(bytes: &[u8], place: usize) -> Piece
    requires { place ≤ length bytes.now }
    ensures { piece_of result ≡ piece_at (drop place bytes.now) }
{
    piece_at(&bytes[place..])
}

// How many bytes the word has that the byte at the place begins.
#[inline(always)]
pub(crate) fn word_from(bytes: &[u8], place: usize) -> usize
    requires { place < length bytes.now }
    ensures { result ≡ 1 + prefix_len is_xid_continue (drop 1 (drop place bytes.now)) }
{
    begun_length(&bytes[place..])
}

// How many bytes the logic name at the place has; 0 where none stands there.
#[inline(always)]
pub(crate) fn logic_from(bytes: &[u8], place: usize) -> usize
    requires { place ≤ length bytes.now }
    ensures { result ≡ logic_length (drop place bytes.now) }
{
    logic_length(&bytes[place..])
}

// How many bytes the symbol at the place has; 0 where none stands there.
#[inline(always)]
pub(crate) fn symbol_from(bytes: &[u8], place: usize) -> usize
    requires { place ≤ length bytes.now }
    ensures { result ≡ longest_at_front symbols (drop place bytes.now) }
{
    symbol_length(&bytes[place..])
}

// The token at the place that a digit begins.
#[inline(always)]
pub(crate) fn digits_from(bytes: &[u8], place: usize) -> Piece
    requires { place ≤ length bytes.now }
    ensures { piece_of result ≡ digits_piece (digit_run (drop place bytes.now)) }
{
    digits_token(&bytes[place..])
}

// Whether a space stands at the place. Most gaps are one.
#[inline(always)]
pub(crate) fn is_space_at(bytes: &[u8], place: usize) -> bool
    requires { place ≤ length bytes.now }
    ensures { OnTrue result (SpaceStands bytes.now place) }
{
    place < bytes.len() && bytes[place] == b' '
}

// The place after the space at the place, if one stands there. It ends no line.
#[inline(always)]
pub(crate) fn behind_space(bytes: &[u8], place: usize) -> usize
    requires { place ≤ length bytes.now }
    ensures within { result ≤ length bytes.now }
    ensures line { line_of bytes.now place ≡ line_of bytes.now result }
    ensures same { left_behind bytes.now result ≡ left_behind bytes.now place }
{
    if is_space_at(bytes, place) {
        place + 1
    } else {
        place
    }
}

// The text of ASCII bytes.
#[inline(always)]
pub(crate) fn text_of(bytes: &[u8]) -> &str
    requires { IsAscii bytes.now }
    ensures { result.now ≡ bytes.now }
{
    unsafe { str::from_utf8_unchecked(bytes) }
}

// Whether all bytes are ASCII. To find the greatest takes less time than to test each.
pub(crate) fn is_ascii(bytes: &[u8]) -> bool
    ensures { MatchBool result (IsAscii bytes.now) (IsNotAscii bytes.now) }
{
    let mut greatest = 0;
    for byte in bytes {
        greatest = u8::max(greatest, *byte);
    }
    greatest < 128
}
