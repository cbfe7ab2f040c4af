// What stands at the front of a text: a gap, a token or neither.
ghost use Rattle.std.specs.Prelude.{◌≡◌, ◌||◌, map, bytes_eq, codes, nat_eq};
ghost use Rattle.std.specs.List.{starts_with};
ghost use Rattle.model_text.specs.Tokens.{is_blank, digit_run, digits_piece, longer_token, longest_token, no_piece, piece_at, piece_length};
ghost use Rattle.text_tokens.specs.Pieces.{piece_of, start_of};
ghost use Rattle.text_tokens.specs.Tokens.{kind_of};

use crate::letters::{Letter, looked_up};
use crate::literals::literal_length;
use crate::numbers::is_number;
use crate::symbols::symbol_length;
use crate::tokens::TokenKind;
use crate::words::{begun_length, comment_length, logic_length, run_length, word_length};
use Start::{Blank, Closing, Digit, Literal, LogicName, LoneSymbol, Opening, Other, Symbol, Word};

/// What stands at the front of a text, with its number of characters.
#[derive(Clone, Copy, Debug)]
pub enum Piece {
    /// A blank or a comment.
    Gap(usize),
    /// A token.
    Token(TokenKind, usize),
    /// No token begins there.
    Nothing,
}

impl Piece {
    /// How many characters the piece has.
    #[inline(always)]
    pub fn len(self) -> usize
        ensures { result ≡ piece_length (piece_of self) }
    {
        match self {
            Piece::Gap(length) | Piece::Token(_, length) => length,
            Piece::Nothing => 0,
        }
    }
}

/// What a text begins with, as far as its first character says.
#[derive(Clone, Copy, Debug)]
pub(crate) enum Start {
    /// A blank.
    Blank,
    /// An opening bracket, and no longer token.
    Opening,
    /// A closing bracket, and no longer token.
    Closing,
    /// Another symbol of one character, and no longer token.
    LoneSymbol,
    /// A symbol, if it is a token.
    Symbol,
    /// A word.
    Word,
    /// A logic name, if it is a token.
    LogicName,
    /// A literal, if it is a token.
    Literal,
    /// A number, `0f` or `0g`, if it is a token.
    Digit,
    /// Anything.
    Other,
}

/// What the ASCII characters begin, by their codes.
const STARTS: [Start; 128] = [
    Other, Other, Other, Other, Other, Other, Other, Other, Other, Blank, Blank, Other, Other,
    Blank, Other, Other, Other, Other, Other, Other, Other, Other, Other, Other, Other, Other,
    Other, Other, Other, Other, Other, Other, Blank, Other, Literal, LoneSymbol, LogicName,
    LoneSymbol, Other, Other, Opening, Closing, Symbol, Symbol, LoneSymbol, Symbol, Symbol, Other,
    Digit, Digit, Digit, Digit, Digit, Digit, Digit, Digit, Digit, Digit, Symbol, LoneSymbol,
    Symbol, LoneSymbol, Closing, Symbol, Symbol, Word, Word, Word, Word, Word, Word, Word, Word,
    Word, Word, Word, Word, Word, Word, Word, Word, Word, Word, Word, Word, Word, Word, Word, Word,
    Word, Word, Opening, Other, Closing, Other, Other, Other, Word, Word, Word, Word, Word, Word,
    Word, Word, Word, Word, Word, Word, Word, Word, Other, Word, Word, Word, Word, Word, Word,
    Word, Word, Word, Word, Word, Opening, Other, Closing, Other, Other,
];

/// What a text begins with that begins with the character.
#[inline(always)]
pub(crate) fn start_of(character: char) -> Start
    ensures { result ≡ start_of character }
{
    match looked_up(&STARTS, character) {
        Some(start) => start,
        None => Other,
    }
}

/// Whether the run is `0f` or `0g`.
#[inline(always)]
fn is_empty_shape<C: Letter>(run: &[C]) -> bool
    ensures { result ≡ (bytes_eq (map C.code run.now) (codes "0f")
        || bytes_eq (map C.code run.now) (codes "0g")) }
{
    match run {
        [zero, shape] => {
            zero.character() == '0' && (shape.character() == 'f' || shape.character() == 'g')
        }
        _ => false,
    }
}

/// The token that the run is, of digits and characters of XID_Continue.
#[inline(always)]
fn digits_piece<C: Letter>(run: &[C]) -> Piece
    ensures { piece_of result ≡ digits_piece (map C.code run.now) }
{
    if is_empty_shape(run) {
        Piece::Token(TokenKind::Symbol, run.len())
    } else if is_number(run) {
        Piece::Token(TokenKind::Number, run.len())
    } else {
        Piece::Nothing
    }
}

/// The token at the front of a text that a digit begins.
#[inline(always)]
pub(crate) fn digits_token<C: Letter>(text: &[C]) -> Piece
    ensures { piece_of result ≡ digits_piece (digit_run (map C.code text.now)) }
{
    digits_piece(&text[..run_length(text)])
}

/// A token of the kind and the length, if it is longer than the other piece.
#[inline(always)]
fn longer_token(kind: TokenKind, length: usize, other: Piece) -> Piece
    ensures { piece_of result ≡ longer_token (kind_of kind) length (piece_of other) }
{
    if other.len() < length {
        Piece::Token(kind, length)
    } else {
        other
    }
}

/// The longest token at the front of a text that begins with no digit.
fn longest_token<C: Letter>(text: &[C]) -> Piece
    ensures { piece_of result ≡ longest_token (map C.code text.now) }
{
    let symbol = longer_token(TokenKind::Symbol, symbol_length(text), Piece::Nothing);
    let literal = longer_token(TokenKind::Literal, literal_length(text), symbol);
    let logic = longer_token(TokenKind::LogicName, logic_length(text), literal);
    longer_token(TokenKind::Word, word_length(text), logic)
}

/// Whether a comment stands at the front of the text.
#[inline(always)]
fn begins_comment<C: Letter>(text: &[C]) -> bool
    ensures { result ≡ starts_with nat_eq (map C.code text.now) (codes "//") }
{
    match text {
        [first, rest @ ..] if first.character() == '/' => {
            matches!(rest, [second, ..] if second.character() == '/')
        }
        _ => false,
    }
}

/// Whether the character only separates tokens.
fn is_blank(character: char) -> bool
    ensures { result ≡ is_blank character }
{
    character == ' ' || character == '\t' || character == '\r' || character == '\n'
}

/// What stands at the front of the text, whatever its first character is.
#[tactic(auto, unfolding(model_text::specs::Tokens::piece_at))]
fn other_piece<C: Letter>(text: &[C]) -> Piece
    ensures { piece_of result ≡ piece_at (map C.code text.now) }
{
    let [first, ..] = text else {
        return Piece::Nothing;
    };
    let first = first.character();
    if is_blank(first) {
        Piece::Gap(1)
    } else if begins_comment(text) {
        Piece::Gap(comment_length(text))
    } else if first.is_ascii_digit() {
        digits_token(text)
    } else {
        longest_token(text)
    }
}

/// A token of the kind and the length, if it has one.
#[inline(always)]
fn only_token(kind: TokenKind, length: usize) -> Piece
    ensures { piece_of result ≡ longer_token (kind_of kind) length no_piece }
{
    longer_token(kind, length, Piece::Nothing)
}

/// What stands at the front of the text. Its first character mostly tells what may.
#[inline(always)]
pub fn piece_at<C: Letter>(text: &[C]) -> Piece
    ensures { piece_of result ≡ piece_at (map C.code text.now) }
{
    let [first, ..] = text else {
        return Piece::Nothing;
    };
    match start_of(first.character()) {
        Blank => Piece::Gap(1),
        Opening | Closing | LoneSymbol => Piece::Token(TokenKind::Symbol, 1),
        Symbol => only_token(TokenKind::Symbol, symbol_length(text)),
        Word => Piece::Token(TokenKind::Word, begun_length(text)),
        LogicName => only_token(TokenKind::LogicName, logic_length(text)),
        Literal => only_token(TokenKind::Literal, literal_length(text)),
        Digit => digits_token(text),
        Other => other_piece(text),
    }
}
