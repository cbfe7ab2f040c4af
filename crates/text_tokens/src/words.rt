// The words, logic names and comments at the front of a text.
ghost use Rattle.std.specs.Prelude.{◌≡◌, ◌+◌, ◌<◌, ◌≤◌, ℕ, Bool, not, ◌||◌, ◌==◌, length, drop, map};
ghost use Rattle.std.specs.Char.{is_ascii_digit};
ghost use Rattle.std.specs.List.{prefix_len};
ghost use Rattle.unicode_ident.specs.Ident.{is_xid_continue};
ghost use Rattle.text_tokens.specs.Words.{begins_ascii_word};
ghost use Rattle.model_text.specs.Tokens.{newline, comment_length, in_digit_run, starts_word, word_length, logic_length};

use crate::letters::{Letter, looked_up};
use unicode_ident::{is_xid_continue, is_xid_start};

/// Which ASCII characters have the property XID_Continue, by their codes.
const CONTINUES: [bool; 128] = [
    false, false, false, false, false, false, false, false, false, false, false, false, false,
    false, false, false, false, false, false, false, false, false, false, false, false, false,
    false, false, false, false, false, false, false, false, false, false, false, false, false,
    false, false, false, false, false, false, false, false, false, true, true, true, true, true,
    true, true, true, true, true, false, false, false, false, false, false, false, true, true,
    true, true, true, true, true, true, true, true, true, true, true, true, true, true, true, true,
    true, true, true, true, true, true, true, true, false, false, false, false, true, false, true,
    true, true, true, true, true, true, true, true, true, true, true, true, true, true, true, true,
    true, true, true, true, true, true, true, true, true, false, false, false, false, false,
];

/// Whether the character has the property XID_Continue, found without the table of all characters
/// where it is ASCII.
#[inline(always)]
fn continues_word(character: char) -> bool
    ensures { result ≡ is_xid_continue character }
{
    match looked_up(&CONTINUES, character) {
        Some(continues) => continues,
        None => is_xid_continue(character),
    }
}

/// A test that characters at the front of a text pass.
trait Test {
    // whether the character of the code passes
    ghost passes: { ℕ → Bool };

    /// Whether the character passes.
    fn passes(character: char) -> bool
        ensures { result ≡ passes character };
}

/// The test of the characters of a word after its first.
struct InWord;

impl Test for InWord {
    ghost passes = { is_xid_continue };

    #[inline(always)]
    fn passes(character: char) -> bool {
        continues_word(character)
    }
}

/// The test of the characters of a run that a digit begins.
struct InDigitRun;

impl Test for InDigitRun {
    ghost passes = { in_digit_run };

    #[inline(always)]
    fn passes(character: char) -> bool {
        character.is_ascii_digit() || continues_word(character)
    }
}

/// The test of the characters of a comment.
struct InComment;

impl Test for InComment {
    ghost passes = { λ character. not (character == newline) };

    #[inline(always)]
    fn passes(character: char) -> bool {
        character != '\n'
    }
}

// How many characters that pass the test stand at the front of the text.
#[inline(always)]
fn passing_length<C: Letter, T: Test>(text: &[C]) -> usize
    ensures value { result ≡ prefix_len T.passes (map C.code text.now) }
    ensures within { result ≤ length text.now }
{
    for (place, letter) in text.iter().enumerate() {
        if !T::passes(letter.character()) {
            return place;
        }
    }
    text.len()
}

/// How many digits and characters of XID_Continue stand at the front of the text.
#[inline(always)]
pub fn run_length<C: Letter>(text: &[C]) -> usize
    ensures value { result ≡ prefix_len in_digit_run (map C.code text.now) }
    ensures within { result ≤ length text.now }
{
    passing_length::<C, InDigitRun>(text)
}

/// How many characters stand before the next newline, or the end of the text.
pub fn comment_length<C: Letter>(text: &[C]) -> usize
    ensures value { result ≡ comment_length (map C.code text.now) }
    ensures within { result ≤ length text.now }
{
    passing_length::<C, InComment>(text)
}

/// Whether a word may begin with the character, where it is ASCII.
#[inline(always)]
fn begins_ascii_word(character: char) -> bool
    ensures { result ≡ begins_ascii_word character }
{
    character.is_ascii_alphabetic() || character == '_'
}

/// Whether a word may begin with the character.
#[inline(always)]
fn starts_word(character: char) -> bool
    ensures { result ≡ starts_word character }
{
    begins_ascii_word(character) || (!character.is_ascii() && is_xid_start(character))
}

/// How many characters the word at the front of the text has; 0 where none stands there.
#[inline(always)]
pub fn word_length<C: Letter>(text: &[C]) -> usize
    ensures value { result ≡ word_length (map C.code text.now) }
    ensures within { result ≤ length text.now }
{
    match text {
        [first, rest @ ..] if starts_word(first.character()) => 1
            + passing_length::<C, InWord>(rest),
        _ => 0,
    }
}

/// How many characters the word has that the first character of the text begins.
#[inline(always)]
pub fn begun_length<C: Letter>(text: &[C]) -> usize
    requires { 0 < length text.now }
    ensures value { result ≡ 1 + prefix_len is_xid_continue (drop 1 (map C.code text.now)) }
    ensures within { result ≤ length text.now }
{
    1 + passing_length::<C, InWord>(&text[1..])
}

/// How many characters the logic name at the front of the text has; 0 where none stands there.
#[inline(always)]
pub fn logic_length<C: Letter>(text: &[C]) -> usize
    ensures value { result ≡ logic_length (map C.code text.now) }
    ensures within { result ≤ length text.now }
{
    match text {
        [first, rest @ ..] if first.character() == '$' => {
            let word = word_length(rest);
            if word > 0 { 1 + word } else { 0 }
        }
        _ => 0,
    }
}
