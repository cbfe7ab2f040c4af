// The text literal at the front of a text, and the text that it stands for.
ghost use Rattle.std.specs.Prelude.{◌≡◌, ◌+◌, ◌≤◌, ◌++◌, false, length, drop, map, encode_utf8_all, OnOk};
ghost use Rattle.model_text.specs.Tokens.{is_escape, literal_end, literal_length, unescaped};

use crate::letters::Letter;
use dom_terms::{OutOfMemory, Text};

/// Whether the character may stand after a backslash.
fn is_escape(character: char) -> bool
    ensures { result ≡ is_escape character }
{
    character == '"' || character == '\\' || character == 'n'
}

/// How many characters the literal has whose first quote begins the text; 0 where it isn't
/// finished, has a raw newline or another escape.
fn literal_end<C: Letter>(text: &[C]) -> usize
    ensures value { result ≡ literal_end false 1 (map C.code (drop 1 text.now)) }
    ensures within { result ≤ length text.now }
{
    let mut escaped = false;
    for place in 1..text.len() {
        let character = text[place].character();
        if escaped {
            if !is_escape(character) {
                return 0;
            }
            escaped = false;
        } else if character == '"' {
            return place + 1;
        } else if character == '\n' {
            return 0;
        } else {
            escaped = character == '\\';
        }
    }
    0
}

/// How many characters the literal at the front of the text has; 0 where none stands there.
pub fn literal_length<C: Letter>(text: &[C]) -> usize
    ensures value { result ≡ literal_length (map C.code text.now) }
    ensures within { result ≤ length text.now }
{
    match text {
        [first, ..] if first.character() == '"' => literal_end(text),
        _ => 0,
    }
}

/// Puts what the characters between the quotes of a literal stand for at the end of the text.
pub fn unescape<C: Letter>(inside: &[C], text: &mut Text) -> Result<(), OutOfMemory>
    ensures { OnOk result
        (text.new ≡ text.old ++ encode_utf8_all (unescaped false (map C.code inside.now))) }
{
    let mut escaped = false;
    for letter in inside {
        let character = letter.character();
        if character == '\\' && !escaped {
            escaped = true;
            continue;
        }
        let meant = if escaped && character == 'n' {
            '\n'
        } else {
            character
        };
        text.push(meant)?;
        escaped = false;
    }
    Ok(())
}

/// Puts the characters at the end of the text.
pub fn spell<C: Letter>(letters: &[C], text: &mut Text) -> Result<(), OutOfMemory>
    ensures { OnOk result (text.new ≡ text.old ++ encode_utf8_all (map C.code letters.now)) }
{
    for letter in letters {
        text.push(letter.character())?;
    }
    Ok(())
}
