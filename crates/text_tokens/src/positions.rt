// Places in the bytes, and the lines on which they stand.
ghost use Rattle.std.specs.Prelude.{◌≡◌, ℕ, List, ◌+◌, ◌<◌, ◌≤◌, ◌==◌, ◌^◌, true, length, count_by, encode_utf8_all};
ghost use Rattle.model_text.specs.Tokens.{newline};
ghost use Rattle.text_tokens.specs.Positions.{IsPlace, IsPosition};

/// A place between two characters.
#[derive(Clone, Copy, Debug)]
pub struct Position {
    /// How many characters stand before it.
    pub number: usize,
    /// How many bytes stand before it.
    pub place: usize,
    /// 1 and the newline bytes before it.
    pub line: u32,
}

/// How many newline bytes there are. Most pieces have a single byte.
#[inline(always)]
pub fn newlines(bytes: &[u8]) -> u32
    requires { length bytes.now < 2 ^ 32 }
    ensures { result ≡ count_by (λ b. b == newline) bytes.now }
{
    match bytes {
        [only] => u32::from(*only == b'\n'),
        _ => bytes.iter().filter(|b| **b == b'\n').count() as u32,
    }
}

/// How many bytes the characters have.
fn byte_length(characters: &[char]) -> usize
    requires { length (encode_utf8_all characters.now) < 2 ^ 64 }
    ensures { result ≡ length (encode_utf8_all characters.now) }
{
    let mut length = 0;
    for character in characters {
        length += character.len_utf8();
    }
    length
}

/// The same, with no count where each character has a single byte.
fn width(characters: &[char], single: bool) -> usize
    requires single { single ≡ true
        → length (encode_utf8_all characters.now) ≡ length characters.now }
    requires bounded { length (encode_utf8_all characters.now) < 2 ^ 64 }
    ensures { result ≡ length (encode_utf8_all characters.now) }
{
    if single {
        return characters.len();
    }
    byte_length(characters)
}

/// The position before the first character.
pub fn first_position() -> Position
    ensures is { (bytes text : List ℕ) → IsPosition bytes text result }
    ensures number { result.number ≡ 0 }
    ensures place { result.place ≡ 0 }
{
    Position {
        number: 0,
        place: 0,
        line: 1,
    }
}

/// The position after these characters, which stand at a position. Single says that each has a
/// single byte.
pub fn advanced(bytes: &[u8], own: &[char], single: bool, position: Position) -> Position
    requires is { IsPlace bytes.now position }
    requires single { single ≡ true → length (encode_utf8_all own.now) ≡ length own.now }
    requires within { position.place + length (encode_utf8_all own.now) ≤ length bytes.now }
    requires bounded { length bytes.now < 4294967295 }
    ensures is { IsPlace bytes.now result }
    ensures number { result.number ≡ position.number + length own.now }
    ensures place { result.place ≡ position.place + length (encode_utf8_all own.now) }
{
    let place = position.place + width(own, single);
    let lines = newlines(&bytes[position.place..place]);
    Position {
        number: position.number + own.len(),
        place,
        line: position.line + lines,
    }
}
