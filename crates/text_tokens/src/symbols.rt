// The symbol at the front of a text.
ghost use Rattle.std.specs.Prelude.{◌≡◌, ◌∷◌, [], ◌&&◌, map, drop, if◌then◌else◌};
ghost use Rattle.model_text.specs.Tokens.{symbols, longest_at_front};
ghost use Rattle.text_tokens.specs.Symbols.{comes_next, is_lone};

use crate::letters::Letter;

/// The characters that end a symbol for a tree, a forest or a grove.
const SHAPES: [char; 3] = ['t', 'f', 'g'];

/// The length of the symbol that the character is, if it is one that begins no longer one.
#[inline(always)]
fn lone_length(character: char) -> usize
    ensures { result ≡ (if is_lone character then 1 else 0) }
{
    match character {
        '(' | ')' | '[' | ']' | '{' | '}' | '>' | ',' | ';' | '=' | '#' | '%' => 1,
        _ => 0,
    }
}

/// Whether one of the marks stands at the front of the text.
#[inline(always)]
fn comes_next<C: Letter>(marks: &[char], text: &[C]) -> bool
    ensures { result ≡ comes_next marks.now (map C.code text.now) }
{
    match text {
        [next, ..] => marks.contains(&next.character()),
        [] => false,
    }
}

/// The length of a symbol of one character, or of two where one of the marks comes next.
#[inline(always)]
fn one_or_two<C: Letter>(marks: &[char], rest: &[C]) -> usize
    ensures { result ≡ (if comes_next marks.now (map C.code rest.now) then 2 else 1) }
{
    if comes_next(marks, rest) { 2 } else { 1 }
}

/// The length of a symbol of two characters, whose second is that of a shape.
#[inline(always)]
fn none_or_two<C: Letter>(rest: &[C]) -> usize
    ensures { result ≡ (if comes_next SHAPES (map C.code rest.now) then 2 else 0) }
{
    if comes_next(&SHAPES, rest) { 2 } else { 0 }
}

/// The length of a symbol of three characters, whose second is `-` and whose third that of a shape.
fn none_or_three<C: Letter>(rest: &[C]) -> usize
    ensures { result ≡ (if comes_next (45 ∷ []) (map C.code rest.now)
        && comes_next SHAPES (drop 1 (map C.code rest.now)) then 3 else 0) }
{
    match rest {
        [dash, behind @ ..] if dash.character() == '-' && comes_next(&SHAPES, behind) => 3,
        _ => 0,
    }
}

/// The length of the longest symbol that begins with the character and goes on with the rest.
#[inline(always)]
fn length_from<C: Letter>(first: char, rest: &[C]) -> usize
    ensures { result ≡ longest_at_front symbols (first ∷ map C.code rest.now) }
{
    match first {
        '<' | ':' => one_or_two(&['='], rest),
        '.' => one_or_two(&['*', '+'], rest),
        '+' => one_or_two(&['+'], rest),
        '-' => one_or_two(&['o', '>'], rest),
        '*' => one_or_two(&['.'], rest),
        '@' => none_or_two(rest),
        '?' => none_or_two(rest),
        'o' => none_or_three(rest),
        _ => lone_length(first),
    }
}

/// How many characters the longest symbol at the front of the text has; 0 where none stands there.
#[inline(always)]
pub fn symbol_length<C: Letter>(text: &[C]) -> usize
    ensures { result ≡ longest_at_front symbols (map C.code text.now) }
{
    match text {
        [first, rest @ ..] => length_from(first.character(), rest),
        [] => 0,
    }
}
