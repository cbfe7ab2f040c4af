// One token that stands for a value.
ghost use Rattle.std.specs.Prelude.{◌≡◌, Some, MatchOption};
ghost use Rattle.std.specs.Option.{option_map};
ghost use Rattle.token_readers.specs.Reading.{leaf, first};
ghost use Rattle.token_readers.specs.Giving.{Gives};
ghost use Rattle.token_readers.specs.Leaves.{lexeme_seen, lexemes_in, leaf_name, leaf_word, leaf_number, leaf_step, NoStep};

use crate::fault::ReadFault;
use dom_terms::Text;
use std::alloc::Global;
use text_tokens::{Front, Lexeme, TokenKind, is_insert, is_reserved};

fn name_of(token: Lexeme) -> Option<&str>
    ensures { option_map (λ text. text.now) result ≡ leaf_name (lexeme_seen token.entry) }
{
    token.name()
}

fn word_of(token: Lexeme) -> Option<&str>
    ensures { option_map (λ text. text.now) result ≡ leaf_word (lexeme_seen token.entry) }
{
    match token.kind {
        TokenKind::Word => Some(token.text),
        // no symbol that is read from bytes is a reserved word, but one made by hand may be, and
        // the word that version 2 reserves is lent as one
        TokenKind::Symbol if is_reserved(token.text) || is_insert(token.text) => Some(token.text),
        _ => None,
    }
}

fn number_of(token: Lexeme) -> Option<u32>
    ensures { result ≡ leaf_number (lexeme_seen token.entry) }
{
    u32::try_from(token.number()?).ok()
}

fn line_of(token: Lexeme) -> Option<u32>
    ensures { result ≡ leaf_step (lexeme_seen token.entry) }
{
    if token.is_step() {
        Some(token.line)
    } else {
        None
    }
}

/// A word that isn't reserved.
#[inline(always)]
pub fn name(alloc: Global, tokens: &mut Front) -> Result<Text, ReadFault>
    ensures { Gives (λ text. (text, lexemes_in tokens.new)) result
        (leaf leaf_name (lexemes_in tokens.old)) }
{
    let Some(first) = tokens.first() else {
        return Err(ReadFault::Text(0));
    };
    let Some(text) = name_of(first) else {
        return Err(ReadFault::Text(tokens.count()));
    };
    let found = Text::from_str(alloc, text)?;
    tokens.advance();
    Ok(found)
}

/// Any word, reserved or not.
pub fn word(alloc: Global, tokens: &mut Front) -> Result<Text, ReadFault>
    ensures { Gives (λ text. (text, lexemes_in tokens.new)) result
        (leaf leaf_word (lexemes_in tokens.old)) }
{
    let Some(first) = tokens.first() else {
        return Err(ReadFault::Text(0));
    };
    let Some(text) = word_of(first) else {
        return Err(ReadFault::Text(tokens.count()));
    };
    let found = Text::from_str(alloc, text)?;
    tokens.advance();
    Ok(found)
}

/// A number of at most 32 bits.
pub fn number(tokens: &mut Front) -> Result<u32, ReadFault>
    ensures { Gives (λ number. (number, lexemes_in tokens.new)) result
        (leaf leaf_number (lexemes_in tokens.old)) }
{
    let Some(first) = tokens.first() else {
        return Err(ReadFault::Text(0));
    };
    match number_of(first) {
        Some(number) => {
            tokens.advance();
            Ok(number)
        }
        None => Err(ReadFault::Text(tokens.count())),
    }
}

/// The line of the word `step`, where it comes first, and moves past it.
pub fn step_line(tokens: &mut Front) -> Option<u32>
    ensures { MatchOption result (NoStep (lexemes_in tokens.old) (lexemes_in tokens.new))
        (λ line. first leaf_step (lexemes_in tokens.old) ≡ Some (line, lexemes_in tokens.new)) }
{
    let line = line_of(tokens.first()?)?;
    tokens.advance();
    Some(line)
}
