// One token at the end of a text, after a space.
ghost use Rattle.std.specs.Prelude.{◌≡◌, List, [], ◌∷◌, ◌++◌, OnOk, IfOk};
ghost use Rattle.model_text.specs.Lexemes.{Lexeme, terminal, number_lexeme, literal_lexeme};
ghost use Rattle.model_grammar.specs.Writing.{spaced, text_of};

use crate::grove_writing::{push_literal, push_str};
use dom_terms::{OutOfMemory, Text};
use std::alloc::Global;

/// Puts a token with these characters at the end, after a space.
pub fn push_token(alloc: Global, text: &mut Text, token: &str) -> Result<(), OutOfMemory>
    ensures { OnOk result (text.new ≡ text.old ++ spaced (terminal token.now ∷ [])) }
{
    push_str(alloc, text, " ")?;
    push_str(alloc, text, token)
}

/// Puts the digits of a number at the end, after a space.
pub fn push_numeral(alloc: Global, text: &mut Text, number: u64) -> Result<(), OutOfMemory>
    ensures { OnOk result (text.new ≡ text.old ++ spaced (number_lexeme number ∷ [])) }
{
    let digits = number.to_string(alloc)?;
    push_token(alloc, text, digits.as_str())
}

/// Puts the literal that stands for the other text at the end, after a space.
pub fn push_quoted(alloc: Global, text: &mut Text, other: &Text) -> Result<(), OutOfMemory>
    ensures { OnOk result (text.new ≡ text.old ++ spaced (literal_lexeme other.now ∷ [])) }
{
    push_str(alloc, text, " ")?;
    push_literal(text, other)
}

/// The text without the space that stands before its first token.
pub fn without_space(alloc: Global, text: &Text) -> Result<Text, OutOfMemory>
    ensures { IfOk result (λ rest. (s : List Lexeme) → text.now ≡ spaced s → rest ≡ text_of s) }
{
    match text.as_str().strip_prefix(' ') {
        Some(rest) => Text::from_str(alloc, rest),
        None => Ok(Text::new(alloc)),
    }
}
