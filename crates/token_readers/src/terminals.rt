// Reserved words and symbols.
ghost use Rattle.std.specs.Prelude.{◌≡◌, ℕ, List, Some, false, IfOk, MatchBool};
ghost use Rattle.token_readers.specs.Reading.{is_terminal, after, terminal_at, Stays};
ghost use Rattle.token_readers.specs.Giving.{Gives};
ghost use Rattle.token_readers.specs.Leaves.{lexeme_seen, lexemes_in};

use crate::fault::ReadFault;
use text_tokens::{Front, Lexeme};

/// Whether the token is this reserved word or symbol.
#[inline(always)]
pub fn is_this(token: Lexeme, text: &str) -> bool
    ensures { result ≡ is_terminal text.now (lexeme_seen token.entry) }
{
    token.is_terminal(text)
}

/// Moves past the reserved word or symbol, where it comes first, and tells whether it does.
#[inline(always)]
pub fn skip(tokens: &mut Front, text: &str) -> bool
    ensures { MatchBool result
        (after text.now (lexemes_in tokens.old) ≡ Some (lexemes_in tokens.new))
        (Stays text.now (lexemes_in tokens.old) (lexemes_in tokens.new)) }
{
    match tokens.first() {
        Some(first) if is_this(first, text) => {
            tokens.advance();
            true
        }
        _ => false,
    }
}

/// Moves past the reserved word or symbol, which has to come first.
#[inline(always)]
pub fn expect(tokens: &mut Front, text: &str) -> Result<(), ReadFault>
    ensures { Gives (λ _. lexemes_in tokens.new) result
        (terminal_at text.now (lexemes_in tokens.old)) }
{
    if skip(tokens, text) {
        Ok(())
    } else {
        Err(ReadFault::Text(tokens.count()))
    }
}

/// What was read, where this reserved word or symbol stands after it; moves past that. Where
/// another does, what was read is let go here, and not in the caller, where each of its shapes
/// would be gone through in the proof.
#[inline(always)]
pub fn followed_by<T: Drop>(found: T, tokens: &mut Front, text: &str) -> Result<T, ReadFault>
    ensures found { IfOk result (λ same. same ≡ found) }
    ensures behind { Gives (λ _. lexemes_in tokens.new) result
        (terminal_at text.now (lexemes_in tokens.old)) }
{
    expect(tokens, text)?;
    Ok(found)
}
