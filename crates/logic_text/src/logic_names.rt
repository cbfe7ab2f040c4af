// Logic names from tokens.
ghost use Rattle.std.specs.Prelude.{◌≡◌};
ghost use Rattle.std.specs.Option.{option_map};
ghost use Rattle.token_readers.specs.Reading.{leaf};
ghost use Rattle.token_readers.specs.Giving.{Gives};
ghost use Rattle.token_readers.specs.Leaves.{lexeme_seen, lexemes_in};
ghost use Rattle.logic_text.specs.FormulaReaders.{leaf_logic};

use dom_terms::Text;
use std::alloc::Global;
use text_tokens::{Front, Lexeme};
use token_readers::{ReadFault, Reader};

fn logic_name_of(token: Lexeme) -> Option<&str>
    ensures { option_map (λ text. text.now) result ≡ leaf_logic (lexeme_seen token.entry) }
{
    token.logic_name()
}

/// A logic name; moves past it.
#[inline(always)]
pub fn logic_name(alloc: Global, tokens: &mut Front) -> Result<Text, ReadFault>
    ensures { Gives (λ name. (name, lexemes_in tokens.new)) result
        (leaf leaf_logic (lexemes_in tokens.old)) }
{
    let Some(first) = tokens.first() else {
        return Err(ReadFault::Text(0));
    };
    let Some(text) = logic_name_of(first) else {
        return Err(ReadFault::Text(tokens.count()));
    };
    let name = Text::from_str(alloc, text)?;
    tokens.advance();
    Ok(name)
}

/// Reads logic names.
#[derive(Clone, Copy)]
pub struct LogicNameReader;

impl Reader<Text> for LogicNameReader {
    ghost use Rattle.model_shapes.specs.Values.{Name};

    ghost Seen = { Name };

    ghost seen = { λ text. text };

    ghost reading = { λ _. leaf leaf_logic };

    fn read(&self, alloc: Global, tokens: &mut Front) -> Result<Text, ReadFault>
        ensures { Gives (λ name. (name, lexemes_in tokens.new)) result
            (leaf leaf_logic (lexemes_in tokens.old)) }
    {
        logic_name(alloc, tokens)
    }
}
