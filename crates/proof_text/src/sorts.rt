// Words for sorts, and variables.
ghost use Rattle.std.specs.Prelude.{◌≡◌};
ghost use Rattle.std.specs.Option.{option_map};
ghost use Rattle.dom_terms.specs.Sorts.{value_sort_of, data_sort_of};
ghost use Rattle.dom_terms.specs.Terms.{prog_var_of};
ghost use Rattle.token_readers.specs.Reading.{leaf};
ghost use Rattle.token_readers.specs.Giving.{Gives};
ghost use Rattle.token_readers.specs.Leaves.{lexeme_seen, lexemes_in};
ghost use Rattle.proof_text.specs.Lists.{value_sort_called, leaf_value_sort, data_sort_called, leaf_data_sort, leaf_variable};

use dom_terms::{DataSort, ProgVar, Text, ValueSort};
use std::alloc::Global;
use text_tokens::{Front, Lexeme};
use token_readers::{ReadFault, Reader};

fn value_sort_called(name: &str) -> Option<ValueSort>
    ensures { option_map value_sort_of result ≡ value_sort_called name.now }
{
    match name {
        "node" => Some(ValueSort::Node),
        "list" => Some(ValueSort::List),
        "int" => Some(ValueSort::Int),
        "str" => Some(ValueSort::Str),
        "bool" => Some(ValueSort::Bool),
        _ => None,
    }
}

fn value_sort_of(token: Lexeme) -> Option<ValueSort>
    ensures { option_map value_sort_of result ≡ leaf_value_sort (lexeme_seen token.entry) }
{
    match token.name() {
        Some(name) => value_sort_called(name),
        None => None,
    }
}

/// A sort of values; moves past it.
pub fn value_sort(tokens: &mut Front) -> Result<ValueSort, ReadFault>
    ensures { Gives (λ found. (value_sort_of found, lexemes_in tokens.new)) result
        (leaf leaf_value_sort (lexemes_in tokens.old)) }
{
    let Some(first) = tokens.first() else {
        return Err(ReadFault::Text(0));
    };
    match value_sort_of(first) {
        Some(sort) => {
            tokens.advance();
            Ok(sort)
        }
        None => Err(ReadFault::Text(tokens.count())),
    }
}

fn data_sort_called(name: &str) -> Option<DataSort>
    ensures { option_map data_sort_of result ≡ data_sort_called name.now }
{
    match name {
        "t" => Some(DataSort::Tree),
        "f" => Some(DataSort::Forest),
        "g" => Some(DataSort::Grove),
        _ => None,
    }
}

fn data_sort_of(token: Lexeme) -> Option<DataSort>
    ensures { option_map data_sort_of result ≡ leaf_data_sort (lexeme_seen token.entry) }
{
    match token.name() {
        Some(name) => data_sort_called(name),
        None => None,
    }
}

/// A sort of data; moves past it.
pub fn data_sort(tokens: &mut Front) -> Result<DataSort, ReadFault>
    ensures { Gives (λ found. (data_sort_of found, lexemes_in tokens.new)) result
        (leaf leaf_data_sort (lexemes_in tokens.old)) }
{
    let Some(first) = tokens.first() else {
        return Err(ReadFault::Text(0));
    };
    match data_sort_of(first) {
        Some(sort) => {
            tokens.advance();
            Ok(sort)
        }
        None => Err(ReadFault::Text(tokens.count())),
    }
}

/// A variable as it is used, before it has its sort; moves past it.
#[inline(always)]
pub fn variable(alloc: Global, tokens: &mut Front) -> Result<ProgVar, ReadFault>
    ensures { Gives (λ found. (prog_var_of found, lexemes_in tokens.new)) result
        (leaf leaf_variable (lexemes_in tokens.old)) }
{
    let Some(first) = tokens.first() else {
        return Err(ReadFault::Text(0));
    };
    let Some(name) = first.name() else {
        return Err(ReadFault::Text(tokens.count()));
    };
    let name = Text::from_str(alloc, name)?;
    tokens.advance();
    let sort = ValueSort::Node;
    Ok(ProgVar { name, sort })
}

/// Reads variables as they are used.
#[derive(Clone, Copy)]
pub struct VariableReader;

impl Reader<ProgVar> for VariableReader {
    ghost use Rattle.model_terms.specs.Stores as model;

    ghost Seen = { model.ProgVar };

    ghost seen = { prog_var_of };

    ghost reading = { λ _. leaf leaf_variable };

    fn read(&self, alloc: Global, tokens: &mut Front) -> Result<ProgVar, ReadFault>
        ensures { Gives (λ found. (prog_var_of found, lexemes_in tokens.new)) result
            (leaf leaf_variable (lexemes_in tokens.old)) }
    {
        variable(alloc, tokens)
    }
}
