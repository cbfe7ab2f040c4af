// Declarations, and the words for the sorts of shapes and contexts.
ghost use Rattle.std.specs.Prelude.{◌≡◌, map};
ghost use Rattle.std.specs.Option.{option_map};
ghost use Rattle.dom_terms.specs.Sorts.{sort_of};
ghost use Rattle.dom_terms.specs.Terms.{prog_var_of};
ghost use Rattle.token_readers.specs.Reading.{leaf};
ghost use Rattle.token_readers.specs.Giving.{Gives};
ghost use Rattle.token_readers.specs.Leaves.{lexeme_seen, lexemes_in};
ghost use Rattle.proof_text.specs.Lists.{bracketed_at};
ghost use Rattle.proof_text.specs.Theories.{shape_sort_called, leaf_shape_sort, sort_called, leaf_sort, declaration_at};

use crate::bracketed::bracketed;
use crate::sorts::value_sort;
use dom_terms::{DataSort, ProgVar, Sort, ValueSort, Vars};
use std::alloc::Global;
use text_tokens::{Front, Lexeme};
use token_readers::{ReadFault, Reader, expect, name};

fn shape_sort_called(name: &str) -> Option<Sort>
    ensures { option_map sort_of result ≡ shape_sort_called name.now }
{
    match name {
        "t" => Some(Sort::Shape(DataSort::Tree)),
        "f" => Some(Sort::Shape(DataSort::Forest)),
        "g" => Some(Sort::Shape(DataSort::Grove)),
        "tt" => Some(Sort::Context(DataSort::Tree, DataSort::Tree)),
        "tf" => Some(Sort::Context(DataSort::Tree, DataSort::Forest)),
        "tg" => Some(Sort::Context(DataSort::Tree, DataSort::Grove)),
        "ft" => Some(Sort::Context(DataSort::Forest, DataSort::Tree)),
        "ff" => Some(Sort::Context(DataSort::Forest, DataSort::Forest)),
        "fg" => Some(Sort::Context(DataSort::Forest, DataSort::Grove)),
        "gg" => Some(Sort::Context(DataSort::Grove, DataSort::Grove)),
        _ => None,
    }
}

fn shape_sort_of(token: Lexeme) -> Option<Sort>
    ensures { option_map sort_of result ≡ leaf_shape_sort (lexeme_seen token.entry) }
{
    match token.name() {
        Some(name) => shape_sort_called(name),
        None => None,
    }
}

/// A sort of shapes or contexts; moves past it.
pub fn shape_sort(tokens: &mut Front) -> Result<Sort, ReadFault>
    ensures { Gives (λ found. (sort_of found, lexemes_in tokens.new)) result
        (leaf leaf_shape_sort (lexemes_in tokens.old)) }
{
    let Some(first) = tokens.first() else {
        return Err(ReadFault::Text(0));
    };
    match shape_sort_of(first) {
        Some(sort) => {
            tokens.advance();
            Ok(sort)
        }
        None => Err(ReadFault::Text(tokens.count())),
    }
}

fn sort_called(name: &str) -> Option<Sort>
    ensures { option_map sort_of result ≡ sort_called name.now }
{
    match name {
        "node" => Some(Sort::Value(ValueSort::Node)),
        "list" => Some(Sort::Value(ValueSort::List)),
        "int" => Some(Sort::Value(ValueSort::Int)),
        "str" => Some(Sort::Value(ValueSort::Str)),
        "bool" => Some(Sort::Value(ValueSort::Bool)),
        _ => shape_sort_called(name),
    }
}

fn sort_of(token: Lexeme) -> Option<Sort>
    ensures { option_map sort_of result ≡ leaf_sort (lexeme_seen token.entry) }
{
    match token.name() {
        Some(name) => sort_called(name),
        None => None,
    }
}

/// A sort; moves past it.
pub fn any_sort(tokens: &mut Front) -> Result<Sort, ReadFault>
    ensures { Gives (λ found. (sort_of found, lexemes_in tokens.new)) result
        (leaf leaf_sort (lexemes_in tokens.old)) }
{
    let Some(first) = tokens.first() else {
        return Err(ReadFault::Text(0));
    };
    match sort_of(first) {
        Some(sort) => {
            tokens.advance();
            Ok(sort)
        }
        None => Err(ReadFault::Text(tokens.count())),
    }
}

// A name and its sort.
#[tactic(auto, unfolding(crate::specs::Theories::declaration_at))]
fn declaration(alloc: Global, tokens: &mut Front) -> Result<ProgVar, ReadFault>
    ensures { Gives (λ found. (prog_var_of found, lexemes_in tokens.new)) result
        (declaration_at (lexemes_in tokens.old)) }
{
    let name = name(alloc, tokens)?;
    expect(tokens, ":")?;
    let sort = value_sort(tokens)?;
    Ok(ProgVar { name, sort })
}

// Reads declarations.
#[derive(Clone, Copy)]
struct DeclarationReader;

impl Reader<ProgVar> for DeclarationReader {
    ghost use Rattle.model_terms.specs.Stores as model;

    ghost Seen = { model.ProgVar };

    ghost seen = { prog_var_of };

    ghost reading = { λ _. declaration_at };

    fn read(&self, alloc: Global, tokens: &mut Front) -> Result<ProgVar, ReadFault>
        ensures { Gives (λ found. (prog_var_of found, lexemes_in tokens.new)) result
            (declaration_at (lexemes_in tokens.old)) }
    {
        declaration(alloc, tokens)
    }
}

/// The declarations in brackets; moves past them.
pub fn declarations(alloc: Global, tokens: &mut Front) -> Result<Vars, ReadFault>
    ensures { Gives (λ found. (map prog_var_of found, lexemes_in tokens.new)) result
        (bracketed_at declaration_at u32.MAX (lexemes_in tokens.old)) }
{
    bracketed(alloc, &DeclarationReader, tokens)
}
