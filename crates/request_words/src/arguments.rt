// The arguments of a run.
ghost use Rattle.std.specs.Prelude.{◌≡◌, IfOk, map};
ghost use Rattle.std.specs.Option.{option_map};
ghost use Rattle.model_shapes.specs.Sorts.{node_sort, list_sort, bool_sort};
ghost use Rattle.dom_terms.specs.Sorts.{value_sort_of};
ghost use Rattle.dom_terms.specs.Terms.{prog_var_of};
ghost use Rattle.dom_terms.specs.Values.{value_seen};
ghost use Rattle.model_answers.specs.Arguments as model;

use crate::decimals::{integer, marked};
use dom_terms::limits::TEXT_BYTES;
use dom_terms::{Copied, OutOfMemory, ProgVar, Text, Value, ValueSort, Values};
use std::alloc::Global;

// The null node, or the number of a node.
fn node(word: &str) -> Option<Value>
    ensures { option_map value_seen result ≡ model.argument_of node_sort word.now }
{
    if word == "null" {
        return Some(Value::NullNode);
    }
    Some(Value::Node(marked(word.as_bytes(), b'#')?))
}

// The null list, or the number of a list.
fn list(word: &str) -> Option<Value>
    ensures { option_map value_seen result ≡ model.argument_of list_sort word.now }
{
    if word == "nolist" {
        return Some(Value::NullList);
    }
    Some(Value::List(marked(word.as_bytes(), b'%')?))
}

// A truth value.
fn truth(word: &str) -> Option<Value>
    ensures { option_map value_seen result ≡ model.argument_of bool_sort word.now }
{
    match word {
        "yes" => Some(Value::Bool(true)),
        "no" => Some(Value::Bool(false)),
        _ => None,
    }
}

// The value that the word reads as at the sort, or none.
fn argument(alloc: Global, sort: ValueSort, word: &Text) -> Result<Option<Value>, OutOfMemory>
    ensures { IfOk result (λ found. option_map value_seen found
        ≡ model.argument_of (value_sort_of sort) word.now) }
{
    match sort {
        ValueSort::Node => Ok(node(word.as_str())),
        ValueSort::List => Ok(list(word.as_str())),
        ValueSort::Int => Ok(integer(word.as_str().as_bytes()).map(Value::Int)),
        ValueSort::Str if word.len() > TEXT_BYTES => Ok(None),
        ValueSort::Str => Ok(Some(Value::Str(word.copy(alloc)?))),
        ValueSort::Bool => Ok(truth(word.as_str())),
    }
}

/// The values that the words stand for as arguments for these parameters. None comes exactly where
/// there are more or fewer words than parameters, or a word doesn't read at its parameter's sort.
pub fn read_arguments(
    alloc: Global,
    parameters: &[ProgVar],
    words: &[Text],
) -> Result<Option<Values>, OutOfMemory>
    ensures { IfOk result (λ found. option_map (map value_seen) found
        ≡ model.arguments_of (map prog_var_of parameters.now) words.now) }
{
    let mut values = Values::new(alloc);
    let mut left = words;
    let mut rest = parameters;
    'parameters: while let [parameter, others @ ..] = rest {
        let [word, more @ ..] = left else {
            return Ok(None);
        };
        let Some(value) = argument(alloc, parameter.sort, word)? else {
            return Ok(None);
        };
        values.push(value)?;
        rest = others;
        left = more;
    }
    if left.is_empty() {
        Ok(Some(values))
    } else {
        Ok(None)
    }
}
