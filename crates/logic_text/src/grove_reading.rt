// Groves from tokens.
ghost use Rattle.std.specs.Prelude.{◌≡◌, List, map, IfOk};
ghost use Rattle.model_shapes.specs.Trees.{Trees};
ghost use Rattle.model_text.specs.Lexemes.{Lexeme};
ghost use Rattle.model_text.specs.FaultTokens.{AreOfTokens, IsFaultToken};
ghost use Rattle.model_documents.specs.Grammar.{SpellsGrove};
ghost use Rattle.token_readers.specs.Reading.{leaf, sep_list};
ghost use Rattle.token_readers.specs.Faults.{IfBadText};
ghost use Rattle.token_readers.specs.Giving.{Gives};
ghost use Rattle.token_readers.specs.Spelling.{whole};
ghost use Rattle.token_readers.specs.Leaves.{listed, lexemes_in};
ghost use Rattle.logic_text.specs.RawGroves.{raw_tree_of, raw_forest_of};
ghost use Rattle.logic_text.specs.TreeReaders.{leaf_literal, leaf_number};
ghost use Rattle.logic_text.specs.TreeReaders.{marked_at, forest_at, tree_at, grove_at};

use crate::raw_groves::{RawForest, RawGrove, RawTree};
use dom_terms::Text;
use std::alloc::Global;
use text_tokens::{Front, Tokens};
use token_readers::{ReadFault, TextFault, expect, skip};

/// The deepest nesting of trees, terms and formulas that is read; a deeper one is answered as want
/// of memory. It is more than a document or a file may have: one with at most 200 brackets open at
/// a place nests trees at most 100 deep, and a file has at most 100 open.
pub const MOST_DEPTH: u32 = 128;

// A text literal.
fn literal(alloc: Global, tokens: &mut Front) -> Result<Text, ReadFault>
    ensures { Gives (λ found. (found, lexemes_in tokens.new)) result
        (leaf leaf_literal (lexemes_in tokens.old)) }
{
    let Some(first) = tokens.first() else {
        return Err(ReadFault::Text(0));
    };
    match first.literal(alloc)? {
        Some(found) => {
            tokens.advance();
            Ok(found)
        }
        None => Err(ReadFault::Text(tokens.count())),
    }
}

// A number as large as a token can be.
fn number(tokens: &mut Front) -> Result<u64, ReadFault>
    ensures { Gives (λ found. (found, lexemes_in tokens.new)) result
        (leaf leaf_number (lexemes_in tokens.old)) }
{
    let Some(first) = tokens.first() else {
        return Err(ReadFault::Text(0));
    };
    match first.number() {
        Some(found) => {
            tokens.advance();
            Ok(found)
        }
        None => Err(ReadFault::Text(tokens.count())),
    }
}

// A tree between two marks.
#[cycle(tree)]
#[tactic(auto, unfolding(crate::specs::TreeReaders::marked_at))]
fn marked(
    alloc: Global,
    left: &str,
    right: &str,
    depth: u32,
    tokens: &mut Front,
) -> Result<RawTree, ReadFault>
    ensures { Gives (λ found. (raw_tree_of found, lexemes_in tokens.new)) result
        (marked_at left.now right.now (tree_at u32.MAX depth) (lexemes_in tokens.old)) }
{
    expect(tokens, left)?;
    let found = tree(alloc, depth, tokens)?;
    expect(tokens, right)?;
    Ok(found)
}

// One or more trees, each between two marks, with a third between each two.
#[cycle(tree)]
fn trees(
    alloc: Global,
    left: &str,
    right: &str,
    between: &str,
    depth: u32,
    tokens: &mut Front,
) -> Result<RawForest, ReadFault>
    ensures { Gives (λ found. (map raw_tree_of found, lexemes_in tokens.new)) result
        (sep_list between.now (marked_at left.now right.now (tree_at u32.MAX depth)) u32.MAX
        (lexemes_in tokens.old)) }
{
    let mut found = RawForest::new(alloc);
    for _ in 0..u32::MAX {
        let item = marked(alloc, left, right, depth, tokens)?;
        found.push(item)?;
        if !skip(tokens, between) {
            return Ok(found);
        }
    }
    Err(ReadFault::Memory)
}

// A forest, its trees nested at most so deep.
#[cycle(tree)]
#[tactic(auto, unfolding(crate::specs::TreeReaders::forest_at, crate::specs::TreeReaders::some_at))]
fn forest(alloc: Global, depth: u32, tokens: &mut Front) -> Result<RawForest, ReadFault>
    ensures { Gives (λ found. (raw_forest_of found, lexemes_in tokens.new)) result
        (forest_at u32.MAX (tree_at u32.MAX depth) (lexemes_in tokens.old)) }
{
    if skip(tokens, "0f") {
        return Ok(RawForest::new(alloc));
    }
    trees(alloc, "<", ">", "*", depth, tokens)
}

// A tree, nested at most so deep.
#[cycle(tree)]
#[tactic(auto, unfolding(crate::specs::TreeReaders::tree_at, crate::specs::TreeReaders::node_at))]
fn tree(alloc: Global, depth: u32, tokens: &mut Front) -> Result<RawTree, ReadFault>
    ensures { Gives (λ found. (raw_tree_of found, lexemes_in tokens.new)) result
        (tree_at u32.MAX depth (lexemes_in tokens.old)) }
{
    if depth == 0 {
        return Err(ReadFault::Memory);
    }
    let name = literal(alloc, tokens)?;
    expect(tokens, "#")?;
    let id = number(tokens)?;
    expect(tokens, "[")?;
    let kids = forest(alloc, depth - 1, tokens)?;
    expect(tokens, "]")?;
    expect(tokens, "%")?;
    let list = number(tokens)?;
    Ok(RawTree {
        name,
        id,
        kids,
        list,
    })
}

// A grove, at the front of the tokens.
#[tactic(auto, unfolding(crate::specs::TreeReaders::grove_at, crate::specs::TreeReaders::some_at))]
fn grove(alloc: Global, tokens: &mut Front) -> Result<RawGrove, ReadFault>
    ensures { Gives (λ found. (raw_forest_of found, lexemes_in tokens.new)) result
        (grove_at u32.MAX MOST_DEPTH (lexemes_in tokens.old)) }
{
    if skip(tokens, "0g") {
        return Ok(RawGrove::new(alloc));
    }
    trees(alloc, "[", "]", "+", MOST_DEPTH, tokens)
}

// A grove that ends where the tokens do.
fn whole_grove(alloc: Global, tokens: Front) -> Result<RawGrove, ReadFault>
    ensures { Gives raw_forest_of result
        (whole (grove_at u32.MAX MOST_DEPTH) (lexemes_in tokens.entry)) }
{
    let mut rest = tokens;
    let found = grove(alloc, &mut rest)?;
    if rest.is_empty() {
        Ok(found)
    } else {
        Err(ReadFault::Text(rest.count()))
    }
}

/// The grove that the tokens spell, all of them. `BadText` comes exactly where they spell none,
/// with the fault token where they are those of a text, and `OutOfMemory` also where trees nest
/// more than `MOST_DEPTH` deep.
pub fn grove_from(alloc: Global, tokens: Front) -> Result<RawGrove, TextFault>
    ensures found { IfOk result (λ g. SpellsGrove (raw_forest_of g) (lexemes_in tokens.entry)) }
    ensures bad_text { IfBadText result (λ token.
        (g : Trees) → SpellsGrove g (lexemes_in tokens.entry) → ⊥) }
    ensures fault_token { AreOfTokens (lexemes_in tokens.entry)
        → IfBadText result (IsFaultToken SpellsGrove (lexemes_in tokens.entry)) }
{
    match whole_grove(alloc, tokens) {
        Ok(found) => Ok(found),
        Err(fault) => Err(fault.of_whole(tokens.count())),
    }
}

/// The same of the tokens of a list.
pub fn read_grove(alloc: Global, tokens: &Tokens) -> Result<RawGrove, TextFault>
    ensures found { IfOk result (λ g. SpellsGrove (raw_forest_of g) (listed tokens.now)) }
    ensures bad_text { IfBadText result (λ token.
        (g : Trees) → SpellsGrove g (listed tokens.now) → ⊥) }
    ensures fault_token { AreOfTokens (listed tokens.now)
        → IfBadText result (IsFaultToken SpellsGrove (listed tokens.now)) }
{
    grove_from(alloc, Front::of_list(tokens))
}

/// A list of lexemes spells at most one grove.
pub fn one_grove()
    ensures { (s : List Lexeme) (a b : Trees) → SpellsGrove a s → SpellsGrove b s → a ≡ b }
{}
