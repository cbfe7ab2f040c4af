// Groves and literals as text.
ghost use Rattle.model_limits.specs.Limits.{standard_limits};
ghost use Rattle.std.specs.Prelude.{◌≡◌, ◌≤◌, ◌∷◌, ◌++◌, encode_utf8, IfOk, OnOk, MatchOption};
ghost use Rattle.model_text.specs.Tokens.{backslash};
ghost use Rattle.model_text.specs.Nesting.{lexemes_of};
ghost use Rattle.model_documents.specs.Grammar.{SpellsGrove};
ghost use Rattle.model_documents.specs.Printed.{escaped, quoted, forest_text, grove_text};
ghost use Rattle.model_printing.specs.Printable.{ArePrintableTrees};
ghost use Rattle.grove_data.specs.Trees.{tree_of, forest_of};
ghost use Rattle.std.specs.Fmt.{decimal};
ghost use Rattle.logic_text.specs.Marks.{inner_text, marked_text};

use dom_terms::{OutOfMemory, Text};
use grove_data::{Forest, Grove, Tree};
use std::alloc::Global;

// What stands after the backslash that escapes the character in a literal; none where it stands as
// it is.
fn escape_of(character: char) -> Option<char>
    ensures { MatchOption result
        (escaped (encode_utf8 character) ≡ encode_utf8 character)
        (λ letter. escaped (encode_utf8 character) ≡ backslash ∷ encode_utf8 letter) }
{
    if character == '\n' {
        return Some('n');
    }
    if character == '"' || character == '\\' {
        return Some(character);
    }
    None
}

// Puts a character at the end as it stands in a literal.
fn push_escaped(text: &mut Text, character: char) -> Result<(), OutOfMemory>
    ensures { OnOk result (text.new ≡ text.old ++ escaped (encode_utf8 character)) }
{
    match escape_of(character) {
        Some(letter) => {
            text.push('\\')?;
            text.push(letter)
        }
        None => text.push(character),
    }
}

/// Puts the literal that stands for the other text at the end.
pub fn push_literal(text: &mut Text, other: &Text) -> Result<(), OutOfMemory>
    ensures { OnOk result (text.new ≡ text.old ++ quoted other.now) }
{
    text.push('"')?;
    for character in other.as_str().chars() {
        push_escaped(text, character)?;
    }
    text.push('"')?;
    Ok(())
}

/// The literal that stands for the text: quoted, with a quote, a backslash and a newline escaped.
pub fn write_literal(alloc: Global, text: &Text) -> Result<Text, OutOfMemory>
    ensures { IfOk result (λ literal. literal ≡ quoted text.now) }
{
    let mut literal = Text::new(alloc);
    push_literal(&mut literal, text)?;
    Ok(literal)
}

/// Puts the characters at the end.
pub fn push_str(alloc: Global, text: &mut Text, characters: &str) -> Result<(), OutOfMemory>
    ensures { OnOk result (text.new ≡ text.old ++ characters.now) }
{
    let other = Text::from_str(alloc, characters)?;
    text.append(&other)
}

// Puts the digits of the number at the end; a token can have each number of 32 bits.
fn push_number(alloc: Global, text: &mut Text, number: u32) -> Result<(), OutOfMemory>
    ensures written { OnOk result (text.new ≡ text.old ++ decimal number) }
    ensures fits { number ≤ standard_limits.integer }
{
    let digits = number.to_string(alloc)?;
    push_str(alloc, text, digits.as_str())
}

// Puts the text of the tree at the end, without the marks round it.
#[cycle(writing)]
fn push_tree(alloc: Global, text: &mut Text, tree: &Tree) -> Result<(), OutOfMemory>
    ensures written { OnOk result (text.new ≡ text.old ++ inner_text (tree_of tree.now)) }
    ensures printable { OnOk result (ArePrintableTrees (tree_of tree.now)) }
{
    tree.name.is_utf8();
    push_literal(text, &tree.name)?;
    push_str(alloc, text, "#")?;
    push_number(alloc, text, tree.id)?;
    push_str(alloc, text, "[")?;
    push_forest(alloc, text, &tree.kids)?;
    push_str(alloc, text, "]%")?;
    push_number(alloc, text, tree.list)?;
    Ok(())
}

// Puts the text of the trees at the end, each between two marks, with another left mark from the
// second on.
#[cycle(writing)]
fn push_trees(
    alloc: Global,
    text: &mut Text,
    trees: &Forest,
    left: &str,
    next_left: &str,
    right: &str,
) -> Result<(), OutOfMemory>
    ensures written { OnOk result (text.new ≡
        text.old ++ marked_text left.now next_left.now right.now (forest_of trees.now)) }
    ensures printable { OnOk result (ArePrintableTrees (forest_of trees.now)) }
{
    let mut mark = left;
    for tree in trees.as_slice() {
        push_str(alloc, text, mark)?;
        push_tree(alloc, text, tree)?;
        push_str(alloc, text, right)?;
        mark = next_left;
    }
    Ok(())
}

// Puts the text of the forest at the end.
#[cycle(writing)]
fn push_forest(alloc: Global, text: &mut Text, forest: &Forest) -> Result<(), OutOfMemory>
    ensures written { OnOk result (text.new ≡ text.old ++ forest_text (forest_of forest.now)) }
    ensures printable { OnOk result (ArePrintableTrees (forest_of forest.now)) }
{
    if forest.is_empty() {
        return push_str(alloc, text, "0f");
    }
    push_trees(alloc, text, forest, "<", " * <", ">")
}

/// The text of the grove, its roots in the order in which they stand. It reads back.
pub fn write_grove(alloc: Global, grove: &Grove) -> Result<Text, OutOfMemory>
    ensures written { IfOk result (λ text. text ≡ grove_text (forest_of grove.now)) }
    ensures reads_back { IfOk result (λ text. SpellsGrove (forest_of grove.now) (lexemes_of text)) }
{
    if grove.is_empty() {
        return Text::from_str(alloc, "0g");
    }
    let mut text = Text::new(alloc);
    push_trees(alloc, &mut text, grove, "[", " + [", "]")?;
    Ok(text)
}
