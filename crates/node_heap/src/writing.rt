// Groves and texts made of heaps, by loops over walks.
ghost use Rattle.std.specs.Prelude.{◌≡◌, ◌++◌, IfOk, OnOk, codes};
ghost use Rattle.std.specs.Prelude as plain;
ghost use Rattle.std.specs.Fmt.{decimal};
ghost use Rattle.model_shapes.specs.Sorts.{shape, grove};
ghost use Rattle.model_shapes.specs.Trees.{none, node as node_with, beside};
ghost use Rattle.model_shapes.specs.Shapes.{SameAt, Shaped};
ghost use Rattle.model_documents.specs.Roots.{sorted_roots};
ghost use Rattle.model_documents.specs.Printed.{grove_text};
ghost use Rattle.grove_data.specs.Trees.{forest_of};
ghost use Rattle.node_heap.specs.Walking.{seen};
ghost use Rattle.node_heap.specs.Writing.{row_then, outer_then, outer_of, next_of, stack, EndsWithLeaf, piece, opening_text, closing_text, bracket_text};
ghost use Rattle.std.specs.Option.{is_some};

use crate::heap::NodeHeap;
use crate::records::Record;
use crate::walking::Mark;
use dom_terms::{Copied, List, OutOfMemory, Text};
use grove_data::{Forest, Grove, Tree, let_go};
use logic_text::{push_str, write_literal};
use std::alloc::Global;

impl NodeHeap {
    /// The grove that the heap stands for, its roots by rising number. What a heap stands for is a
    /// well-formed grove always. The grove is as deep as the heap, so `let_go` is there for it: a
    /// plain drop takes stack for each tree below another.
    pub fn to_grove(&self, alloc: Global) -> Result<Grove, OutOfMemory>
        ensures made { IfOk result (λ grove. forest_of grove ≡ sorted_roots self.now.grove) }
        ensures shaped { OnOk result (Shaped (shape grove) self.now.grove) }
    {
        let marks = self.walk(alloc)?;
        let mut row = List::new(alloc);
        let mut outer = Vec::new(alloc);
        for mark in &marks {
            match next_row(alloc, mark, row, &mut outer) {
                Ok(next) => row = next,
                Err(refused) => {
                    let_each_go(alloc, outer);
                    return Err(refused);
                }
            }
        }
        Ok(row)
    }

    /// An equal heap, on memory of its own. Room for more nodes isn't copied.
    pub fn copy(&self, alloc: Global) -> Result<NodeHeap, OutOfMemory>
        ensures { IfOk result (λ copied. copied.grove ≡ self.now.grove) }
    {
        let grove = self.to_grove(alloc)?;
        let copied = NodeHeap::from_grove(alloc, &grove);
        let_go(alloc, grove);
        let copied = copied?;
        copied.is_equal(self);
        Ok(copied)
    }

    // Does nothing: it states that heaps of one grove are equal.
    fn is_equal(&self, other: &NodeHeap)
        requires { SameAt grove self.now.grove other.now.grove }
        ensures { self.now.grove ≡ other.now.grove }
    {
        let _nodes = &self.nodes;
        let _others = &other.nodes;
    }

    /// The text of that grove, as the program prints it. What a heap stands for is a well-formed
    /// grove always.
    pub fn write_text(&self, alloc: Global) -> Result<Text, OutOfMemory>
        ensures text { IfOk result (λ text. text ≡ grove_text (sorted_roots self.now.grove)) }
        ensures shaped { Shaped (shape grove) self.now.grove }
    {
        let marks = self.walk(alloc)?;
        if marks.is_empty() {
            return Text::from_str(alloc, "0g");
        }
        let mut text = Text::new(alloc);
        let mut is_first = true;
        for mark in &marks {
            push_mark(alloc, &mut text, mark, is_first)?;
            is_first = false;
        }
        Ok(text)
    }
}

// The row of siblings after a mark, and the rows round it. Where a node is opened its children are
// a new row; where it is closed they are complete, and the node comes to the end of the row above.
// Where memory is refused the row is let go.
fn next_row(
    alloc: Global,
    mark: &Mark,
    row: Forest,
    outer: &mut Vec<Forest>,
) -> Result<Forest, OutOfMemory>
    ensures row { IfOk result (λ next. forest_of next
        ≡ row_then (seen mark.now) (forest_of row) (stack outer.old.items)) }
    ensures outer { OnOk result (stack outer.new.items
        ≡ outer_then (seen mark.now) (forest_of row) (stack outer.old.items)) }
{
    if mark.opens {
        return match outer.push(row) {
            Ok(()) => Ok(List::new(alloc)),
            Err(refused) => {
                let_go(alloc, refused.value);
                Err(OutOfMemory)
            }
        };
    }
    let above = row_above(alloc, outer);
    closed(alloc, mark.node, row, above)
}

// takes the next row away: there is none above the roots
fn row_above(alloc: Global, outer: &mut Vec<Forest>) -> Forest
    ensures row { forest_of result ≡ next_of (stack outer.old.items) }
    ensures outer { stack outer.new.items ≡ outer_of (stack outer.old.items) }
{
    match outer.pop() {
        Some(row) => row,
        None => List::new(alloc),
    }
}

// The row with the node, which has these children, at its end. Where memory is refused both are let
// go.
fn closed(
    alloc: Global,
    node: &Record,
    kids: Forest,
    mut row: Forest,
) -> Result<Forest, OutOfMemory>
    ensures { IfOk result (λ after. forest_of after ≡ beside (forest_of row)
        (node_with node.now.name node.now.number (forest_of kids) node.now.list none)) }
{
    match push_leaf(alloc, node, &mut row) {
        Ok(()) => {
            put_below(&mut row, kids);
            Ok(row)
        }
        Err(refused) => {
            let_go(alloc, kids);
            let_go(alloc, row);
            Err(refused)
        }
    }
}

// puts the node without children at the end
fn push_leaf(alloc: Global, node: &Record, row: &mut Forest) -> Result<(), OutOfMemory>
    ensures { OnOk result (EndsWithLeaf node.now row.old row.new) }
{
    row.push(Tree {
        name: node.name.copy(alloc)?,
        id: node.number,
        kids: List::new(alloc),
        list: node.list,
    })
}

// gives the last tree these children
fn put_below(row: &mut Forest, kids: Forest)
    ensures { (node : Record) (trees : plain.List Tree) → EndsWithLeaf node trees row.old
        → forest_of row.new ≡ beside (forest_of trees)
        (node_with node.name node.number (forest_of kids) node.list none) }
{
    if let Some(last) = row.last_mut() {
        last.kids = kids;
    }
}

// lets each row go
fn let_each_go(alloc: Global, rows: Vec<Forest>) {
    let mut rows = rows;
    while let Some(row) = rows.pop() {
        let_go(alloc, row);
    }
}

// puts what stands at a mark at the end
fn push_mark(alloc: Global, text: &mut Text, mark: &Mark, is_first: bool) -> Result<(), OutOfMemory>
    ensures { OnOk result (text.new ≡ text.old ++ piece is_first (seen mark.now)) }
{
    if mark.opens {
        push_opening(alloc, text, mark.node, is_first)
    } else {
        push_closing(alloc, text, mark.node)
    }
}

// puts what stands before the children of a node at the end
fn push_opening(
    alloc: Global,
    text: &mut Text,
    node: &Record,
    is_first: bool,
) -> Result<(), OutOfMemory>
    ensures { OnOk result (text.new ≡ text.old ++ opening_text
        (bracket_text is_first (is_some node.now.parent) (is_some node.now.previous))
        node.now.name node.now.number (is_some node.now.first)) }
{
    push_str(alloc, text, bracket(node, is_first))?;
    let name = write_literal(alloc, &node.name)?;
    text.append(&name)?;
    push_str(alloc, text, "#")?;
    push_number(alloc, text, node.number)?;
    let start = if node.first.is_none() { "[0f" } else { "[" };
    push_str(alloc, text, start)
}

// puts what stands after the children of a node at the end
fn push_closing(alloc: Global, text: &mut Text, node: &Record) -> Result<(), OutOfMemory>
    ensures { OnOk result (text.new ≡ text.old
        ++ closing_text node.now.list (is_some node.now.parent)) }
{
    push_str(alloc, text, "]%")?;
    push_number(alloc, text, node.list)?;
    let bracket = if node.parent.is_none() { "]" } else { ">" };
    push_str(alloc, text, bracket)
}

// what stands before a node: there are others before a later root or child
fn bracket(node: &Record, is_first: bool) -> &'static str
    ensures { result.now
        ≡ bracket_text is_first (is_some node.now.parent) (is_some node.now.previous) }
{
    if node.parent.is_none() {
        return if is_first { "[" } else { " + [" };
    }
    if node.previous.is_none() { "<" } else { " * <" }
}

// puts the digits of the number at the end
fn push_number(alloc: Global, text: &mut Text, number: u32) -> Result<(), OutOfMemory>
    ensures { OnOk result (text.new ≡ text.old ++ decimal number) }
{
    let digits = number.to_string(alloc)?;
    push_str(alloc, text, digits.as_str())
}
