// The lines of what a run changes.
ghost use Rattle.std.specs.Prelude.{◌≡◌, ◌++◌, IfOk, OnOk, decimal, map, string_bytes};
ghost use Rattle.model_answers.specs.Output as output;
ghost use Rattle.run_trace.specs.Changes.{change_of};

use dom_terms::{OutOfMemory, Text};
use itoa::Buffer;
use run_trace::Change;
use std::alloc::{AllocError, Global};

// Puts a word and the number after it at the end of the text.
fn push_numbered(text: &mut String, word: &str, number: u32) -> Result<(), AllocError>
    ensures { OnOk result (string_bytes text.new
        ≡ string_bytes text.old ++ (word.now ++ decimal number)) }
{
    text.push_str(word)?;
    text.push_str(Buffer::new().format(number))
}

// Puts what is said of a node's parent before a move at the end of the text.
fn push_parent(text: &mut String, parent: u32) -> Result<(), AllocError>
    ensures { OnOk result (string_bytes text.new
        ≡ string_bytes text.old ++ output.parent_text parent) }
{
    if parent == 0 {
        text.push_str("root")
    } else {
        push_numbered(text, "#", parent)
    }
}

// Puts what is said of the child before which a node goes at the end of the text.
fn push_before(text: &mut String, before: u32) -> Result<(), AllocError>
    ensures { OnOk result (string_bytes text.new
        ≡ string_bytes text.old ++ output.before_text before) }
{
    if before == 0 {
        Ok(())
    } else {
        push_numbered(text, " before #", before)
    }
}

// Puts the text of a change at the end of the text.
fn push_change(text: &mut String, change: &Change) -> Result<(), AllocError>
    ensures { OnOk result (string_bytes text.new
        ≡ string_bytes text.old ++ output.change_text (change_of change.now)) }
{
    match *change {
        Change::Created { step, node, list } => {
            push_numbered(text, "", step)?;
            push_numbered(text, " created #", node)?;
            push_numbered(text, " %", list)
        }
        Change::Moved {
            step,
            node,
            from,
            to,
            before,
        } => {
            push_numbered(text, "", step)?;
            push_numbered(text, " moved #", node)?;
            text.push_str(" from ")?;
            push_parent(text, from)?;
            push_numbered(text, " to #", to)?;
            push_before(text, before)
        }
        Change::Removed { step, node, from } => {
            push_numbered(text, "", step)?;
            push_numbered(text, " removed #", node)?;
            push_numbered(text, " from #", from)
        }
    }
}

/// The lines of changes, each with its newline.
pub fn change_lines(alloc: Global, changes: &[Change]) -> Result<Text, OutOfMemory>
    ensures { IfOk result (λ text. text
        ≡ output.lines_of (map output.change_text (map change_of changes.now))) }
{
    let mut text = String::new(alloc);
    let mut rest = changes;
    'changes: while let [change, others @ ..] = rest {
        push_change(&mut text, change)?;
        text.push('\n')?;
        rest = others;
    }
    Text::from_str(alloc, text.as_str())
}
