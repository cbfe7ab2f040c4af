// Lists in brackets as text.
ghost use Rattle.std.specs.Prelude.{◌≡◌, ◌++◌, codes, map, OnOk};
ghost use Rattle.model_grammar.specs.Writing.{spaced, name_lexemes, term_lexemes, in_brackets};
ghost use Rattle.dom_terms.specs.Terms.{prog_var_of, term_of};
ghost use Rattle.theory_writing.specs.Marked.{marked};

use dom_terms::{OutOfMemory, ProgVar, Term, Text};
use logic_text::{push_term, push_token};
use std::alloc::Global;

/// A way to write items as tokens.
pub trait Writer<T>: Sized {
    ghost use Rattle.std.specs.Prelude.{List};
    ghost use Rattle.model_text.specs.Lexemes.{Lexeme};

    // the lexemes of the tokens of an item
    ghost lexemes: { T → List Lexeme };

    /// Puts the tokens of the item at the end, each after a space.
    fn push(&self, alloc: Global, text: &mut Text, item: &T) -> Result<(), OutOfMemory>
        ensures { OnOk result (text.new ≡ text.old ++ spaced (lexemes item.now)) };
}

/// Writes variables as they are used.
#[derive(Clone, Copy)]
pub struct NameWriter;

impl Writer<ProgVar> for NameWriter {
    ghost lexemes = { λ variable. name_lexemes (prog_var_of variable) };

    fn push(&self, alloc: Global, text: &mut Text, item: &ProgVar) -> Result<(), OutOfMemory>
        ensures { OnOk result
            (text.new ≡ text.old ++ spaced (name_lexemes (prog_var_of item.now))) }
    {
        push_token(alloc, text, item.name.as_str())
    }
}

/// Writes terms.
#[derive(Clone, Copy)]
pub struct TermWriter;

impl Writer<Term> for TermWriter {
    ghost lexemes = { λ term. term_lexemes (term_of term) };

    fn push(&self, alloc: Global, text: &mut Text, item: &Term) -> Result<(), OutOfMemory>
        ensures { OnOk result (text.new ≡ text.old ++ spaced (term_lexemes (term_of item.now))) }
    {
        push_term(alloc, text, item)
    }
}

// Puts the items at the end, each after a mark, from the second on after a comma.
fn push_marked<T, W: Writer<T>>(
    alloc: Global,
    text: &mut Text,
    writer: &W,
    first_mark: &str,
    items: &[T],
) -> Result<(), OutOfMemory>
    ensures { OnOk result (text.new ≡ text.old
        ++ spaced (marked first_mark.now (codes ",") (map W.lexemes items.now))) }
{
    let mut mark = first_mark;
    for item in items {
        push_token(alloc, text, mark)?;
        writer.push(alloc, text, item)?;
        mark = ",";
    }
    Ok(())
}

/// Puts the items at the end, in brackets and with commas between them.
pub fn push_bracketed<T, W: Writer<T>>(
    alloc: Global,
    text: &mut Text,
    writer: &W,
    items: &[T],
) -> Result<(), OutOfMemory>
    ensures { OnOk result (text.new ≡ text.old ++ spaced (in_brackets (map W.lexemes items.now))) }
{
    if items.is_empty() {
        push_token(alloc, text, "(")?;
        push_token(alloc, text, ")")?;
        return Ok(());
    }
    push_marked(alloc, text, writer, "(", items)?;
    push_token(alloc, text, ")")?;
    Ok(())
}
