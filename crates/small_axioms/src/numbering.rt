// What a triple says, by numbers.
ghost use Rattle.std.specs.Prelude.{◌≡◌, IfOk};
ghost use Rattle.model_formulas.specs.Nameless.{nameless};
ghost use Rattle.dom_terms.specs.Sorts.{data_sort_of};
ghost use Rattle.formula_syntax.specs.Formulas.{formula_of};
ghost use Rattle.formula_table.specs.Interning.{KeepsAll, TermsGrow};
ghost use Rattle.theory_syntax.specs.Commands.{command_of};
ghost use Rattle.row_walks.specs.Views.{known_at};
ghost use Rattle.small_axioms.specs.Numbers.{IsTermIn, SaysThese, known_in, target_in, term_in};
ghost use Rattle.small_axioms.specs.Commands as commands;

use dom_terms::{Copied, DataSort, OutOfMemory, ProgVar, Term};
use formula_table::{Table, TableFault};
use row_walks::Known;
use std::alloc::Global;
use theory_syntax::{Command, Triple};

/// The formulas of a triple by numbers, and its sort.
#[derive(Clone, Copy)]
pub(crate) struct Said {
    /// The formula before the command.
    pub pre: u32,
    /// The formula after it.
    pub post: u32,
    /// The sort.
    pub sort: DataSort,
}

/// The numbers that the formulas of the triple have or get.
pub(crate) fn number_said(table: &mut Table, triple: &Triple) -> Result<Said, TableFault>
    ensures ok { IfOk result (λ said. SaysThese table.new said
        (nameless (formula_of triple.now.pre)) (nameless (formula_of triple.now.post))
        (data_sort_of triple.now.sort)) }
    ensures kept { KeepsAll table.old table.new }
{
    let pre = table.intern(&triple.pre)?;
    let post = table.intern(&triple.post)?;
    Ok(Said {
        pre: pre.place,
        post: post.place,
        sort: triple.sort,
    })
}

// The terms of a command of the document, and the variable that it sets, as far as it has them.
#[derive(Clone, Copy)]
struct Parts<'a> {
    // the variable
    target: Option<&'a ProgVar>,
    // the first term
    first: Option<&'a Term>,
    // the second
    second: Option<&'a Term>,
    // the third
    third: Option<&'a Term>,
}

// Those of the command; a command that isn't of the document has none.
fn parts_of<'a>(command: &'a Command) -> Parts<'a>
    ensures { known_in result ≡ commands.known_of (command_of command.now) }
{
    let (target, first, second, third) = match command {
        Command::Create(x, e)
        | Command::Name(x, e)
        | Command::Children(x, e)
        | Command::Parent(x, e) => (Some(x), Some(e), None, None),
        Command::Item(x, e, f) => (Some(x), Some(e), Some(f), None),
        Command::Append(e, f) | Command::Remove(e, f) => (None, Some(e), Some(f), None),
        Command::InsertBefore(e, f, g) => (None, Some(e), Some(f), Some(g)),
        _ => (None, None, None, None),
    };
    Parts {
        target,
        first,
        second,
        third,
    }
}

// The number of the variable, as a term, if there is one.
fn number_target(
    alloc: Global,
    table: &mut Table,
    target: Option<&ProgVar>,
) -> Result<Option<u32>, OutOfMemory>
    ensures ok { IfOk result (λ number. IsTermIn table.new number (target_in target.entry)) }
    ensures grows { TermsGrow table.old table.new }
{
    match target {
        Some(x) => Ok(Some(table.intern_term(&Term::Prog(x.copy(alloc)?))?)),
        None => Ok(None),
    }
}

// The number of the term, if there is one.
fn number_term(table: &mut Table, term: Option<&Term>) -> Result<Option<u32>, OutOfMemory>
    ensures ok { IfOk result (λ number. IsTermIn table.new number (term_in term.entry)) }
    ensures grows { TermsGrow table.old table.new }
{
    match term {
        Some(term) => Ok(Some(table.intern_term(term)?)),
        None => Ok(None),
    }
}

/// What a walk knows of the letters by the command: E, F and G are its terms, and N is the variable
/// that it sets. Of a command that isn't of the document nothing is known.
#[tactic(auto, using(crate::proofs::Numbered::numbered_rules))]
pub(crate) fn number_command(
    alloc: Global,
    table: &mut Table,
    command: &Command,
) -> Result<Known, OutOfMemory>
    ensures ok { IfOk result (λ known. known_at table.new known
        ≡ commands.known_of (command_of command.now)) }
    ensures grows { TermsGrow table.old table.new }
{
    let parts = parts_of(command);
    let n = number_target(alloc, &mut *table, parts.target)?;
    let e = number_term(&mut *table, parts.first)?;
    let f = number_term(&mut *table, parts.second)?;
    let g = number_term(&mut *table, parts.third)?;
    let mut known = Known::nothing();
    known.terms.e = e;
    known.terms.f = f;
    known.terms.g = g;
    known.terms.n = n;
    Ok(known)
}
