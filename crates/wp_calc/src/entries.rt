// The table: the entry of each command that has a row.
ghost use Rattle.std.specs.Prelude.{◌≡◌, List, [], false, length, IfNone, IfSome};
ghost use Rattle.model_shapes.specs.Values.{Name};
ghost use Rattle.model_formulas.specs.Formulas.{Named};
ghost use Rattle.model_weakest.specs.Written.{new_sorts, written};
ghost use Rattle.dom_terms.specs.Sorts.{value_sort_of};
ghost use Rattle.theory_syntax.specs.Commands.{command_of};
ghost use Rattle.wp_calc.specs.Rows as view;

use crate::rows::Row;
use crate::table::{
    APPENDED, HAS_CHILDREN, HAS_ITEM, HAS_NAME, HAS_PARENT, INSERTED, IS_VALUE, NEW_ROOT, REMOVED,
};
use dom_terms::{ProgVar, Term, ValueSort};
use theory_syntax::Command;

/// What the row of a command speaks of.
#[derive(Clone, Copy)]
pub(crate) enum Kind<'a> {
    /// The value that the variable gets.
    Value(&'a ProgVar),
    /// The context that adds a new root, whose node number the variable gets.
    Root(&'a ProgVar),
    /// The grove after a move.
    Move,
}

/// An entry of the table, with the terms of the command.
#[derive(Clone, Copy)]
pub(crate) struct Entry<'a> {
    /// What the row speaks of.
    pub(crate) kind: Kind<'a>,
    /// How many new variables the row brings.
    pub(crate) count: usize,
    /// The row.
    pub(crate) row: Row<'static>,
    /// The first term of the command.
    pub(crate) first: &'a Term,
    /// The second; the first where there is one.
    pub(crate) second: &'a Term,
    /// The third; the one before it where there are fewer.
    pub(crate) third: &'a Term,
}

/// The sort of the command's variable; a move has none, and its row doesn't ask for it.
pub(crate) fn sort_for(kind: Kind) -> ValueSort
    ensures { value_sort_of result ≡ view.sort_for kind.entry }
{
    match kind {
        Kind::Value(x) => x.sort,
        Kind::Root(x) => x.sort,
        Kind::Move => ValueSort::Node,
    }
}

// The entry with these parts.
fn entry_with<'a>(
    kind: Kind<'a>,
    count: usize,
    row: Row<'static>,
    terms: (&'a Term, &'a Term, &'a Term),
) -> Entry<'a>
    ensures { result ≡ (record {
      kind = kind.entry;
      count = count;
      row = row.entry;
      first = terms.entry.0;
      second = terms.entry.1;
      third = terms.entry.2;
    }) }
{
    let (first, second, third) = terms;
    Entry {
        kind,
        count,
        row,
        first,
        second,
        third,
    }
}

/// The entry of a command that is no block; none of one that does nothing or isn't straight-line.
pub(crate) fn entry_of(command: &Command) -> Option<Entry<'_>>
    requires { view.is_block (command_of command.now) ≡ false }
    ensures row { IfSome result (λ entry. (names : List Name) (q : Named)
        → written names (command_of command.now) q ≡ view.made entry names q) }
    ensures count { IfSome result (λ entry.
        length (new_sorts (command_of command.now)) ≡ entry.count) }
    ensures unchanged { IfNone result ((names : List Name) (q : Named)
        → written names (command_of command.now) q ≡ q) }
    ensures nothing_new { IfNone result (new_sorts (command_of command.now) ≡ []) }
{
    Some(match command {
        Command::Assign(x, e) => entry_with(Kind::Value(x), 1, IS_VALUE, (e, e, e)),
        Command::Create(x, e) => entry_with(Kind::Root(x), 2, NEW_ROOT, (e, e, e)),
        Command::Name(x, e) => entry_with(Kind::Value(x), 2, HAS_NAME, (e, e, e)),
        Command::Children(x, e) => entry_with(Kind::Value(x), 2, HAS_CHILDREN, (e, e, e)),
        Command::Parent(x, e) => entry_with(Kind::Value(x), 7, HAS_PARENT, (e, e, e)),
        Command::Item(x, e, f) => entry_with(Kind::Value(x), 8, HAS_ITEM, (e, f, f)),
        Command::Append(e, f) => entry_with(Kind::Move, 8, APPENDED, (e, f, f)),
        Command::Remove(e, f) => entry_with(Kind::Move, 9, REMOVED, (e, f, f)),
        Command::InsertBefore(e, f, g) => entry_with(Kind::Move, 19, INSERTED, (e, f, g)),
        _ => return None,
    })
}
