// Terms over a name.
ghost use Rattle.std.specs.Prelude.{◌≡◌, IfSome};
ghost use Rattle.formula_table.specs.OverNames.{named_row};

use crate::rows::TermRow;
use dom_terms::{Sort, ValueSort};

/// What a term is over its name.
#[derive(Clone, Copy)]
pub(crate) enum Named {
    /// A text.
    Str,
    /// A program variable.
    Prog(ValueSort),
    /// A logic variable that stands free.
    Logic(Sort),
}

impl Named {
    /// The row of the term over this name.
    #[inline(always)]
    pub(crate) fn row(self, name: u32) -> TermRow
        ensures { result ≡ named_row self name }
    {
        match self {
            Named::Str => TermRow::Str(name),
            Named::Prog(sort) => TermRow::Prog(name, sort),
            Named::Logic(sort) => TermRow::Logic(name, sort),
        }
    }

    /// The name in the row, where the row is that of such a term.
    #[inline(always)]
    pub(crate) fn name_in(self, row: TermRow) -> Option<u32>
        ensures { IfSome result (λ name. row ≡ named_row self name) }
    {
        match (self, row) {
            (Named::Str, TermRow::Str(name)) => Some(name),
            (Named::Prog(sort), TermRow::Prog(name, known)) if sort == known => Some(name),
            (Named::Logic(sort), TermRow::Logic(name, known)) if sort == known => Some(name),
            _ => None,
        }
    }
}
