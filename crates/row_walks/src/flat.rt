// The walk over a formula without parts.
ghost use Rattle.std.specs.Prelude.{◌≡◌, cond, None};
ghost use Rattle.letter_bindings.specs.Matching.{match_formula};
ghost use Rattle.row_patterns.specs.Views.{formula_in};
ghost use Rattle.formula_table.specs.Forms.{form_at};
ghost use Rattle.row_walks.specs.Views.{known_at, Walks};
ghost use Rattle.row_walks.specs.Forms.{is_flat};

use crate::known::Known;
use crate::sorts::walk_data;
use crate::terms::walk_term;
use formula_table::{Head, Table};
use row_patterns::{Pattern, TermPattern};

// the walk over a formula without parts
pub(crate) fn walk_flat(table: &Table, pattern: &Pattern, number: u32, known: &mut Known) -> bool
    ensures { Walks result (known_at table.now known.new)
        (cond (is_flat pattern.now) (match_formula (formula_in pattern.now)
        (form_at table.now number) (known_at table.now known.old)) None) }
{
    let row = table.form(number);
    match (pattern, row.head) {
        (Pattern::True, Head::True)
        | (Pattern::False, Head::False)
        | (Pattern::EmptyForest, Head::EmptyForest)
        | (Pattern::EmptyGrove, Head::EmptyGrove) => true,
        (Pattern::Eq(a, b), Head::Eq) | (Pattern::Le(a, b), Head::Le) => {
            walk_term(table, a, row.first, &mut *known)
                && walk_term(table, b, row.second, &mut *known)
        }
        (Pattern::Hole(h), Head::Hole(j)) => walk_data(*h, j, &mut *known),
        (Pattern::Var, Head::Var) => walk_term(table, &TermPattern::X, row.first, &mut *known),
        (Pattern::Len(a), Head::Len) => walk_term(table, a, row.first, &mut *known),
        _ => false,
    }
}
