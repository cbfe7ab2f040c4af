// The walk over what stands below a binder of $x.
ghost use Rattle.std.specs.Prelude.{◌≡◌};
ghost use Rattle.model_formulas.specs.Formulas.{same_as};
ghost use Rattle.letter_bindings.specs.Matching.{match_below};
ghost use Rattle.rule_patterns.specs.Patterns.{same_as_p, x_term};
ghost use Rattle.row_patterns.specs.Views.{formula_in};
ghost use Rattle.formula_table.specs.Forms.{form_at, term_at};
ghost use Rattle.row_walks.specs.Views.{known_at, Walks};

use crate::known::Known;
use crate::letters::walk_letter_below;
use crate::sorts::{walk_data, walk_x_sort};
use formula_table::{Head, Table, TermRow};
use row_patterns::Pattern;

// $x below its binder
fn walk_bound(table: &Table, number: u32, known: &mut Known) -> bool
    ensures { Walks result (known_at table.now known.new)
        (match_below (same_as_p x_term) (same_as (term_at table.now number))
        (known_at table.now known.old)) }
{
    match table.term(number) {
        TermRow::Bound(0, sort) => walk_x_sort(sort, &mut *known),
        _ => false,
    }
}

/// The walk over what stands below a binder of `$x`.
pub fn walk_below(table: &Table, pattern: &Pattern, number: u32, known: &mut Known) -> bool
    ensures { Walks result (known_at table.now known.new)
        (match_below (formula_in pattern.now) (form_at table.now number)
        (known_at table.now known.old)) }
{
    let row = table.form(number);
    match (pattern, row.head) {
        (Pattern::Letter(a), _) => walk_letter_below(table, *a, number, &mut *known),
        (Pattern::And(p, q), Head::And) => {
            walk_below(table, p, row.left, &mut *known)
                && walk_below(table, q, row.right, &mut *known)
        }
        (Pattern::App(h, p, q), Head::App(j)) => {
            walk_data(*h, j, &mut *known)
                && walk_below(table, p, row.left, &mut *known)
                && walk_below(table, q, row.right, &mut *known)
        }
        (Pattern::Var, Head::Var) => walk_bound(table, row.first, &mut *known),
        _ => false,
    }
}
