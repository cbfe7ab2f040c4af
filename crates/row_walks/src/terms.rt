// The walks over terms.
ghost use Rattle.std.specs.Prelude.{◌≡◌};
ghost use Rattle.letter_bindings.specs.Known as known;
ghost use Rattle.letter_bindings.specs.Matching.{then, match_x_sort, match_variable, match_term};
ghost use Rattle.rule_patterns.specs.Patterns.{some_term};
ghost use Rattle.row_patterns.specs.Views.{term_letter_in, term_in};
ghost use Rattle.formula_table.specs.Forms.{term_at};
ghost use Rattle.numbered_formulas.specs.Variables.{variable_at};
ghost use Rattle.row_walks.specs.Views.{known_at, Walks};

use crate::known::Known;
use crate::sorts::walk_x_sort;
use formula_table::{Table, TermRow};
use numbered_formulas::{Variable, same_variables};
use row_patterns::{TermLetter, TermPattern};

/// The walk over `$x`, where it is this variable.
pub fn walk_variable(table: &Table, variable: Variable, known: &mut Known) -> bool
    ensures { Walks result (known_at table.now known.new)
        (match_variable (variable_at table.now variable) (known_at table.now known.old)) }
{
    if !walk_x_sort(variable.sort, &mut *known) {
        return false;
    }
    match known.x {
        Some(x) => same_variables(table, variable, x),
        None => {
            known.x = Some(variable);
            true
        }
    }
}

// the term of a letter
pub(crate) fn walk_term_letter(
    table: &Table,
    letter: TermLetter,
    number: u32,
    known: &mut Known,
) -> bool
    ensures { Walks result (known_at table.now known.new)
        (match_term (some_term (term_letter_in letter)) (term_at table.now number)
        (known_at table.now known.old)) }
{
    match known.terms.get(letter) {
        Some(other) => table.same_terms(number, other),
        None => {
            known.terms.set(letter, number);
            true
        }
    }
}

/// The walk over a term.
pub fn walk_term(table: &Table, pattern: &TermPattern, number: u32, known: &mut Known) -> bool
    ensures { Walks result (known_at table.now known.new)
        (match_term (term_in pattern.now) (term_at table.now number)
        (known_at table.now known.old)) }
{
    match (pattern, table.term(number)) {
        (TermPattern::Letter(a), _) => walk_term_letter(table, *a, number, &mut *known),
        (TermPattern::X, TermRow::Logic(name, sort)) => {
            walk_variable(table, Variable { name, sort }, &mut *known)
        }
        (TermPattern::NullNode, TermRow::NullNode) | (TermPattern::NullList, TermRow::NullList) => {
            true
        }
        (TermPattern::Int(a), TermRow::Int(b)) => *a == b,
        (TermPattern::Add(p, q), TermRow::Add(a, b))
        | (TermPattern::Sub(p, q), TermRow::Sub(a, b))
        | (TermPattern::Cat(p, q), TermRow::Cat(a, b)) => {
            walk_term(table, p, a, &mut *known) && walk_term(table, q, b, &mut *known)
        }
        _ => false,
    }
}
