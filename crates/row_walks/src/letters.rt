// The walks over the letters for formulas.
ghost use Rattle.std.specs.Prelude.{◌≡◌};
ghost use Rattle.letter_bindings.specs.Matching.{match_below, match_formula};
ghost use Rattle.rule_patterns.specs.Patterns.{some_formula, replaced};
ghost use Rattle.row_patterns.specs.Views.{letter_in, term_letter_in};
ghost use Rattle.formula_table.specs.Forms.{form_at};
ghost use Rattle.row_walks.specs.Views.{known_at, Walks};

use crate::known::Known;
use formula_table::Table;
use row_patterns::{FormulaLetter, TermLetter};

// the formula of a letter
pub(crate) fn walk_letter(
    table: &Table,
    letter: FormulaLetter,
    number: u32,
    known: &mut Known,
) -> bool
    ensures { Walks result (known_at table.now known.new)
        (match_formula (some_formula (letter_in letter)) (form_at table.now number)
        (known_at table.now known.old)) }
{
    match known.formulas.get(letter) {
        Some(other) => table.same_forms(number, other),
        None => {
            known.formulas.set(letter, number);
            true
        }
    }
}

// what stands for a letter below a binder
pub(crate) fn walk_letter_below(
    table: &Table,
    letter: FormulaLetter,
    number: u32,
    known: &mut Known,
) -> bool
    ensures { Walks result (known_at table.now known.new)
        (match_below (some_formula (letter_in letter)) (form_at table.now number)
        (known_at table.now known.old)) }
{
    match known.belows.get(letter) {
        Some(other) => table.same_forms(number, other),
        None => {
            known.belows.set(letter, number);
            true
        }
    }
}

// the formula of a letter with the term of another for $x, which is P with E for it
pub(crate) fn walk_replaced(
    table: &Table,
    term: TermLetter,
    letter: FormulaLetter,
    number: u32,
    known: &mut Known,
) -> bool
    ensures { Walks result (known_at table.now known.new)
        (match_formula (replaced (term_letter_in term) (letter_in letter))
        (form_at table.now number) (known_at table.now known.old)) }
{
    match (term, letter, known.put) {
        (TermLetter::E, FormulaLetter::P, Some(other)) => table.same_forms(number, other),
        (TermLetter::E, FormulaLetter::P, None) => {
            known.put = Some(number);
            true
        }
        _ => false,
    }
}
