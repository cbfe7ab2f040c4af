// The walks over what is written at a step.
ghost use Rattle.std.specs.Prelude.{◌≡◌, Some, map};
ghost use Rattle.std.specs.Option.{option_map};
ghost use Rattle.letter_bindings.specs.Matching.{match_terms, match_judgement, match_judgements};
ghost use Rattle.letter_bindings.specs.Lines as lines;
ghost use Rattle.row_patterns.specs.Views.{arguments_in, judgement_in, premises_in, line_in};
ghost use Rattle.formula_table.specs.Forms.{term_at};
ghost use Rattle.row_walks.specs.Views.{known_at, Walks};
ghost use Rattle.row_walks.specs.Written.{judged_at, all_cited, written_at};

use crate::formulas::walk_formula;
use crate::known::Known;
use crate::sorts::walk_sort;
use crate::terms::walk_term_letter;
use dom_terms::Sort;
use formula_table::Table;
use row_patterns::{Asked, Judged, Premises, Row};

/// An entailment by numbers.
#[derive(Clone, Copy)]
pub struct Numbered {
    /// The number of the formula that entails.
    pub left: u32,
    /// The number of the formula that is entailed.
    pub right: u32,
    /// The sort.
    pub sort: Sort,
}

/// The entailments that a step cites.
#[derive(Clone, Copy)]
pub enum Cited {
    /// None.
    Nothing,
    /// One.
    One(Numbered),
    /// Two, in this order.
    Two(Numbered, Numbered),
}

/// The walk over an entailment.
pub fn walk_judged(table: &Table, pattern: &Judged, written: Numbered, known: &mut Known) -> bool
    ensures { Walks result (known_at table.now known.new)
        (match_judgement (judgement_in pattern.now) (judged_at table.now written)
        (known_at table.now known.old)) }
{
    walk_formula(table, &pattern.left, written.left, &mut *known)
        && walk_formula(table, &pattern.right, written.right, &mut *known)
        && walk_sort(pattern.sort, written.sort, &mut *known)
}

// the walk over the arguments
#[tactic(auto, using(crate::proofs::Refusals::refusals))]
fn walk_arguments(table: &Table, asked: Asked, arguments: &[u32], known: &mut Known) -> bool
    ensures { Walks result (known_at table.now known.new)
        (match_terms (arguments_in asked) (map (term_at table.now) arguments.now)
        (known_at table.now known.old)) }
{
    match (asked, arguments) {
        (Asked::Argument(letter), [argument]) => {
            walk_term_letter(table, letter, *argument, &mut *known)
        }
        (Asked::Nothing | Asked::SortOfX, []) => true,
        _ => false,
    }
}

// the walk over what is cited
#[tactic(auto, using(crate::proofs::Refusals::refusals))]
fn walk_cited(table: &Table, premises: &Premises, cited: Cited, known: &mut Known) -> bool
    ensures { Walks result (known_at table.now known.new)
        (match_judgements (premises_in premises.now) (all_cited table.now cited)
        (known_at table.now known.old)) }
{
    match (premises, cited) {
        (Premises::Nothing, Cited::Nothing) => true,
        (Premises::One(p), Cited::One(a)) => walk_judged(table, p, a, &mut *known),
        (Premises::Two(p, q), Cited::Two(a, b)) => {
            walk_judged(table, p, a, &mut *known) && walk_judged(table, q, b, &mut *known)
        }
        _ => false,
    }
}

/// What is known after the walk over the arguments and the conclusion, which begins with nothing;
/// None where the row doesn't fit them. What the step cites doesn't matter for it.
pub fn walk_conclusion(
    table: &Table,
    row: &Row,
    arguments: &[u32],
    conclusion: Numbered,
) -> Option<Known>
    ensures { option_map (known_at table.now) result
        ≡ lines.walk_conclusion (line_in row.now)
        (written_at table.now arguments.now Cited.Nothing conclusion) }
{
    let mut known = Known::nothing();
    if walk_arguments(table, row.asked, arguments, &mut known)
        && walk_judged(table, &row.conclusion, conclusion, &mut known)
    {
        Some(known)
    } else {
        None
    }
}

/// What is known after the walk over the premises too, from what was known before; None where the
/// row doesn't fit them.
pub fn walk_premises(table: &Table, row: &Row, cited: Cited, known: Known) -> Option<Known>
    ensures { option_map (known_at table.now) result
        ≡ lines.walk_premises (line_in row.now) (Some (all_cited table.now cited))
        (known_at table.now known) }
{
    let mut known = known;
    if walk_cited(table, &row.premises, cited, &mut known) {
        Some(known)
    } else {
        None
    }
}
