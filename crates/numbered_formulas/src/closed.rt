// A formula against a closed one.
ghost use Rattle.std.specs.Prelude.{◌≡◌};
ghost use Rattle.model_formulas.specs.SameFormulas.{same_formula, same_term};
ghost use Rattle.rule_patterns.specs.Constant.{constant_formula};
ghost use Rattle.row_patterns.specs.Views.{closed_in};
ghost use Rattle.formula_table.specs.Forms.{form_at, term_at};
ghost use Rattle.numbered_formulas.specs.Parts.{part_in, place_in};

use crate::parts::{Part, Place, part_of};
use crate::variables::is_bound;
use dom_terms::same_sort;
use formula_syntax::Side;
use formula_table::{Head, Table, TermRow};
use row_patterns::Closed;

/// Whether the formula is the closed one.
pub fn is_closed(table: &Table, closed: Closed, number: u32) -> bool
    ensures { result ≡ same_formula (constant_formula (closed_in closed))
        (form_at table.now number) }
{
    let part = part_of(closed);
    is_part(table, &part, number)
}

// whether the formula is the part
fn is_part(table: &Table, part: &Part, number: u32) -> bool
    ensures { result ≡ same_formula (part_in part.now) (form_at table.now number) }
{
    let row = table.form(number);
    match (part, row.head) {
        (Part::Exists(sort, p), Head::Exists(own)) => {
            same_sort(*sort, own) && is_part(table, p, row.left)
        }
        (Part::And(p, q), Head::And)
        | (Part::Join(p, q), Head::Join(Side::Whole))
        | (Part::Plus(p, q), Head::Plus) => {
            is_part(table, p, row.left) && is_part(table, q, row.right)
        }
        (Part::One(p), Head::One) | (Part::Root(p), Head::Root) => is_part(table, p, row.left),
        (Part::Node(a, b, p, c), Head::Node) => {
            is_at(table, *a, row.first)
                && is_at(table, *b, row.second)
                && is_part(table, p, row.left)
                && is_at(table, *c, row.third)
        }
        (Part::Le(a, b), Head::Le) => {
            is_at(table, *a, row.first) && is_at(table, *b, row.second)
        }
        (Part::Len(a), Head::Len) => is_at(table, *a, row.first),
        (Part::Var(place, sort), Head::Var) => {
            is_bound(table, u64::from(*place), *sort, row.first)
        }
        _ => false,
    }
}

// whether the term is what the place says
fn is_at(table: &Table, place: Place, term: u32) -> bool
    ensures { result ≡ same_term (place_in place) (term_at table.now term) }
{
    match (place, table.term(term)) {
        (Place::Zero, TermRow::Int(number)) => 0 == number,
        (Place::Bound(place, sort), _) => is_bound(table, u64::from(place), sort, term),
        _ => false,
    }
}
