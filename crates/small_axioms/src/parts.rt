// The parts of written formulas of which side conditions speak, and the formula after createNode.
ghost use Rattle.std.specs.Prelude.{◌≡◌};
ghost use Rattle.std.specs.Option.{option_map};
ghost use Rattle.model_shapes.specs.Sorts.{forest};
ghost use Rattle.model_formulas.specs.Formulas.{empty};
ghost use Rattle.model_formulas.specs.SameFormulas.{same_formula};
ghost use Rattle.formula_table.specs.Forms.{form_at, term_at};
ghost use Rattle.small_axioms.specs.Parts as parts;

use dom_terms::{Sort, ValueSort, same_sort};
use formula_table::{Head, Table};
use numbered_formulas::{is_bound, is_term_raised};

const LIST: Sort = Sort::Value(ValueSort::List);

/// N in `(N and P)` and in `([N] and P)`.
pub(crate) fn held(table: &Table, number: u32) -> u32
    ensures { form_at table.now result ≡ parts.held (form_at table.now number) }
{
    let both = table.form(number);
    let first = table.form(both.left);
    match (both.head, first.head) {
        (Head::And, Head::Root) => first.left,
        (Head::And, _) => both.left,
        _ => number,
    }
}

/// T in `(P and E = T)`.
pub(crate) fn name_in(table: &Table, number: u32) -> Option<u32>
    ensures { option_map (term_at table.now) result ≡ parts.name_in (form_at table.now number) }
{
    let both = table.form(number);
    let second = table.form(both.right);
    match (both.head, second.head) {
        (Head::And, Head::Eq) => Some(second.second),
        _ => None,
    }
}

/// Whether the formula is `(exists $m . [T#x[0f]%$m])`.
pub(crate) fn is_new_root(table: &Table, name: u32, x: u32, number: u32) -> bool
    ensures { result ≡ same_formula
        (parts.new_root (term_at table.now name) (term_at table.now x))
        (form_at table.now number) }
{
    let quantified = table.form(number);
    let root = table.form(quantified.left);
    match (quantified.head, root.head) {
        (Head::Exists(sort), Head::Root) => {
            same_sort(LIST, sort) && is_new_node(table, name, x, root.left)
        }
        _ => false,
    }
}

// whether the formula is `T#x[0f]%$m`, below the binder of `$m`
fn is_new_node(table: &Table, name: u32, x: u32, number: u32) -> bool
    ensures { result ≡ same_formula
        (parts.new_node (term_at table.now name) (term_at table.now x))
        (form_at table.now number) }
{
    let row = table.form(number);
    match row.head {
        Head::Node => {
            is_term_raised(table, name, row.first)
                && table.same_terms(x, row.second)
                && is_empty_forest(table, row.left)
                && is_bound(table, 0, LIST, row.third)
        }
        _ => false,
    }
}

// whether the formula is `0f`
fn is_empty_forest(table: &Table, number: u32) -> bool
    ensures { result ≡ same_formula (empty forest) (form_at table.now number) }
{
    matches!(table.form(number).head, Head::EmptyForest)
}
