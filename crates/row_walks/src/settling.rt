// The end of a walk: what $x is, and whether all that is known goes together with that.
ghost use Rattle.std.specs.Prelude.{◌≡◌};
ghost use Rattle.std.specs.Option.{option_map};
ghost use Rattle.dom_terms.specs.Sorts.{sort_of};
ghost use Rattle.formula_table.specs.Forms.{form_at, term_at};
ghost use Rattle.letter_bindings.specs.Settled as settled;
ghost use Rattle.numbered_formulas.specs.Variables.{variable_at};
ghost use Rattle.row_walks.specs.Views.{known_at, places_at};

use crate::known::{Known, Places};
use dom_terms::{Sort, same_sort};
use formula_table::Table;
use numbered_formulas::{Shift, Variable, bound_in, is_free, is_shifted};

// The variable at the first place where the formula of a letter has one that is bound below.
fn found_in(table: &Table, outside: Option<u32>, below: Option<u32>) -> Option<Variable>
    ensures { option_map (variable_at table.now) result
        ≡ settled.found_in (option_map (form_at table.now) outside)
        (option_map (form_at table.now) below) }
{
    match (outside, below) {
        (Some(p), Some(q)) => bound_in(table, p, q),
        _ => None,
    }
}

// At the first of the letters where it shows.
#[tactic(auto, using(crate::proofs::OrElse::or_rules))]
fn found_at(table: &Table, outside: &Places, below: &Places) -> Option<Variable>
    ensures { option_map (variable_at table.now) result
        ≡ settled.found_at (places_at table.now outside.now) (places_at table.now below.now) }
{
    let last = found_in(table, outside.k, below.k).or(found_in(table, outside.h, below.h));
    let last = found_in(table, outside.b, below.b).or(last);
    let last = found_in(table, outside.a, below.a).or(last);
    let last = found_in(table, outside.r, below.r).or(last);
    let last = found_in(table, outside.q, below.q).or(last);
    found_in(table, outside.p, below.p).or(last)
}

// $x, where it shows; where it doesn't it is a new variable.
fn found_x(table: &Table, known: &Known) -> Option<Variable>
    ensures { option_map (variable_at table.now) result
        ≡ settled.found_x (known_at table.now known.now) }
{
    match known.x {
        Some(x) => Some(x),
        None => found_at(table, &known.formulas, &known.belows),
    }
}

// Whether what stands below a binder is the letter's formula closed over $x.
fn goes_below(table: &Table, x: Option<Variable>, outside: Option<u32>, below: Option<u32>) -> bool
    ensures { result ≡ settled.goes_below (option_map (variable_at table.now) x)
        (option_map (form_at table.now) outside) (option_map (form_at table.now) below) }
{
    match (x, outside, below) {
        (_, _, None) | (None, None, Some(_)) => true,
        (None, Some(p), Some(q)) => is_shifted(table, Shift::Raise, p, q),
        (Some(v), None, Some(q)) => !is_free(table, v, q),
        (Some(v), Some(p), Some(q)) => is_shifted(table, Shift::Close(v), p, q),
    }
}

// The same of each letter.
fn all_go_below(table: &Table, x: Option<Variable>, outside: &Places, below: &Places) -> bool
    ensures { result ≡ settled.all_go_below (option_map (variable_at table.now) x)
        (places_at table.now outside.now) (places_at table.now below.now) }
{
    goes_below(table, x, outside.p, below.p)
        && goes_below(table, x, outside.q, below.q)
        && goes_below(table, x, outside.r, below.r)
        && goes_below(table, x, outside.a, below.a)
        && goes_below(table, x, outside.b, below.b)
        && goes_below(table, x, outside.k, below.k)
        && goes_below(table, x, outside.h, below.h)
}

// Whether the formula that P with E for $x is to be is that.
fn is_put(table: &Table, below: Option<u32>, term: Option<u32>, put: Option<u32>) -> bool
    ensures { result ≡ settled.is_put (option_map (form_at table.now) below)
        (option_map (term_at table.now) term) (option_map (form_at table.now) put) }
{
    match (below, term, put) {
        (_, _, None) => true,
        (Some(p), Some(e), Some(q)) => is_shifted(table, Shift::Open(e), p, q),
        _ => false,
    }
}

// Whether the variable has the sort.
fn has_x_sort(table: &Table, x: Option<Variable>, sort: Option<Sort>) -> bool
    ensures { result ≡ settled.has_x_sort (option_map (variable_at table.now) x)
        (option_map sort_of sort) }
{
    match (x, sort) {
        (Some(v), Some(s)) => same_sort(s, v.sort),
        _ => true,
    }
}

/// What $x is where all that is known goes together: a variable, or, where none shows, any that is
/// new. None where it doesn't go together.
pub fn settle(table: &Table, known: &Known) -> Option<Option<Variable>>
    ensures { option_map (option_map (variable_at table.now)) result
        ≡ settled.settle (known_at table.now known.now) }
{
    let x = found_x(table, known);
    if has_x_sort(table, x, known.x_sort)
        && all_go_below(table, x, &known.formulas, &known.belows)
        && is_put(table, known.belows.p, known.terms.e, known.put)
    {
        Some(x)
    } else {
        None
    }
}
