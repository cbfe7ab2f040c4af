// The walks over sorts.
ghost use Rattle.std.specs.Prelude.{◌≡◌};
ghost use Rattle.std.specs.Option.{option_map};
ghost use Rattle.dom_terms.specs.Sorts.{data_sort_of, sort_of};
ghost use Rattle.formula_table.specs.declared.tables.Table as tables;
ghost use Rattle.letter_bindings.specs.Matching.{match_data, match_x_sort, match_hole, match_sort};
ghost use Rattle.rule_patterns.specs.Patterns.{some_sort};
ghost use Rattle.row_patterns.specs.Views.{data_in, sort_in};
ghost use Rattle.row_walks.specs.Views.{known_at, Walks};

use crate::known::Known;
use dom_terms::{DataSort, Sort, same_data_sort, same_sort};
use row_patterns::{DataPattern, SortPattern};

/// The walk over a data sort.
pub fn walk_data(pattern: DataPattern, sort: DataSort, known: &mut Known) -> bool
    ensures { (table : tables.Table) → Walks result (known_at table known.new)
        (match_data (data_in pattern) (data_sort_of sort) (known_at table known.old)) }
{
    match pattern {
        DataPattern::Is(k) => same_data_sort(k, sort),
        DataPattern::Letter(a) => match known.datas.get(a) {
            Some(k) => same_data_sort(sort, k),
            None => {
                known.datas.set(a, sort);
                true
            }
        },
    }
}

/// The walk over the sort of `$x`.
pub fn walk_x_sort(sort: Sort, known: &mut Known) -> bool
    ensures { (table : tables.Table) → Walks result (known_at table known.new)
        (match_x_sort (sort_of sort) (known_at table known.old)) }
{
    match known.x_sort {
        Some(s) => same_sort(sort, s),
        None => {
            known.x_sort = Some(sort);
            true
        }
    }
}

// any sort
fn walk_any(sort: Sort, known: &mut Known) -> bool
    ensures { (table : tables.Table) → Walks result (known_at table known.new)
        (match_sort some_sort (sort_of sort) (known_at table known.old)) }
{
    match known.sort {
        Some(s) => same_sort(sort, s),
        None => {
            known.sort = Some(sort);
            true
        }
    }
}

// a hole or none
fn walk_hole(hole: Option<DataSort>, known: &mut Known) -> bool
    ensures { (table : tables.Table) → Walks result (known_at table known.new)
        (match_hole (option_map data_sort_of hole) (known_at table known.old)) }
{
    match (known.hole, hole) {
        (None, _) => {
            known.hole = Some(hole);
            true
        }
        (Some(None), None) => true,
        (Some(Some(k)), Some(h)) => same_data_sort(h, k),
        _ => false,
    }
}

/// The walk over a sort.
pub fn walk_sort(pattern: SortPattern, sort: Sort, known: &mut Known) -> bool
    ensures { (table : tables.Table) → Walks result (known_at table known.new)
        (match_sort (sort_in pattern) (sort_of sort) (known_at table known.old)) }
{
    match (pattern, sort) {
        (SortPattern::Any, _) => walk_any(sort, &mut *known),
        (SortPattern::OfX, _) => walk_x_sort(sort, &mut *known),
        (SortPattern::Shape(p), Sort::Shape(h)) => walk_data(p, h, &mut *known),
        (SortPattern::Context(p, q), Sort::Context(h, k)) => {
            walk_data(p, h, &mut *known) && walk_data(q, k, &mut *known)
        }
        (SortPattern::Either(p), Sort::Shape(h)) => {
            walk_hole(None, &mut *known) && walk_data(p, h, &mut *known)
        }
        (SortPattern::Either(p), Sort::Context(g, h)) => {
            walk_hole(Some(g), &mut *known) && walk_data(p, h, &mut *known)
        }
        _ => false,
    }
}
