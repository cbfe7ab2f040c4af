// The sorts of terms.
ghost use Rattle.std.specs.Prelude.{◌≡◌};
ghost use Rattle.model_shapes.specs.Sorts as model;
ghost use Rattle.model_terms.specs.TermSorts as tests;
ghost use Rattle.letter_bindings.specs.Lines as lines;
ghost use Rattle.dom_terms.specs.Sorts.{value_sort_of, sort_of};
ghost use Rattle.formula_table.specs.Forms.{term_at};

use dom_terms::{DataSort, Sort, ValueSort, same_sort, same_value_sort};
use formula_table::{Table, TermRow};

/// Whether the term has the sort: at a sort of shapes or contexts it is a variable of the logic.
pub fn has_sort_at(table: &Table, sort: Sort, term: u32) -> bool
    ensures { result ≡ lines.has_sort_at (sort_of sort) (term_at table.now term) }
{
    match (sort, table.term(term)) {
        (Sort::Value(sort), _) => has_sort(table, sort, term),
        (_, TermRow::Logic(_, own)) => same_sort(sort, own) && is_sort(sort),
        _ => false,
    }
}

// whether the term is well sorted and has the sort
fn has_sort(table: &Table, sort: ValueSort, number: u32) -> bool
    ensures { result ≡ tests.has_sort (value_sort_of sort) (term_at table.now number) }
{
    match table.term(number) {
        TermRow::NullNode => same_value_sort(sort, ValueSort::Node),
        TermRow::NullList => same_value_sort(sort, ValueSort::List),
        TermRow::Int(_) => same_value_sort(sort, ValueSort::Int),
        TermRow::Str(_) => same_value_sort(sort, ValueSort::Str),
        TermRow::Bool(_) => same_value_sort(sort, ValueSort::Bool),
        TermRow::Prog(_, own) => same_value_sort(sort, own),
        TermRow::Logic(_, own) => same_sort(Sort::Value(sort), own),
        TermRow::Bound(_, _) => false,
        TermRow::Add(left, right) | TermRow::Sub(left, right) => {
            same_value_sort(sort, ValueSort::Int)
                && has_sort(table, ValueSort::Int, left)
                && has_sort(table, ValueSort::Int, right)
        }
        TermRow::Cat(left, right) => {
            same_value_sort(sort, ValueSort::Str)
                && has_sort(table, ValueSort::Str, left)
                && has_sort(table, ValueSort::Str, right)
        }
    }
}

// whether a context of the sort can be: no tree and no forest has a hole for a grove
fn is_sort(sort: Sort) -> bool
    ensures { result ≡ model.is_sort (sort_of sort) }
{
    !matches!(
        sort,
        Sort::Context(DataSort::Grove, DataSort::Tree | DataSort::Forest)
    )
}
