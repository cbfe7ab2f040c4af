// Which sorts the parts of a formula have.
ghost use Rattle.std.specs.Prelude.{◌≡◌};
ghost use Rattle.model_shapes.specs.Sorts as model;
ghost use Rattle.model_formulas.specs.Formulas as formulas;
ghost use Rattle.model_formulas.specs.WellSorted as tests;
ghost use Rattle.dom_terms.specs.Sorts.{data_sort_of, sort_of};
ghost use Rattle.dom_terms.specs.Terms.{term_of};
ghost use Rattle.formula_syntax.specs.Formulas.{side_of};

use crate::formulas::Side;
use dom_terms::{DataSort, Sort, Term, ValueSort, both_have, same_data_sort, same_sort};

// whether a context of the sort can be: no tree and no forest has a hole for a grove
pub(crate) fn is_sort(sort: Sort) -> bool
    ensures { result ≡ model.is_sort (sort_of sort) }
{
    !matches!(
        sort,
        Sort::Context(DataSort::Grove, DataSort::Tree | DataSort::Forest)
    )
}

// whether a formula may be judged at the sort
pub(crate) fn is_form(sort: Sort) -> bool
    ensures { result ≡ tests.is_form (sort_of sort) }
{
    !matches!(sort, Sort::Value(_)) && is_sort(sort)
}

// whether the sort is one of shapes
pub(crate) fn is_shape(sort: Sort) -> bool
    ensures { result ≡ tests.is_shape (sort_of sort) }
{
    matches!(sort, Sort::Shape(_))
}

// whether the sort is one of contexts
pub(crate) fn is_context(sort: Sort) -> bool
    ensures { result ≡ tests.is_context (sort_of sort) }
{
    matches!(sort, Sort::Context(_, _))
}

/// The data sort that a shape has and that a context gives; tree for a value.
pub fn outer(sort: Sort) -> DataSort
    ensures { data_sort_of result ≡ model.outer (sort_of sort) }
{
    match sort {
        Sort::Value(_) => DataSort::Tree,
        Sort::Shape(whole) | Sort::Context(_, whole) => whole,
    }
}

/// The data sort of the hole of a context, and of a shape its own; tree for a value.
pub fn inner(sort: Sort) -> DataSort
    ensures { data_sort_of result ≡ model.inner (sort_of sort) }
{
    match sort {
        Sort::Value(_) => DataSort::Tree,
        Sort::Shape(hole) | Sort::Context(hole, _) => hole,
    }
}

/// The same sort but for the data sort that it gives.
pub fn giving(whole: DataSort, sort: Sort) -> Sort
    ensures { sort_of result ≡ model.with_outer (data_sort_of whole) (sort_of sort) }
{
    match sort {
        Sort::Value(_) => sort,
        Sort::Shape(_) => Sort::Shape(whole),
        Sort::Context(hole, _) => Sort::Context(hole, whole),
    }
}

// whether a formula may be judged at the sort, and the sort gives the data sort
pub(crate) fn gives(sort: Sort, whole: DataSort) -> bool
    ensures { result ≡ tests.has_outer (sort_of sort) (data_sort_of whole) }
{
    is_form(sort) && same_data_sort(outer(sort), whole)
}

// whether a concatenation with this hole may be judged at the sort
pub(crate) fn side_fits(side: Side, sort: Sort) -> bool
    ensures { result ≡ tests.side_fits (side_of side) (sort_of sort) }
{
    match side {
        Side::Whole => is_shape(sort),
        Side::HoleLeft | Side::HoleRight => is_context(sort),
    }
}

/// The sort of the left part of a concatenation of the sort.
pub fn left_at(side: Side, sort: Sort) -> Sort
    ensures { sort_of result ≡ formulas.left_sort (side_of side) (sort_of sort) }
{
    match side {
        Side::Whole | Side::HoleLeft => sort,
        Side::HoleRight => Sort::Shape(outer(sort)),
    }
}

/// The sort of the right part of a concatenation of the sort.
pub fn right_at(side: Side, sort: Sort) -> Sort
    ensures { sort_of result ≡ formulas.right_sort (side_of side) (sort_of sort) }
{
    match side {
        Side::Whole | Side::HoleRight => sort,
        Side::HoleLeft => Sort::Shape(outer(sort)),
    }
}

// whether the terms are logic variables of one data or context sort
fn alike(left: &Term, right: &Term) -> bool
    ensures { result ≡ tests.both_logic_of_one_sort (term_of left.now) (term_of right.now) }
{
    match (left, right) {
        (Term::Logic(left), Term::Logic(right)) => {
            is_form(left.sort) && same_sort(left.sort, right.sort)
        }
        _ => false,
    }
}

// whether the terms have one sort
pub(crate) fn one_sort(left: &Term, right: &Term) -> bool
    ensures { result ≡ tests.one_sort (term_of left.now) (term_of right.now) }
{
    both_have(ValueSort::Node, left, right)
        || both_have(ValueSort::List, left, right)
        || both_have(ValueSort::Int, left, right)
        || both_have(ValueSort::Str, left, right)
        || both_have(ValueSort::Bool, left, right)
        || alike(left, right)
}
