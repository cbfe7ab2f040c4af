// The sorts of terms: those that can be written, and those that a command may evaluate.
ghost use Rattle.std.specs.Prelude.{◌≡◌};
ghost use Rattle.model_terms.specs.TermSorts as tests;
ghost use Rattle.dom_terms.specs.Sorts.{value_sort_of};
ghost use Rattle.dom_terms.specs.Terms.{term_of};

use crate::same::{same_sort, same_value_sort};
use crate::sorts::{Sort, ValueSort};
use crate::terms::Term;

/// Whether the term is well sorted and has the sort.
pub fn has_sort(term: &Term, sort: ValueSort) -> bool
    ensures { result ≡ tests.has_sort (value_sort_of sort) (term_of term.now) }
{
    match term {
        Term::NullNode => same_value_sort(sort, ValueSort::Node),
        Term::NullList => same_value_sort(sort, ValueSort::List),
        Term::Int(_) => same_value_sort(sort, ValueSort::Int),
        Term::Str(_) => same_value_sort(sort, ValueSort::Str),
        Term::Bool(_) => same_value_sort(sort, ValueSort::Bool),
        Term::Prog(variable) => same_value_sort(sort, variable.sort),
        Term::Logic(variable) => same_sort(Sort::Value(sort), variable.sort),
        Term::Add(left, right) | Term::Sub(left, right) => {
            same_value_sort(sort, ValueSort::Int)
                && has_sort(left, ValueSort::Int)
                && has_sort(right, ValueSort::Int)
        }
        Term::Cat(left, right) => {
            same_value_sort(sort, ValueSort::Str)
                && has_sort(left, ValueSort::Str)
                && has_sort(right, ValueSort::Str)
        }
    }
}

/// Whether both terms are well sorted and have the sort.
pub fn both_have(sort: ValueSort, left: &Term, right: &Term) -> bool
    ensures { result ≡ tests.both_have (value_sort_of sort) (term_of left.now) (term_of right.now) }
{
    has_sort(left, sort) && has_sort(right, sort)
}

// Whether no logic variable stands in the term.
#[tactic(auto, using(crate::proofs::PlainTerms::plain_parts))]
fn is_plain(term: &Term) -> bool
    ensures { result ≡ tests.is_plain (term_of term.now) }
{
    match term {
        Term::Logic(_) => false,
        Term::Add(left, right) | Term::Sub(left, right) | Term::Cat(left, right) => {
            is_plain(left) && is_plain(right)
        }
        _ => true,
    }
}

/// Whether a command may evaluate the term at the sort: it has the sort, and no logic variable.
pub fn evaluates(term: &Term, sort: ValueSort) -> bool
    ensures { result ≡ tests.evaluates (value_sort_of sort) (term_of term.now) }
{
    has_sort(term, sort) && is_plain(term)
}
