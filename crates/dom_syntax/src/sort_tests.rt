// The sorts of the parts of a command, and of the arguments of a step.
ghost use Rattle.std.specs.Prelude.{◌≡◌, ◌&&◌, map};
ghost use Rattle.model_shapes.specs.Sorts as sorts;
ghost use Rattle.model_terms.specs.TermSorts as terms;
ghost use Rattle.model_formulas.specs.WellSorted.{both_logic_of_one_sort};
ghost use Rattle.model_commands.specs.SortTests as tests;
ghost use Rattle.model_files.specs.FileFaults.{is_argument};
ghost use Rattle.dom_terms.specs.Conditions.{cond_of};
ghost use Rattle.dom_terms.specs.Sorts.{sort_of, value_sort_of};
ghost use Rattle.dom_terms.specs.Terms.{prog_var_of, term_of};
ghost use Rattle.theory_syntax.specs.Commands.{block_of};

use dom_terms::{
    Cond, DataSort, ProgVar, Sort, Term, ValueSort, evaluates, has_sort, same_value_sort,
};
use theory_syntax::Block;

/// Whether a sort of contexts can be: no tree and no forest has a hole for a grove.
pub(crate) fn is_sort(sort: Sort) -> bool
    ensures { result ≡ sorts.is_sort (sort_of sort) }
{
    !matches!(
        sort,
        Sort::Context(DataSort::Grove, DataSort::Tree | DataSort::Forest)
    )
}

// Whether a command may evaluate both terms at the sort.
fn evaluate_both(left: &Term, right: &Term, sort: ValueSort) -> bool
    ensures { result ≡ (terms.evaluates (value_sort_of sort) (term_of left.now)
        && terms.evaluates (value_sort_of sort) (term_of right.now)) }
{
    evaluates(left, sort) && evaluates(right, sort)
}

// Whether a command may compare the terms.
fn evaluate_alike(left: &Term, right: &Term) -> bool
    ensures { result ≡ terms.evaluate_alike (term_of left.now) (term_of right.now) }
{
    evaluate_both(left, right, ValueSort::Node)
        || evaluate_both(left, right, ValueSort::List)
        || evaluate_both(left, right, ValueSort::Int)
        || evaluate_both(left, right, ValueSort::Str)
        || evaluate_both(left, right, ValueSort::Bool)
}

/// Whether the parts of the condition have the right sorts, and no logic variables.
pub(crate) fn is_condition_sorted(cond: &Cond) -> bool
    ensures { result ≡ tests.condition_sorted (cond_of cond.now) }
{
    match cond {
        Cond::True | Cond::False => true,
        Cond::Holds(variable) => same_value_sort(variable.sort, ValueSort::Bool),
        Cond::Eq(left, right) => evaluate_alike(left, right),
        Cond::Le(left, right) => evaluate_both(left, right, ValueSort::Int),
        Cond::Not(inner) => is_condition_sorted(inner),
        Cond::And(left, right) | Cond::Or(left, right) => {
            is_condition_sorted(left) && is_condition_sorted(right)
        }
    }
}

/// Whether the block has a command.
pub(crate) fn has_command(block: &Block) -> bool
    ensures { result ≡ tests.has_command (block_of block.now) }
{
    match block.as_slice() {
        [] => false,
        [_, ..] => true,
    }
}

/// Whether the terms are arguments for the parameters.
pub(crate) fn do_arguments_feed(params: &[ProgVar], arguments: &[Term]) -> bool
    ensures { result ≡ tests.feeds (map prog_var_of params.now) (map term_of arguments.now) }
{
    let mut others = arguments;
    for param in params {
        let [argument, further @ ..] = others else {
            return false;
        };
        if !evaluates(argument, param.sort) {
            return false;
        }
        others = further;
    }
    others.is_empty()
}

/// Whether the variables take the results.
pub(crate) fn do_variables_receive(results: &[ProgVar], variables: &[ProgVar]) -> bool
    ensures { result ≡ tests.receives (map prog_var_of results.now)
        (map prog_var_of variables.now) }
{
    let mut others = variables;
    for result in results {
        let [variable, further @ ..] = others else {
            return false;
        };
        if !same_value_sort(result.sort, variable.sort) {
            return false;
        }
        others = further;
    }
    others.is_empty()
}

// Whether the term is a logic variable of a data or context sort.
#[tactic(auto, using(crate::proofs::SortTestLaws::refl_rules))]
fn is_shape_variable(term: &Term) -> bool
    ensures { result ≡ both_logic_of_one_sort (term_of term.now) (term_of term.now) }
{
    match term {
        Term::Logic(variable) => {
            !matches!(variable.sort, Sort::Value(_)) && is_sort(variable.sort)
        }
        _ => false,
    }
}

/// Whether the term may be an argument of a step: it has a value sort, or is one logic variable of
/// a data or context sort.
pub(crate) fn is_step_argument(term: &Term) -> bool
    ensures { result ≡ is_argument (term_of term.now) }
{
    has_sort(term, ValueSort::Node)
        || has_sort(term, ValueSort::List)
        || has_sort(term, ValueSort::Int)
        || has_sort(term, ValueSort::Str)
        || has_sort(term, ValueSort::Bool)
        || is_shape_variable(term)
}
