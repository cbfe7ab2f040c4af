// The formulas of conditions, and of a variable at its default, among formulas as they are written.
ghost use Rattle.std.specs.Prelude.{◌≡◌, [], true};
ghost use Rattle.model_shapes.specs.Values.{boolean};
ghost use Rattle.model_terms.specs.Stores.{default};
ghost use Rattle.model_terms.specs.Terms.{literal, term_with, variable as plain_variable};
ghost use Rattle.model_files.specs.Sizes.{IsSmall};
ghost use Rattle.model_formulas.specs.Formulas.{conjunction};
ghost use Rattle.model_formulas.specs.Nameless.{nameless, naming};
ghost use Rattle.model_formulas.specs.SameFormulas as formulas;
ghost use Rattle.model_commands.specs.ConditionFormulas as conditions;
ghost use Rattle.dom_terms.specs.Conditions.{cond_of};
ghost use Rattle.dom_terms.specs.Sorts.{value_sort_of};
ghost use Rattle.dom_terms.specs.Terms.{prog_var_of, term_of, var_of};
ghost use Rattle.formula_syntax.specs.Formulas.{formula_of};
ghost use Rattle.triple_rules.specs.BlockTests as test;

use crate::same::same;
use dom_terms::{Cond, ProgVar, Term, ValueSort, same_prog_var};
use formula_syntax::{Binders, Formula, same_term};
use std::alloc::Global;

// Whether the terms are equal.
#[tactic(auto, using(crate::proofs::Sameness::plain_rules))]
fn are_equal(left: &Term, right: &Term) -> bool
    ensures { result ≡ formulas.same_term (term_with (naming []) (term_of left.now))
        (term_of right.now) }
{
    same_term(left, right, &Binders::Empty, &Binders::Empty)
}

// Whether the term is the variable.
fn is_variable(term: &Term, variable: &ProgVar) -> bool
    ensures { result ≡ formulas.same_term (term_with (naming []) (term_of term.now))
        (plain_variable (var_of variable.now)) }
{
    match term {
        Term::Prog(other) => same_prog_var(other, variable),
        _ => false,
    }
}

// Whether the term is `yes`.
fn is_yes(term: &Term) -> bool
    ensures { result ≡ formulas.same_term (term_with (naming []) (term_of term.now))
        (literal (boolean true)) }
{
    match term {
        Term::Bool(truth) => *truth,
        _ => false,
    }
}

// Whether the term is the default of the sort.
fn is_default_of(term: &Term, sort: ValueSort) -> bool
    ensures { result ≡ formulas.same_term (term_with (naming []) (term_of term.now))
        (literal (default (value_sort_of sort))) }
{
    match (sort, term) {
        (ValueSort::Node, Term::NullNode) | (ValueSort::List, Term::NullList) => true,
        (ValueSort::Int, Term::Int(number)) => *number == 0,
        (ValueSort::Str, Term::Str(text)) => text.as_str().is_empty(),
        (ValueSort::Bool, Term::Bool(truth)) => !*truth,
        _ => false,
    }
}

/// Whether the formula says that the variable has the default of its sort.
pub(crate) fn is_default(formula: &Formula, variable: &ProgVar) -> bool
    ensures { result ≡ formulas.same_formula (nameless (formula_of formula.now))
        (test.is_default (prog_var_of variable.now)) }
{
    match formula {
        Formula::Eq(left, right) => {
            is_variable(left, variable) && is_default_of(right, variable.sort)
        }
        _ => false,
    }
}

// Whether the formula is that of the condition.
fn is_condition(formula: &Formula, condition: &Cond) -> bool
    ensures { result ≡ formulas.same_formula (nameless (formula_of formula.now))
        (conditions.formula_of (cond_of condition.now)) }
{
    match (condition, formula) {
        (Cond::True, Formula::True) | (Cond::False, Formula::False) => true,
        (Cond::Holds(variable), Formula::Eq(left, right)) => {
            is_variable(left, variable) && is_yes(right)
        }
        (Cond::Eq(a, b), Formula::Eq(c, d)) | (Cond::Le(a, b), Formula::Le(c, d)) => {
            are_equal(c, a) && are_equal(d, b)
        }
        (Cond::Not(a), Formula::Not(p)) => is_condition(p, a),
        (Cond::And(a, b), Formula::And(p, q)) | (Cond::Or(a, b), Formula::Or(p, q)) => {
            is_condition(p, a) && is_condition(q, b)
        }
        _ => false,
    }
}

// Whether the formula says that the condition holds, or that it doesn't.
fn is_guard(formula: &Formula, condition: &Cond, holds: bool) -> bool
    ensures { result ≡ formulas.same_formula (nameless (formula_of formula.now))
        (test.guard holds (cond_of condition.now)) }
{
    if holds {
        return is_condition(formula, condition);
    }
    match formula {
        Formula::Not(inner) => is_condition(inner, condition),
        _ => false,
    }
}

/// Whether the formula is this other one, and that the condition holds, or that it doesn't.
pub(crate) fn is_guarded(
    alloc: Global,
    formula: &Formula,
    other: &Formula,
    condition: &Cond,
    holds: bool,
) -> bool
    requires formula { IsSmall (formula_of formula.now) }
    requires other { IsSmall (formula_of other.now) }
    ensures { result ≡ formulas.same_formula (nameless (formula_of formula.now))
        (conjunction (nameless (formula_of other.now)) (test.guard holds (cond_of condition.now))) }
{
    match formula {
        Formula::And(left, right) => {
            same(alloc, left, other) && is_guard(right, condition, holds)
        }
        _ => false,
    }
}
