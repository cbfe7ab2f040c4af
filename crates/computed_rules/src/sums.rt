// The rule that sums up comparisons.
ghost use Rattle.std.specs.Prelude.{◌≡◌, ◌&&◌, codes, map, true, [], None, IfOk, OnOk};
ghost use Rattle.std.specs.List.{list_all};
ghost use Rattle.model_shapes.specs.Sorts.{int_sort};
ghost use Rattle.model_terms.specs.TermSorts.{both_have};
ghost use Rattle.model_formulas.specs.WellSorted.{first_fault};
ghost use Rattle.rule_table.specs.Linear.{rest, at_least_zero, below_zero, is_zero};
ghost use Rattle.rule_table.specs.Table.{entailments};
ghost use Rattle.rule_table.specs.Verdicts.{IsVerdict, readings_in};
ghost use Rattle.dom_terms.specs.Sorts.{sort_of};
ghost use Rattle.dom_terms.specs.Terms.{term_of};
ghost use Rattle.formula_syntax.specs.Formulas.{formula_of};
ghost use Rattle.computed_rules.specs.Forms.{Adds, StandsFor, cancels_in};
ghost use Rattle.computed_rules.specs.Linear as tests;
ghost use Rattle.computed_rules.specs.Steps.{step};
ghost use Rattle.computed_rules.specs.Sums.{cancel_in, comparison_of};
ghost use Rattle.row_patterns.specs.Verdicts.{verdict_in};

use crate::comparisons::{Comparison, Test, all_pass, read};
use crate::forms::LinearForm;
use dom_terms::{OutOfMemory, SideName, Term, ValueSort, Verdict, both_have};
use formula_syntax::{Entailment, Formula};
use std::alloc::Global;

/// The verdict on a step by `linear` that cites no step. Sums past 128 bits, which take more than a
/// trillion terms, are refused as memory is.
pub fn linear(
    alloc: Global,
    arguments: &[Term],
    conclusion: &Entailment,
) -> Result<Verdict, OutOfMemory>
    requires { first_fault (formula_of conclusion.now.right) (sort_of conclusion.now.sort) ≡ None }
    ensures { IfOk result (λ verdict. IsVerdict (readings_in entailments (codes "linear"))
        (step (map term_of arguments.now) conclusion.now) (verdict_in verdict)) }
{
    by_linear(alloc, arguments, &conclusion.left, &conclusion.right)
}

// the same, as it is computed
fn by_linear(
    alloc: Global,
    numbers: &[Term],
    given: &Formula,
    conclusion: &Formula,
) -> Result<Verdict, OutOfMemory>
    requires { tests.orders_integers (formula_of conclusion.now) ≡ true }
    ensures { IfOk result (λ verdict. verdict_in verdict
        ≡ tests.by_reading (tests.read [] (formula_of given.now) (map term_of numbers.now))
        (formula_of conclusion.now)) }
{
    let mut found = Vec::new(alloc);
    match read(given, numbers, &mut found)? {
        Some(rest) => by_numbers(alloc, &found, rest, conclusion),
        None => Ok(Verdict::Shape),
    }
}

// the verdict by the comparisons and the numbers that are left
fn by_numbers(
    alloc: Global,
    comparisons: &[Comparison],
    rest: &[Term],
    conclusion: &Formula,
) -> Result<Verdict, OutOfMemory>
    requires { tests.orders_integers (formula_of conclusion.now) ≡ true }
    ensures { IfOk result (λ verdict. verdict_in verdict
        ≡ tests.by_numbers (map comparison_of comparisons.now) (map term_of rest.now)
        (formula_of conclusion.now)) }
{
    match rest {
        [] => if all_pass(Test::Integral, comparisons) {
            by_conclusion(alloc, comparisons, conclusion)
        } else {
            Ok(Verdict::Shape)
        },
        [_, ..] => Ok(Verdict::Shape),
    }
}

// the verdict by the conclusion
fn by_conclusion(
    alloc: Global,
    comparisons: &[Comparison],
    conclusion: &Formula,
) -> Result<Verdict, OutOfMemory>
    requires sorted { tests.orders_integers (formula_of conclusion.now) ≡ true }
    requires integral { list_all tests.is_integral (map comparison_of comparisons.now) ≡ true }
    ensures { IfOk result (λ verdict. verdict_in verdict
        ≡ tests.by_conclusion (map comparison_of comparisons.now) (formula_of conclusion.now)) }
{
    if !may_conclude(conclusion) {
        return Ok(Verdict::Shape);
    }
    if !all_pass(Test::Fair, comparisons) {
        return Ok(Verdict::Side(SideName::Coefficient));
    }
    if gives(alloc, comparisons, conclusion)? {
        Ok(Verdict::Instance)
    } else {
        Ok(Verdict::Side(SideName::Sum))
    }
}

// whether the rule may conclude it
fn may_conclude(conclusion: &Formula) -> bool
    ensures { result ≡ tests.may_conclude (formula_of conclusion.now) }
{
    match conclusion {
        Formula::Le(_, _) | Formula::False => true,
        Formula::Eq(left, right) => both_have(ValueSort::Int, left, right),
        _ => false,
    }
}

// whether the sum of the comparisons gives the conclusion
fn gives(
    alloc: Global,
    comparisons: &[Comparison],
    conclusion: &Formula,
) -> Result<bool, OutOfMemory>
    requires sorted { tests.orders_integers (formula_of conclusion.now) ≡ true }
    requires concludes { tests.may_conclude (formula_of conclusion.now) ≡ true }
    requires integral { list_all tests.is_integral (map comparison_of comparisons.now) ≡ true }
    ensures { IfOk result (λ gives. gives
        ≡ tests.gives (map comparison_of comparisons.now) (formula_of conclusion.now)) }
{
    match conclusion {
        Formula::Le(left, right) => gives_order(alloc, comparisons, left, right),
        Formula::Eq(left, right) => gives_equation(alloc, comparisons, left, right),
        _ => gives_false(alloc, comparisons),
    }
}

// whether it gives that the left term is at most the right one
fn gives_order(
    alloc: Global,
    comparisons: &[Comparison],
    left: &Term,
    right: &Term,
) -> Result<bool, OutOfMemory>
    requires sorted { both_have int_sort (term_of left.now) (term_of right.now) ≡ true }
    requires integral { list_all tests.is_integral (map comparison_of comparisons.now) ≡ true }
    ensures { IfOk result (λ gives. gives ≡ at_least_zero (rest (term_of left.now)
        (term_of right.now) (tests.total (map comparison_of comparisons.now)))) }
{
    let form = shortfall(alloc, comparisons, left, right)?;
    Ok(is_constant(&form, comparisons, left, right) && form.constant <= 0)
}

// whether it gives that the terms are equal
fn gives_equation(
    alloc: Global,
    comparisons: &[Comparison],
    left: &Term,
    right: &Term,
) -> Result<bool, OutOfMemory>
    requires sorted { both_have int_sort (term_of left.now) (term_of right.now) ≡ true }
    requires integral { list_all tests.is_integral (map comparison_of comparisons.now) ≡ true }
    ensures { IfOk result (λ gives. gives ≡ (is_zero (rest (term_of left.now)
        (term_of right.now) (tests.total (map comparison_of comparisons.now)))
        && list_all tests.is_equation (map comparison_of comparisons.now))) }
{
    let form = shortfall(alloc, comparisons, left, right)?;
    let is_zero = is_constant(&form, comparisons, left, right) && form.constant == 0;
    Ok(is_zero && all_pass(Test::Equation, comparisons))
}

// whether it is a constant below 0
fn gives_false(alloc: Global, comparisons: &[Comparison]) -> Result<bool, OutOfMemory>
    requires { list_all tests.is_integral (map comparison_of comparisons.now) ≡ true }
    ensures { IfOk result (λ gives. gives
        ≡ below_zero (tests.total (map comparison_of comparisons.now))) }
{
    let form = sum_of(alloc, comparisons)?;
    Ok(cancel(&form, comparisons) && form.constant < 0)
}

// the sum of the comparisons, less the right term, and the left term more
fn shortfall<'a>(
    alloc: Global,
    comparisons: &[Comparison<'a>],
    left: &'a Term,
    right: &'a Term,
) -> Result<LinearForm<'a>, OutOfMemory>
    ensures { IfOk result (λ form. StandsFor form (tests.shortfall (term_of left.now)
        (term_of right.now) (tests.total (map comparison_of comparisons.now)))) }
{
    let mut form = sum_of(alloc, comparisons)?;
    form.add_difference(1, left, right)?;
    Ok(form)
}

// the sum of the comparisons
fn sum_of<'a>(alloc: Global, comparisons: &[Comparison<'a>]) -> Result<LinearForm<'a>, OutOfMemory>
    ensures { IfOk result
        (λ form. StandsFor form (tests.total (map comparison_of comparisons.now))) }
{
    let mut form = LinearForm::new(alloc);
    add_all(&mut form, comparisons)?;
    Ok(form)
}

// adds the right term of each comparison and takes away the left one, as often as its number says
fn add_all<'a>(form: &mut LinearForm<'a>, comparisons: &[Comparison<'a>]) -> Result<(), OutOfMemory>
    ensures { OnOk result
        (Adds form.old form.new (tests.total (map comparison_of comparisons.now))) }
{
    let mut rest = comparisons;
    'comparisons: while let [comparison, others @ ..] = rest {
        add_weighed(form, comparison)?;
        rest = others;
    }
    Ok(())
}

// the same of one comparison
fn add_weighed<'a>(
    form: &mut LinearForm<'a>,
    comparison: &Comparison<'a>,
) -> Result<(), OutOfMemory>
    ensures { OnOk result (Adds form.old form.new (tests.weighed (comparison_of comparison.now))) }
{
    form.add_difference(
        i128::from(comparison.number),
        comparison.right,
        comparison.left,
    )
}

// whether no variable of the comparisons and of the terms counts
fn is_constant(form: &LinearForm, comparisons: &[Comparison], left: &Term, right: &Term) -> bool
    ensures { result ≡ (cancel_in form.now (map comparison_of comparisons.now)
        && (cancels_in form.now (term_of left.now) && cancels_in form.now (term_of right.now))) }
{
    cancel(form, comparisons) && (form.cancels(left) && form.cancels(right))
}

// whether no variable of the comparisons counts
fn cancel(form: &LinearForm, comparisons: &[Comparison]) -> bool
    ensures { result ≡ cancel_in form.now (map comparison_of comparisons.now) }
{
    let mut rest = comparisons;
    'comparisons: while let [comparison, others @ ..] = rest {
        if !(form.cancels(comparison.right) && form.cancels(comparison.left)) {
            return false;
        }
        rest = others;
    }
    true
}
