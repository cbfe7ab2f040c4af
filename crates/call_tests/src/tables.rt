// Formulas by number, and verdicts over a table that is lent.
ghost use Rattle.model_files.specs.Sizes.{TheoryIsSmall};
ghost use Rattle.theory_syntax.specs.Theories.{theory_of};

use crate::entailments::{first_step, something};
use crate::formulas::is_a;
use crate::theories::{idle_theory, skip_step};
use dom_terms::{OutOfMemory, Terms, Verdict, with};
use entail_kernel::check_entailment_in;
use entail_rules::{EntailRule, matches_in};
use formula_syntax::Formula;
use formula_table::{FormulaId, Table, TableFault};
use hoare_kernel::check_step_in;
use std::alloc::Global;
use std::test::Fail;
use theory_syntax::Theory;

// The number of a formula, which is let go then.
fn number(table: &mut Table, formula: Formula) -> Result<FormulaId, TableFault> {
    let answer = table.intern(&formula);
    drop(formula);
    answer
}

#[test]
fn same_formulas_have_one_number(rt: HostRuntime) -> Result<(), Fail> {
    let alloc = rt.alloc();
    let mut table = Table::new(alloc);
    let first = number(&mut table, is_a(alloc, "$m")?)?;
    let renamed = number(&mut table, is_a(alloc, "$n")?)?;
    let other = number(&mut table, Formula::EmptyGrove)?;
    let answers = (table.same(first, renamed), table.same(first, other));
    drop(table);
    assert_eq!(rt; answers, (true, false));
    Ok(())
}

// `(0g + 0g)`
fn empty_sum(alloc: Global) -> Result<Formula, OutOfMemory> {
    let left = Box::new(alloc, Formula::EmptyGrove)?;
    let (left, right) = with(left, Box::new(alloc, Formula::EmptyGrove))?;
    Ok(Formula::Plus(left, right))
}

#[test]
fn a_full_table_keeps_its_numbers(rt: HostRuntime) -> Result<(), Fail> {
    let alloc = rt.alloc();
    let mut table = Table::with_most(alloc, 2);
    let empty = number(&mut table, Formula::EmptyGrove)?;
    let sum = number(&mut table, empty_sum(alloc)?)?;
    let before = (table.len(), table.same(empty, sum));
    let refused = number(&mut table, Formula::True);
    let again = number(&mut table, empty_sum(alloc)?);
    drop(table);
    assert_eq!(rt; before, (2, false));
    assert_eq!(rt; refused, Err(TableFault::Full));
    assert_eq!(rt; again, Ok(sum));
    Ok(())
}

#[test]
fn a_copied_table_has_the_same_numbers(rt: HostRuntime) -> Result<(), Fail> {
    let alloc = rt.alloc();
    let mut table = Table::new(alloc);
    let sum = number(&mut table, empty_sum(alloc)?);
    let copied = table.copy(alloc);
    drop(table);
    let mut copied = copied?;
    let again = number(&mut copied, empty_sum(alloc)?);
    let rows = copied.len();
    drop(copied);
    assert_eq!(rt; (again, rows), (sum, 2));
    Ok(())
}

// The verdict of the rule `some` on an entailment, over a table with so many rows at most.
fn verdict_within(alloc: Global, most: u32) -> Result<Verdict, OutOfMemory> {
    let conclusion = something(alloc)?;
    let mut table = Table::with_most(alloc, most);
    let none = Terms::new(alloc);
    let verdict = matches_in(alloc, &mut table, EntailRule::Some, &none, &[], &conclusion);
    drop((conclusion, table, none));
    verdict
}

#[test]
fn a_full_table_changes_no_verdict(rt: HostRuntime) -> Result<(), Fail> {
    let alloc = rt.alloc();
    assert_eq!(rt; verdict_within(alloc, 0), Ok(Verdict::Instance));
    assert_eq!(rt; verdict_within(alloc, 4_000_000), Ok(Verdict::Instance));
    Ok(())
}

// The verdict on a step that judges an entailment, over a table with so many rows at most.
fn step_within(alloc: Global, most: u32) -> Result<Verdict, OutOfMemory> {
    let step = first_step(alloc, something(alloc)?)?;
    let mut table = Table::with_most(alloc, most);
    let verdict = check_entailment_in(alloc, &mut table, &[], &step);
    drop((step, table));
    verdict
}

#[test]
fn a_full_table_changes_no_verdict_on_a_step(rt: HostRuntime) -> Result<(), Fail> {
    let alloc = rt.alloc();
    assert_eq!(rt; step_within(alloc, 0), Ok(Verdict::Instance));
    assert_eq!(rt; step_within(alloc, 4_000_000), Ok(Verdict::Instance));
    Ok(())
}

// The verdict on the step that does nothing, and the rows before and after one of its formulas is
// numbered again.
fn rows_of_step(alloc: Global, theory: &Theory) -> Result<(Verdict, usize, usize), Fail>
    requires { TheoryIsSmall (theory_of theory.now) }
{
    let step = skip_step(alloc, "skip")?;
    let mut table = Table::new(alloc);
    let verdict = check_step_in(alloc, &mut table, theory, &[], &step);
    drop(step);
    let rows = table.len();
    let number = number(&mut table, Formula::True);
    let after = table.len();
    drop(table);
    number?;
    Ok((verdict?, rows, after))
}

#[test]
fn the_formulas_of_an_instance_have_rows(rt: HostRuntime) -> Result<(), Fail> {
    let theory = idle_theory(rt.alloc())?;
    let answer = rows_of_step(rt.alloc(), &theory);
    drop(theory);
    assert_eq!(rt; answer?, (Verdict::Instance, 1, 1));
    Ok(())
}
