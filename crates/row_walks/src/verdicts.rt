// The verdict on a step by the rows of a rule.
ghost use Rattle.std.specs.Prelude.{◌≡◌};
ghost use Rattle.std.specs.List.{list_all};
ghost use Rattle.std.specs.Option.{option_map};
ghost use Rattle.dom_terms.specs.Sorts.{sort_of};
ghost use Rattle.formula_table.specs.Forms.{form_at, term_at};
ghost use Rattle.model_shapes.specs.Sorts as sorts;
ghost use Rattle.rule_table.specs.Verdicts.{side_verdict};
ghost use Rattle.letter_bindings.specs.Lines as lines;
ghost use Rattle.numbered_formulas.specs.Variables.{variable_at};
ghost use Rattle.row_patterns.specs.Verdicts.{verdict_in};
ghost use Rattle.row_patterns.specs.Views.{conditions_in, line_in, patterns_in, requirements_in};
ghost use Rattle.row_walks.specs.Views.{known_at};
ghost use Rattle.row_walks.specs.Written.{written_at};

use crate::known::Known;
use crate::settling::settle;
use crate::steps::{Cited, Numbered, walk_conclusion, walk_premises};
use dom_terms::{DataSort, SideName, Sort, Verdict};
use formula_table::Table;
use numbered_formulas::{Variable, has_sort_at, is_free, is_pure};
use row_patterns::{Asked, Condition, Row};

/// What is written at a step, by numbers: the arguments, what is cited, the judgement.
#[derive(Clone, Copy)]
pub struct Step<'a> {
    /// The terms.
    pub arguments: &'a [u32],
    /// The premises.
    pub cited: Cited,
    /// The conclusion.
    pub conclusion: Numbered,
}

// Whether the argument has the sort of $x.
fn argument_fits(table: &Table, sort: Option<Sort>, argument: Option<u32>) -> bool
    ensures { result ≡ lines.argument_fits (option_map sort_of sort)
        (option_map (term_at table.now) argument) }
{
    match (sort, argument) {
        (Some(s), Some(e)) => has_sort_at(table, s, e),
        _ => false,
    }
}

// Whether $x may have its sort.
fn sort_fits(sort: Option<Sort>) -> bool
    ensures { result ≡ lines.sort_fits (option_map sort_of sort) }
{
    match sort {
        Some(s) => is_sort(s),
        None => false,
    }
}

// Whether a context of the sort can be.
fn is_sort(sort: Sort) -> bool
    ensures { result ≡ sorts.is_sort (sort_of sort) }
{
    !matches!(
        sort,
        Sort::Context(DataSort::Grove, DataSort::Tree | DataSort::Forest)
    )
}

// Whether what the row asks is met.
fn asked_met(table: &Table, asked: Asked, known: &Known) -> bool
    ensures { result ≡ list_all (lines.requirement_met (known_at table.now known.now))
        (requirements_in asked) }
{
    match asked {
        Asked::Nothing => true,
        Asked::Argument(e) => argument_fits(table, known.x_sort, known.terms.get(e)),
        Asked::SortOfX => sort_fits(known.x_sort),
    }
}

// Whether $x isn't free in the formula.
fn is_out_of(table: &Table, x: Option<Variable>, formula: Option<u32>) -> bool
    ensures { result ≡ lines.is_out_of (option_map (variable_at table.now) x)
        (option_map (form_at table.now) formula) }
{
    match (x, formula) {
        (Some(v), Some(p)) => !is_free(table, v, p),
        _ => true,
    }
}

// Whether the formula is pure.
fn all_pure(table: &Table, formula: Option<u32>) -> bool
    ensures { result ≡ lines.all_pure (option_map (form_at table.now) formula) }
{
    match formula {
        Some(p) => is_pure(table, p),
        None => true,
    }
}

// Whether the condition of the row is met.
fn condition_met(table: &Table, condition: Condition, x: Option<Variable>, known: &Known) -> bool
    ensures { result ≡ list_all (lines.condition_met (option_map (variable_at table.now) x)
        (known_at table.now known.now)) (conditions_in condition) }
{
    match condition {
        Condition::Nothing => true,
        Condition::NotFree(a) => is_out_of(table, x, known.formulas.get(a)),
        Condition::Pure(a) => all_pure(table, known.formulas.get(a)),
    }
}

// The verdict where the condition isn't met.
fn side_of(condition: Condition) -> Verdict
    ensures { verdict_in result ≡ side_verdict (lines.first_side (conditions_in condition)) }
{
    match condition {
        Condition::NotFree(_) => Verdict::Side(SideName::Free),
        _ => Verdict::Side(SideName::Pure),
    }
}

// The verdict where the conclusion and the premises were walked over.
fn followed(table: &Table, row: &Row, known: Option<Known>) -> Verdict
    ensures { verdict_in result ≡ lines.verdict_followed (line_in row.now)
        (option_map (known_at table.now) known) }
{
    let Some(known) = known else {
        return Verdict::Premises;
    };
    match settle(table, &known) {
        None => Verdict::Premises,
        Some(x) if condition_met(table, row.condition, x, &known) => Verdict::Instance,
        Some(_) => side_of(row.condition),
    }
}

// The verdict of the row.
fn row_verdict(table: &Table, row: &Row, step: Step) -> Verdict
    ensures { verdict_in result ≡ lines.row_verdict (line_in row.now)
        (written_at table.now step.entry.arguments.now step.entry.cited step.entry.conclusion) }
{
    let Some(known) = walk_conclusion(table, row, step.arguments, step.conclusion) else {
        return Verdict::Shape;
    };
    if asked_met(table, row.asked, &known) && settle(table, &known).is_some() {
        followed(table, row, walk_premises(table, row, step.cited, known))
    } else {
        Verdict::Shape
    }
}

// Of two verdicts the one that goes farther, and of two that go as far the first.
fn farther(first: Verdict, second: Verdict) -> Verdict
    ensures { verdict_in result ≡ lines.farther (verdict_in first) (verdict_in second) }
{
    match (first, second) {
        (Verdict::Instance, _) => first,
        (_, Verdict::Instance) => second,
        (Verdict::Side(_), _) => first,
        (_, Verdict::Side(_)) => second,
        (Verdict::Premises, _) => first,
        _ => second,
    }
}

/// The verdict on the step by a rule with these rows.
pub fn verdict_by(table: &Table, rows: &[Row], step: Step) -> Verdict
    ensures { verdict_in result ≡ lines.verdict_by (patterns_in rows.now)
        (written_at table.now step.entry.arguments.now step.entry.cited step.entry.conclusion) }
{
    match rows {
        [] => Verdict::Shape,
        [row, rest @ ..] => match row_verdict(table, row, step) {
            Verdict::Instance => Verdict::Instance,
            first => farther(first, verdict_by(table, rest, step)),
        },
    }
}
