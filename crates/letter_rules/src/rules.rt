// The verdicts of the rules that speak of a logic variable on what is written at a step.
ghost use Rattle.std.specs.Prelude.{◌≡◌, [], ◌∷◌, IfOk, codes};
ghost use Rattle.model_commands.specs.Theories.{Procedures};
ghost use Rattle.rule_table.specs.Rules as rules;
ghost use Rattle.rule_table.specs.Table as rows;
ghost use Rattle.rule_table.specs.Verdicts.{IsVerdict, readings_in};
ghost use Rattle.row_patterns.specs.Verdicts.{verdict_in};
ghost use Rattle.triple_rules.specs.Written.{IsReady, written_in};
ghost use Rattle.formula_table.specs.Interning.{KeepsAll};

use crate::eliminating;
use dom_terms::{OutOfMemory, Verdict};
use formula_table::Table;
use std::alloc::Global;
use triple_rules::Written;

/// The rows of the rules, by the names that steps give.
pub fn the_rows_are_those_of_the_table()
    ensures { (procedures : Procedures)
        → readings_in (rows.table procedures) (codes "eliminate") ≡ rules.eliminate_rule ∷ [] }
{}

/// The verdict of eliminate, with the formulas numbered in the table, whose numbers keep their
/// meaning. OutOfMemory comes only where memory is refused or 32 bits don't number the formulas.
pub fn eliminate(
    alloc: Global,
    table: &mut Table,
    written: &Written,
) -> Result<Verdict, OutOfMemory>
    requires { IsReady written.now }
    ensures exact { IfOk result (λ verdict.
        IsVerdict (rules.eliminate_rule ∷ []) (written_in written.now) (verdict_in verdict)) }
    ensures kept { KeepsAll table.old table.new }
{
    eliminating::eliminate(alloc, table, written)
}
