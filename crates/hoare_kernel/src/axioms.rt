// The axioms of the commands of the document.
ghost use Rattle.std.specs.Prelude.{IfOk};
ghost use Rattle.rule_table.specs.Axioms.{axioms};
ghost use Rattle.rule_table.specs.Verdicts.{IsVerdict, readings_in};
ghost use Rattle.formula_table.specs.Interning.{KeepsAll};
ghost use Rattle.row_patterns.specs.Verdicts.{verdict_in};
ghost use Rattle.triple_rules.specs.Written.{written_in};

use dom_terms::{OutOfMemory, Verdict};
use formula_table::Table;
use small_axioms::axiom_verdict;
use std::alloc::Global;
use triple_rules::Written;

/// The verdict of the axiom of that name. A name of no axiom has no rows.
pub fn axiom_by(
    alloc: Global,
    table: &mut Table,
    name: &str,
    written: &Written,
) -> Result<Verdict, OutOfMemory>
    ensures exact { IfOk result (λ v. IsVerdict (readings_in axioms name.now)
        (written_in written.now) (verdict_in v)) }
    ensures kept { KeepsAll table.old table.new }
{
    let (citations, arguments) = (written.citations, written.arguments);
    axiom_verdict(alloc, table, name, citations, arguments, written.triple)
}
