// The rules that speak of a logic variable.
ghost use Rattle.std.specs.Prelude.{[], ◌∷◌, IfOk};
ghost use Rattle.rule_table.specs.Rules as rules;
ghost use Rattle.rule_table.specs.Verdicts.{IsVerdict};
ghost use Rattle.formula_table.specs.Interning.{KeepsAll};
ghost use Rattle.row_patterns.specs.Verdicts.{verdict_in};
ghost use Rattle.triple_rules.specs.Written.{IsReady, written_in};

use dom_syntax::modified;
use dom_terms::{OutOfMemory, Verdict};
use formula_table::Table;
use std::alloc::Global;
use triple_rules::Written;

/// The verdict of eliminate.
pub fn eliminate(
    alloc: Global,
    table: &mut Table,
    written: &Written,
) -> Result<Verdict, OutOfMemory>
    requires { IsReady written.now }
    ensures exact { IfOk result (λ v. IsVerdict (rules.eliminate_rule ∷ []) (written_in written.now)
        (verdict_in v)) }
    ensures kept { KeepsAll table.old table.new }
{
    letter_rules::eliminate(alloc, table, written)
}

/// The verdict of instance.
pub fn instance(alloc: Global, written: &Written) -> Result<Verdict, OutOfMemory>
    requires { IsReady written.now }
    ensures { IfOk result (λ v. IsVerdict (rules.instance_rule ∷ []) (written_in written.now)
        (verdict_in v)) }
{
    let changed = modified(alloc, &written.triple.command)?;
    triple_rules::instance(alloc, written, changed.as_slice())
}
