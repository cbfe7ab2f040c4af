// The verdicts on triples, by the names of rules.
ghost use Rattle.std.specs.Prelude.{[], ◌∷◌, IfOk};
ghost use Rattle.rule_table.specs.Rules as rules;
ghost use Rattle.rule_table.specs.Table.{table as rules_of, triples};
ghost use Rattle.rule_table.specs.Verdicts.{IsVerdict, readings_in};
ghost use Rattle.formula_table.specs.Interning.{KeepsAll};
ghost use Rattle.row_patterns.specs.Verdicts.{verdict_in};
ghost use Rattle.triple_rules.specs.Callees.{AreReady};
ghost use Rattle.triple_rules.specs.Procedures.{procedures_in};
ghost use Rattle.triple_rules.specs.Written.{IsReady, written_in};
ghost use Rattle.hoare_kernel.specs.Names.{name_of};

use crate::axioms::axiom_by;
use crate::letters;
use crate::names::{TripleRule, triple_rule_of};
use dom_syntax::modified;
use dom_terms::{OutOfMemory, Verdict};
use formula_table::Table;
use std::alloc::Global;
use triple_rules::{Callees, Written};

// The verdict of frame.
fn frame(alloc: Global, written: &Written) -> Result<Verdict, OutOfMemory>
    requires { IsReady written.now }
    ensures { IfOk result (λ v. IsVerdict (rules.frame_rule ∷ []) (written_in written.now)
        (verdict_in v)) }
{
    let changed = modified(alloc, &written.triple.command)?;
    Ok(triple_rules::frame(alloc, written, changed.as_slice()))
}

// The verdict of the rule.
fn verdict_of(
    alloc: Global,
    table: &mut Table,
    rule: TripleRule,
    written: &Written,
    callees: Callees,
) -> Result<Verdict, OutOfMemory>
    requires written { IsReady written.now }
    requires callees { AreReady callees }
    ensures exact { IfOk result (λ v. IsVerdict
        (readings_in (triples (procedures_in callees.entry.procedures.now)) (name_of rule))
        (written_in written.now) (verdict_in v)) }
    ensures kept { KeepsAll table.old table.new }
{
    match rule {
        TripleRule::Skip => Ok(triple_rules::skip(alloc, written)),
        TripleRule::Assign => Ok(triple_rules::assign(written)),
        TripleRule::Seq => Ok(triple_rules::seq(alloc, written)),
        TripleRule::If => Ok(triple_rules::if_else(alloc, written)),
        TripleRule::While => Ok(triple_rules::while_do(alloc, written)),
        TripleRule::Local => Ok(triple_rules::local(alloc, written)),
        TripleRule::Call => triple_rules::call(alloc, written, callees),
        TripleRule::Frame => frame(alloc, written),
        TripleRule::Consequence => Ok(triple_rules::consequence(alloc, written)),
        TripleRule::Eliminate => letters::eliminate(alloc, table, written),
        TripleRule::Disjunction => Ok(triple_rules::disjunction(alloc, written)),
        TripleRule::Absurd => Ok(triple_rules::absurd(written)),
        TripleRule::Instance => letters::instance(alloc, written),
    }
}

// The verdict of the rule for triples, or of the axiom, of that name.
fn verdict_named(
    alloc: Global,
    table: &mut Table,
    name: &str,
    written: &Written,
    callees: Callees,
) -> Result<Verdict, OutOfMemory>
    requires written { IsReady written.now }
    requires callees { AreReady callees }
    ensures exact { IfOk result (λ v. IsVerdict
        (readings_in (triples (procedures_in callees.entry.procedures.now)) name.now)
        (written_in written.now) (verdict_in v)) }
    ensures kept { KeepsAll table.old table.new }
{
    match triple_rule_of(name) {
        Some(rule) => verdict_of(alloc, table, rule, written, callees),
        None => axiom_by(alloc, table, name, written),
    }
}

/// The verdict on a triple by the rule of that name, in a theory with these procedures. By a rule
/// of entailment, as by a name of no rule, it is that the conclusion doesn't fit.
pub fn triple_by(
    alloc: Global,
    table: &mut Table,
    name: &str,
    written: &Written,
    callees: Callees,
) -> Result<Verdict, OutOfMemory>
    requires written { IsReady written.now }
    requires callees { AreReady callees }
    ensures exact { IfOk result (λ v. IsVerdict
        (readings_in (rules_of (procedures_in callees.entry.procedures.now)) name.now)
        (written_in written.now) (verdict_in v)) }
    ensures kept { KeepsAll table.old table.new }
{
    verdict_named(alloc, table, name, written, callees)
}
