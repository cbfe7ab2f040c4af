// The verdicts of the rules for triples on what is written at a step.
ghost use Rattle.std.specs.Prelude.{◌≡◌, [], ◌∷◌, map, codes, IfOk};
ghost use Rattle.model_commands.specs.Theories.{Procedures};
ghost use Rattle.rule_table.specs.Rules as rules;
ghost use Rattle.rule_table.specs.Table.{table};
ghost use Rattle.rule_table.specs.Verdicts.{IsVerdict, readings_in};
ghost use Rattle.row_patterns.specs.Verdicts.{verdict_in};
ghost use Rattle.dom_terms.specs.Terms.{prog_var_of};
ghost use Rattle.theory_syntax.specs.Commands.{command_of};
ghost use Rattle.triple_rules.specs.Callees.{AreReady};
ghost use Rattle.triple_rules.specs.Changed.{AreChanged};
ghost use Rattle.triple_rules.specs.Procedures.{procedures_in};
ghost use Rattle.triple_rules.specs.Written.{IsReady, written_in};

use crate::callees::Callees;
use crate::written::Written;
use crate::{assignments, blocks, calls, framing, instancing, locals, sequences, simple};
use dom_terms::{OutOfMemory, ProgVar, Verdict};
use std::alloc::Global;

/// The rows of the rules, by the names that steps give.
pub fn the_rows_are_those_of_the_table()
    ensures skip { (procedures : Procedures)
        → readings_in (table procedures) (codes "skip") ≡ rules.skip_rule ∷ [] }
    ensures assign { (procedures : Procedures)
        → readings_in (table procedures) (codes "assign") ≡ rules.assign_rule ∷ [] }
    ensures seq { (procedures : Procedures)
        → readings_in (table procedures) (codes "seq") ≡ rules.seq_rule ∷ [] }
    ensures if_else { (procedures : Procedures)
        → readings_in (table procedures) (codes "if") ≡ rules.if_rule ∷ [] }
    ensures while_do { (procedures : Procedures)
        → readings_in (table procedures) (codes "while") ≡ rules.while_rule ∷ [] }
    ensures local { (procedures : Procedures)
        → readings_in (table procedures) (codes "local") ≡ rules.local_rule ∷ [] }
    ensures call { (procedures : Procedures)
        → readings_in (table procedures) (codes "call")
        ≡ (λ letters. rules.call_rule letters procedures) ∷ [] }
    ensures frame { (procedures : Procedures)
        → readings_in (table procedures) (codes "frame") ≡ rules.frame_rule ∷ [] }
    ensures consequence { (procedures : Procedures)
        → readings_in (table procedures) (codes "consequence") ≡ rules.consequence_rule ∷ [] }
    ensures disjunction { (procedures : Procedures)
        → readings_in (table procedures) (codes "disjunction") ≡ rules.disjunction_rule ∷ [] }
    ensures absurd { (procedures : Procedures)
        → readings_in (table procedures) (codes "absurd") ≡ rules.absurd_rule ∷ [] }
    ensures instance { (procedures : Procedures)
        → readings_in (table procedures) (codes "instance") ≡ rules.instance_rule ∷ [] }
{}

/// The verdict of skip.
pub fn skip(alloc: Global, written: &Written) -> Verdict
    requires { IsReady written.now }
    ensures { IsVerdict (rules.skip_rule ∷ []) (written_in written.now) (verdict_in result) }
{
    simple::skip(alloc, written)
}

/// The verdict of absurd.
pub fn absurd(written: &Written) -> Verdict
    ensures { IsVerdict (rules.absurd_rule ∷ []) (written_in written.now) (verdict_in result) }
{
    simple::absurd(written)
}

/// The verdict of consequence.
pub fn consequence(alloc: Global, written: &Written) -> Verdict
    requires { IsReady written.now }
    ensures { IsVerdict (rules.consequence_rule ∷ []) (written_in written.now)
        (verdict_in result) }
{
    simple::consequence(alloc, written)
}

/// The verdict of disjunction.
pub fn disjunction(alloc: Global, written: &Written) -> Verdict
    requires { IsReady written.now }
    ensures { IsVerdict (rules.disjunction_rule ∷ []) (written_in written.now)
        (verdict_in result) }
{
    simple::disjunction(alloc, written)
}

/// The verdict of assign.
pub fn assign(written: &Written) -> Verdict
    requires { IsReady written.now }
    ensures { IsVerdict (rules.assign_rule ∷ []) (written_in written.now) (verdict_in result) }
{
    assignments::assign(written)
}

/// The verdict of seq.
pub fn seq(alloc: Global, written: &Written) -> Verdict
    requires { IsReady written.now }
    ensures { IsVerdict (rules.seq_rule ∷ []) (written_in written.now) (verdict_in result) }
{
    sequences::seq(alloc, written)
}

/// The verdict of if.
pub fn if_else(alloc: Global, written: &Written) -> Verdict
    requires { IsReady written.now }
    ensures { IsVerdict (rules.if_rule ∷ []) (written_in written.now) (verdict_in result) }
{
    blocks::if_else(alloc, written)
}

/// The verdict of while.
pub fn while_do(alloc: Global, written: &Written) -> Verdict
    requires { IsReady written.now }
    ensures { IsVerdict (rules.while_rule ∷ []) (written_in written.now) (verdict_in result) }
{
    blocks::while_do(alloc, written)
}

/// The verdict of local.
pub fn local(alloc: Global, written: &Written) -> Verdict
    requires { IsReady written.now }
    ensures { IsVerdict (rules.local_rule ∷ []) (written_in written.now) (verdict_in result) }
{
    locals::local(alloc, written)
}

/// The verdict of frame, from the program variables that the command changes.
pub fn frame(alloc: Global, written: &Written, changed: &[ProgVar]) -> Verdict
    requires written { IsReady written.now }
    requires changed { AreChanged (map prog_var_of changed.now)
        (command_of written.now.triple.now.command) }
    ensures { IsVerdict (rules.frame_rule ∷ []) (written_in written.now) (verdict_in result) }
{
    let kept = framing::is_kept(written, changed);
    framing::frame(alloc, written, kept)
}

/// The verdict of call, in a theory with these procedures. OutOfMemory comes only where memory is
/// refused.
pub fn call(alloc: Global, written: &Written, callees: Callees) -> Result<Verdict, OutOfMemory>
    requires written { IsReady written.now }
    requires callees { AreReady callees }
    ensures { IfOk result (λ v. IsVerdict
        ((λ letters. rules.call_rule letters (procedures_in callees.entry.procedures.now)) ∷ [])
        (written_in written.now) (verdict_in v)) }
{
    calls::call(alloc, written, callees)
}

/// The verdict of instance, from the program variables that the command changes. OutOfMemory comes
/// only where memory is refused.
pub fn instance(
    alloc: Global,
    written: &Written,
    changed: &[ProgVar],
) -> Result<Verdict, OutOfMemory>
    requires written { IsReady written.now }
    requires changed { AreChanged (map prog_var_of changed.now)
        (command_of written.now.triple.now.command) }
    ensures { IfOk result (λ v. IsVerdict (rules.instance_rule ∷ []) (written_in written.now)
        (verdict_in v)) }
{
    instancing::instance(alloc, written, changed)
}
