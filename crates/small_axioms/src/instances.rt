// The verdict on a triple by the axiom of a name.
ghost use Rattle.std.specs.Prelude.{◌≡◌, IfOk};
ghost use Rattle.rule_table.specs.Axioms.{axioms};
ghost use Rattle.rule_table.specs.Verdicts.{IsVerdict, readings_in};
ghost use Rattle.row_patterns.specs.Verdicts.{verdict_in};
ghost use Rattle.triple_laws.specs.Steps.{HoldsAnywhere};
ghost use Rattle.small_axioms.specs.Steps.{judgement_of, written};

use crate::verdicts::axiom_verdict;
use dom_terms::{OutOfMemory, Verdict};
use formula_table::Table;
use std::alloc::Global;
use theory_syntax::Triple;

/// The verdict on the triple by the axiom of that name, as at a step that cites nothing and has no
/// arguments, so it is never of the kind Premises. A name of no axiom has no rows: its verdict is
/// that the conclusion doesn't fit. An instance holds in every context. OutOfMemory comes only
/// where memory is refused or 32 bits don't number the formulas.
pub fn axiom_instance(alloc: Global, name: &str, triple: &Triple) -> Result<Verdict, OutOfMemory>
    ensures exact { IfOk result (λ v. IsVerdict (readings_in axioms name.now) (written triple.now)
        (verdict_in v)) }
    ensures sound { IfOk result
        (λ v. v ≡ Verdict.Instance → HoldsAnywhere (judgement_of triple.now)) }
{
    let mut table = Table::with_most(alloc, u32::MAX);
    axiom_verdict(alloc, &mut table, name, &[], &[], triple)
}
