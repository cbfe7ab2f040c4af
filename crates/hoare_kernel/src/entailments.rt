// The verdicts on entailments, by the names of rules.
ghost use Rattle.std.specs.Prelude.{◌≡◌, IfOk, map, true};
ghost use Rattle.model_commands.specs.Theories.{Procedures, nameless_judgement};
ghost use Rattle.rule_table.specs.Accepted.{written_at};
ghost use Rattle.rule_table.specs.Table.{table as rules_of};
ghost use Rattle.rule_table.specs.Verdicts.{IsVerdict, readings_in};
ghost use Rattle.model_files.specs.FileFaults.{judgement_sorted};
ghost use Rattle.model_files.specs.Sizes.{JudgementIsSmall};
ghost use Rattle.dom_terms.specs.Terms.{term_of};
ghost use Rattle.formula_syntax.specs.Entailments.{entailment_of};
ghost use Rattle.formula_table.specs.Interning.{KeepsAll};
ghost use Rattle.theory_syntax.specs.Judgements.{entails_of};
ghost use Rattle.row_patterns.specs.Verdicts.{verdict_in};
ghost use Rattle.cited_steps.specs.Earlier.{AreCitable, steps_in};
ghost use Rattle.entail_rules.specs.Judged.{judged};
ghost use Rattle.entail_rules.specs.Numbers.{IsKnown};
ghost use Rattle.entail_kernel.specs.Known.{AreKnown};

use dom_terms::{OutOfMemory, Term, Verdict};
use entail_kernel::entailment_by;
use entail_rules::{Numbered, StepVerdict};
use formula_syntax::Entailment;
use formula_table::Table;
use rule_rows::rule_of;
use std::alloc::Global;
use theory_syntax::Step;

/// The verdict on an entailment by the rule of that name, over the steps before it, of the first of
/// which some numbers of the table are known. By another rule than one of entailment it is that the
/// conclusion doesn't fit.
pub fn entailment_named(
    alloc: Global,
    table: &mut Table,
    name: &str,
    earlier: &[Step],
    known: &[Option<Numbered>],
    citations: &[u32],
    arguments: &[Term],
    entailment: &Entailment,
) -> Result<StepVerdict, OutOfMemory>
    requires earlier { AreCitable earlier.now }
    requires small { JudgementIsSmall (entails_of (entailment_of entailment.now)) }
    requires sorted { judgement_sorted (entails_of (entailment_of entailment.now)) ≡ true }
    requires known { AreKnown table.old known.now earlier.now }
    ensures exact { IfOk result (λ v. (procedures : Procedures)
        → IsVerdict (readings_in (rules_of procedures) name.now)
        (written_at (steps_in earlier.now) citations.now (map term_of arguments.now)
        (nameless_judgement (entails_of (entailment_of entailment.now)))) (verdict_in v.verdict)) }
    ensures numbers { IfOk result (λ v. IsKnown table.new v.numbers (judged entailment.now)) }
    ensures kept { KeepsAll table.old table.new }
{
    match rule_of(name) {
        Some(rule) => {
            entailment_by(
                alloc, table, rule, earlier, known, citations, arguments, entailment,
            )
        }
        None => Ok(StepVerdict {
            verdict: Verdict::Shape,
            numbers: None,
        }),
    }
}
