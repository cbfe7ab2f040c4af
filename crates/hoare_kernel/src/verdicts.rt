// The verdict on a step.
ghost use Rattle.std.specs.Prelude.{◌≡◌, IfOk, true};
ghost use Rattle.model_commands.specs.Theories.{auto, nameless_judgement, procedures_of};
ghost use Rattle.model_files.specs.FileFaults.{judgement_sorted};
ghost use Rattle.model_files.specs.Sizes.{JudgementIsSmall, TheoryIsSmall};
ghost use Rattle.rule_table.specs.Accepted.{VerdictBy};
ghost use Rattle.formula_table.specs.Interning.{KeepsAll};
ghost use Rattle.theory_syntax.specs.Judgements.{judgement_of, reason_of};
ghost use Rattle.theory_syntax.specs.Theories.{theory_of};
ghost use Rattle.row_patterns.specs.Verdicts.{verdict_in};
ghost use Rattle.cited_steps.specs.Earlier.{AreCitable, steps_in};
ghost use Rattle.entail_rules.specs.Numbers.{IsKnown};
ghost use Rattle.entail_kernel.specs.Known.{AreKnown};
ghost use Rattle.entail_kernel.specs.Steps.{StepHasRows};
ghost use Rattle.triple_laws.specs.Steps.{HoldsBySteps};
ghost use Rattle.triple_rules.specs.Callees.{AreReady};
ghost use Rattle.triple_rules.specs.Procedures.{procedures_in};

use crate::entailments::entailment_named;
use crate::rows::add_rows;
use crate::triples::triple_by;
use dom_terms::{OutOfMemory, Verdict};
use entail_rules::{Numbered, StepVerdict};
use formula_table::Table;
use std::alloc::Global;
use theory_syntax::{Judgement, Reason, Step, Theory};
use triple_rules::{Callees, Written};

/// The verdict on the step, which is no gap, over the steps before it, in a theory with these
/// procedures. Of the first of these steps some numbers of the table are known.
pub(crate) fn step_verdict(
    alloc: Global,
    table: &mut Table,
    callees: Callees,
    earlier: &[Step],
    known: &[Option<Numbered>],
    step: &Step,
) -> Result<StepVerdict, OutOfMemory>
    requires callees { AreReady callees }
    requires earlier { AreCitable earlier.now }
    requires small { JudgementIsSmall (judgement_of step.now.judgement) }
    requires sorted { judgement_sorted (judgement_of step.now.judgement) ≡ true }
    requires reason { reason_of step.now.reason ≡ auto → ⊥ }
    requires known { AreKnown table.old known.now earlier.now }
    ensures exact { IfOk result (λ v. VerdictBy (procedures_in callees.entry.procedures.now)
        (reason_of step.now.reason) (steps_in earlier.now)
        (nameless_judgement (judgement_of step.now.judgement)) (verdict_in v.verdict)) }
    ensures numbers { IfOk result (λ v. IsKnown table.new v.numbers
        (nameless_judgement (judgement_of step.now.judgement))) }
    ensures kept { KeepsAll table.old table.new }
{
    let Reason::Rule {
        name,
        premises,
        arguments,
    } = &step.reason
    else {
        unreachable!();
    };
    let name = name.as_str();
    let citations = premises.as_slice();
    let arguments = arguments.as_slice();
    match &step.judgement {
        Judgement::Entails(entailment) => {
            entailment_named(
                alloc, table, name, earlier, known, citations, arguments, entailment,
            )
        }
        Judgement::Triple(triple) => {
            let written = Written {
                earlier,
                citations,
                arguments,
                triple,
            };
            let verdict = triple_by(alloc, table, name, &written, callees)?;
            Ok(StepVerdict {
                verdict,
                numbers: None,
            })
        }
    }
}

/// The verdict on the step, which is no gap, over the steps before it. A name of no rule has the
/// verdict of a conclusion that doesn't fit. An instance holds by the number of steps, where what
/// it cites does. The table keeps what each number stands for, and has a row for each formula of an
/// instance and of what it cites, unless it has the most rows that it may have. OutOfMemory comes
/// only where memory is refused.
pub fn check_step_in(
    alloc: Global,
    table: &mut Table,
    theory: &Theory,
    earlier: &[Step],
    step: &Step,
) -> Result<Verdict, OutOfMemory>
    requires theory { TheoryIsSmall (theory_of theory.now) }
    requires earlier { AreCitable earlier.now }
    requires small { JudgementIsSmall (judgement_of step.now.judgement) }
    requires sorted { judgement_sorted (judgement_of step.now.judgement) ≡ true }
    requires reason { reason_of step.now.reason ≡ auto → ⊥ }
    ensures exact { IfOk result (λ v. VerdictBy (procedures_of (theory_of theory.now))
        (reason_of step.now.reason) (steps_in earlier.now)
        (nameless_judgement (judgement_of step.now.judgement)) (verdict_in v)) }
    ensures sound { IfOk result (λ v. v ≡ Verdict.Instance → HoldsBySteps (theory_of theory.now)
        (steps_in earlier.now) (reason_of step.now.reason)
        (nameless_judgement (judgement_of step.now.judgement))) }
    ensures kept { KeepsAll table.old table.new }
    ensures rows { IfOk result (λ v. v ≡ Verdict.Instance → StepHasRows table.new
        (steps_in earlier.now) (reason_of step.now.reason)
        (nameless_judgement (judgement_of step.now.judgement))) }
{
    let callees = Callees {
        procedures: theory.procedures.as_slice(),
        names: None,
    };
    let found = step_verdict(alloc, table, callees, earlier, &[], step)?;
    match found.verdict {
        Verdict::Instance => {
            add_rows(table, earlier, step)?;
            Ok(Verdict::Instance)
        }
        verdict => Ok(verdict),
    }
}

/// The verdict on the step, which is no gap, over the steps before it. A name of no rule has the
/// verdict of a conclusion that doesn't fit. An instance holds by the number of steps, where what
/// it cites does. OutOfMemory comes only where memory is refused.
pub fn check_step(
    alloc: Global,
    theory: &Theory,
    earlier: &[Step],
    step: &Step,
) -> Result<Verdict, OutOfMemory>
    requires theory { TheoryIsSmall (theory_of theory.now) }
    requires earlier { AreCitable earlier.now }
    requires small { JudgementIsSmall (judgement_of step.now.judgement) }
    requires sorted { judgement_sorted (judgement_of step.now.judgement) ≡ true }
    requires reason { reason_of step.now.reason ≡ auto → ⊥ }
    ensures exact { IfOk result (λ v. VerdictBy (procedures_of (theory_of theory.now))
        (reason_of step.now.reason) (steps_in earlier.now)
        (nameless_judgement (judgement_of step.now.judgement)) (verdict_in v)) }
    ensures sound { IfOk result (λ v. v ≡ Verdict.Instance → HoldsBySteps (theory_of theory.now)
        (steps_in earlier.now) (reason_of step.now.reason)
        (nameless_judgement (judgement_of step.now.judgement))) }
{
    let mut table = Table::new(alloc);
    check_step_in(alloc, &mut table, theory, earlier, step)
}
