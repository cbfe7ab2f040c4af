// Which steps are instances of the rule that they name, and why the first other one is bad.
ghost use Rattle.std.specs.Prelude.{◌≡◌, ◌≢◌, ◌<◌, ◌+◌, ◌++◌, ◌∷◌, length, true, []};
ghost use Rattle.std.specs.Prelude.{IfErr, IfOk, OnOk};
ghost use Rattle.model_commands.specs.Theories.{nameless_judgement};
ghost use Rattle.model_files.specs.FileFaults.{judgement_sorted};
ghost use Rattle.model_files.specs.Sizes.{JudgementIsSmall};
ghost use Rattle.rule_table.specs.Accepted.{InstanceBy, AllInstances};
ghost use Rattle.rule_table.specs.Verdicts.{instance_verdict};
ghost use Rattle.row_patterns.specs.Verdicts.{verdict_in};
ghost use Rattle.formula_table.specs.Interning.{KeepsAll};
ghost use Rattle.theory_syntax.specs.Judgements.{judgement_of, reason_of};
ghost use Rattle.cited_steps.specs.Earlier.{AreCitable, steps_in};
ghost use Rattle.entail_rules.specs.Numbers.{IsKnown};
ghost use Rattle.entail_kernel.specs.Known.{AreKnown};
ghost use Rattle.triple_rules.specs.Callees.{AreReady};
ghost use Rattle.triple_rules.specs.Procedures.{procedures_in};
ghost use Rattle.hoare_kernel.specs.declared.refusals.Refusal.TheVariants as r;
ghost use Rattle.hoare_kernel.specs.Walks.{AllSorted, StepRefused, StepsRefused};

use crate::refusals::Refusal;
use crate::verdicts::step_verdict;
use dom_terms::{OutOfMemory, Verdict};
use entail_rules::{Numbered, StepVerdict};
use formula_table::Table;
use std::alloc::Global;
use theory_syntax::{Reason, Step};
use triple_rules::Callees;

// What the verdict on the step, of the procedure of this number, tells; and the numbers that are
// known of an instance.
fn judged(procedure: u32, step: u32, found: StepVerdict) -> Result<Option<Numbered>, Refusal>
    ensures fine { OnOk result (verdict_in found.verdict ≡ instance_verdict) }
    ensures numbers { IfOk result (λ numbers. numbers ≡ found.numbers) }
    ensures bad { IfErr result (λ e. (e ≡ r.Fails procedure step found.verdict)
        × (verdict_in found.verdict ≢ instance_verdict)) }
{
    let verdict = found.verdict;
    match verdict {
        Verdict::Instance => Ok(found.numbers),
        Verdict::Shape | Verdict::Premises | Verdict::Side(_) => {
            Err(Refusal::Fails {
                procedure,
                step,
                verdict,
            })
        }
    }
}

// Whether the step, of the procedure of this number, is an instance; and the numbers that are known
// of it then. Of the first of the steps before it some are known.
fn stands(
    alloc: Global,
    table: &mut Table,
    callees: Callees,
    procedure: u32,
    earlier: &[Step],
    known: &[Option<Numbered>],
    step: &Step,
) -> Result<Option<Numbered>, Refusal>
    requires callees { AreReady callees }
    requires earlier { AreCitable earlier.now }
    requires few { length earlier.now < 4294967295 }
    requires small { JudgementIsSmall (judgement_of step.now.judgement) }
    requires sorted { judgement_sorted (judgement_of step.now.judgement) ≡ true }
    requires known { AreKnown table.old known.now earlier.now }
    ensures fine { OnOk result (InstanceBy (procedures_in callees.entry.procedures.now)
        (reason_of step.now.reason) (steps_in earlier.now)
        (nameless_judgement (judgement_of step.now.judgement))) }
    ensures numbers { IfOk result (λ numbers. IsKnown table.new numbers
        (nameless_judgement (judgement_of step.now.judgement))) }
    ensures kept { KeepsAll table.old table.new }
    ensures bad { IfErr result (StepRefused (procedures_in callees.entry.procedures.now) procedure
        (length earlier.now + 1) (steps_in earlier.now) (reason_of step.now.reason)
        (nameless_judgement (judgement_of step.now.judgement))) }
{
    let place = earlier.len() as u32 + 1;
    match &step.reason {
        Reason::Auto => Err(Refusal::Gap {
            procedure,
            step: place,
        }),
        Reason::Rule { .. } => {
            let found = step_verdict(alloc, table, callees, earlier, known, step)?;
            judged(procedure, place, found)
        }
    }
}

// Keeps what is known of one step more.
fn keep(known: &mut Vec<Option<Numbered>>, numbers: Option<Numbered>) -> Result<(), OutOfMemory>
    ensures { OnOk result (known.new.items ≡ known.old.items ++ numbers ∷ []) }
{
    known.push(numbers)?;
    Ok(())
}

/// Whether each step, of the proof of the procedure of this number, is an instance of the rule that
/// it names over the steps before it. The error tells the first that isn't, and why.
pub(crate) fn check_steps(
    alloc: Global,
    table: &mut Table,
    callees: Callees,
    procedure: u32,
    steps: &[Step],
) -> Result<(), Refusal>
    requires callees { AreReady callees }
    requires citable { AreCitable steps.now }
    requires few { length steps.now < 4294967295 }
    requires sorted { AllSorted steps.now }
    ensures fine { OnOk result
        (AllInstances (procedures_in callees.entry.procedures.now) [] (steps_in steps.now)) }
    ensures bad { IfErr result
        (StepsRefused (procedures_in callees.entry.procedures.now) procedure (steps_in steps.now)) }
{
    let mut known = Vec::new(alloc);
    for (place, step) in steps.iter().enumerate() {
        let numbers = stands(
            alloc,
            table,
            callees,
            procedure,
            &steps[..place],
            known.as_slice(),
            step,
        )?;
        keep(&mut known, numbers)?;
    }
    Ok(())
}
