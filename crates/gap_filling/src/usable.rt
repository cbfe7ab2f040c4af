// Whether an offer may stand in the place of a gap.
ghost use Rattle.std.specs.Prelude.{◌≡◌, ◌↔◌, ◌+◌, ◌-◌, ◌<◌, ◌≤◌, ◌^◌, ◌++◌, length, map, take, drop};
ghost use Rattle.std.specs.Prelude.{IfOk, IsTrue, MatchBool, OnErr, Some, slice_get, true};
ghost use Rattle.model_formulas.specs.Formulas.{Named};
ghost use Rattle.model_commands.specs.Theories.{ProcedureOf, nameless_judgement, procedures_of};
ghost use Rattle.model_files.specs.FileFaults.{judgement_sorted};
ghost use Rattle.model_files.specs.Sizes.{JudgementIsSmall, TheoryIsSmall};
ghost use Rattle.model_filling.specs.Usable.{IsUsable};
ghost use Rattle.rule_table.specs.Accepted.{InstanceBy};
ghost use Rattle.formula_table.specs.Interning.{KeepsAll};
ghost use Rattle.theory_syntax.specs.Judgements.{judgement_of, reason_of, step_of};
ghost use Rattle.theory_syntax.specs.Theories.{theory_of};
ghost use Rattle.cited_steps.specs.Earlier.{AreCitable, are_numbered, steps_in};
ghost use Rattle.gap_filling.specs.Good.{AreGood, IsFormed, IsGood};

use crate::judgements::ends_in;
use crate::sizes::has_sizes;
use dom_syntax::{ProgramFault, check_one};
use dom_terms::{OutOfMemory, Verdict};
use formula_table::Table;
use hoare_kernel::check_step_in;
use std::alloc::Global;
use theory_syntax::{Judgement, Reason, Step, Steps, Theory};

// Whether the steps are numbered one by one after this number.
fn are_numbered_after(steps: &[Step], before: usize) -> bool
    requires { before + length steps.now < 2 ^ 63 }
    ensures { result ≡ are_numbered (before + 1) steps.now }
{
    let mut number = before;
    for step in steps {
        number += 1;
        if step.number as usize != number {
            return false;
        }
    }
    true
}

// Whether the step is well formed in the file, at the place that its number says of the proof of
// the procedure.
fn is_formed(
    alloc: Global,
    theory: &Theory,
    procedure: u32,
    step: &Step,
) -> Result<bool, OutOfMemory>
    requires first { 1 ≤ procedure }
    requires last { procedure ≤ length theory.now.procedures }
    requires place { 1 ≤ step.now.number }
    requires small { JudgementIsSmall (judgement_of step.now.judgement) }
    ensures { (f : ProcedureOf Named)
        → slice_get (theory_of theory.now).procedures (procedure - 1) ≡ Some f
        → IfOk result (λ formed. IsTrue formed
        ↔ IsFormed (theory_of theory.now) f (step_of step.now)) }
{
    match check_one(alloc, theory, procedure, step.number, step) {
        Ok(()) => Ok(true),
        Err(ProgramFault::BadProgram { .. }) => Ok(false),
        Err(ProgramFault::OutOfMemory) => Err(OutOfMemory),
    }
}

// Whether the step, which is no gap and well sorted, is an instance over those before it.
fn is_instance(
    alloc: Global,
    table: &mut Table,
    theory: &Theory,
    earlier: &[Step],
    step: &Step,
) -> Result<bool, OutOfMemory>
    requires theory { TheoryIsSmall (theory_of theory.now) }
    requires earlier { AreCitable earlier.now }
    requires small { JudgementIsSmall (judgement_of step.now.judgement) }
    requires sorted { judgement_sorted (judgement_of step.now.judgement) ≡ true }
    ensures exact { IfOk result (λ yes. IsTrue yes
        ↔ InstanceBy (procedures_of (theory_of theory.now)) (reason_of step.now.reason)
        (steps_in earlier.now) (nameless_judgement (judgement_of step.now.judgement))) }
    ensures kept { KeepsAll table.old table.new }
{
    match &step.reason {
        Reason::Auto => Ok(false),
        Reason::Rule { .. } => {
            let verdict = check_step_in(alloc, table, theory, earlier, step)?;
            Ok(matches!(verdict, Verdict::Instance))
        }
    }
}

// Whether the step is well formed in the file and an instance over those before it.
fn is_good(
    alloc: Global,
    table: &mut Table,
    theory: &Theory,
    procedure: u32,
    earlier: &[Step],
    step: &Step,
) -> Result<bool, OutOfMemory>
    requires theory { TheoryIsSmall (theory_of theory.now) }
    requires first { 1 ≤ procedure }
    requires last { procedure ≤ length theory.now.procedures }
    requires earlier { AreCitable earlier.now }
    requires place { 1 ≤ step.now.number }
    requires small { JudgementIsSmall (judgement_of step.now.judgement) }
    ensures exact { (f : ProcedureOf Named)
        → slice_get (theory_of theory.now).procedures (procedure - 1) ≡ Some f
        → IfOk result (λ good. IsTrue good
        ↔ IsGood (theory_of theory.now) f (map step_of earlier.now) (step_of step.now)) }
    ensures kept { KeepsAll table.old table.new }
{
    if is_formed(alloc, theory, procedure, step)? {
        is_instance(alloc, table, theory, earlier, step)
    } else {
        Ok(false)
    }
}

// Whether the steps of the proof from a place on are well formed in the file, and instances over
// those before them.
fn are_good(
    alloc: Global,
    table: &mut Table,
    theory: &Theory,
    procedure: u32,
    proof: &[Step],
    kept: usize,
) -> Result<bool, OutOfMemory>
    requires theory { TheoryIsSmall (theory_of theory.now) }
    requires first { 1 ≤ procedure }
    requires last { procedure ≤ length theory.now.procedures }
    requires proof { AreCitable proof.now }
    requires within { kept ≤ length proof.now }
    ensures exact { (f : ProcedureOf Named)
        → slice_get (theory_of theory.now).procedures (procedure - 1) ≡ Some f
        → IfOk result (λ good. IsTrue good ↔ AreGood (theory_of theory.now) f
        (map step_of (take kept proof.now)) (map step_of (drop kept proof.now))) }
    ensures kept { KeepsAll table.old table.new }
{
    for place in kept..proof.len() {
        if !is_good(
            alloc,
            table,
            theory,
            procedure,
            &proof[..place],
            &proof[place],
        )? {
            return Ok(false);
        }
    }
    Ok(true)
}

/// Whether the steps of the proof from a place on may stand in the place of a gap of this
/// judgement, whose number is that of the first of them, after those before that place. The proof
/// is the one of the procedure, counted from 1. Nothing is asked of the steps from the place on.
/// The table keeps what each number stands for. OutOfMemory comes only where memory is refused.
pub fn is_usable(
    alloc: Global,
    table: &mut Table,
    theory: &Theory,
    procedure: u32,
    proof: &[Step],
    kept: usize,
    judgement: &Judgement,
) -> Result<bool, OutOfMemory>
    requires theory { TheoryIsSmall (theory_of theory.now) }
    requires first { 1 ≤ procedure }
    requires last { procedure ≤ length theory.now.procedures }
    requires within { kept ≤ length proof.now }
    requires earlier { AreCitable (take kept proof.now) }
    requires judgement { JudgementIsSmall (judgement_of judgement.now) }
    ensures exact { (f : ProcedureOf Named)
        → slice_get (theory_of theory.now).procedures (procedure - 1) ≡ Some f
        → IfOk result (λ yes. IsTrue yes ↔ IsUsable (theory_of theory.now) f
        (map step_of (take kept proof.now)) (kept + 1) (judgement_of judgement.now)
        (map step_of (drop kept proof.now))) }
    ensures citable { IfOk result (λ yes. IsTrue yes → AreCitable proof.now) }
    ensures kept { KeepsAll table.old table.new }
{
    let offer = &proof[kept..];
    if !has_sizes(offer) || !are_numbered_after(offer, kept) {
        return Ok(false);
    }
    if ends_in(alloc, offer, judgement)? {
        are_good(alloc, table, theory, procedure, proof, kept)
    } else {
        Ok(false)
    }
}

// Takes the last steps away, until so many are left.
fn cut(steps: &mut Steps, kept: usize)
    requires { kept ≤ length steps.old }
    ensures { steps.new ≡ take kept steps.old }
{
    while steps.len() > kept {
        steps.pop();
    }
}

/// Puts an offer at the end of a proof, the one of the procedure counted from 1, if it may stand in
/// the place of a gap of this judgement that comes next there: exactly then the answer is true. The
/// proof is unchanged where the offer isn't usable and where memory is refused. Nothing is asked of
/// the offer. The table keeps what each number stands for. OutOfMemory comes only where memory is
/// refused.
pub fn take_usable(
    alloc: Global,
    table: &mut Table,
    theory: &Theory,
    procedure: u32,
    proof: &mut Steps,
    judgement: &Judgement,
    offer: Steps,
) -> Result<bool, OutOfMemory>
    requires theory { TheoryIsSmall (theory_of theory.now) }
    requires first { 1 ≤ procedure }
    requires last { procedure ≤ length theory.now.procedures }
    requires proof { AreCitable proof.old }
    requires judgement { JudgementIsSmall (judgement_of judgement.now) }
    ensures exact { (f : ProcedureOf Named)
        → slice_get (theory_of theory.now).procedures (procedure - 1) ≡ Some f
        → IfOk result (λ yes. IsTrue yes ↔ IsUsable (theory_of theory.now) f
        (map step_of proof.old) (length proof.old + 1) (judgement_of judgement.now)
        (map step_of offer)) }
    ensures taken { IfOk result (λ yes. MatchBool yes (proof.new ≡ proof.old ++ offer)
        (proof.new ≡ proof.old)) }
    ensures refused { OnErr result (proof.new ≡ proof.old) }
    ensures citable { AreCitable proof.new }
    ensures kept { KeepsAll table.old table.new }
{
    let kept = proof.len();
    let mut offered = offer;
    proof.append(&mut offered)?;
    let usable = is_usable(
        alloc,
        table,
        theory,
        procedure,
        proof.as_slice(),
        kept,
        judgement,
    );
    if !matches!(usable, Ok(true)) {
        cut(proof, kept);
    }
    usable
}
