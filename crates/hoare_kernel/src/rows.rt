// The rows of the formulas that are written at a step.
ghost use Rattle.std.specs.Prelude.{◌≡◌, Err, OnOk};
ghost use Rattle.model_commands.specs.Theories.{auto, nameless_judgement};
ghost use Rattle.model_formulas.specs.Nameless.{nameless};
ghost use Rattle.formula_syntax.specs.Formulas.{formula_of};
ghost use Rattle.formula_table.specs.Interning.{KeepsAll};
ghost use Rattle.formula_table.specs.declared.faults.TableFault.TheVariants as f;
ghost use Rattle.theory_syntax.specs.Judgements.{judgement_of, reason_of};
ghost use Rattle.cited_steps.specs.Earlier.{AreCitable, steps_in};
ghost use Rattle.entail_rules.specs.Numbers.{HasRow, IsFull, JudgementHasRows};
ghost use Rattle.entail_kernel.specs.Steps.{StepHasRows};
ghost use Rattle.hoare_kernel.specs.Rows.{CitedHaveRows, NumberHasRows};

use cited_steps::cited;
use dom_terms::OutOfMemory;
use formula_syntax::Formula;
use formula_table::{Table, TableFault};
use theory_syntax::{Judgement, Reason, Step};

// Gives both formulas rows.
fn add_formulas(table: &mut Table, left: &Formula, right: &Formula) -> Result<(), TableFault>
    ensures kept { KeepsAll table.old table.new }
    ensures left { OnOk result (HasRow table.new (nameless (formula_of left.now))) }
    ensures right { OnOk result (HasRow table.new (nameless (formula_of right.now))) }
    ensures full { result ≡ Err f.Full → IsFull table.new }
{
    table.intern(left)?;
    table.intern(right)?;
    Ok(())
}

// Gives those of the judgement rows.
fn add_judgement(table: &mut Table, judgement: &Judgement) -> Result<(), TableFault>
    ensures kept { KeepsAll table.old table.new }
    ensures rows { OnOk result
        (JudgementHasRows table.new (nameless_judgement (judgement_of judgement.now))) }
    ensures full { result ≡ Err f.Full → IsFull table.new }
{
    match judgement {
        Judgement::Entails(entailment) => {
            add_formulas(table, &entailment.left, &entailment.right)
        }
        Judgement::Triple(triple) => add_formulas(table, &triple.pre, &triple.post),
    }
}

// Gives those of the step of that number rows.
fn add_numbered(table: &mut Table, number: u32, earlier: &[Step]) -> Result<(), TableFault>
    requires { AreCitable earlier.now }
    ensures kept { KeepsAll table.old table.new }
    ensures rows { OnOk result (NumberHasRows table.new (steps_in earlier.now) number) }
    ensures full { result ≡ Err f.Full → IsFull table.new }
{
    match cited(number, earlier) {
        Some(judgement) => add_judgement(table, judgement),
        None => Ok(()),
    }
}

// Gives those of the steps of these numbers rows.
fn add_cited(table: &mut Table, numbers: &[u32], earlier: &[Step]) -> Result<(), TableFault>
    requires { AreCitable earlier.now }
    ensures kept { KeepsAll table.old table.new }
    ensures rows { OnOk result (CitedHaveRows table.new (steps_in earlier.now) numbers.now) }
    ensures full { result ≡ Err f.Full → IsFull table.new }
{
    for number in numbers {
        add_numbered(table, *number, earlier)?;
    }
    Ok(())
}

// Gives those of the step, which is no gap, and of what it cites, rows.
fn add_written(table: &mut Table, earlier: &[Step], step: &Step) -> Result<(), TableFault>
    requires earlier { AreCitable earlier.now }
    requires reason { reason_of step.now.reason ≡ auto → ⊥ }
    ensures kept { KeepsAll table.old table.new }
    ensures rows { OnOk result (StepHasRows table.new (steps_in earlier.now)
        (reason_of step.now.reason) (nameless_judgement (judgement_of step.now.judgement))) }
    ensures full { result ≡ Err f.Full → IsFull table.new }
{
    let Reason::Rule { premises, .. } = &step.reason else {
        unreachable!();
    };
    add_judgement(table, &step.judgement)?;
    add_cited(table, premises.as_slice(), earlier)
}

/// Gives the formulas of the step, which is no gap, and those of what it cites, rows in the table
/// while there is room.
pub(crate) fn add_rows(table: &mut Table, earlier: &[Step], step: &Step) -> Result<(), OutOfMemory>
    requires earlier { AreCitable earlier.now }
    requires reason { reason_of step.now.reason ≡ auto → ⊥ }
    ensures kept { KeepsAll table.old table.new }
    ensures rows { OnOk result (StepHasRows table.new (steps_in earlier.now)
        (reason_of step.now.reason) (nameless_judgement (judgement_of step.now.judgement))) }
{
    match add_written(table, earlier, step) {
        Ok(()) => Ok(()),
        Err(TableFault::Full) => Ok(()),
        Err(TableFault::OutOfMemory) => Err(OutOfMemory),
    }
}
