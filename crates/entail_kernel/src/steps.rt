// Steps by rules of entailment.
ghost use Rattle.std.specs.Prelude.{◌≡◌, ◌⊎◌, ◌∷◌, IfOk, List, Some, map};
ghost use Rattle.model_commands.specs.Theories.{nameless_judgement, Judgement as AJudgement};
ghost use Rattle.rule_table.specs.Accepted as accepted;
ghost use Rattle.rule_table.specs.Table.{entailments};
ghost use Rattle.rule_table.specs.Verdicts.{IsVerdict, readings_in};
ghost use Rattle.dom_terms.specs.Terms.{term_of};
ghost use Rattle.theory_syntax.specs.Judgements.{judgement_of, reason_of};
ghost use Rattle.row_patterns.specs.Verdicts.{verdict_in};
ghost use Rattle.formula_table.specs.Interning.{KeepsAll};
ghost use Rattle.formula_table.specs.declared.tables.Table.{Table as ATable};
ghost use Rattle.rule_rows.specs.Names.{name_of};
ghost use Rattle.cited_steps.specs.Earlier.{AreCitable, steps_in};
ghost use Rattle.entail_rules.specs.Judged.{judged};
ghost use Rattle.entail_rules.specs.Numbers.{AllHaveRows, IsFull, IsKnown, PremisesKnown};
ghost use Rattle.entail_rules.specs.Premises.{Cites, IsSmallEntailment, IsWellSorted};
ghost use Rattle.entailment_laws.specs.Judgements.{entailments_alone};
ghost use Rattle.entailment_laws.specs.Steps.{IsSoundStep};
ghost use Rattle.entail_kernel.specs.Citing.{CitesOne};
ghost use Rattle.entail_kernel.specs.Known.{AreKnown, PremiseKnown, known_of};
ghost use Rattle.entail_kernel.specs.Steps.{EntailmentVerdict, IsEntailmentStep, StepHasRows};

use cited_steps::cited;
use dom_terms::{OutOfMemory, Term, Verdict};
use entail_rules::{Cited, EntailRule, Numbered, Premise, StepVerdict, rule_of, verdict_on};
use formula_syntax::Entailment;
use formula_table::Table;
use std::alloc::Global;
use theory_syntax::{Judgement, Reason, Step};

// The numbers of the formulas of the step with that number, where they are known.
fn numbers_of(number: u32, known: &[Option<Numbered>]) -> Option<Numbered>
    ensures { result ≡ known_of number known.now }
{
    let place = (number as usize).checked_sub(1)?;
    if place < known.len() {
        known[place]
    } else {
        None
    }
}

// The entailment that the step of the number says, if it is one.
fn cited_entailment<'a>(
    number: u32,
    earlier: &'a [Step],
    known: &[Option<Numbered>],
) -> Option<Premise<'a>>
    requires { AreCitable earlier.now }
    ensures cites { CitesOne number earlier.now result }
    ensures known { (t : ATable) → AreKnown t known.now earlier.now → PremiseKnown t result }
{
    match cited(number, earlier)? {
        Judgement::Entails(entailment) => {
            let numbers = numbers_of(number, known);
            Some(Premise {
                entailment,
                numbers,
            })
        }
        Judgement::Triple(_) => None,
    }
}

// The entailments that are cited, where they are two at most.
fn cited_entailments<'a>(
    numbers: &[u32],
    earlier: &'a [Step],
    known: &[Option<Numbered>],
) -> Option<Cited<'a>>
    requires { AreCitable earlier.now }
    ensures cites { Cites result (accepted.cited (steps_in earlier.now) numbers.now) }
    ensures known { (t : ATable) → AreKnown t known.now earlier.now → PremisesKnown t result }
{
    match numbers {
        [] => Some(Cited::Nothing),
        [n] => Some(Cited::One(cited_entailment(*n, earlier, known)?)),
        [n, m] => {
            let first = cited_entailment(*n, earlier, known)?;
            let second = cited_entailment(*m, earlier, known)?;
            Some(Cited::Two(first, second))
        }
        _ => None,
    }
}

/// The verdict on an entailment by the rule, with these arguments and citations, over the steps
/// before it, of the first of which some numbers of the table are known; and the conclusion's
/// numbers, where they are known then. The table keeps what each number stands for, and has a row
/// for each formula of an instance and of what it cites, unless it has the most rows that it may
/// have. OutOfMemory comes only where memory is refused.
pub fn entailment_by(
    alloc: Global,
    table: &mut Table,
    rule: EntailRule,
    earlier: &[Step],
    known: &[Option<Numbered>],
    numbers: &[u32],
    arguments: &[Term],
    conclusion: &Entailment,
) -> Result<StepVerdict, OutOfMemory>
    requires earlier { AreCitable earlier.now }
    requires small { IsSmallEntailment conclusion.now }
    requires sorted { IsWellSorted conclusion.now }
    requires known { AreKnown table.old known.now earlier.now }
    ensures exact { IfOk result (λ v. IsVerdict (readings_in entailments (name_of rule))
        (accepted.written_at (steps_in earlier.now) numbers.now (map term_of arguments.now)
        (judged conclusion.now)) (verdict_in v.verdict)) }
    ensures rows { IfOk result (λ v. v.verdict ≡ Verdict.Instance → (js : List AJudgement)
        → accepted.cited (steps_in earlier.now) numbers.now ≡ Some js
        → AllHaveRows table.new (judged conclusion.now ∷ js) ⊎ IsFull table.new) }
    ensures numbers { IfOk result (λ v. IsKnown table.new v.numbers (judged conclusion.now)) }
    ensures kept { KeepsAll table.old table.new }
{
    let cited = cited_entailments(numbers, earlier, known);
    verdict_on(alloc, table, rule, arguments, cited, conclusion)
}

/// The verdict on a step that names a rule of entailment and judges an entailment, over the steps
/// before it. An instance holds where what it cites are entailments that hold. The table keeps what
/// each number stands for, and has a row for each formula of an instance and of what it cites,
/// unless it has the most rows that it may have. OutOfMemory comes only where memory is refused.
pub fn check_entailment_in(
    alloc: Global,
    table: &mut Table,
    earlier: &[Step],
    step: &Step,
) -> Result<Verdict, OutOfMemory>
    requires earlier { AreCitable earlier.now }
    requires step { IsEntailmentStep step.now }
    ensures exact { IfOk result (λ v. EntailmentVerdict (steps_in earlier.now)
        (reason_of step.now.reason) (nameless_judgement (judgement_of step.now.judgement))
        (verdict_in v)) }
    ensures sound { IfOk result (λ v. v ≡ Verdict.Instance → IsSoundStep entailments_alone
        (steps_in earlier.now) (reason_of step.now.reason)
        (nameless_judgement (judgement_of step.now.judgement))) }
    ensures rows { IfOk result (λ v. v ≡ Verdict.Instance → StepHasRows table.new
        (steps_in earlier.now) (reason_of step.now.reason)
        (nameless_judgement (judgement_of step.now.judgement))) }
    ensures kept { KeepsAll table.old table.new }
{
    let Judgement::Entails(conclusion) = &step.judgement else {
        unreachable!();
    };
    let Reason::Rule {
        name,
        premises,
        arguments,
    } = &step.reason
    else {
        unreachable!();
    };
    let Some(rule) = rule_of(name.as_str()) else {
        unreachable!();
    };
    let (numbers, arguments) = (premises.as_slice(), arguments.as_slice());
    let found = entailment_by(
        alloc,
        table,
        rule,
        earlier,
        &[],
        numbers,
        arguments,
        conclusion,
    )?;
    Ok(found.verdict)
}

/// The verdict on a step that names a rule of entailment and judges an entailment, over the steps
/// before it. An instance holds where what it cites are entailments that hold. OutOfMemory comes
/// only where memory is refused.
pub fn check_entailment(
    alloc: Global,
    earlier: &[Step],
    step: &Step,
) -> Result<Verdict, OutOfMemory>
    requires earlier { AreCitable earlier.now }
    requires step { IsEntailmentStep step.now }
    ensures exact { IfOk result (λ v. EntailmentVerdict (steps_in earlier.now)
        (reason_of step.now.reason) (nameless_judgement (judgement_of step.now.judgement))
        (verdict_in v)) }
    ensures sound { IfOk result (λ v. v ≡ Verdict.Instance → IsSoundStep entailments_alone
        (steps_in earlier.now) (reason_of step.now.reason)
        (nameless_judgement (judgement_of step.now.judgement))) }
{
    let mut table = Table::new(alloc);
    check_entailment_in(alloc, &mut table, earlier, step)
}
