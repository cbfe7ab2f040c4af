// The verdict on a step by any rule of entailment.
ghost use Rattle.std.specs.Prelude.{◌≡◌, ◌⊎◌, ◌∷◌, Err, IfOk, List, [], Option, Some, None, map};
ghost use Rattle.model_commands.specs.Theories.{Judgement};
ghost use Rattle.rule_table.specs.Table.{entailments};
ghost use Rattle.rule_table.specs.Verdicts.{IsVerdict, readings_in};
ghost use Rattle.dom_terms.specs.Terms.{term_of};
ghost use Rattle.formula_table.specs.Interning.{KeepsAll};
ghost use Rattle.formula_table.specs.declared.faults.TableFault.TheVariants as f;
ghost use Rattle.row_patterns.specs.Verdicts.{verdict_in};
ghost use Rattle.rule_rows.specs.Names.{name_of, computed_name};
ghost use Rattle.entail_rules.specs.Judged.{judged, all_cited};
ghost use Rattle.formula_table.specs.declared.tables.Table.{Table as ATable};
ghost use Rattle.entail_rules.specs.Numbers.{AllHaveRows, AreNumbers, CitedKnown, IsFull, IsKnown};
ghost use Rattle.entail_rules.specs.Numbers.{PremisesKnown, StepHasRows};
ghost use Rattle.entail_rules.specs.Premises.{Cites, IsSmallEntailment, IsWellSorted, unfollowed, written_with};

use crate::cited::{Cited, Premise, StepVerdict};
use crate::numbering::{Numbers, number_step};
use computed_rules::{concat, distinct, eq_subst, linear};
use dom_terms::{OutOfMemory, Term, Terms, Verdict};
use formula_syntax::Entailment;
use formula_table::{Table, TableFault};
use row_walks::{Step, verdict_by};
use rule_rows::{Computed, EntailRule, Way, way_of};
use std::alloc::Global;

// What becomes of a verdict where the cited premises are none that the rule has.
fn without_premises(verdict: Verdict) -> Verdict
    ensures { verdict_in result ≡ unfollowed (verdict_in verdict) }
{
    match verdict {
        Verdict::Shape => Verdict::Shape,
        _ => Verdict::Premises,
    }
}

// The verdict by a rule that computes, where nothing is cited.
fn computed(
    alloc: Global,
    rule: Computed,
    arguments: &[Term],
    conclusion: &Entailment,
) -> Result<Verdict, OutOfMemory>
    requires small { IsSmallEntailment conclusion.now }
    requires sorted { IsWellSorted conclusion.now }
    ensures { IfOk result (λ v. IsVerdict (readings_in entailments (computed_name rule))
        (written_with arguments.now (Some []) conclusion.now) (verdict_in v)) }
{
    match rule {
        Computed::EqSubst => Ok(eq_subst(arguments, conclusion)),
        Computed::Distinct => Ok(distinct(arguments, conclusion)),
        Computed::Linear => linear(alloc, arguments, conclusion),
        Computed::Concat => concat(alloc, arguments, conclusion),
    }
}

// The verdict by a rule that computes.
fn by_computing(
    alloc: Global,
    rule: Computed,
    arguments: &[Term],
    cited: Cited,
    conclusion: &Entailment,
) -> Result<Verdict, OutOfMemory>
    requires small { IsSmallEntailment conclusion.now }
    requires sorted { IsWellSorted conclusion.now }
    ensures { IfOk result (λ v. IsVerdict (readings_in entailments (computed_name rule))
        (written_with arguments.now (Some (all_cited cited.entry)) conclusion.now)
        (verdict_in v)) }
{
    let verdict = computed(alloc, rule, arguments, conclusion)?;
    match cited {
        Cited::Nothing => Ok(verdict),
        _ => Ok(without_premises(verdict)),
    }
}

// The verdict on a step that cites these entailments, by the numbers of what is written.
fn verdict_numbered(
    alloc: Global,
    table: &Table,
    rule: EntailRule,
    arguments: &[Term],
    cited: Cited,
    conclusion: &Entailment,
    numbers: &Numbers,
) -> Result<Verdict, OutOfMemory>
    requires small { IsSmallEntailment conclusion.now }
    requires sorted { IsWellSorted conclusion.now }
    requires numbers { AreNumbers table.now numbers.now (map term_of arguments.now) cited
        conclusion.now }
    ensures { IfOk result (λ v. IsVerdict (readings_in entailments (name_of rule))
        (written_with arguments.now (Some (all_cited cited.entry)) conclusion.now)
        (verdict_in v)) }
{
    match way_of(rule) {
        Way::Matched(rows) => {
            let step = Step {
                arguments: numbers.arguments.as_slice(),
                cited: numbers.cited,
                conclusion: numbers.conclusion,
            };
            Ok(verdict_by(table, rows, step))
        }
        Way::Computed(rule) => by_computing(alloc, rule, arguments, cited, conclusion),
    }
}

// The verdict on a step that cites these entailments. The table has a row for each formula then.
fn verdict_citing(
    alloc: Global,
    table: &mut Table,
    rule: EntailRule,
    arguments: &[Term],
    cited: Cited,
    conclusion: &Entailment,
) -> Result<StepVerdict, TableFault>
    requires small { IsSmallEntailment conclusion.now }
    requires sorted { IsWellSorted conclusion.now }
    requires known { CitedKnown table.old cited }
    ensures exact { IfOk result (λ v. IsVerdict (readings_in entailments (name_of rule))
        (written_with arguments.now (Some (all_cited cited.entry)) conclusion.now)
        (verdict_in v.verdict)) }
    ensures rows { IfOk result (λ v. AllHaveRows table.new
        (judged conclusion.now ∷ all_cited cited.entry)) }
    ensures numbers { IfOk result (λ v. IsKnown table.new v.numbers (judged conclusion.now)) }
    ensures kept { KeepsAll table.old table.new }
    ensures full { result ≡ Err f.Full → IsFull table.new }
{
    let numbers = number_step(alloc, table, arguments, cited, conclusion)?;
    let verdict = verdict_numbered(alloc, table, rule, arguments, cited, conclusion, &numbers)?;
    Ok(StepVerdict {
        verdict,
        numbers: Some(numbers.conclusion),
    })
}

// The verdict on a step, where the table has room for the formulas.
fn verdict_within(
    alloc: Global,
    table: &mut Table,
    rule: EntailRule,
    arguments: &[Term],
    cited: Option<Cited>,
    conclusion: &Entailment,
) -> Result<StepVerdict, TableFault>
    requires small { IsSmallEntailment conclusion.now }
    requires sorted { IsWellSorted conclusion.now }
    requires known { PremisesKnown table.old cited }
    ensures exact { IfOk result (λ v. (premises : Option (List Judgement))
        → Cites cited.entry premises → IsVerdict (readings_in entailments (name_of rule))
        (written_with arguments.now premises conclusion.now) (verdict_in v.verdict)) }
    ensures rows { IfOk result (λ v. v.verdict ≡ Verdict.Instance
        → StepHasRows table.new cited.entry conclusion.now) }
    ensures numbers { IfOk result (λ v. IsKnown table.new v.numbers (judged conclusion.now)) }
    ensures kept { KeepsAll table.old table.new }
    ensures full { result ≡ Err f.Full → IsFull table.new }
{
    match cited {
        Some(cited) => verdict_citing(alloc, table, rule, arguments, cited, conclusion),
        None => {
            let cited = Cited::Nothing;
            let found = verdict_citing(alloc, table, rule, arguments, cited, conclusion)?;
            Ok(StepVerdict {
                verdict: without_premises(found.verdict),
                numbers: found.numbers,
            })
        }
    }
}

// The entailment, with no known numbers.
fn unnumbered(entailment: &Entailment) -> Premise<'_>
    ensures numbers { result.numbers ≡ None }
    ensures same { result.entailment.now ≡ entailment.now }
{
    Premise {
        entailment,
        numbers: None,
    }
}

// The same entailments, with no known numbers.
fn all_unnumbered<'a>(cited: Option<Cited<'a>>) -> Option<Cited<'a>>
    ensures same { (premises : Option (List Judgement)) → Cites cited.entry premises
        → Cites result premises }
    ensures unknown { (t : ATable) → PremisesKnown t result }
{
    match cited? {
        Cited::Nothing => Some(Cited::Nothing),
        Cited::One(a) => Some(Cited::One(unnumbered(a.entailment))),
        Cited::Two(a, b) => {
            let first = unnumbered(a.entailment);
            let second = unnumbered(b.entailment);
            Some(Cited::Two(first, second))
        }
    }
}

// The verdict on a step, over a table of its own with room for as many formulas as have numbers.
fn verdict_alone(
    alloc: Global,
    rule: EntailRule,
    arguments: &[Term],
    cited: Option<Cited>,
    conclusion: &Entailment,
) -> Result<StepVerdict, OutOfMemory>
    requires small { IsSmallEntailment conclusion.now }
    requires sorted { IsWellSorted conclusion.now }
    ensures exact { IfOk result (λ v. (premises : Option (List Judgement))
        → Cites cited.entry premises → IsVerdict (readings_in entailments (name_of rule))
        (written_with arguments.now premises conclusion.now) (verdict_in v.verdict)) }
    ensures numbers { IfOk result (λ v. v.numbers ≡ None) }
{
    let mut table = Table::with_most(alloc, u32::MAX);
    let cited = all_unnumbered(cited);
    match verdict_within(alloc, &mut table, rule, arguments, cited, conclusion) {
        Ok(found) => Ok(StepVerdict {
            verdict: found.verdict,
            numbers: None,
        }),
        Err(_) => Err(OutOfMemory),
    }
}

/// The verdict on a step by the rule, with these arguments and this conclusion, where these
/// entailments are cited. None stands for cited judgements that are no entailments, for more than
/// two, and for a citation of no step: they are the premises of no rule. The numbers that are known
/// of the cited ones are those of the table, and so are those that are answered of the conclusion.
/// The table keeps what each number stands for, and has a row for each formula of an instance,
/// unless it has the most rows that it may have. OutOfMemory comes only where memory is refused.
pub fn verdict_on(
    alloc: Global,
    table: &mut Table,
    rule: EntailRule,
    arguments: &[Term],
    cited: Option<Cited>,
    conclusion: &Entailment,
) -> Result<StepVerdict, OutOfMemory>
    requires small { IsSmallEntailment conclusion.now }
    requires sorted { IsWellSorted conclusion.now }
    requires known { PremisesKnown table.old cited }
    ensures exact { IfOk result (λ v. (premises : Option (List Judgement))
        → Cites cited.entry premises → IsVerdict (readings_in entailments (name_of rule))
        (written_with arguments.now premises conclusion.now) (verdict_in v.verdict)) }
    ensures rows { IfOk result (λ v. v.verdict ≡ Verdict.Instance
        → StepHasRows table.new cited.entry conclusion.now ⊎ IsFull table.new) }
    ensures numbers { IfOk result (λ v. IsKnown table.new v.numbers (judged conclusion.now)) }
    ensures kept { KeepsAll table.old table.new }
{
    match verdict_within(alloc, table, rule, arguments, cited, conclusion) {
        Ok(found) => Ok(found),
        Err(TableFault::Full) => verdict_alone(alloc, rule, arguments, cited, conclusion),
        Err(TableFault::OutOfMemory) => Err(OutOfMemory),
    }
}

// The premises, where they are two at most.
fn cited_in<'a>(premises: &'a [Entailment]) -> Option<Cited<'a>>
    ensures cites { Cites result (Some (map judged premises.now)) }
    ensures unknown { (t : ATable) → PremisesKnown t result }
{
    match premises {
        [] => Some(Cited::Nothing),
        [a] => Some(Cited::One(unnumbered(a))),
        [a, b] => {
            let first = unnumbered(a);
            let second = unnumbered(b);
            Some(Cited::Two(first, second))
        }
        _ => None,
    }
}

/// The verdict on a step by the rule, with these arguments, premises and conclusion. A wrong number
/// of premises is of the kind Premises where the conclusion fits. The table keeps what each number
/// stands for, and has a row for each formula of an instance, unless it has the most rows that it
/// may have. OutOfMemory comes only where memory is refused.
pub fn matches_in(
    alloc: Global,
    table: &mut Table,
    rule: EntailRule,
    arguments: &Terms,
    premises: &[Entailment],
    conclusion: &Entailment,
) -> Result<Verdict, OutOfMemory>
    requires small { IsSmallEntailment conclusion.now }
    requires sorted { IsWellSorted conclusion.now }
    ensures exact { IfOk result (λ v. IsVerdict (readings_in entailments (name_of rule))
        (written_with arguments.now (Some (map judged premises.now)) conclusion.now)
        (verdict_in v)) }
    ensures rows { IfOk result (λ v. v ≡ Verdict.Instance → AllHaveRows table.new
        (judged conclusion.now ∷ map judged premises.now) ⊎ IsFull table.new) }
    ensures kept { KeepsAll table.old table.new }
{
    let cited = cited_in(premises);
    let found = verdict_on(alloc, table, rule, arguments.as_slice(), cited, conclusion)?;
    Ok(found.verdict)
}

/// The verdict on a step by the rule, with these arguments, premises and conclusion. A wrong number
/// of premises is of the kind Premises where the conclusion fits. OutOfMemory comes only where
/// memory is refused.
pub fn matches(
    alloc: Global,
    rule: EntailRule,
    arguments: &Terms,
    premises: &[Entailment],
    conclusion: &Entailment,
) -> Result<Verdict, OutOfMemory>
    requires small { IsSmallEntailment conclusion.now }
    requires sorted { IsWellSorted conclusion.now }
    ensures { IfOk result (λ v. IsVerdict (readings_in entailments (name_of rule))
        (written_with arguments.now (Some (map judged premises.now)) conclusion.now)
        (verdict_in v)) }
{
    let mut table = Table::new(alloc);
    matches_in(alloc, &mut table, rule, arguments, premises, conclusion)
}
