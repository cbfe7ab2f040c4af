// Steps by rules of entailment: calls that the program makes in other words.
ghost use Rattle.std.specs.Prelude.{◌≡◌, IfOk, codes};
ghost use Rattle.model_shapes.specs.Sorts.{shape, grove};
ghost use Rattle.model_terms.specs.Variables as model;
ghost use Rattle.dom_terms.specs.Terms.{logic_var_of};
ghost use Rattle.entail_rules.specs.Premises.{IsSmallEntailment, IsWellSorted};
ghost use Rattle.entail_kernel.specs.Steps.{IsEntailmentStep};

use dom_terms::{DataSort, LogicVar, Numbers, OutOfMemory, Sort, Terms, Text, Verdict, with};
use entail_kernel::check_entailment;
use entail_rules::{EntailRule, matches};
use formula_syntax::{Entailment, Formula};
use std::alloc::Global;
use std::test::Fail;
use theory_syntax::{Judgement, Reason, Step};

// the variable $g of groves
fn grove_variable(alloc: Global) -> Result<LogicVar, OutOfMemory>
    ensures { IfOk result (λ x. logic_var_of x ≡ model.logic (codes "$g") (shape grove)) }
{
    let name = Text::from_str(alloc, "$g")?;
    let sort = Sort::Shape(DataSort::Grove);
    Ok(LogicVar { name, sort })
}

// `true entails (exists $g . ($g and true)) at g`
pub(crate) fn something(alloc: Global) -> Result<Entailment, OutOfMemory>
    ensures small { IfOk result IsSmallEntailment }
    ensures sorted { IfOk result IsWellSorted }
{
    let variable = Box::new(alloc, Formula::Var(grove_variable(alloc)?))?;
    let (variable, yes) = with(variable, Box::new(alloc, Formula::True))?;
    let both = Box::new(alloc, Formula::And(variable, yes))?;
    let (both, bound) = with(both, grove_variable(alloc))?;
    let right = Formula::Exists(bound, both);
    let sort = Sort::Shape(DataSort::Grove);
    let left = Formula::True;
    Ok(Entailment { left, right, sort })
}

// The verdict of a rule on it, without premises and arguments.
fn verdict_of(alloc: Global, rule: EntailRule) -> Result<Verdict, OutOfMemory> {
    let conclusion = something(alloc)?;
    let verdict = matches(alloc, rule, &Terms::new(alloc), &[], &conclusion);
    drop(conclusion);
    verdict
}

// The verdict of the rule `cut` on it, with itself for each of two premises.
fn verdict_of_cut(alloc: Global) -> Result<Verdict, OutOfMemory> {
    let (first, second) = with(something(alloc)?, something(alloc))?;
    let (premises, conclusion) = with([first, second], something(alloc))?;
    let verdict = matches(
        alloc,
        EntailRule::Cut,
        &Terms::new(alloc),
        &premises,
        &conclusion,
    );
    drop((premises, conclusion));
    verdict
}

#[test]
fn an_entailment_has_the_verdict_of_its_rule(rt: HostRuntime) -> Result<(), Fail> {
    let alloc = rt.alloc();
    assert!(rt; matches!(verdict_of(alloc, EntailRule::Some)?, Verdict::Instance));
    assert!(rt; matches!(verdict_of_cut(alloc)?, Verdict::Premises));
    assert!(rt; matches!(verdict_of(alloc, EntailRule::TrueIn)?, Verdict::Shape));
    Ok(())
}

// The first step, by the rule `some`.
pub(crate) fn first_step(alloc: Global, conclusion: Entailment) -> Result<Step, OutOfMemory>
    requires small { IsSmallEntailment conclusion }
    requires sorted { IsWellSorted conclusion }
    ensures { IfOk result IsEntailmentStep }
{
    let (conclusion, name) = with(conclusion, Text::from_str(alloc, "some"))?;
    let reason = Reason::Rule {
        name,
        premises: Numbers::new(alloc),
        arguments: Terms::new(alloc),
    };
    Ok(Step {
        number: 1,
        line: 1,
        reason,
        judgement: Judgement::Entails(conclusion),
    })
}

#[test]
fn a_step_has_the_verdict_of_its_rule(rt: HostRuntime) -> Result<(), Fail> {
    let alloc = rt.alloc();
    let step = first_step(alloc, something(alloc)?)?;
    let verdict = check_entailment(alloc, &[], &step);
    drop(step);
    assert!(rt; matches!(verdict, Ok(Verdict::Instance)));
    Ok(())
}
