// Calls on theories, commands and conditions that the program doesn't make.
ghost use Rattle.std.specs.Prelude.{◌≡◌, ◌≤◌, true, length, IfOk};
ghost use Rattle.model_commands.specs.Theories.{auto};
ghost use Rattle.model_files.specs.FileFaults.{judgement_sorted};
ghost use Rattle.model_files.specs.Sizes.{JudgementIsSmall, TheoryIsSmall};
ghost use Rattle.theory_syntax.specs.Judgements.{judgement_of, reason_of};
ghost use Rattle.theory_syntax.specs.Theories.{theory_of};

use dom_syntax::{
    FileKind, Judgement, ProgramFault, Reason, Step, check_one, check_program, cond_formula,
    modified,
};
use dom_terms::{
    Cond, DataSort, LogicVars, Numbers, OutOfMemory, ProgVar, Sort, Store, Term, Terms, Text,
    ValueSort, Vars, Verdict, holds, with,
};
use formula_syntax::{Entailment, Formula};
use hoare_kernel::{Accepted, check_step, check_theory};
use proof_text::read_theory;
use std::alloc::Global;
use std::process::Abort;
use std::test::Fail;
use text_tokens::token_list;
use theory_syntax::{Command, Procedure, Procedures, Steps, Theory, Triple};

const FILE: &str = "domlogic 1
proc f(a: int) returns (x: int) sort g requires true ensures true
body local y : int { y := 1 ; while (not 9 <= x) { x := {x + y} } }
proof end";

// The theory of the file.
fn theory(alloc: Global) -> Result<Theory, Fail> {
    let tokens = token_list(alloc, FILE.as_bytes())?;
    Ok(read_theory(alloc, &tokens)?)
}

// What the body of the first procedure modifies.
fn modified_first(alloc: Global, theory: &Theory) -> Result<Vars, Fail> {
    let procedure = theory.procedures.get(0).ok_or("no procedure")?;
    Ok(modified(alloc, &procedure.body)?)
}

#[test]
fn a_block_modifies_no_local_of_its_own(rt: HostRuntime) -> Result<(), Fail> {
    let alloc = rt.alloc();
    let theory = theory(alloc)?;
    let found = modified_first(alloc, &theory);
    drop(theory);
    let found = found?;
    assert_eq!(rt; found.len(), 1);
    let first = found.get(0).ok_or("no variable")?;
    assert_eq!(rt; first.name.as_str(), "x");
    Ok(())
}

// A step without a rule.
fn gap(number: u32) -> Step
    ensures { JudgementIsSmall (judgement_of result.judgement) }
{
    let (left, right) = (Formula::True, Formula::EmptyGrove);
    let sort = Sort::Shape(DataSort::Grove);
    Step {
        number,
        line: 0,
        reason: Reason::Auto,
        judgement: Judgement::Entails(Entailment { left, right, sort }),
    }
}

// The test of that step, with this number, as the seventh of the first procedure.
fn tested(alloc: Global, theory: &Theory, number: u32) -> Result<(), ProgramFault>
    requires { 1 ≤ length theory.now.procedures }
{
    let step = gap(number);
    let answer = check_one(alloc, theory, 1, 7, &step);
    drop(step);
    answer
}

// Checks the tests of that step in the theory, which has one procedure.
fn check_tested(rt: &impl Abort, alloc: Global, theory: &Theory) -> Result<(), Fail> {
    assert!(rt; theory.procedures.len() == 1);
    assert!(rt; tested(alloc, theory, 7).is_ok());
    let kind = FileKind::Number;
    let fault = ProgramFault::BadProgram {
        procedure: 1,
        step: 7,
        kind,
    };
    assert_eq!(rt; tested(alloc, theory, 8), Err(fault));
    Ok(())
}

#[test]
fn a_step_is_tested_by_itself(rt: HostRuntime) -> Result<(), Fail> {
    let theory = theory(rt.alloc())?;
    let answer = check_tested(&rt, rt.alloc(), &theory);
    drop(theory);
    answer
}

// A step whose command does nothing, by the rule of that name.
pub(crate) fn skip_step(alloc: Global, rule: &str) -> Result<Step, OutOfMemory>
    ensures small { IfOk result (λ s. JudgementIsSmall (judgement_of s.judgement)) }
    ensures sorted { IfOk result (λ s. judgement_sorted (judgement_of s.judgement) ≡ true) }
    ensures reason { IfOk result (λ s. reason_of s.reason ≡ auto → ⊥) }
{
    let name = Text::from_str(alloc, rule)?;
    let reason = Reason::Rule {
        name,
        premises: Numbers::new(alloc),
        arguments: Terms::new(alloc),
    };
    let (pre, command, post) = (Formula::True, Command::Skip, Formula::True);
    let sort = DataSort::Grove;
    let triple = Triple {
        pre,
        command,
        post,
        sort,
    };
    Ok(Step {
        number: 1,
        line: 1,
        reason,
        judgement: Judgement::Triple(triple),
    })
}

// A theory of one procedure, which does nothing and is proved.
pub(crate) fn idle_theory(alloc: Global) -> Result<Theory, OutOfMemory>
    ensures { IfOk result (λ t. TheoryIsSmall (theory_of t)) }
{
    let mut proof = Steps::new(alloc);
    proof.push(skip_step(alloc, "skip")?)?;
    let mut procedures = Procedures::new(alloc);
    let (proof, name) = with(proof, Text::from_str(alloc, "idle"))?;
    procedures.push(Procedure {
        name,
        params: Vars::new(alloc),
        results: Vars::new(alloc),
        sort: DataSort::Grove,
        pre: Formula::True,
        post: Formula::True,
        body: Command::Skip,
        proof,
    })?;
    Ok(Theory {
        version: 1,
        logic: LogicVars::new(alloc),
        procedures,
    })
}

// The verdict on that step by the rule of that name.
fn verdict_by(alloc: Global, theory: &Theory, rule: &str) -> Result<Verdict, OutOfMemory>
    requires { TheoryIsSmall (theory_of theory.now) }
{
    let step = skip_step(alloc, rule)?;
    let verdict = check_step(alloc, theory, &[], &step);
    drop(step);
    verdict
}

// Checks that the theory is one that the program may check, and is accepted; and that a step is an
// instance of its rule, and of no other.
fn check_accepted(rt: &impl Abort, alloc: Global, theory: &Theory) -> Result<(), Fail>
    requires { TheoryIsSmall (theory_of theory.now) }
{
    check_program(alloc, theory)?;
    let counts = Accepted {
        procedures: 1,
        steps: 1,
    };
    assert_eq!(rt; check_theory(alloc, theory), Ok(counts));
    assert_eq!(rt; verdict_by(alloc, theory, "skip"), Ok(Verdict::Instance));
    assert_eq!(rt; verdict_by(alloc, theory, "assign"), Ok(Verdict::Shape));
    Ok(())
}

#[test]
fn a_theory_made_by_hand_is_accepted(rt: HostRuntime) -> Result<(), Fail> {
    let theory = idle_theory(rt.alloc())?;
    let answer = check_accepted(&rt, rt.alloc(), &theory);
    drop(theory);
    answer
}

#[test]
fn a_bool_variable_is_its_equation_with_yes(rt: HostRuntime) -> Result<(), Fail> {
    let alloc = rt.alloc();
    let name = Text::from_str(alloc, "b")?;
    let sort = ValueSort::Bool;
    let cond = Cond::Holds(ProgVar { name, sort });
    let formula = cond_formula(alloc, &cond);
    drop(cond);
    let is_equation = matches!(formula, Ok(Formula::Eq(Term::Prog(_), Term::Bool(true))));
    drop(formula);
    assert!(rt; is_equation);
    Ok(())
}

#[test]
fn both_parts_of_a_condition_are_evaluated(rt: HostRuntime) -> Result<(), Fail> {
    let alloc = rt.alloc();
    let store = Store::new(alloc);
    let least = Box::new(alloc, Cond::Le(Term::Int(2), Term::Int(1)))?;
    let (right, left) = with(least, Box::new(alloc, Cond::True))?;
    let either = Cond::Or(left, right);
    let holds = holds(alloc, &either, &store);
    drop(either);
    assert!(rt; matches!(holds, Ok(true)));
    Ok(())
}
