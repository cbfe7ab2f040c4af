// A copy of a value of each type, through the bound that gives it.
use crate::formulas::{logic, program};
use crate::groves::{document, leaf};
use crate::terms::integer;
use context_apply::{Piece, cut_at};
use dom_meaning::{Config, FaultKind, Outcome, Pending, Pieces};
use dom_terms::{Cond, Copied, DataSort, List, Sort, Store, Text, Value, Values, Verdict, with};
use fault_report::Report;
use formula_syntax::{AnyVar, Entailment, Formula, Pair};
use heap_runner::HeapOutcome;
use logic_text::read_grove;
use node_heap::NoNumber;
use proof_text::read_theory;
use request_words::Request;
use std::alloc::Global;
use std::fmt::Debug;
use std::process::Abort;
use std::test::Fail;
use text_tokens::token_list;
use theory_syntax::{Command, Judgement};

// Checks that a copy of the value prints as the value does. The value is let go here, where its
// type is a parameter: in its caller a proof would go through each of its shapes.
fn check_copy<T: Copied + Debug>(rt: &impl Abort, alloc: Global, value: T) -> Result<(), Fail> {
    let copied = format!(in alloc; "{:?}", value.copy(alloc)?)?;
    let want = format!(in alloc; "{value:?}")?;
    assert_eq!(rt; copied.as_str(), want.as_str());
    Ok(())
}

const FILE: &str = "domlogic 1
proc f(a: int, s: str) returns (x: int) sort g requires {a + 1} = 2 ensures (x = 2 and true)
body { skip ; x := {a - -1} }
proof step 1 by assign(7, 8) with ({s ++ \"t\"}): pre 0g do x := 3 post true at g; end";

#[test]
fn files_are_copied(rt: HostRuntime) -> Result<(), Fail> {
    let alloc = rt.alloc();
    let tokens = token_list(alloc, FILE.as_bytes())?;
    check_copy(&rt, alloc, read_theory(alloc, &tokens)?)
}

#[test]
fn documents_are_copied(rt: HostRuntime) -> Result<(), Fail> {
    let alloc = rt.alloc();
    let tokens = token_list(alloc, b"[\"a\"#0[<\"b\"#2[0f]%3>]%4294967296]")?;
    check_copy(&rt, alloc, read_grove(alloc, &tokens)?)?;
    check_copy(&rt, alloc, tokens)
}

#[test]
fn formulas_are_copied(rt: HostRuntime) -> Result<(), Fail> {
    let alloc = rt.alloc();
    let left = Formula::Len(program(alloc, "a")?);
    let right = Formula::EmptyForest;
    let sort = Sort::Shape(DataSort::Forest);
    check_copy(
        &rt,
        alloc,
        Judgement::Entails(Entailment { left, right, sort }),
    )?;
    let (var, term) = with(logic(alloc, "$m")?, program(alloc, "b"))?;
    let var = AnyVar::Logic(var);
    check_copy(&rt, alloc, Pair { var, term })
}

#[test]
fn groves_and_contexts_are_copied(rt: HostRuntime) -> Result<(), Fail> {
    let alloc = rt.alloc();
    let grove = document(alloc)?;
    let (context, cut) = cut_at(alloc, &grove, 3)?.ok_or("no tree")?;
    check_copy(&rt, alloc, context)?;
    check_copy(&rt, alloc, Piece::Tree(cut))?;
    check_copy(&rt, alloc, Piece::Grove(grove))
}

// the pieces of each kind
fn pieces(alloc: Global) -> Result<Pieces, Fail> {
    let nothing = Pending::Return(Store::new(alloc), List::new(alloc), List::new(alloc));
    let mut pending = List::new(alloc);
    pending.push(nothing)?;
    let (variable, text) = with(integer(alloc, "y")?, Text::from_str(alloc, "é"))?;
    pending.push(Pending::Restore(variable, Value::Str(text)))?;
    let (left, right) = with(program(alloc, "x")?, program(alloc, "y"))?;
    let looped = Command::While(Cond::Le(left, right), List::new(alloc));
    pending.push(Pending::Run(looped))?;
    Ok(pending)
}

#[test]
fn configurations_are_copied(rt: HostRuntime) -> Result<(), Fail> {
    let alloc = rt.alloc();
    let mut store = Store::new(alloc);
    store.set(integer(alloc, "x")?, Value::Int(-2))?;
    let mut results = List::new(alloc);
    results.push(integer(alloc, "r")?)?;
    let config = Config {
        pending: pieces(alloc)?,
        store,
        grove: leaf(alloc, "a", 1)?,
        results,
    };
    check_copy(&rt, alloc, config)
}

// a text and an integer
fn values(alloc: Global) -> Result<Values, Fail> {
    let mut values = List::new(alloc);
    values.push(Value::Str(Text::from_str(alloc, "é")?))?;
    values.push(Value::Int(7))?;
    Ok(values)
}

// a command with a variable and a term
fn assigning(alloc: Global) -> Result<Command, Fail> {
    let (variable, term) = with(integer(alloc, "x")?, program(alloc, "y"))?;
    Ok(Command::Assign(variable, term))
}

#[test]
fn outcomes_are_copied(rt: HostRuntime) -> Result<(), Fail> {
    let alloc = rt.alloc();
    let (values, grove) = with(values(alloc)?, leaf(alloc, "a", 1))?;
    let steps = 3;
    let ended = Outcome::Ended {
        steps,
        values,
        grove,
    };
    check_copy(&rt, alloc, ended)?;
    let command = assigning(alloc)?;
    let fault = Outcome::Fault {
        kind: FaultKind::NoList,
        steps: 2,
        command,
    };
    check_copy(&rt, alloc, fault)
}

#[test]
fn outcomes_on_heaps_are_copied(rt: HostRuntime) -> Result<(), Fail> {
    let alloc = rt.alloc();
    let values = values(alloc)?;
    check_copy(&rt, alloc, HeapOutcome::Ended { steps: 3, values })?;
    let command = assigning(alloc)?;
    let fault = HeapOutcome::Fault {
        kind: FaultKind::Cycle,
        steps: 2,
        command,
    };
    check_copy(&rt, alloc, fault)
}

#[test]
fn refused_names_are_copied(rt: HostRuntime) -> Result<(), Fail> {
    let alloc = rt.alloc();
    let name = Text::from_str(alloc, "div")?;
    check_copy(&rt, alloc, NoNumber { name })
}

#[test]
fn requests_are_copied(rt: HostRuntime) -> Result<(), Fail> {
    let alloc = rt.alloc();
    let mut arguments = List::new(alloc);
    arguments.push(Text::from_str(alloc, "#1")?)?;
    let run = Request::Run {
        file: Text::from_str(alloc, "a.dl")?,
        procedure: Text::from_str(alloc, "main")?,
        document: Text::from_str(alloc, "z")?,
        fuel: 9,
        arguments,
    };
    check_copy(&rt, alloc, run)
}

#[test]
fn reports_are_copied(rt: HostRuntime) -> Result<(), Fail> {
    let alloc = rt.alloc();
    let (procedure, rule) = (Text::from_str(alloc, "f")?, Text::from_str(alloc, "seq")?);
    let failure = Report::StepFails {
        step: 3,
        procedure,
        line: 7,
        rule,
        verdict: Verdict::Shape,
    };
    check_copy(&rt, alloc, failure)?;
    let command = assigning(alloc)?;
    let fault = Report::Faulted {
        kind: FaultKind::SelfRef,
        steps: 2,
        command,
    };
    check_copy(&rt, alloc, fault)
}
