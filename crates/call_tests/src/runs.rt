// Runs on plain groves, which the program doesn't make: it runs on heaps.
ghost use Rattle.std.specs.Prelude.{IfOk};
ghost use Rattle.model_commands.specs.Theories.{procedures_of};
ghost use Rattle.model_files.specs.FileFaults.{IsWellFormedTheory};
ghost use Rattle.model_files.specs.Sizes.{TheoryIsSmall};
ghost use Rattle.model_machine.specs.Fitting.{FitsConfig};
ghost use Rattle.theory_syntax.specs.Theories.{theory_of};
ghost use Rattle.dom_meaning.specs.Configs.{config_of};

use dom_meaning::{Config, StepOut, run_plain, start, step};
use dom_syntax::{Theory, check_program};
use dom_terms::List;
use proof_text::read_theory;
use std::alloc::Global;
use std::process::Abort;
use std::test::Fail;
use text_tokens::token_list;

// Each command at least once.
const FILE: &str = "domlogic 2
proc main() returns (a: node, b: node, l: list, s: str, x: int) sort g
requires true ensures true
body {
  { skip ; a := createNode(\"a\") } ; call (b) := leaf() ; appendChild(a, b) ;
  local c : node {
    c := createNode(\"c\") ; insertBefore(a, c, b) ; l := childNodes(a) ; b := item(l, 0) ;
    s := nodeName(b) ; c := parentNode(b) ; if c = a { x := 5 } else { skip } ;
    while 5 <= x { removeChild(a, b) ; x := {x - 2} }
  }
}
proof end
proc leaf() returns (b: node) sort g
requires true ensures true body b := createNode(\"b\") proof end";

// What is printed where it ends: the steps after the first one, the results and the grove.
const OUTCOME: &str = "Ended { steps: 24, values: List { items: [Node(1), Node(3), List(1), \
    Str(Text { characters: \"c\" }), Int(3)] }, grove: List { items: [\
    Tree { name: Text { characters: \"a\" }, id: 1, kids: List { items: [\
    Tree { name: Text { characters: \"b\" }, id: 2, kids: List { items: [] }, list: 2 }] }, \
    list: 1 }, \
    Tree { name: Text { characters: \"c\" }, id: 3, kids: List { items: [] }, list: 3 }] } }";

// The theory of the file. It is small since few tokens spell it.
fn machine(alloc: Global) -> Result<Theory, Fail>
    ensures { IfOk result (λ t. TheoryIsSmall (theory_of t)) }
{
    let tokens = token_list(alloc, FILE.as_bytes())?;
    if 1_000 < tokens.len() {
        return Err(Fail::from("many tokens"));
    }
    Ok(read_theory(alloc, &tokens)?)
}

// The first procedure on an empty grove.
fn begun(alloc: Global, theory: &Theory) -> Result<Config, Fail>
    requires { IsWellFormedTheory (theory_of theory.now) }
    ensures { IfOk result (λ c. FitsConfig (procedures_of (theory_of theory.now)) (config_of c)) }
{
    let first = theory.procedures.get(0).ok_or("no procedure")?;
    if !first.params.is_empty() {
        return Err(Fail::from("parameters"));
    }
    Ok(start(alloc, theory, 0, List::new(alloc), List::new(alloc))?)
}

// What is printed of the outcome of the run from there, whose first step is taken by itself.
fn came_out(rt: &impl Abort, alloc: Global, theory: &Theory) -> Result<String, Fail>
    requires { TheoryIsSmall (theory_of theory.now) }
{
    check_program(alloc, theory)?;
    let mut config = begun(alloc, theory)?;
    assert_eq!(rt; step(alloc, theory, &mut config, (1, 1)), Ok(StepOut::Next));
    let outcome = run_plain(alloc, theory, config, 100);
    let printed = format!(in alloc; "{outcome:?}");
    drop(outcome);
    Ok(printed?)
}

#[test]
fn each_command_is_run_on_a_plain_grove(rt: HostRuntime) -> Result<(), Fail> {
    let theory = machine(rt.alloc())?;
    let printed = came_out(&rt, rt.alloc(), &theory);
    drop(theory);
    assert_eq!(rt; printed?.as_str(), OUTCOME);
    Ok(())
}
