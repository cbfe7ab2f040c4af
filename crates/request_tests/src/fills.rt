// Fillers that are handed in: what isn't usable is passed over, and want of memory is passed on.
ghost use Rattle.std.specs.Prelude.{◌≡◌, IfOk, None, Some, map};
ghost use Rattle.theory_syntax.specs.Judgements.{step_of};

use crate::requests::words_of;
use dom_terms::{Copied, OutOfMemory};
use domcheck_core::{Status, domcheck};
use outside_io::{Shelf, Tape};
use proof_text::read_theory;
use std::alloc::Global;
use std::test::Fail;
use step_filler::{Conj, Filler, Spot, Tidy};
use text_tokens::token_list;
use theory_syntax::{Block, Command, Judgement, Step, Steps};

// Offers the same steps whatever is asked.
#[derive(Drop)]
struct Fixed {
    turn: u64,
    steps: Steps,
}

impl Filler for Fixed {
    ghost turn = { λ filler. filler.turn };

    ghost offers = { λ filler turn number judgement earlier. Some (map step_of filler.steps) };

    fn propose(
        &mut self,
        alloc: Global,
        _number: u32,
        _judgement: &Judgement,
        _earlier: &[Step],
    ) -> Result<Option<Steps>, OutOfMemory> {
        let steps = self.steps.copy(alloc)?;
        self.turn = self.turn.saturating_add(1);
        Ok(Some(steps))
    }
}

// Answers that memory was refused.
#[derive(Drop)]
struct Refusing {
    turn: u64,
}

impl Filler for Refusing {
    ghost turn = { λ filler. filler.turn };

    ghost offers = { λ filler turn number judgement earlier. None };

    fn propose(
        &mut self,
        _alloc: Global,
        _number: u32,
        _judgement: &Judgement,
        _earlier: &[Step],
    ) -> Result<Option<Steps>, OutOfMemory> {
        Err(OutOfMemory)
    }
}

const SAME: &str = "domlogic 1
proc same() returns () sort g
requires 0g ensures (0g + 0g)
body skip
proof
step 1 by skip(): pre 0g do skip post 0g at g;
step 2 by id(): 0g entails 0g at g;
step 3 auto: 0g entails (0g + 0g) at g;
step 4 by consequence(2, 1, 3): pre 0g do skip post (0g + 0g) at g;
end
";

// The most bytes of steps that are read.
const MOST_BYTES: usize = 1_000_000;

const GAP: &str = "step 3 of same, line 8: gap\n";

// The status of `fill` on that file with these fillers, and what is written.
fn fill(alloc: Global, fillers: Vec<Box<dyn Filler>>, tape: &mut Tape) -> Result<Status, Fail> {
    let mut shelf = Shelf::new(alloc);
    shelf.add("same", SAME.as_bytes())?;
    let asked = words_of(alloc, &["fill", "same"])?;
    let nobody = &mut Vec::new(alloc);
    Ok(domcheck(alloc, &asked, &mut shelf, tape, fillers, nobody))
}

// The steps that are spelled so, as those of a proof.
fn steps_in(alloc: Global, spelled: &str) -> Result<Steps, Fail> {
    let mut text = String::from_str(alloc, "domlogic 1 proc p() returns () sort g requires 0g ")?;
    text.push_str("ensures 0g body skip proof ")?;
    text.push_str(spelled)?;
    text.push_str(" end")?;
    let bytes = text.as_bytes();
    if bytes.len() > MOST_BYTES {
        return Err("too long".into());
    }
    let tokens = token_list(alloc, bytes)?;
    let theory = read_theory(alloc, &tokens)?;
    let procedure = theory.procedures.get(0).ok_or("no procedure")?;
    let steps = procedure.proof.copy(alloc)?;
    drop(theory);
    Ok(steps)
}

// The steps of a proof of a block without commands, which no text spells, and then what is asked.
fn after_nothing(alloc: Global) -> Result<Steps, Fail> {
    let mut steps = steps_in(
        alloc,
        "step 3 by absurd(): pre false do skip post 0g at g;
        step 4 by plus_unit_back(): 0g entails (0g + 0g) at g;",
    )?;
    let (Some(last), Some(mut first)) = (steps.pop(), steps.pop()) else {
        return Err("no steps".into());
    };
    if let Judgement::Triple(triple) = &mut first.judgement {
        triple.command = Command::Block(Block::new(alloc));
    }
    steps.push(first)?;
    steps.push(last)?;
    Ok(steps)
}

// One step more than an offer may have, each of them an instance.
fn too_many(alloc: Global) -> Result<Steps, Fail> {
    let mut steps = Steps::new(alloc);
    for number in 3..=10_003 {
        let mut one = steps_in(
            alloc,
            "step 3 by plus_unit_back(): 0g entails (0g + 0g) at g;",
        )?;
        let Some(mut step) = one.pop() else {
            return Err("no step".into());
        };
        step.number = number;
        steps.push(step)?;
    }
    Ok(steps)
}

// (what a filler in front of the assistants offers; none of it is usable)
const WRONG: [&str; 5] = [
    "step 3 auto: 0g entails (0g + 0g) at g;",
    "step 3 by cut(3, 3): 0g entails (0g + 0g) at g;",
    "step 3 by id(): $x entails $x at g;
    step 4 by plus_unit_back(): 0g entails (0g + 0g) at g;",
    "step 4 by plus_unit_back(): 0g entails (0g + 0g) at g;",
    "",
];

// The status where Tidy alone fills the file, and what is written.
fn fill_alone(alloc: Global, tape: &mut Tape) -> Result<Status, Fail> {
    let mut fillers: Vec<Box<dyn Filler>> = Vec::new(alloc);
    fillers.push(Box::new(alloc, Tidy::new())?)?;
    fill(alloc, fillers, tape)
}

// The same with a filler in front of Tidy that offers these steps.
fn fill_with(alloc: Global, steps: Steps, tape: &mut Tape) -> Result<Status, Fail> {
    let mut fillers: Vec<Box<dyn Filler>> = Vec::new(alloc);
    fillers.push(Box::new(alloc, Fixed { turn: 0, steps })?)?;
    fillers.push(Box::new(alloc, Tidy::new())?)?;
    fill(alloc, fillers, tape)
}

// Whether what is offered is passed over: both come to the same.
fn is_passed_over(alloc: Global, steps: Steps) -> Result<bool, Fail> {
    let mut wanted = Tape::new(alloc, 10_000)?;
    let mut found = Tape::new(alloc, 10_000)?;
    let done = fill_alone(alloc, &mut wanted)? == Status::Done;
    let same = fill_with(alloc, steps, &mut found)? == Status::Done;
    Ok(done && same && found.taken() == wanted.taken())
}

#[test]
fn what_is_not_usable_is_passed_over(rt: HostRuntime) -> Result<(), Fail> {
    let alloc = rt.alloc();
    for spelled in WRONG {
        let steps = steps_in(alloc, spelled)?;
        assert!(rt; is_passed_over(alloc, steps)?, "{spelled}");
    }
    let steps = after_nothing(alloc)?;
    assert!(rt; is_passed_over(alloc, steps)?, "a block without commands");
    let steps = too_many(alloc)?;
    assert!(rt; is_passed_over(alloc, steps)?, "too many steps");
    Ok(())
}

#[test]
fn what_is_usable_is_taken_from_the_first(rt: HostRuntime) -> Result<(), Fail> {
    let alloc = rt.alloc();
    let steps = steps_in(
        alloc,
        "step 3 by plus_unit_back(): 0g entails (0g + 0g) at g;",
    )?;
    let mut tape = Tape::new(alloc, 10_000)?;
    let status = fill_with(alloc, steps, &mut tape)?;
    assert_eq!(rt; status, Status::Done);
    assert!(rt; tape.taken().ends_with(b"( 0g + 0g ) at g ;\nend\n"));
    assert!(rt; tape.taken().len() < 400);
    Ok(())
}

#[test]
fn a_gap_is_left_where_nobody_fills_it(rt: HostRuntime) -> Result<(), Fail> {
    let alloc = rt.alloc();
    let mut tape = Tape::new(alloc, 10_000)?;
    assert_eq!(rt; fill(alloc, Vec::new(alloc), &mut tape)?, Status::GapLeft);
    assert_eq!(rt; tape.taken(), GAP.as_bytes());
    let mut tape = Tape::new(alloc, 10_000)?;
    let mut fillers: Vec<Box<dyn Filler>> = Vec::new(alloc);
    fillers.push(Box::new(alloc, Conj::new())?)?;
    fillers.push(Box::new(alloc, Spot::new())?)?;
    assert_eq!(rt; fill(alloc, fillers, &mut tape)?, Status::GapLeft);
    assert_eq!(rt; tape.taken(), GAP.as_bytes());
    Ok(())
}

#[test]
fn want_of_memory_of_a_filler_is_passed_on(rt: HostRuntime) -> Result<(), Fail> {
    let alloc = rt.alloc();
    let mut tape = Tape::new(alloc, 10_000)?;
    let mut fillers: Vec<Box<dyn Filler>> = Vec::new(alloc);
    fillers.push(Box::new(alloc, Refusing { turn: 0 })?)?;
    fillers.push(Box::new(alloc, Tidy::new())?)?;
    assert_eq!(rt; fill(alloc, fillers, &mut tape)?, Status::OutOfMemory);
    assert!(rt; tape.taken().is_empty());
    Ok(())
}
