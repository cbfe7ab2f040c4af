// A trace that two observers are told.
use crate::requests::words_of;
use domcheck_core::{Status, domcheck};
use outside_io::{Shelf, Tape};
use run_trace::{Observer, Tally};
use std::test::Fail;

const GROW: &str = "domlogic 1
proc grow(n: int) returns (r: node) sort g
requires true ensures true
body local k : int { local c : node { r := createNode(\"r\") ; k := 1 ;
while (not n <= k) { c := createNode(\"c\") ; appendChild(r, c) ; k := {k + 1} } } }
proof
end
";

const TOLD: &str = "5 created #1 %1
9 created #2 %2
10 moved #2 from root to #1
fuel spent after 12 steps
created 2, moved 1, removed 0
created 2, moved 1, removed 0
";

// Each says in its line what it was told, after the lines of the changes and of the run.
#[test]
fn each_observer_is_told_the_changes(rt: HostRuntime) -> Result<(), Fail> {
    let alloc = rt.alloc();
    let mut shelf = Shelf::new(alloc);
    shelf.add("grow", GROW.as_bytes())?;
    shelf.add("z", b"0g")?;
    let mut observers: Vec<Box<dyn Observer>> = Vec::new(alloc);
    observers.push(Box::new(alloc, Tally::new())?)?;
    observers.push(Box::new(alloc, Tally::new())?)?;
    let mut tape = Tape::new(alloc, 300)?;
    let words = words_of(alloc, &["trace", "grow", "grow", "z", "12", "3"])?;
    let fillers = Vec::new(alloc);
    let status = domcheck(
        alloc,
        &words,
        &mut shelf,
        &mut tape,
        fillers,
        &mut observers,
    );
    assert_eq!(rt; status, Status::FuelSpent);
    assert_eq!(rt; tape.taken(), TOLD.as_bytes());
    Ok(())
}
