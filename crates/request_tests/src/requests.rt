// The top call over a library or a sink that fails, and the calls for bytes in hand.
use crate::outside::{Drip, Trickle};
use dom_terms::{Text, Texts};
use domcheck_core::{Status, check_bytes, domcheck, fill_bytes, run_bytes, wp_bytes};
use outside_io::{Library, Shelf, Sink, Tape};
use std::alloc::Global;
use std::test::Fail;
use step_filler::Filler;

const FILE: &str = "domlogic 1
proc main() returns () sort g
requires 0g ensures 0g
body skip
proof
step 1 by skip(): pre 0g do skip post 0g at g;
end
";

// The words as the program has them.
pub(crate) fn words_of(alloc: Global, words: &[&str]) -> Result<Vec<String>, Fail> {
    let mut asked = Vec::new(alloc);
    for word in words {
        asked.push(String::from_str(alloc, word)?)?;
    }
    Ok(asked)
}

// Does what the words ask for, where the file `a` and the document `z` are at hand and a fetch call
// fails; 0 is no call.
fn answer<S: Sink>(
    alloc: Global,
    words: &[&str],
    fetch: u64,
    sink: &mut S,
) -> Result<Status, Fail> {
    let mut shelf = Shelf::new(alloc);
    shelf.add("a", FILE.as_bytes())?;
    shelf.add("z", b"0g")?;
    shelf.fail_at(fetch)?;
    let asked = words_of(alloc, words)?;
    let nobody = &mut Vec::new(alloc);
    Ok(domcheck(alloc, &asked, &mut shelf, sink, Vec::new(alloc), nobody))
}

// (the words, the fetch call and the put call that fail, the status and what is written)
#[test]
fn failures_have_a_status_of_their_own(rt: HostRuntime) -> Result<(), Fail> {
    let alloc = rt.alloc();
    let check = ["check", "a"].as_slice();
    let run = ["run", "a", "main", "z", "9"].as_slice();
    for (words, fetch, put, status, output) in [
        (
            check,
            0,
            0,
            Status::Done,
            "accepted: 1 procedures, 1 steps\n",
        ),
        (check, 2, 0, Status::ReadFault, ""),
        (check, 0, 1, Status::WriteFault, ""),
        (run, 0, 0, Status::Done, "ended after 1 steps\n0g\n"),
        (run, 3, 0, Status::ReadFault, ""),
        (run, 4, 0, Status::ReadFault, ""),
    ] {
        let mut tape = Tape::new(alloc, 100)?;
        tape.fail_at(put)?;
        assert_eq!(rt; answer(alloc, words, fetch, &mut tape)?, status);
        assert_eq!(rt; tape.taken(), output.as_bytes());
    }
    Ok(())
}

const MOVE: &str = "domlogic 1
proc move(p: node, n: node) returns () sort g
requires true ensures true
body appendChild(p, n)
proof
end
";

const TREE: &str = "[\"html\"#1[<\"a\"#2[<\"i\"#4[0f]%4>]%2>]%1]";

const MOVED: &str = "ended after 1 steps
[\"html\"#1[<\"a\"#2[0f]%2> * <\"i\"#4[0f]%4>]%1]
";

// A shelf with the file `move` and the document `tree`, of which a fetch call fails; 0 is no call.
fn shelf_failing_at(alloc: Global, fetch: u64) -> Result<Shelf, Fail> {
    let mut shelf = Shelf::new(alloc);
    shelf.add("move", MOVE.as_bytes())?;
    shelf.add("tree", TREE.as_bytes())?;
    shelf.fail_at(fetch)?;
    Ok(shelf)
}

// Moves a node of the document.
fn moved<L: Library, S: Sink>(
    alloc: Global,
    library: &mut L,
    sink: &mut S,
) -> Result<Status, Fail> {
    let asked = words_of(alloc, &["run", "move", "move", "tree", "10", "#1", "#4"])?;
    let nobody = &mut Vec::new(alloc);
    Ok(domcheck(alloc, &asked, library, sink, Vec::new(alloc), nobody))
}

// Two pieces are fetched of each book, the second of which is empty.
#[test]
fn each_fetch_and_each_put_may_fail(rt: HostRuntime) -> Result<(), Fail> {
    let alloc = rt.alloc();
    for (fetch, put, status, output) in [
        (1, 0, Status::ReadFault, ""),
        (2, 0, Status::ReadFault, ""),
        (3, 0, Status::ReadFault, ""),
        (4, 0, Status::ReadFault, ""),
        (5, 0, Status::Done, MOVED),
        (0, 1, Status::WriteFault, ""),
        (0, 2, Status::Done, MOVED),
    ] {
        let mut shelf = shelf_failing_at(alloc, fetch)?;
        let mut tape = Tape::new(alloc, 200)?;
        tape.fail_at(put)?;
        assert_eq!(rt;
            moved(alloc, &mut shelf, &mut tape)?,
            status,
            "fetch {fetch}, put {put}"
        );
        assert_eq!(rt; tape.taken(), output.as_bytes());
    }
    Ok(())
}

#[test]
fn a_byte_at_a_time_is_answered_alike(rt: HostRuntime) -> Result<(), Fail> {
    let alloc = rt.alloc();
    let shelf = shelf_failing_at(alloc, 0)?;
    let mut sink = Trickle::new(alloc, 200);
    assert_eq!(rt; moved(alloc, &mut Drip { shelf }, &mut sink)?, Status::Done);
    assert_eq!(rt; sink.taken.as_slice(), MOVED.as_bytes());
    Ok(())
}

#[test]
fn a_prefix_is_written_where_the_sink_fails(rt: HostRuntime) -> Result<(), Fail> {
    let alloc = rt.alloc();
    let mut sink = Trickle::new(alloc, 9);
    let status = answer(alloc, &["check", "a"], 0, &mut sink)?;
    assert_eq!(rt; (status, status.number()), (Status::WriteFault, 12));
    assert_eq!(rt; sink.taken.as_slice(), b"accepted:".as_slice());
    Ok(())
}

#[test]
fn bytes_in_hand_are_answered(rt: HostRuntime) -> Result<(), Fail> {
    let alloc = rt.alloc();
    let reply = check_bytes(alloc, FILE.as_bytes())?;
    assert_eq!(rt; reply.status, Status::Done);
    assert_eq!(rt; reply.output.as_str(), "accepted: 1 procedures, 1 steps\n");
    let main = Text::from_str(alloc, "main")?;
    let reply = run_bytes(alloc, FILE.as_bytes(), &main, b"0g", 9, &Texts::new(alloc))?;
    assert_eq!(rt; reply.status, Status::Done);
    assert_eq!(rt; reply.output.as_str(), "ended after 1 steps\n0g\n");
    let reply = wp_bytes(alloc, FILE.as_bytes(), &main)?;
    assert_eq!(rt; reply.status, Status::Done);
    assert_eq!(rt; reply.output.as_str(), "0g\n");
    let mut fillers: Vec<Box<dyn Filler>> = Vec::new(alloc);
    let reply = fill_bytes(alloc, FILE.as_bytes(), &mut fillers)?;
    assert_eq!(rt; reply.status, Status::Done);
    assert!(rt;
        reply
            .output
            .as_str()
            .ends_with("pre 0g do skip post 0g at g ;\nend\n")
    );
    Ok(())
}

const INC: &str = "domlogic 1
logic int $n;
proc inc(a: int) returns (b: int) sort g
requires true ensures (exists $n . b = $n)
body b := {a + 1}
proof
end
proc odd(a: int) returns (b: int) sort t
requires true ensures true
body skip
proof
end
proc two(a: int) returns (b: int) sort g
requires true ensures true
body { skip ; while a <= 0 { skip } }
proof
end
";

// (the procedure, the status and what is written)
#[test]
fn weakest_preconditions_are_printed(rt: HostRuntime) -> Result<(), Fail> {
    let alloc = rt.alloc();
    for (procedure, status, output) in [
        (
            "inc",
            Status::Done,
            "logic int $w1 ;\n( exists $w1 . ( $w1 = { a + 1 } and ( exists $n . $w1 = $n ) ) )\n",
        ),
        ("odd", Status::NotStraight, "not straight-line: sort\n"),
        (
            "two",
            Status::NotStraight,
            "not straight-line: while a <= 0 { skip }\n",
        ),
        ("none", Status::BadWords, "bad words\n"),
    ] {
        let procedure = Text::from_str(alloc, procedure)?;
        let reply = wp_bytes(alloc, INC.as_bytes(), &procedure)?;
        assert_eq!(rt; reply.status, status);
        assert_eq!(rt; reply.output.as_str(), output);
    }
    Ok(())
}
