// Libraries and sinks that fail in mid-stream, or give and take a byte at a time.
ghost use Rattle.std.specs.Prelude.{◌≡◌, ◌≤◌, ◌<◌, ℕ, List, Some, None, IfOk, OnErr, length};
ghost use Rattle.outside_io.specs.Causes.{Rose, Told};
ghost use Rattle.outside_io.specs.Pieces.{GivesPiece};
ghost use Rattle.outside_io.specs.Shelves.{shelf_faults};

use outside_io::{Failed, Library, ReadAllFault, Shelf, Sink, Tape, read_all, write_all_of};
use std::alloc::Global;
use std::test::Fail;

// A sink that takes a byte a put, so many in all, and doesn't tell them to proofs.
#[derive(Drop)]
pub(crate) struct Trickle {
    pub(crate) taken: Vec<u8>,
    room: usize,
    faults: u64,
}

impl Trickle {
    // nothing taken, and room for so many bytes
    pub(crate) fn new(alloc: Global, room: usize) -> Trickle {
        Trickle {
            taken: Vec::new(alloc),
            room,
            faults: 0,
        }
    }
}

impl Sink for Trickle {
    ghost taken = { λ _. None };

    ghost faults = { λ sink. sink.faults };

    fn put(&mut self, piece: &[u8]) -> Result<usize, Failed>
        ensures bound { IfOk result (λ count. count ≤ length piece.now) }
        ensures some { IfOk result (λ count. 0 < length piece.now → 0 < count) }
        ensures later { self.old.faults ≤ self.new.faults }
        ensures cause { OnErr result (Rose self.old.faults self.new.faults) }
    {
        let [first, ..] = piece else {
            return Ok(0);
        };
        if self.taken.len() < self.room && self.taken.push(*first).is_ok() {
            return Ok(1);
        }
        self.faults = self.faults.saturating_add(1);
        Err(Failed)
    }
}

// A library that gives a byte a fetch, and doesn't tell its books to proofs.
#[derive(Drop)]
pub(crate) struct Drip {
    pub(crate) shelf: Shelf,
}

impl Library for Drip {
    ghost book = { λ _ _. None };

    ghost faults = { λ drip. shelf_faults drip.shelf };

    fn fetch(&mut self, name: &str, at: u64, into: &mut [u8]) -> Result<usize, Failed>
        ensures bound { IfOk result (λ count. count ≤ length into.old) }
        ensures later { (other : List ℕ)
            → shelf_faults self.old.shelf other ≤ shelf_faults self.new.shelf other }
        ensures cause { OnErr result (Rose (shelf_faults self.old.shelf name.now)
            (shelf_faults self.new.shelf name.now)) }
    {
        let count = usize::min(into.len(), 1);
        self.shelf.fetch(name, at, &mut into[..count])
    }
}

#[test]
fn books_are_read_whole_or_not_at_all(rt: HostRuntime) -> Result<(), Fail> {
    let long = vec![in rt.alloc(); 7u8; 5_000]?;
    let mut shelf = Shelf::new(rt.alloc());
    shelf.add("long", &long)?;
    for (name, call, want) in [
        ("long", 4, Ok(5_000)),
        ("long", 2, Err(ReadAllFault::Failed)),
        ("missing", 4, Err(ReadAllFault::Failed)),
    ] {
        let mut shelf = shelf.copy(rt.alloc())?;
        shelf.fail_at(call)?;
        let found = read_all(rt.alloc(), &mut shelf, name).map(|bytes| bytes.len());
        assert_eq!(rt; found, want, "{name} with a failure at {call}");
    }
    Ok(())
}

#[test]
fn a_failed_put_takes_nothing(rt: HostRuntime) -> Result<(), Fail> {
    let tape = Tape::new(rt.alloc(), 6)?;
    for (text, call, want, taken) in [
        ("output", 2, Ok(()), "output"),
        ("output", 1, Err(Failed), ""),
        ("outputs", 2, Err(Failed), ""),
    ] {
        let mut tape = tape.copy(rt.alloc())?;
        tape.fail_at(call)?;
        assert_eq!(rt; write_all_of(&mut tape, text.as_bytes()), want, "{text}");
        assert_eq!(rt; tape.taken(), taken.as_bytes());
    }
    Ok(())
}
