// The sink in memory.
ghost use Rattle.std.specs.Prelude.{◌≡◌, ◌↔◌, ◌≤◌, ◌++◌, ◌<◌, take, Some, [], ◌∷◌, length};
ghost use Rattle.std.specs.Prelude.{IsErr, IfOk, OnOk, OnErr};
ghost use Rattle.outside_io.specs.Causes.{next_count, Rose, Told};
ghost use Rattle.outside_io.specs.Pieces.{Took};
ghost use Rattle.outside_io.specs.Tapes.{PutFails};

use crate::{Failed, Sink};
use std::alloc::{AllocError, Global};
use std::marker::Model;

/// Output in memory, which it tells, and the puts that fail.
#[derive(Drop)]
pub struct Tape {
    buffer: Vec<u8>,
    len: usize,
    calls: u64,
    failing: Vec<u64>,
    faults: u64,
}

impl Model for Tape {
    ghost use Rattle.std.specs.Prelude.{◌≤◌, length, take};
    ghost use Rattle.outside_io.specs.Tapes.{TapeState};

    ghost Value = { TapeState };

    ghost view = { λ t. record {
      taken = take t.len t.buffer.items;
      room = length t.buffer.items;
      calls = t.calls;
      failing = t.failing.items;
      faults = t.faults;
    } };

    ghost invariant = { λ t. t.len ≤ length t.buffer.items };
}

impl Tape {
    /// Nothing taken, no put that fails, and the memory for so many bytes.
    pub fn new(alloc: Global, room: usize) -> Result<Tape, AllocError>
        ensures { IfOk result (λ tape. tape ≡
            record { taken = []; room = room; calls = 0; failing = []; faults = 0 }) }
    {
        Ok(Tape {
            buffer: vec![in alloc; 0u8; room]?,
            len: 0,
            calls: 0,
            failing: Vec::new(alloc),
            faults: 0,
        })
    }

    /// Has a put call fail, counted from 1.
    pub fn fail_at(&mut self, call: u64) -> Result<(), AllocError>
        ensures ok { OnOk result
            (self.new ≡ record self.old { failing = self.old.failing ++ call ∷ [] }) }
        ensures err { OnErr result (self.new ≡ self.old) }
    {
        self.failing.push(call)?;
        Ok(())
    }

    /// The bytes taken.
    pub fn taken(&self) -> &[u8]
        ensures { result.now ≡ self.now.taken }
    {
        &self.buffer[..self.len]
    }

    /// An equal tape with its own memory.
    pub fn copy(&self, alloc: Global) -> Result<Self, AllocError>
        ensures { IfOk result (λ tape. tape ≡ self.now) }
    {
        Ok(Tape {
            buffer: Vec::from_slice(alloc, &self.buffer)?,
            len: self.len,
            calls: self.calls,
            failing: Vec::from_slice(alloc, &self.failing)?,
            faults: self.faults,
        })
    }
}

impl Sink for Tape {
    ghost taken = { λ tape. Some tape.taken };

    ghost faults = { λ tape. tape.faults };

    fn put(&mut self, piece: &[u8]) -> Result<usize, Failed>
        // What every sink promises.
        ensures bound { IfOk result (λ count. count ≤ length piece.now) }
        ensures some { IfOk result (λ count. 0 < length piece.now → 0 < count) }
        ensures bytes { IfOk result
            (λ count. Took (Some self.old.taken) (Some self.new.taken) (take count piece.now)) }
        ensures nothing { OnErr result
            (Told (Some self.old.taken) (λ t. Some self.new.taken ≡ Some t)) }
        ensures later { self.old.faults ≤ self.new.faults }
        ensures cause { OnErr result (Rose self.old.faults self.new.faults) }

        // Which put fails, that the others take the whole piece, and that all else stays.
        ensures fails { IsErr result ↔ PutFails self.old (length piece.now) }
        ensures whole { IfOk result (λ count. count ≡ length piece.now) }
        ensures ok { let taken = self.old.taken ++ piece.now in
            let calls = next_count self.old.calls in
            OnOk result (self.new ≡ record self.old { taken = taken; calls = calls }) }
        ensures err { let calls = next_count self.old.calls in
            let faults = next_count self.old.faults in
            OnErr result (self.new ≡ record self.old { calls = calls; faults = faults }) }
    {
        self.calls = self.calls.saturating_add(1);
        let left = self.buffer.len() - self.len;
        if self.failing.contains(&self.calls) || piece.len() > left {
            self.faults = self.faults.saturating_add(1);
            return Err(Failed);
        }
        let end = self.len + piece.len();
        self.buffer[self.len..end].copy_from_slice(piece);
        self.len = end;
        Ok(piece.len())
    }
}
