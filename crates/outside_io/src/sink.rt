// What a sink is, and how a whole output is written to one.
ghost use Rattle.std.specs.Prelude.{◌≡◌, ℕ, ◌<◌, ◌≤◌, List, Option, Some, length, take};
ghost use Rattle.std.specs.Prelude.{IfOk, OnOk, OnErr};
ghost use Rattle.outside_io.specs.Causes.{Rose, Told};
ghost use Rattle.outside_io.specs.Pieces.{Took, TookPrefix};

use crate::Failed;

/// What takes output.
pub trait Sink {
    /// The bytes taken so far, where the sink tells them.
    ghost taken: { Self → Option (List ℕ) };

    /// How often a put has failed.
    ghost faults: { Self → ℕ };

    /// Takes bytes from the front of `piece`, and answers how many: at least one of a piece that
    /// isn't empty. A failed put takes nothing.
    fn put(&mut self, piece: &[u8]) -> Result<usize, Failed>
        ensures bound { IfOk result (λ count. count ≤ length piece.now) }
        ensures some { IfOk result (λ count. 0 < length piece.now → 0 < count) }
        ensures bytes { IfOk result
            (λ count. Took (taken self.old) (taken self.new) (take count piece.now)) }
        ensures nothing { OnErr result (Told (taken self.old) (λ t. taken self.new ≡ Some t)) }
        ensures later { faults self.old ≤ faults self.new }
        ensures cause { OnErr result (Rose (faults self.old) (faults self.new)) };
}

/// Has the sink take all the bytes. It fails only where a put failed, and then a prefix of the
/// bytes was taken.
pub fn write_all_of<S: Sink>(sink: &mut S, bytes: &[u8]) -> Result<(), Failed>
    ensures all { OnOk result (Took (S.taken sink.old) (S.taken sink.new) bytes.now) }
    ensures prefix { OnErr result (TookPrefix (S.taken sink.old) (S.taken sink.new) bytes.now) }
    ensures later { S.faults sink.old ≤ S.faults sink.new }
    ensures cause { OnErr result (Rose (S.faults sink.old) (S.faults sink.new)) }
{
    let mut at = 0usize;
    while at < bytes.len() {
        let count = sink.put(&bytes[at..])?;
        at += count;
    }
    Ok(())
}
