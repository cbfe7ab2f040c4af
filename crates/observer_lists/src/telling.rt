// Observers are told what a run changes.
ghost use Rattle.std.specs.Prelude.{◌≡◌, ◌++◌, ℕ, map, take, drop, OnOk, OnErr};
ghost use Rattle.run_trace.specs.Changes.{change_of};
ghost use Rattle.run_trace.specs.Listeners.{listeners_of, told};

use dom_terms::OutOfMemory;
use run_trace::{Change, Observer};
use std::alloc::Global;

/// Tells each observer the change, in their order. Where memory is refused those before one were
/// told.
pub fn tell_each<O: Observer>(
    alloc: Global,
    observers: &mut Vec<O>,
    change: &Change,
) -> Result<(), OutOfMemory>
    ensures told { OnOk result (listeners_of O.face O.after O.says observers.new.items
        ≡ map (told (change_of change.now))
        (listeners_of O.face O.after O.says observers.old.items)) }
    ensures some { OnErr result ((n : ℕ) × (listeners_of O.face O.after O.says observers.new.items
        ≡ map (told (change_of change.now))
        (take n (listeners_of O.face O.after O.says observers.old.items))
        ++ drop n (listeners_of O.face O.after O.says observers.old.items))) }
{
    for i in 0..observers.len() {
        observers[i].tell(alloc, change)?;
    }
    Ok(())
}
