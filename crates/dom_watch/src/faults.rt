// Why it isn't told whether a grove meets a formula.
ghost use Rattle.std.specs.Prelude.{◌≡◌};
ghost use Rattle.dom_watch.specs.declared.faults.WatchFault.TheVariants as w;

use dom_terms::{LimitKind, OutOfMemory};

/// Why it isn't told whether a grove meets a formula.
#[derive(Clone, Copy, Debug, PartialEq, Eq)]
pub enum WatchFault {
    /// A part of the formula can't be watched.
    NotWatchable {
        /// The place of the first such part, counted from 0, a formula before its parts.
        part: u32,
    },
    /// A term passes a limit, or the formula's weight does.
    Limit(LimitKind),
    /// Memory was refused.
    OutOfMemory,
}

impl From<OutOfMemory> for WatchFault {
    ghost from_gives = { λ _ fault. fault ≡ w.OutOfMemory };

    fn from(_refused: OutOfMemory) -> WatchFault {
        WatchFault::OutOfMemory
    }
}
