// Why a piece or a context isn't put in.
ghost use Rattle.std.specs.Prelude.{◌≡◌};
ghost use Rattle.context_apply.specs.declared.faults.PlugFault.TheVariants.{OutOfMemory};

use dom_terms::OutOfMemory;

/// Why a context is not plugged, or two are not composed.
#[derive(Clone, Copy, Debug, PartialEq, Eq)]
pub enum PlugFault {
    /// A number of a node, or of a children list, would stand twice.
    Clash,
    /// Memory was refused.
    OutOfMemory,
}

impl From<OutOfMemory> for PlugFault {
    ghost from_gives = { λ _ fault. fault ≡ OutOfMemory };

    fn from(_refused: OutOfMemory) -> PlugFault {
        PlugFault::OutOfMemory
    }
}
