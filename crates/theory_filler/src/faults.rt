// Why no filled theory is handed out.
ghost use Rattle.std.specs.Prelude.{◌≡◌};
ghost use Rattle.theory_filler.specs.declared.faults.FillFault.TheVariants as f;

use dom_terms::{LimitKind, OutOfMemory, Verdict};

/// Why no filled theory is handed out: the first place that fails, a step of the proof of a
/// procedure or the end of the proof, each counted from 1 in the theory handed in; or a limit.
#[derive(Clone, Copy, Debug, PartialEq, Eq)]
pub enum FillFault {
    /// A written step, renumbered, is no instance of its rule: it has this other verdict.
    Fails {
        procedure: u32,
        step: u32,
        verdict: Verdict,
    },
    /// Each step is filled or an instance, and the last isn't the procedure's own triple.
    NoProof {
        procedure: u32,
    },
    /// Nobody offers something usable for a gap.
    Gap {
        procedure: u32,
        step: u32,
    },
    /// The filled theory passes this limit.
    Limit(LimitKind),
    /// Memory was refused.
    OutOfMemory,
}

impl From<OutOfMemory> for FillFault {
    ghost from_gives = { λ _ fault. fault ≡ f.OutOfMemory };

    fn from(_refused: OutOfMemory) -> FillFault {
        FillFault::OutOfMemory
    }
}
