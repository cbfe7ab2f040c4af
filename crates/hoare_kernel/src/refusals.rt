// What is answered of an accepted theory, and why another one is refused.
ghost use Rattle.std.specs.Prelude.{◌≡◌};
ghost use Rattle.hoare_kernel.specs.declared.refusals.Refusal.TheVariants as r;

use dom_terms::{OutOfMemory, Verdict};

/// How many procedures and proof steps an accepted theory has.
#[derive(Clone, Copy, Debug, PartialEq, Eq)]
pub struct Accepted {
    /// The procedures.
    pub procedures: u32,
    /// The steps of all proofs.
    pub steps: u32,
}

/// Why a theory isn't accepted, or isn't known to be: its first bad place, a step of the proof of
/// a procedure or the end of the proof, each counted from 1.
#[derive(Clone, Copy, Debug, PartialEq, Eq)]
pub enum Refusal {
    /// A step is no instance of its rule: it has this other verdict.
    Fails {
        procedure: u32,
        step: u32,
        verdict: Verdict,
    },
    /// Each step is an instance, and the last isn't the procedure's own triple.
    NoProof {
        procedure: u32,
    },
    /// A step is a gap.
    Gap {
        procedure: u32,
        step: u32,
    },
    /// Memory was refused.
    OutOfMemory,
}

impl From<OutOfMemory> for Refusal {
    ghost from_gives = { λ _ refusal. refusal ≡ r.OutOfMemory };

    fn from(_refused: OutOfMemory) -> Refusal {
        Refusal::OutOfMemory
    }
}
