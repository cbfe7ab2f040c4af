// Verdicts on steps, and what evaluation answers where it gives no value.
ghost use Rattle.std.specs.Prelude.{◌≡◌};
ghost use Rattle.dom_terms.specs.declared.verdicts.EvalFault.TheVariants.{OutOfMemory};

use crate::memory::OutOfMemory;

/// Why a term has no value.
#[derive(Clone, Copy, Debug, PartialEq, Eq)]
pub enum EvalFault {
    /// An integer leaves 64 bits.
    NumberRange,
    /// A text passes the limit on texts.
    TextLimit,
    /// Memory was refused.
    OutOfMemory,
}

impl From<OutOfMemory> for EvalFault {
    ghost from_gives = { λ _ fault. fault ≡ OutOfMemory };

    fn from(_refused: OutOfMemory) -> EvalFault {
        EvalFault::OutOfMemory
    }
}

/// A side condition of a rule.
#[derive(Clone, Copy, Debug, PartialEq, Eq)]
pub enum SideName {
    /// A variable isn't free in a formula.
    Free,
    /// Two terms are different literals.
    Literal,
    /// Each coefficient is in range, and not negative for an inequality.
    Coefficient,
    /// The sum of the comparisons gives the conclusion.
    Sum,
    /// Two texts have the same pieces in order.
    Texts,
    /// A formula is pure.
    Pure,
    /// A command changes no program variable of a formula or a term.
    Modified,
    /// The variable that is assigned stands in no other part of the axiom.
    Assigned,
}

/// Whether a step is an instance of its rule.
#[derive(Clone, Copy, Debug, PartialEq, Eq)]
pub enum Verdict {
    /// It is an instance.
    Instance,
    /// The conclusion fits the rule, and the cited steps are not its premises.
    Premises,
    /// The conclusion does not fit the rule.
    Shape,
    /// The conclusion and the premises fit, and this is the first side condition that cannot hold.
    Side(SideName),
}
