// The kinds of faults, and why a step is refused.
ghost use Rattle.std.specs.Prelude.{◌≡◌};
ghost use Rattle.dom_meaning.specs.Faults.{step_fault_of};
ghost use Rattle.dom_meaning.specs.declared.faults.StepFault.TheVariants as s;
ghost use Rattle.dom_meaning.specs.declared.faults.MoveFault.TheVariants as m;

use dom_terms::{EvalFault, LimitKind, OutOfMemory};

/// Why a command faults.
#[derive(Clone, Copy, Debug, PartialEq, Eq)]
pub enum FaultKind {
    /// There is no such node.
    NoNode,
    /// There is no such children list.
    NoList,
    /// The node would stand below itself.
    Cycle,
    /// The node is no child of the other.
    NotChild,
    /// The node would stand before itself.
    SelfRef,
}

/// Why a step is not taken. The configuration is then as it was.
#[derive(Clone, Copy, Debug, PartialEq, Eq)]
pub enum StepFault {
    /// It would pass a limit.
    Limit(LimitKind),
    /// Memory was refused.
    OutOfMemory,
}

/// Why a tree isn't moved. The document is then as it was.
#[derive(Clone, Copy, Debug, PartialEq, Eq)]
pub enum MoveFault {
    /// The command faults.
    Fault(FaultKind),
    /// Memory was refused.
    OutOfMemory,
}

/// What came of a node that was to be made.
#[derive(Clone, Copy, Debug, PartialEq, Eq)]
pub enum Creation {
    /// It was made.
    Made {
        /// Its number.
        node: u32,
        /// The number of its list of children.
        list: u32,
    },
    /// A number of the pick is 0 or in use.
    BadPick,
}

impl From<OutOfMemory> for MoveFault {
    ghost from_gives = { λ _ fault. fault ≡ m.OutOfMemory };

    fn from(_refused: OutOfMemory) -> MoveFault {
        MoveFault::OutOfMemory
    }
}

impl From<OutOfMemory> for StepFault {
    ghost from_gives = { λ _ fault. fault ≡ s.OutOfMemory };

    fn from(_refused: OutOfMemory) -> StepFault {
        StepFault::OutOfMemory
    }
}

impl From<EvalFault> for StepFault {
    ghost from_gives = { λ refused fault. fault ≡ step_fault_of refused };

    fn from(refused: EvalFault) -> StepFault {
        match refused {
            EvalFault::NumberRange => StepFault::Limit(LimitKind::Number),
            EvalFault::TextLimit => StepFault::Limit(LimitKind::Text),
            EvalFault::OutOfMemory => StepFault::OutOfMemory,
        }
    }
}
