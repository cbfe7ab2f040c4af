// How a run on a heap comes out.
ghost use Rattle.std.specs.Prelude.{◌≡◌, IfOk};
ghost use Rattle.heap_runner.specs.Answers.{outcome_leaving};

use dom_meaning::FaultKind;
use dom_terms::{Copied, LimitKind, OutOfMemory, Values};
use std::alloc::Global;
use theory_syntax::Command;

/// How a run on a heap came out within its fuel. The heap stands for the grove of the steps taken.
#[derive(Debug, Drop)]
pub enum HeapOutcome {
    /// Nothing is pending: the steps taken, and the values of the results in order.
    Ended {
        steps: u32,
        values: Values,
    },
    /// A command faults: why, the steps taken before, and the command.
    Fault {
        kind: FaultKind,
        steps: u32,
        command: Command,
    },
    /// The fuel is spent, with so many steps.
    Spent {
        steps: u32,
    },
    /// The next step would pass a limit.
    Limit(LimitKind),
    /// Memory was refused.
    OutOfMemory,
}

impl Copied for HeapOutcome {
    ghost use Rattle.std.specs.Prelude.{Option};
    ghost use Rattle.model_machine.specs.Machine as machine;
    ghost use Rattle.model_machine.specs.Outcomes as model;

    ghost Seen = { machine.Config → Option model.Outcome };

    ghost seen = { outcome_leaving };

    fn copy(&self, alloc: Global) -> Result<HeapOutcome, OutOfMemory>
        ensures { IfOk result (λ copied. outcome_leaving copied ≡ outcome_leaving self.now) }
    {
        match self {
            Self::Ended { steps, values } => {
                Ok(Self::Ended {
                    steps: *steps,
                    values: values.copy(alloc)?,
                })
            }
            Self::Fault {
                kind,
                steps,
                command,
            } => {
                Ok(Self::Fault {
                    kind: *kind,
                    steps: *steps,
                    command: command.copy(alloc)?,
                })
            }
            Self::Spent { steps } => Ok(Self::Spent { steps: *steps }),
            Self::Limit(kind) => Ok(Self::Limit(*kind)),
            Self::OutOfMemory => Ok(Self::OutOfMemory),
        }
    }
}
