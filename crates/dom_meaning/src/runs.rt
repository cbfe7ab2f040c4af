// Runs within their fuel.
ghost use Rattle.std.specs.Prelude as plain;
ghost use Rattle.std.specs.Prelude.{◌≡◌, ℕ, suc, map, IfOk, MatchResult};
ghost use Rattle.model_terms.specs.Stores as stores;
ghost use Rattle.model_commands.specs.Theories.{Procedures, procedures_of};
ghost use Rattle.model_groves.specs.Picks.{Pick};
ghost use Rattle.model_files.specs.FileFaults.{IsWellFormedTheory};
ghost use Rattle.model_limits.specs.Limits.{standard_limits};
ghost use Rattle.model_machine.specs.Machine.{step, at_fault};
ghost use Rattle.model_machine.specs.Fitting.{FitsConfig};
ghost use Rattle.model_machine.specs.Outcomes.{outcome, has_fault, ends_at, first_command};
ghost use Rattle.dom_terms.specs.Terms.{prog_var_of};
ghost use Rattle.grove_data.specs.Trees.{forest_of};
ghost use Rattle.theory_syntax.specs.Theories.{theory_of};
ghost use Rattle.dom_meaning.specs.Configs.{config_of, pick_of};
ghost use Rattle.dom_meaning.specs.Faults.{fault_kind_of};
ghost use Rattle.dom_meaning.specs.Runs.{IsOutcome, IfSpent, pick_within};

use crate::configurations::{Config, Pending};
use crate::faults::{FaultKind, StepFault};
use crate::results::values_of;
use crate::steps::{StepOut, step};
use dom_terms::{Copied, LimitKind, OutOfMemory, Values};
use grove_data::{Grove, greatest_ids};
use std::alloc::Global;
use theory_syntax::{Command, Theory};

/// How a run came out within its fuel.
#[derive(Debug, Drop)]
pub enum Outcome {
    /// Nothing is pending: the steps taken, the values of the results in order, and the grove.
    Ended {
        steps: u32,
        values: Values,
        grove: Grove,
    },
    /// A command faults: why, the steps taken before, and the command.
    Fault {
        kind: FaultKind,
        steps: u32,
        command: Command,
    },
    /// The fuel is spent, and this is left.
    Spent {
        config: Config,
    },
    /// The next step would pass a limit.
    Limit(LimitKind),
    /// Memory was refused.
    OutOfMemory,
}

impl Copied for Outcome {
    ghost use Rattle.std.specs.Prelude.{List, Option};
    ghost use Rattle.model_machine.specs.Outcomes as model;
    ghost use Rattle.dom_meaning.specs.Runs.{outcome_with, results_left};

    ghost Seen = { (ℕ → Option model.Outcome) × List stores.ProgVar };

    ghost seen = { λ outcome. (outcome_with outcome, results_left outcome) };

    fn copy(&self, alloc: Global) -> Result<Outcome, OutOfMemory>
        ensures says { IfOk result (λ copied. outcome_with copied ≡ outcome_with self.now) }
        ensures left { IfOk result (λ copied. results_left copied ≡ results_left self.now) }
    {
        match self {
            Self::Ended {
                steps,
                values,
                grove,
            } => {
                let values = values.copy(alloc)?;
                Ok(Self::Ended {
                    steps: *steps,
                    values,
                    grove: grove.copy(alloc)?,
                })
            }
            Self::Fault {
                kind,
                steps,
                command,
            } => {
                Ok(Self::Fault {
                    kind: *kind,
                    steps: *steps,
                    command: command.copy(alloc)?,
                })
            }
            Self::Spent { config } => {
                Ok(Self::Spent {
                    config: config.copy(alloc)?,
                })
            }
            Self::Limit(kind) => Ok(Self::Limit(*kind)),
            Self::OutOfMemory => Ok(Self::OutOfMemory),
        }
    }
}

/// Runs the configuration for at most `fuel` steps. A new node takes one more than the greatest
/// node number, and one more than the greatest list number, of the grove. Before each step it is
/// asked, in this order, whether nothing is pending, whether the fuel is spent, and whether a limit
/// is passed: Number or Text of the terms of the first piece, then Nodes or Depth, then Identifier.
pub fn run_plain(alloc: Global, theory: &Theory, config: Config, fuel: u32) -> Outcome
    requires well_formed { IsWellFormedTheory (theory_of theory.now) }
    requires fits { FitsConfig (procedures_of (theory_of theory.now)) (config_of config) }
    ensures outcome { let results = map prog_var_of config.results in
        IsOutcome results fuel result (outcome standard_limits
        (procedures_of (theory_of theory.now)) results fuel 0 (config_of config)) }
    ensures fits { IfSpent result (FitsConfig (procedures_of (theory_of theory.now))) }
{
    let mut config = config;
    for steps in 0..fuel {
        match turned(alloc, theory, config, steps) {
            Ok(next) => config = next,
            Err(outcome) => return outcome,
        }
    }
    if config.pending.is_empty() {
        return ended(alloc, config, fuel);
    }
    Outcome::Spent { config }
}

// One step of a run: the next configuration, or how the run comes out there.
fn turned(alloc: Global, theory: &Theory, mut config: Config, steps: u32) -> Result<Config, Outcome>
    requires well_formed { IsWellFormedTheory (theory_of theory.now) }
    requires fits { FitsConfig (procedures_of (theory_of theory.now)) (config_of config) }
    ensures outcome { let procedures = procedures_of (theory_of theory.now) in
        let results = map prog_var_of config.results in
        MatchResult result
        (λ next. (fuel : ℕ)
        → outcome standard_limits procedures results (suc fuel) steps (config_of config)
        ≡ outcome standard_limits procedures results fuel (suc steps) (config_of next))
        (λ came_out. (fuel total : ℕ) → IsOutcome results total came_out
        (outcome standard_limits procedures results (suc fuel) steps (config_of config))) }
    ensures next { MatchResult result
        (λ next. FitsConfig (procedures_of (theory_of theory.now)) (config_of next))
        (λ outcome. IfSpent outcome (λ left. ⊥)) }
    ensures results { IfOk result (λ next. next.results ≡ config.results) }
{
    let pick = next_pick(&config.grove);
    match step(alloc, theory, &mut config, pick) {
        Ok(StepOut::Next) => Ok(config),
        Ok(StepOut::Done) => Err(ended(alloc, config, steps)),
        Ok(StepOut::Fault(kind)) => Err(faulted(config, kind, steps)),
        Ok(StepOut::BadPick) => Err(Outcome::Limit(LimitKind::Identifier)),
        Err(StepFault::Limit(kind)) => Err(Outcome::Limit(kind)),
        Err(StepFault::OutOfMemory) => Err(Outcome::OutOfMemory),
    }
}

// The numbers of a new node: one more than the greatest, or two zeros where one is at its limit.
fn next_pick(grove: &Grove) -> (u32, u32)
    ensures { pick_of result ≡ pick_within (forest_of grove.now) }
{
    let (node, list) = greatest_ids(grove);
    if node == u32::MAX || list == u32::MAX {
        return (0, 0);
    }
    (node + 1, list + 1)
}

// The end of a run.
fn ended(alloc: Global, config: Config, steps: u32) -> Outcome
    ensures outcome { (total : ℕ) → IsOutcome (map prog_var_of config.results) total result
        (ends_at (map prog_var_of config.results) steps (config_of config)) }
    ensures spent { IfSpent result (λ left. ⊥) }
{
    match values_of(alloc, &config.results, &config.store) {
        Ok(values) => Outcome::Ended {
            steps,
            values,
            grove: config.grove,
        },
        Err(_) => Outcome::OutOfMemory,
    }
}

// The fault of the first piece, which is a command: no other piece faults.
fn faulted(mut config: Config, kind: FaultKind, steps: u32) -> Outcome
    requires faults { (procedures : Procedures) × (pick : Pick)
        × (at_fault (fault_kind_of kind) ≡ step procedures (config_of config) pick) }
    ensures outcome { (results : plain.List stores.ProgVar) (total : ℕ)
        → IsOutcome results total result
        (has_fault (fault_kind_of kind) steps (first_command (config_of config).pending)) }
    ensures spent { IfSpent result (λ left. ⊥) }
{
    match config.pending.pop() {
        Some(Pending::Run(command)) => Outcome::Fault {
            kind,
            steps,
            command,
        },
        _ => unreachable!(),
    }
}
