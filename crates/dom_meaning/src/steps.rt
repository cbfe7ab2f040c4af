// One step of the machine.
ghost use Rattle.std.specs.Prelude as plain;
ghost use Rattle.std.specs.Prelude.{◌≡◌, ◌≢◌, ◌<◌, [], ◌∷◌, ◌++◌, length, Ok, IfOk, OnOk, OnErr};
ghost use Rattle.model_commands.specs.Theories.{procedures_of};
ghost use Rattle.model_files.specs.FileFaults.{IsWellFormedTheory};
ghost use Rattle.model_machine.specs.Machine as model;
ghost use Rattle.model_machine.specs.Fitting.{FitsConfig};
ghost use Rattle.model_machine.specs.Outcomes.{limit_ahead};
ghost use Rattle.model_limits.specs.Limits.{standard_limits};
ghost use Rattle.dom_terms.specs.Stores.{store_of};
ghost use Rattle.grove_data.specs.Trees.{forest_of};
ghost use Rattle.theory_syntax.specs.Theories.{theory_of};
ghost use Rattle.dom_meaning.specs.Configs.{config_of, piece_of, pieces_in, pick_of};
ghost use Rattle.dom_meaning.specs.Faults.{TellsLimit};
ghost use Rattle.dom_meaning.specs.Plans.{pieces_after, store_after, FitsStores};
ghost use Rattle.dom_meaning.specs.Steps.{answer_of};
ghost use Rattle.dom_meaning.specs.declared.steps.StepOut.TheVariants.{Next};

use crate::configurations::{Config, Pending};
use crate::faults::{FaultKind, StepFault};
use crate::pieces::{drop_first, replace_first};
use crate::plain::Picked;
use crate::plans::{Change, Plan, planned};
use dom_terms::{List, OutOfMemory};
use std::alloc::Global;
use std::mem::replace;
use theory_syntax::Theory;

/// What a step came to.
#[derive(Clone, Copy, Debug, PartialEq, Eq)]
pub enum StepOut {
    /// The configuration is the next one.
    Next,
    /// Nothing is pending.
    Done,
    /// The first piece faults.
    Fault(FaultKind),
    /// The first piece is a createNode, and a number of the pick is 0 or in use.
    BadPick,
}

/// Takes one step, with the numbers that a new node and its list are given. Limit comes exactly
/// where the step would pass one: Number or Text of the terms of the first piece, and then Nodes or
/// Depth; Identifier never comes. A limit is tested before a fault or a bad pick. After every
/// answer but Next the configuration is as it was.
pub fn step(
    alloc: Global,
    theory: &Theory,
    config: &mut Config,
    pick: (u32, u32),
) -> Result<StepOut, StepFault>
    requires well_formed { IsWellFormedTheory (theory_of theory.now) }
    requires fits { FitsConfig (procedures_of (theory_of theory.now)) (config_of config.old) }
    ensures step { IfOk result (λ out. answer_of out (config_of config.new)
        ≡ model.step (procedures_of (theory_of theory.now)) (config_of config.old) (pick_of pick)) }
    ensures limit { TellsLimit result (limit_ahead standard_limits (config_of config.old)) }
    ensures unchanged { result ≢ Ok Next → config.new ≡ config.old }
    ensures results { config.new.results ≡ config.old.results }
    ensures fits { FitsConfig (procedures_of (theory_of theory.now)) (config_of config.new) }
{
    stepped(alloc, theory, config, pick)
}

// The same. That the next configuration fits is no matter of it: each step of the machine leads to
// one that does.
fn stepped(
    alloc: Global,
    theory: &Theory,
    config: &mut Config,
    pick: (u32, u32),
) -> Result<StepOut, StepFault>
    requires well_formed { IsWellFormedTheory (theory_of theory.now) }
    requires fits { FitsConfig (procedures_of (theory_of theory.now)) (config_of config.old) }
    ensures step { IfOk result (λ out. answer_of out (config_of config.new)
        ≡ model.step (procedures_of (theory_of theory.now)) (config_of config.old) (pick_of pick)) }
    ensures limit { TellsLimit result (limit_ahead standard_limits (config_of config.old)) }
    ensures unchanged { result ≢ Ok Next → config.new ≡ config.old }
    ensures results { config.new.results ≡ config.old.results }
{
    let Some((piece, others)) = config.pending.as_slice().split_last() else {
        return Ok(StepOut::Done);
    };
    let grove = replace(&mut config.grove, List::new(alloc));
    let mut document = Picked { grove, pick };
    let plan = planned(
        alloc,
        theory,
        piece,
        others,
        &mut config.store,
        &mut document,
    );
    config.grove = document.grove;
    match plan? {
        Plan::Taken => {
            drop_first(&mut config.pending);
            Ok(StepOut::Next)
        }
        Plan::Becomes(change) => {
            advance(config, change)?;
            Ok(StepOut::Next)
        }
        Plan::Faults(kind) => Ok(StepOut::Fault(kind)),
        Plan::BadPick => Ok(StepOut::BadPick),
    }
}

// Makes the change to the first piece. Where memory is refused nothing is changed.
fn advance(config: &mut Config, change: Change) -> Result<(), OutOfMemory>
    requires pending { 0 < length config.old.pending }
    requires fits { FitsStores change }
    ensures pending { OnOk result ((piece : Pending) (others : plain.List Pending)
        → config.old.pending ≡ others ++ piece ∷ []
        → pieces_in config.new.pending ≡ pieces_after change (piece_of piece) ++ pieces_in others) }
    ensures store { OnOk result
        (store_of config.new.store ≡ store_after change (store_of config.old.store)) }
    ensures grove { config.new.grove ≡ config.old.grove }
    ensures results { config.new.results ≡ config.old.results }
    ensures err { OnErr result (config.new ≡ config.old) }
{
    match change {
        Change::Pieces(pieces) => replace_first(&mut config.pending, pieces)?,
        Change::Before(mut pieces) => config.pending.append(&mut pieces)?,
        Change::Set(variable, value) => {
            config.store.set(variable, value)?;
            drop_first(&mut config.pending);
        }
        Change::Switch(pieces, store) => {
            replace_first(&mut config.pending, pieces)?;
            config.store = store;
        }
    }
    Ok(())
}
