// Whether a formula can be watched within the limits.
ghost use Rattle.std.specs.Prelude.{◌≡◌, None};
ghost use Rattle.model_shapes.specs.Sorts.{shape, grove};
ghost use Rattle.model_formulas.specs.WellSorted.{first_fault};
ghost use Rattle.dom_terms.specs.Stores.{store_of};
ghost use Rattle.formula_syntax.specs.Formulas.{formula_of};
ghost use Rattle.dom_watch.specs.Watched.{Causes, TellsFirst};
ghost use Rattle.dom_watch.specs.Walked.{TellsPart};

use crate::faults::WatchFault;
use crate::flags::{Unwatchable, is_watchable};
use crate::limits::within_limits;
use crate::weights::weight;
use dom_terms::limits::WATCH;
use dom_terms::{EvalFault, LimitKind, Store};
use formula_syntax::Formula;
use std::alloc::Global;

/// Whether the formula can be watched. NotWatchable comes exactly where it can't, with the first
/// part that can't; where that has a place of more than 32 bits it is as if memory ran out.
pub fn can_be_watched(formula: &Formula) -> Result<(), WatchFault>
    ensures { TellsFirst (formula_of formula.now) result }
{
    match is_watchable(formula) {
        Ok(()) => Ok(()),
        Err(Unwatchable { part }) => Err(not_watchable(part)),
    }
}

/// Whether the formula can be watched within the limits, on so many nodes: first whether its parts
/// can be, then the values of its terms, and then its weight.
pub fn within_bounds(
    alloc: Global,
    nodes: usize,
    store: &Store,
    formula: &Formula,
) -> Result<(), WatchFault>
    requires { first_fault (formula_of formula.now) (shape grove) ≡ None }
    ensures { Causes (formula_of formula.now) (store_of store.now) nodes result }
{
    can_be_watched(formula)?;
    match within_limits(alloc, formula, store) {
        Ok(()) => {}
        Err(EvalFault::NumberRange) => return Err(WatchFault::Limit(LimitKind::Number)),
        Err(EvalFault::TextLimit) => return Err(WatchFault::Limit(LimitKind::Text)),
        Err(EvalFault::OutOfMemory) => return Err(WatchFault::OutOfMemory),
    }
    if weight(formula, nodes as u64) > WATCH {
        return Err(WatchFault::Limit(LimitKind::Watch));
    }
    Ok(())
}

// the fault where the part can't be watched; as want of memory where its place has more than
// 32 bits
fn not_watchable(part: u64) -> WatchFault
    ensures { TellsPart part result }
{
    match u32::try_from(part) {
        Ok(part) => WatchFault::NotWatchable { part },
        Err(_) => WatchFault::OutOfMemory,
    }
}
