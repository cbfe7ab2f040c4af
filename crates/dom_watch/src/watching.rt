// Whether the grove of a heap meets a formula.
ghost use Rattle.std.specs.Prelude.{◌≡◌, None, IfOk};
ghost use Rattle.model_shapes.specs.Sorts.{shape, grove};
ghost use Rattle.model_formulas.specs.WellSorted.{first_fault};
ghost use Rattle.model_groves.specs.Sizes.{size};
ghost use Rattle.dom_terms.specs.Stores.{store_of};
ghost use Rattle.formula_syntax.specs.Formulas.{formula_of};
ghost use Rattle.dom_watch.specs.Watched.{Causes, TellsMet};

use crate::bindings::Bindings;
use crate::bounds::within_bounds;
use crate::faults::WatchFault;
use crate::judging::Judge;
use crate::table::table_of;
use dom_terms::Store;
use formula_syntax::Formula;
use node_heap::NodeHeap;
use std::alloc::Global;

/// Whether the grove of the heap meets the formula, in the store and whatever the other variables
/// stand for. NotWatchable comes exactly where the formula can't be watched, with the place of the
/// first part that can't; else Limit comes exactly where the value of a term without logic
/// variables passes one, or the formula's weight for the nodes of the heap does. Want of memory may
/// come in the place of any answer, and does where a part's place has more than 32 bits.
pub fn meets(
    alloc: Global,
    heap: &NodeHeap,
    store: &Store,
    formula: &Formula,
) -> Result<bool, WatchFault>
    requires { first_fault (formula_of formula.now) (shape grove) ≡ None }
    ensures causes { Causes (formula_of formula.now) (store_of store.now) (size heap.now.grove)
        result }
    ensures met { IfOk result (λ yes.
        TellsMet yes (formula_of formula.now) (store_of store.now) heap.now.grove) }
{
    within_bounds(alloc, heap.len(), store, formula)?;
    let table = table_of(alloc, heap)?;
    let judge = Judge {
        alloc,
        rows: &table.rows,
        store,
    };
    Ok(judge.judges(formula, &Bindings::Empty, &table.rows[..table.roots])?)
}
