// The values of the results at the end of a run.
ghost use Rattle.std.specs.Prelude.{◌≡◌, map, IfOk};
ghost use Rattle.model_machine.specs.Outcomes.{values_in};
ghost use Rattle.dom_terms.specs.Terms.{prog_var_of};
ghost use Rattle.dom_terms.specs.Values.{value_seen};
ghost use Rattle.dom_terms.specs.Stores.{store_of};

use dom_terms::{List, OutOfMemory, Store, Values, Vars, value_or_default};
use std::alloc::Global;

/// The values of the variables, in order.
#[tactic(auto, using(crate::proofs::StoreLaws::values_are))]
pub fn values_of(alloc: Global, variables: &Vars, store: &Store) -> Result<Values, OutOfMemory>
    ensures { IfOk result (λ values. map value_seen values
        ≡ values_in (map prog_var_of variables.now) (store_of store.now)) }
{
    let mut values = List::new(alloc);
    for variable in variables.as_slice() {
        values.push(value_or_default(alloc, variable, store)?)?;
    }
    Ok(values)
}
