// How runs begin.
ghost use Rattle.std.specs.Prelude.{◌≡◌, ◌<◌, length, map, Some, IfOk, slice_get};
ghost use Rattle.model_shapes.specs.Sorts.{shape};
ghost use Rattle.model_shapes.specs.Sorts as sorts;
ghost use Rattle.model_shapes.specs.Shapes.{Shaped};
ghost use Rattle.model_commands.specs.Theories.{procedures_of};
ghost use Rattle.model_files.specs.FileFaults.{IsWellFormedTheory};
ghost use Rattle.model_machine.specs.Machine.{holding_values};
ghost use Rattle.model_machine.specs.Fitting.{ValuesFit, FitsConfig};
ghost use Rattle.dom_terms.specs.Terms.{prog_var_of};
ghost use Rattle.dom_terms.specs.Values.{value_seen};
ghost use Rattle.dom_terms.specs.Stores.{store_of};
ghost use Rattle.grove_data.specs.Trees.{forest_of};
ghost use Rattle.theory_syntax.specs.Theories.{procedure_of, theory_of};
ghost use Rattle.dom_meaning.specs.Configs.{config_of};
ghost use Rattle.dom_meaning.specs.Starts.{Begins};

use crate::configurations::{Config, Pending};
use dom_terms::{Copied, List, OutOfMemory, ProgVar, Store, Value, Values};
use grove_data::Grove;
use std::alloc::Global;
use theory_syntax::{Procedure, Theory};

/// The configuration with which the procedure at a place, counted from 0, begins: its body is
/// pending, and its parameters have the arguments as their values.
pub fn start(
    alloc: Global,
    theory: &Theory,
    procedure: usize,
    arguments: Values,
    grove: Grove,
) -> Result<Config, OutOfMemory>
    requires well_formed { IsWellFormedTheory (theory_of theory.now) }
    requires procedure { procedure < length theory.now.procedures }
    requires arguments { (started : Procedure)
        → slice_get theory.now.procedures procedure ≡ Some started
        → ValuesFit (procedure_of started).params (map value_seen arguments) }
    requires grove { Shaped (shape sorts.grove) (forest_of grove) }
    ensures begins { IfOk result (λ config. (started : Procedure)
        → slice_get theory.now.procedures procedure ≡ Some started
        → Begins (procedure_of started) (map value_seen arguments) (forest_of grove) config) }
    ensures fits { IfOk result
        (λ config. FitsConfig (procedures_of (theory_of theory.now)) (config_of config)) }
{
    let Some(started) = theory.procedures.get(procedure) else {
        unreachable!();
    };
    begun(alloc, started, &arguments, grove)
}

// The configuration with which the procedure begins.
fn begun(
    alloc: Global,
    procedure: &Procedure,
    arguments: &Values,
    grove: Grove,
) -> Result<Config, OutOfMemory>
    requires { ValuesFit (procedure_of procedure.now).params (map value_seen arguments.now) }
    ensures { IfOk result (Begins (procedure_of procedure.now) (map value_seen arguments.now)
        (forest_of grove)) }
{
    let store = holding(alloc, procedure.params.as_slice(), arguments.as_slice())?;
    let mut pending = List::new(alloc);
    pending.push(Pending::Run(procedure.body.copy(alloc)?))?;
    let results = procedure.results.copy(alloc)?;
    Ok(Config {
        pending,
        store,
        grove,
        results,
    })
}

/// The store in which the variables have these values.
pub fn holding(alloc: Global, variables: &[ProgVar], values: &[Value]) -> Result<Store, OutOfMemory>
    requires { ValuesFit (map prog_var_of variables.now) (map value_seen values.now) }
    ensures { IfOk result (λ store. store_of store
        ≡ holding_values (map prog_var_of variables.now) (map value_seen values.now)) }
{
    let [variable, variables @ ..] = variables else {
        return Ok(Store::new(alloc));
    };
    let [value, values @ ..] = values else {
        unreachable!();
    };
    let mut store = holding(alloc, variables, values)?;
    store.set(variable.copy(alloc)?, value.copy(alloc)?)?;
    Ok(store)
}
