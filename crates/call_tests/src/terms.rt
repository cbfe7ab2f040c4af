// Stores by themselves.
ghost use Rattle.std.specs.Prelude.{◌≡◌, IfOk};
ghost use Rattle.dom_terms.specs.declared.sorts.ValueSort.TheVariants as sorts;

use dom_terms::{OutOfMemory, ProgVar, Store, Text, Value, ValueSort};
use std::alloc::Global;
use std::test::Fail;

// an integer variable
pub(crate) fn integer(alloc: Global, name: &str) -> Result<ProgVar, OutOfMemory>
    ensures { IfOk result (λ variable. variable.sort ≡ sorts.Int) }
{
    let name = Text::from_str(alloc, name)?;
    let sort = ValueSort::Int;
    Ok(ProgVar { name, sort })
}

#[test]
fn the_last_value_is_found(rt: HostRuntime) -> Result<(), Fail> {
    let alloc = rt.alloc();
    let mut store = Store::new(alloc);
    store.set(integer(alloc, "x")?, Value::Int(40))?;
    store.set(integer(alloc, "y")?, Value::Int(7))?;
    store.set(integer(alloc, "x")?, Value::Int(-2))?;
    assert!(rt; matches!(store.get(&integer(alloc, "x")?), Some(Value::Int(-2))));
    assert!(rt; store.get(&integer(alloc, "z")?).is_none());
    Ok(())
}
