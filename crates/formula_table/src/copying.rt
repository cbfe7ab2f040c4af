// Copies of tables.
ghost use Rattle.std.specs.Prelude.{◌≡◌, map, IfOk};
ghost use Rattle.std.specs.String.{string_bytes};

use dom_terms::OutOfMemory;
use indexmap::IndexSet;
use std::alloc::Global;
use std::hash::Hash;

/// The same rows, each at its place: those of a set differ, so each is put after those before it.
pub(crate) fn copy_rows<R: Copy + Eq + Hash>(
    alloc: Global,
    rows: &IndexSet<R>,
) -> Result<IndexSet<R>, OutOfMemory>
    ensures { IfOk result (λ copied. copied.keys ≡ rows.now.keys) }
{
    let mut copied = IndexSet::new(alloc);
    for row in rows.as_slice() {
        copied.insert_full(*row)?;
    }
    Ok(copied)
}

/// The same names, each at its place, on memory of their own.
pub(crate) fn copy_names(
    alloc: Global,
    names: &IndexSet<String>,
) -> Result<IndexSet<String>, OutOfMemory>
    ensures { IfOk result (λ copied. map string_bytes copied.keys
        ≡ map string_bytes names.now.keys) }
{
    let mut copied = IndexSet::new(alloc);
    for name in names.as_slice() {
        copied.insert_full(String::from_str(alloc, name.as_str())?)?;
    }
    Ok(copied)
}
