// The table of all nodes of a grove, in which siblings stand in a row: the roots first, and then
// for each row in turn those of its children.
ghost use Rattle.std.specs.Prelude.{◌≡◌, ◌<◌, ◌≤◌, ℕ, IfOk, OnOk, vec_len};
ghost use Rattle.std.specs.List.{All};
ghost use Rattle.model_shapes.specs.Sorts.{shape, grove};
ghost use Rattle.model_shapes.specs.Shapes.{Shaped};
ghost use Rattle.model_heap.specs.Lists.{count, head_of, after};
ghost use Rattle.model_heap.specs.Entries.{rows_of, kids_of};
ghost use Rattle.model_heap.specs.Entries as entries;
ghost use Rattle.dom_watch.specs.Tables.{Tabled, IsKnown, StandsIn, HasLaid, numbers_of};

use crate::rows::Row;
use dom_terms::OutOfMemory;
use node_heap::NodeHeap;
use std::alloc::Global;

/// The rows of all nodes, of which the first so many are those of the roots.
#[derive(Drop)]
pub struct Table<'a> {
    /// The rows.
    pub rows: Vec<Row<'a>>,
    /// How many roots there are.
    pub roots: usize,
}

/// The table of the grove.
pub fn table_of<'a>(alloc: Global, heap: &'a NodeHeap) -> Result<Table<'a>, OutOfMemory>
    ensures { IfOk result (λ table. Tabled table.rows.items table.roots heap.now.grove) }
{
    let mut rows = root_rows(alloc, heap)?;
    let roots = rows.len();
    let mut place = 0;
    while place < rows.len() {
        lay(heap, &mut rows, place)?;
        place += 1;
    }
    Ok(Table { rows, roots })
}

// the rows of the roots, with no children yet
fn root_rows<'a>(alloc: Global, heap: &'a NodeHeap) -> Result<Vec<Row<'a>>, OutOfMemory>
    ensures shaped { Shaped (shape grove) heap.now.grove }
    ensures numbers { IfOk result (λ rows. numbers_of rows.items ≡ entries.roots heap.now.grove) }
    ensures stand { IfOk result (λ rows. All (StandsIn heap.now.grove) rows.items) }
{
    let mut rows = Vec::with_capacity(alloc, heap.len())?;
    let numbers = heap.roots(alloc)?;
    for number in numbers.as_slice() {
        rows.push(bare_row(heap, *number))?;
    }
    Ok(rows)
}

// puts the rows of the children of the node at the place at the end, and their places into its row
fn lay<'a>(heap: &'a NodeHeap, rows: &mut Vec<Row<'a>>, place: usize) -> Result<(), OutOfMemory>
    requires shaped { Shaped (shape grove) heap.now.grove }
    requires there { place < vec_len rows.old }
    requires stand { All (StandsIn heap.now.grove) rows.old.items }
    ensures { OnOk result (HasLaid heap.now.grove place rows.old.items rows.new.items) }
{
    let row = rows[place];
    let first = rows.len();
    let mut child = first_child(heap, row.number);
    while let Some(number) = child {
        rows.push(bare_row(heap, number))?;
        child = next_sibling(heap, number);
    }
    let end = rows.len();
    rows[place] = Row { first, end, ..row };
    Ok(())
}

// the row of a node, with no children yet
fn bare_row(heap: &NodeHeap, number: u32) -> Row<'_>
    requires shaped { Shaped (shape grove) heap.now.grove }
    requires known { IsKnown heap.now.grove number }
    ensures number { result.number ≡ number }
    ensures stands { StandsIn heap.now.grove result }
{
    let Ok(name) = heap.name(number) else {
        unreachable!()
    };
    let Ok(list) = heap.child_list(number) else {
        unreachable!()
    };
    Row {
        name,
        number,
        list,
        first: 0,
        end: 0,
    }
}

// the first child of the node
fn first_child(heap: &NodeHeap, node: u32) -> Option<u32>
    requires shaped { Shaped (shape grove) heap.now.grove }
    requires known { IsKnown heap.now.grove node }
    ensures { result ≡ head_of (kids_of (rows_of heap.now.grove node)) }
{
    let Ok(child) = heap.first(node) else {
        unreachable!()
    };
    child
}

// the sibling after the node, which has a parent
fn next_sibling(heap: &NodeHeap, node: u32) -> Option<u32>
    requires shaped { Shaped (shape grove) heap.now.grove }
    requires known { IsKnown heap.now.grove node }
    ensures { (parent : ℕ) → 1 ≤ count node (kids_of (rows_of heap.now.grove parent))
        → result ≡ after node (kids_of (rows_of heap.now.grove parent)) }
{
    let Ok(next) = heap.next(node) else {
        unreachable!()
    };
    next
}
