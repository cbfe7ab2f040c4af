// Rows: a node of a grove beside its siblings, in a table of all nodes.
ghost use Rattle.std.specs.Prelude.{◌≡◌, IfOk};
ghost use Rattle.dom_terms.specs.Sorts.{sort_of};
ghost use Rattle.dom_terms.specs.Values.{value_seen};
ghost use Rattle.dom_watch.specs.Rows.{value_at};

use dom_terms::{Copied, OutOfMemory, Sort, Text, Value, ValueSort};
use std::alloc::Global;

/// A node, and the places between which its children stand.
#[derive(Clone, Copy)]
pub struct Row<'a> {
    /// The name.
    pub name: &'a Text,
    /// The node number.
    pub number: u32,
    /// The number of the list of children.
    pub list: u32,
    /// The place of the first child.
    pub first: usize,
    /// The place after that of the last child.
    pub end: usize,
}

impl Row<'_> {
    /// The value of the sort that stands at the node: its number, its list number or its name.
    pub fn value(&self, alloc: Global, sort: Sort) -> Result<Value, OutOfMemory>
        ensures { IfOk result (λ value. value_seen value ≡ value_at (sort_of sort) self.now) }
    {
        match sort {
            Sort::Value(ValueSort::Node) => Ok(Value::Node(self.number)),
            Sort::Value(ValueSort::List) => Ok(Value::List(self.list)),
            Sort::Value(ValueSort::Str) => Ok(Value::Str(self.name.copy(alloc)?)),
            _ => Ok(Value::NullNode),
        }
    }
}
