// How a grove is gone over by numbers: its roots, its nodes, first children and next siblings.
ghost use Rattle.std.specs.Prelude.{◌≡◌, ℕ, IfOk};
ghost use Rattle.model_shapes.specs.Values.{node_number};
ghost use Rattle.model_shapes.specs.Trees.{node_uses};
ghost use Rattle.model_groves.specs.Groves.{node_at, nodes_where, parental, first_number};
ghost use Rattle.model_machine.specs.Machine.{no_node};
ghost use Rattle.model_heap.specs.Lists.{count};
ghost use Rattle.model_heap.specs.Entries as entries;
ghost use Rattle.grove_data.specs.Finding.{number_or_null};
ghost use Rattle.node_heap.specs.Answers.{Reads};
ghost use Rattle.node_heap.specs.Visiting.{AreRising, sibling_number};

use crate::heap::NodeHeap;
use crate::index::find;
use dom_meaning::FaultKind;
use dom_terms::{Numbers, OutOfMemory};
use std::alloc::Global;

impl NodeHeap {
    /// The numbers of the roots, rising: the roots of the grove stand in this order.
    pub fn roots(&self, alloc: Global) -> Result<Numbers, OutOfMemory>
        ensures all { IfOk result (λ numbers. numbers ≡ entries.roots self.now.grove) }
        ensures rising { IfOk result (λ numbers. AreRising numbers) }
    {
        let mut numbers = Numbers::new(alloc);
        for pair in &self.nodes {
            if self.records[pair.key].parent.is_none() {
                numbers.push(pair.number)?;
            }
        }
        Ok(numbers)
    }

    /// The numbers of all nodes, rising.
    pub fn nodes(&self, alloc: Global) -> Result<Numbers, OutOfMemory>
        ensures all { IfOk result (λ numbers.
            (n : ℕ) → count n numbers ≡ node_uses n self.now.grove) }
        ensures rising { IfOk result (λ numbers. AreRising numbers) }
    {
        let mut numbers = Numbers::new(alloc);
        for pair in &self.nodes {
            numbers.push(pair.number)?;
        }
        Ok(numbers)
    }

    /// The number of the first child of the node: none where it has no child. Faults exactly where
    /// there is no such node.
    pub fn first(&self, node: u32) -> Result<Option<u32>, FaultKind>
        ensures { Reads number_or_null (node_at (node_number node) self.now.grove) no_node
            (λ name number kids list. first_number kids) result }
    {
        match find(&self.nodes, node) {
            Some(key) => match self.records[key].first {
                Some(first) => Ok(Some(self.records[first].number)),
                None => Ok(None),
            },
            None => Err(FaultKind::NoNode),
        }
    }

    /// The number of the sibling after the node: none where it is the last child of its parent, or
    /// a root. Faults exactly where there is no such node.
    pub fn next(&self, node: u32) -> Result<Option<u32>, FaultKind>
        ensures { Reads number_or_null (node_at (node_number node) self.now.grove) no_node
            (λ name number kids list. sibling_number number
            (nodes_where (parental number) self.now.grove)) result }
    {
        match find(&self.nodes, node) {
            Some(key) => match self.records[key].next {
                Some(next) => Ok(Some(self.records[next].number)),
                None => Ok(None),
            },
            None => Err(FaultKind::NoNode),
        }
    }
}
