// Heaps, and what they have room for.
ghost use Rattle.std.specs.Prelude.{◌≡◌, ◌≤◌, OnOk};
ghost use Rattle.model_shapes.specs.Sorts.{shape, grove};
ghost use Rattle.model_shapes.specs.Shapes.{Shaped};
ghost use Rattle.model_groves.specs.Sizes.{size};

use crate::index::Pair;
use crate::records::Record;
use dom_terms::OutOfMemory;
use slab::Slab;
use std::marker::Model;

/// A grove as linked records, one for each node. Contracts see the grove, up to the order of its
/// roots, and how many nodes can be made with no memory.
#[derive(Drop)]
pub struct NodeHeap {
    pub(crate) records: Slab<Record>,
    // the keys of the records by node number
    pub(crate) nodes: Vec<Pair>,
    // the same by list number
    pub(crate) lists: Vec<Pair>,
}

impl Model for NodeHeap {
    ghost use Rattle.std.specs.Prelude.{◌-◌, min, vec_len, vec_capacity};
    ghost use Rattle.slab.specs.Slab.{slab_len};
    ghost use Rattle.node_heap.specs.HeapView.{HeapView, view_code};
    ghost use Rattle.node_heap.specs.Heap.{grove_of, Linked};

    ghost Value = { HeapView };

    ghost coded = { view_code };

    ghost view = { λ heap. record {
      grove = grove_of heap.records heap.nodes.items;
      spare = min (heap.records.capacity - slab_len heap.records)
          (min (vec_capacity heap.nodes - vec_len heap.nodes)
          (vec_capacity heap.lists - vec_len heap.lists));
    } };

    ghost invariant = { λ heap. Linked heap.records heap.nodes.items heap.lists.items
        (grove_of heap.records heap.nodes.items) };
}

impl NodeHeap {
    /// How many nodes the grove has. What a heap stands for is a well-formed grove always.
    pub fn len(&self) -> usize
        ensures size { result ≡ size self.now.grove }
        ensures shaped { Shaped (shape grove) self.now.grove }
    {
        self.nodes.len()
    }

    /// Makes room for so many more nodes. The grove stays, and where memory is refused there is no
    /// less room than before.
    pub fn reserve(&mut self, more: usize) -> Result<(), OutOfMemory>
        ensures room { OnOk result (more ≤ self.new.spare) }
        ensures grove { self.new.grove ≡ self.old.grove }
        ensures spare { self.old.spare ≤ self.new.spare }
    {
        self.records.reserve(more)?;
        self.nodes.reserve(more)?;
        self.lists.reserve(more)?;
        Ok(())
    }
}
