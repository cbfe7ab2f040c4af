// Walks over the grove of a heap: each node is opened before those below it, and closed after
// them.
ghost use Rattle.std.specs.Prelude.{◌≡◌, ◌≤◌, ◌++◌, map, IfOk, OnOk};
ghost use Rattle.model_shapes.specs.Sorts.{shape, grove};
ghost use Rattle.model_shapes.specs.Shapes.{Shaped};
ghost use Rattle.model_documents.specs.Roots.{sorted_roots};
ghost use Rattle.model_heap.specs.Lists.{count};
ghost use Rattle.model_heap.specs.Entries.{rows_of, roots};
ghost use Rattle.model_heap.specs.Marks.{walked};
ghost use Rattle.model_heap.specs.Roots.{root_at};
ghost use Rattle.node_heap.specs.Walking.{seen, said_in, onward_from};

use crate::heap::NodeHeap;
use crate::index::find;
use crate::records::Record;
use dom_terms::OutOfMemory;
use std::alloc::Global;

/// Where a walk opens a node, or closes it.
#[derive(Clone, Copy)]
pub struct Mark<'a> {
    /// The node.
    pub node: &'a Record,
    /// Whether it is opened.
    pub opens: bool,
}

/// The key of a node, and whether the node is opened there or closed.
#[derive(Clone, Copy)]
pub struct Place {
    /// The key.
    pub key: usize,
    /// Whether the node is opened.
    pub opens: bool,
}

impl NodeHeap {
    /// The marks of the whole grove, its roots by rising number.
    pub(crate) fn walk(&self, alloc: Global) -> Result<Vec<Mark<'_>>, OutOfMemory>
        ensures marks { IfOk result (λ marks. map seen marks.items
            ≡ map (said_in (rows_of self.now.grove)) (walked self.now.grove)) }
        ensures sorted { sorted_roots self.now.grove ≡ self.now.grove }
        ensures shaped { Shaped (shape grove) self.now.grove }
    {
        let mut marks = Vec::new(alloc);
        for pair in &self.nodes {
            if self.records[pair.key].parent.is_none() {
                self.walk_tree(pair.number, &mut marks)?;
            }
        }
        Ok(marks)
    }

    // puts the marks of the tree of a root at the end
    fn walk_tree<'a>(&'a self, root: u32, marks: &mut Vec<Mark<'a>>) -> Result<(), OutOfMemory>
        requires { 1 ≤ count root (roots self.now.grove) }
        ensures { OnOk result (map seen marks.new.items ≡ map seen marks.old.items
            ++ map (said_in (rows_of self.now.grove)) (walked (root_at root self.now.grove))) }
    {
        let mut place = match find(&self.nodes, root) {
            Some(key) => Some(Place { key, opens: true }),
            None => unreachable!(),
        };
        while let Some(here) = place {
            let node = &self.records[here.key];
            marks.push(Mark {
                node,
                opens: here.opens,
            })?;
            place = onward(node, here);
        }
        Ok(())
    }
}

// where a walk goes on: nowhere from where it closes a root
fn onward(node: &Record, here: Place) -> Option<Place>
    ensures { result ≡ onward_from node.now here }
{
    if here.opens {
        return match node.first {
            Some(key) => Some(Place { key, opens: true }),
            None => Some(Place {
                key: here.key,
                opens: false,
            }),
        };
    }
    match node.next {
        Some(key) => Some(Place { key, opens: true }),
        None => match node.parent {
            Some(key) => Some(Place { key, opens: false }),
            None => None,
        },
    }
}
