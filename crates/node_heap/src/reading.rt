// What is read off a heap.
ghost use Rattle.std.specs.Prelude.{◌≡◌, pos, ◌<ℤ◌, MatchOption};
ghost use Rattle.model_shapes.specs.Values.{node_number, list_number, str, int};
ghost use Rattle.model_groves.specs.Groves.{node_at, list_at, nodes_where, parental, first_number, item_of};
ghost use Rattle.model_machine.specs.Machine.{no_node, no_list};
ghost use Rattle.grove_data.specs.Finding.{number_or_null};
ghost use Rattle.node_heap.specs.Answers.{Reads};

use crate::heap::NodeHeap;
use crate::index::find;
use dom_meaning::FaultKind;
use dom_terms::Text;

impl NodeHeap {
    /// The name of the node. Faults exactly where there is no such node.
    pub fn name(&self, node: u32) -> Result<&Text, FaultKind>
        ensures { Reads (λ name. str name.now) (node_at (node_number node) self.now.grove) no_node
            (λ name number kids list. str name) result }
    {
        match find(&self.nodes, node) {
            Some(key) => Ok(&self.records[key].name),
            None => Err(FaultKind::NoNode),
        }
    }

    /// The number of the children list of the node. Faults exactly where there is no such node.
    pub fn child_list(&self, node: u32) -> Result<u32, FaultKind>
        ensures { Reads list_number (node_at (node_number node) self.now.grove) no_node
            (λ name number kids list. list_number list) result }
    {
        match find(&self.nodes, node) {
            Some(key) => Ok(self.records[key].list),
            None => Err(FaultKind::NoNode),
        }
    }

    /// The number of the parent of the node: none where it is a root. Faults exactly where there is
    /// no such node.
    pub fn parent(&self, node: u32) -> Result<Option<u32>, FaultKind>
        ensures { Reads number_or_null (node_at (node_number node) self.now.grove) no_node
            (λ name number kids list. first_number (nodes_where (parental number) self.now.grove))
            result }
    {
        match find(&self.nodes, node) {
            Some(key) => match self.records[key].parent {
                Some(parent) => Ok(Some(self.records[parent].number)),
                None => Ok(None),
            },
            None => Err(FaultKind::NoNode),
        }
    }

    /// The number of the child at the place, counted from 0, in the children list: none where there
    /// is none. Faults exactly where there is no such list.
    pub fn item(&self, list: u32, place: i64) -> Result<Option<u32>, FaultKind>
        ensures { Reads number_or_null (list_at (list_number list) self.now.grove) no_list
            (λ name number kids list. item_of (int place) kids) result }
    {
        let owner = match find(&self.lists, list) {
            Some(key) => key,
            None => return Err(FaultKind::NoList),
        };
        let count = match count_of(place) {
            Some(count) => count,
            None => return Ok(None),
        };
        let mut current = self.records[owner].first;
        for _passed in 0..count {
            match current {
                Some(key) => current = self.records[key].next,
                None => return Ok(None),
            }
        }
        match current {
            Some(key) => Ok(Some(self.records[key].number)),
            None => Ok(None),
        }
    }
}

// the place as a count: none below 0
fn count_of(place: i64) -> Option<u64>
    ensures { MatchOption result (place <ℤ pos 0) (λ count. place ≡ pos count) }
{
    if place < 0 {
        return None;
    }
    Some(place as u64)
}
