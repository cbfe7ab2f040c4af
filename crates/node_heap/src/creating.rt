// New nodes.
ghost use Rattle.std.specs.Prelude.{◌≡◌, ◌+◌, ◌<◌, ◌≤◌, ◌⊎◌, MatchOption, IfOk, OnOk, IfErr};
ghost use Rattle.model_shapes.specs.Trees.{none, node as node_with, beside};
ghost use Rattle.model_shapes.specs.Sorts.{grove};
ghost use Rattle.model_shapes.specs.Shapes.{SameAt};
ghost use Rattle.model_groves.specs.Sizes.{greatest_node, greatest_list};
ghost use Rattle.model_groves.specs.Picks.{next_pick};
ghost use Rattle.dom_meaning.specs.Configs.{pick_of};

use crate::heap::NodeHeap;
use crate::index::{Pair, greatest};
use crate::records::Record;
use dom_terms::{Copied, OutOfMemory, Text};
use std::alloc::Global;

/// There is no number for a new node, or none for its list. The name comes back.
#[derive(Debug, Drop)]
pub struct NoNumber {
    /// The name of the node that was to be made.
    pub name: Text,
}

impl Copied for NoNumber {
    ghost use Rattle.std.specs.Prelude.{List, ℕ};

    ghost Seen = { List ℕ };

    ghost seen = { λ refused. refused.name };

    fn copy(&self, alloc: Global) -> Result<NoNumber, OutOfMemory>
        ensures { IfOk result (λ copied. copied.name ≡ self.now.name) }
    {
        Ok(NoNumber {
            name: self.name.copy(alloc)?,
        })
    }
}

impl NodeHeap {
    /// The numbers that a run gives to a new node. There are none exactly where one would pass the
    /// greatest that there is.
    pub fn next_numbers(&self) -> Option<(u32, u32)>
        ensures { MatchOption result
            ((greatest_node self.now.grove ≡ u32.MAX) ⊎ (greatest_list self.now.grove ≡ u32.MAX))
            (λ pick. (pick_of pick ≡ next_pick self.now.grove)
            × (greatest_node self.now.grove < u32.MAX)
            × (greatest_list self.now.grove < u32.MAX)) }
    {
        let node = greatest(&self.nodes);
        let list = greatest(&self.lists);
        if node == u32::MAX || list == u32::MAX {
            return None;
        }
        Some((node + 1, list + 1))
    }

    /// Adds a root with the name and no children, and takes no memory. Its numbers are those that a
    /// run gives. There are none exactly where one would pass the greatest that there is: the heap
    /// is then as it was.
    pub fn create(&mut self, name: Text) -> Result<(u32, u32), NoNumber>
        requires { 1 ≤ self.old.spare }
        ensures created { IfOk result (λ pick. SameAt grove self.new.grove
            (beside self.old.grove (node_with name pick.0 none pick.1 none))) }
        ensures pick { IfOk result (λ pick. pick_of pick ≡ next_pick self.old.grove) }
        ensures spare { OnOk result (self.new.spare + 1 ≡ self.old.spare) }
        ensures below { OnOk result ((greatest_node self.old.grove < u32.MAX)
            × (greatest_list self.old.grove < u32.MAX)) }
        ensures full { IfErr result (λ _. (greatest_node self.old.grove ≡ u32.MAX)
            ⊎ (greatest_list self.old.grove ≡ u32.MAX)) }
        ensures refused { IfErr result (λ refused. (refused.name ≡ name)
            × (self.new ≡ self.old)) }
    {
        let node = greatest(&self.nodes);
        let list = greatest(&self.lists);
        if node == u32::MAX || list == u32::MAX {
            return Err(NoNumber { name });
        }
        let number = node + 1;
        let list = list + 1;
        let key = self
            .records
            .insert_reserved(Record::new(name, number, list));
        self.nodes.push_reserved(Pair { number, key });
        self.lists.push_reserved(Pair { number: list, key });
        Ok((number, list))
    }
}
