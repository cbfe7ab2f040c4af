// Trees that are moved.
ghost use Rattle.std.specs.Prelude.{◌≡◌, cond, MatchOption, IfSome};
ghost use Rattle.model_shapes.specs.Values.{node_number};
ghost use Rattle.model_terms.specs.Stores.{Store};
ghost use Rattle.model_groves.specs.Groves.{node_at};
ghost use Rattle.model_machine.specs.Machine.{appending, inserting, inserting_at, removing};
ghost use Rattle.model_heap.specs.Entries.{uses, tree_at};
ghost use Rattle.grove_data.specs.Finding.{number_or_null};
ghost use Rattle.node_heap.specs.Indexes.{Rising};
ghost use Rattle.node_heap.specs.Heap.{grove_of};
ghost use Rattle.node_heap.specs.Answers.{Did};
ghost use Rattle.node_heap.specs.Ends.{OfHeap, HasBoth, LacksOne};

use crate::heap::NodeHeap;
use crate::index::{Pair, find};
use crate::records::{Record, attach_before, attach_last, detach, is_under};
use dom_meaning::FaultKind;
use slab::Slab;

impl NodeHeap {
    /// Moves the child, wherever it is, with all below it to the end of the children of the parent,
    /// or faults, as the machine does.
    pub fn append(&mut self, parent: u32, child: u32) -> Result<(), FaultKind>
        ensures { (store : Store) → Did (appending (node_at (node_number parent) self.old.grove)
            (node_at (node_number child) self.old.grove) store self.old.grove)
            result self.old self.new }
    {
        let Some((above, below, makes_cycle)) = ends(&self.records, &self.nodes, parent, child)
        else {
            return Err(FaultKind::NoNode);
        };
        if makes_cycle {
            return Err(FaultKind::Cycle);
        }
        detach(&mut self.records, below);
        attach_last(&mut self.records, below, above);
        Ok(())
    }

    /// Moves the child, wherever it is, with all below it to just before the next, a child of the
    /// parent, or to the end of the children of the parent where no next is given; or faults, as
    /// the machine does.
    pub fn insert_before(
        &mut self,
        parent: u32,
        child: u32,
        next: Option<u32>,
    ) -> Result<(), FaultKind>
        ensures { (store : Store) → Did (inserting_at (number_or_null next)
            (node_at (node_number parent) self.old.grove)
            (node_at (node_number child) self.old.grove) store self.old.grove)
            result self.old self.new }
    {
        match next {
            Some(next) => self.put_before(parent, child, next),
            None => self.append(parent, child),
        }
    }

    /// Moves the child of the parent with all below it to the roots, or faults, as the machine
    /// does.
    pub fn remove(&mut self, parent: u32, child: u32) -> Result<(), FaultKind>
        ensures { (store : Store) → Did (removing (node_at (node_number parent) self.old.grove)
            (node_at (node_number child) self.old.grove) store self.old.grove)
            result self.old self.new }
    {
        let Some((above, below)) = both(&self.nodes, parent, child) else {
            return Err(FaultKind::NoNode);
        };
        if !is_under(&self.records[below], above) {
            return Err(FaultKind::NotChild);
        }
        detach(&mut self.records, below);
        Ok(())
    }

    // Moves the child with all below it to just before the next, or faults.
    fn put_before(&mut self, parent: u32, child: u32, next: u32) -> Result<(), FaultKind>
        ensures { (store : Store) → Did (inserting (node_at (node_number parent) self.old.grove)
            (node_at (node_number child) self.old.grove)
            (node_at (node_number next) self.old.grove) store self.old.grove)
            result self.old self.new }
    {
        let Some((above, below, makes_cycle)) = ends(&self.records, &self.nodes, parent, child)
        else {
            return Err(FaultKind::NoNode);
        };
        let before = match find(&self.nodes, next) {
            Some(key) => key,
            None => return Err(FaultKind::NoNode),
        };
        if child == next {
            return Err(FaultKind::SelfRef);
        }
        if makes_cycle {
            return Err(FaultKind::Cycle);
        }
        if !is_under(&self.records[before], above) {
            return Err(FaultKind::NotChild);
        }
        detach(&mut self.records, below);
        attach_before(&mut self.records, below, above, before);
        Ok(())
    }
}

// The keys of the two nodes of a move, and whether the parent is the child or stands below it: none
// exactly where there is no such node.
fn ends(
    records: &Slab<Record>,
    nodes: &[Pair],
    parent: u32,
    child: u32,
) -> Option<(usize, usize, bool)>
    requires { OfHeap records.now nodes.now }
    ensures keys { MatchOption result (LacksOne nodes.now parent child)
        (λ ends. HasBoth nodes.now parent child ends.0 ends.1) }
    ensures cycle { IfSome result (λ ends.
        uses parent (tree_at child (grove_of records.now nodes.now)) ≡ cond ends.2 1 0) }
{
    let (above, below) = both(nodes, parent, child)?;
    // nothing stands below a node without children
    if above != below && records[below].first.is_none() {
        return Some((above, below, false));
    }
    let mut current = above;
    loop {
        if current == below {
            return Some((above, below, true));
        }
        match records[current].parent {
            Some(next) => current = next,
            None => return Some((above, below, false)),
        }
    }
}

// The keys of a parent and a child: none exactly where there is no such node.
fn both(nodes: &[Pair], parent: u32, child: u32) -> Option<(usize, usize)>
    requires { Rising nodes.now }
    ensures { MatchOption result (LacksOne nodes.now parent child)
        (λ keys. HasBoth nodes.now parent child keys.0 keys.1) }
{
    Some((find(nodes, parent)?, find(nodes, child)?))
}
