// A plain grove as a document.
ghost use Rattle.std.specs.Prelude.{◌≡◌, OnOk, OnErr};
ghost use Rattle.model_shapes.specs.Trees.{WellFormed, beside};
ghost use Rattle.model_shapes.specs.Values.{FitsValue, node_number, int};
ghost use Rattle.model_terms.specs.Stores as stores;
ghost use Rattle.model_terms.specs.Stores.{set};
ghost use Rattle.model_machine.specs.Machine.{appending, inserting, inserting_at, removing};
ghost use Rattle.model_groves.specs.Groves.{node_at, number_at, item_of};
ghost use Rattle.dom_terms.specs.Sorts.{value_sort_of};
ghost use Rattle.dom_terms.specs.Terms.{prog_var_of};
ghost use Rattle.dom_terms.specs.Values.{value_seen};
ghost use Rattle.dom_terms.specs.Stores.{store_of};
ghost use Rattle.grove_data.specs.Finding.{number_or_null};
ghost use Rattle.grove_data.specs.Trees.{tree_of, forest_of};
ghost use Rattle.dom_meaning.specs.Plain.{MovesTo};

use crate::documents::Document;
use crate::faults::{Creation, FaultKind, MoveFault, StepFault};
use crate::picks::is_free;
use dom_terms::limits::NODES;
use dom_terms::{Copied, LimitKind, List, OutOfMemory, ProgVar, Store, Text, Value};
use grove_data::{
    Forest, Grove, Tree, find, find_list, has_at_most, has_root, is_within, moved_before,
    moved_below, moved_to_roots, parent_of,
};
use std::alloc::Global;

// The most nodes that a grove may have.
const MOST_NODES: usize = NODES;

/// A grove, and the numbers that a new node is given.
#[derive(Drop)]
pub(crate) struct Picked {
    /// The grove.
    pub grove: Grove,
    /// The number of the node and that of its list.
    pub pick: (u32, u32),
}

impl Document for Picked {
    ghost use Rattle.std.specs.Prelude.{◌≡◌, None, refl};
    ghost use Rattle.grove_data.specs.Trees.{forest_of};
    ghost use Rattle.dom_meaning.specs.Configs.{pick_of};

    ghost grove = { λ document. forest_of document.grove };

    ghost StandsFor = { λ document trees. trees ≡ forest_of document.grove };

    ghost Keeps = { λ before after. after ≡ before };

    ghost pick = { λ document. pick_of document.pick };

    ghost numbers_limit = { λ document. None };

    fn node_name(&self, node: u32) -> Result<&Text, FaultKind> {
        match find(&self.grove, node) {
            Some(tree) => Ok(&tree.name),
            None => Err(FaultKind::NoNode),
        }
    }

    fn child_nodes(&self, node: u32) -> Result<u32, FaultKind> {
        match find(&self.grove, node) {
            Some(tree) => Ok(tree.list),
            None => Err(FaultKind::NoNode),
        }
    }

    #[tactic(auto, using(crate::proofs::MoveLaws::parent_read))]
    fn parent_node(&self, node: u32) -> Result<Option<u32>, FaultKind> {
        match parent_of(&self.grove, node) {
            Some(parent) => Ok(parent),
            None => Err(FaultKind::NoNode),
        }
    }

    fn list_item(&self, list: u32, place: i64) -> Result<Option<u32>, FaultKind> {
        match find_list(&self.grove, list) {
            Some(tree) => Ok(item_at(&tree.kids, place)),
            None => Err(FaultKind::NoList),
        }
    }

    fn create_node(
        &mut self,
        alloc: Global,
        variable: &ProgVar,
        name: Text,
        store: &mut Store,
    ) -> Result<Creation, StepFault> {
        if !has_at_most(&self.grove, MOST_NODES - 1) {
            return Err(StepFault::Limit(LimitKind::Nodes));
        }
        if !is_free(self.pick, &self.grove) {
            return Ok(Creation::BadPick);
        }
        let (node, list) = self.pick;
        let kids = List::new(alloc);
        let root = Tree {
            name,
            id: node,
            kids,
            list,
        };
        let variable = variable.copy(alloc)?;
        plant(&mut self.grove, root, variable, Value::Node(node), store)?;
        Ok(Creation::Made { node, list })
    }

    #[tactic(auto, using(crate::proofs::PlainLaws::plain_rules))]
    fn insert_child(
        &mut self,
        alloc: Global,
        parent: u32,
        child: u32,
        next: Option<u32>,
    ) -> Result<(), MoveFault> {
        match inserted(alloc, &self.grove, parent, child, next) {
            Ok(grove) => {
                self.grove = grove;
                Ok(())
            }
            Err(fault) => Err(fault),
        }
    }

    #[tactic(auto, using(crate::proofs::PlainLaws::plain_rules))]
    fn remove_child(&mut self, alloc: Global, parent: u32, child: u32) -> Result<(), MoveFault> {
        match removed(alloc, &self.grove, parent, child) {
            Ok(grove) => {
                self.grove = grove;
                Ok(())
            }
            Err(fault) => Err(fault),
        }
    }

    ghost stands = { λ document. refl };

    ghost keeps = { λ document. refl };
}

// Adds the root and sets the variable. Where memory is refused nothing is changed.
#[tactic(auto, using(grove_data::proofs::Walks::root_at_end))]
fn plant(
    grove: &mut Grove,
    root: Tree,
    variable: ProgVar,
    value: Value,
    store: &mut Store,
) -> Result<(), OutOfMemory>
    requires { FitsValue (value_sort_of variable.sort) (value_seen value) }
    ensures store { OnOk result (store_of store.new
        ≡ set (prog_var_of variable) (value_seen value) (store_of store.old)) }
    ensures grove { OnOk result (forest_of grove.new
        ≡ beside (forest_of grove.old) (tree_of root)) }
    ensures err { OnErr result ((store.new ≡ store.old) × (grove.new ≡ grove.old)) }
{
    let place = grove.len();
    grove.push(root)?;
    let set = store.set(variable, value);
    if set.is_err() {
        let _root = grove.remove(place);
    }
    set
}

// The child at the place, counted from 0.
fn item_at(kids: &Forest, place: i64) -> Option<u32>
    ensures { number_or_null result ≡ item_of (int place) (forest_of kids.now) }
{
    if place < 0 {
        return None;
    }
    child_at(kids, place as usize)
}

// The child at the place.
#[tactic(auto, using(crate::proofs::Reading::child_there, crate::proofs::Reading::no_child))]
fn child_at(kids: &Forest, place: usize) -> Option<u32>
    ensures { number_or_null result ≡ number_at place (forest_of kids.now) }
{
    match kids.get(place) {
        Some(child) => Some(child.id),
        None => None,
    }
}

// The grove with the tree of the second number at the end of the children of the first, or just
// before the next. It faults where a number is that of no node; else where the second is the next;
// else where the first stands in the tree of the second; and else where the next is no child of the
// first.
fn inserted(
    alloc: Global,
    grove: &Grove,
    parent: u32,
    child: u32,
    next: Option<u32>,
) -> Result<Grove, MoveFault>
    requires { WellFormed (forest_of grove.now) }
    ensures { (store : stores.Store) → MovesTo (inserting_at (number_or_null next)
        (node_at (node_number parent) (forest_of grove.now))
        (node_at (node_number child) (forest_of grove.now)) store (forest_of grove.now))
        store result }
{
    let Some(parent) = find(grove, parent) else {
        return Err(MoveFault::Fault(FaultKind::NoNode));
    };
    let Some(child) = find(grove, child) else {
        return Err(MoveFault::Fault(FaultKind::NoNode));
    };
    put(alloc, parent, child, next, grove)
}

// The child goes before the next, or after all where there is none.
fn put(
    alloc: Global,
    parent: &Tree,
    child: &Tree,
    next: Option<u32>,
    grove: &Grove,
) -> Result<Grove, MoveFault>
    requires { WellFormed (forest_of grove.now) }
    ensures { (store : stores.Store) → MovesTo (inserting_at (number_or_null next)
        (tree_of parent.now) (tree_of child.now) store (forest_of grove.now)) store result }
{
    match next {
        Some(next) => put_before(alloc, parent, child, next, grove),
        None => appended(alloc, parent, child, grove),
    }
}

// The child goes before the node with the number.
fn put_before(
    alloc: Global,
    parent: &Tree,
    child: &Tree,
    next: u32,
    grove: &Grove,
) -> Result<Grove, MoveFault>
    requires { WellFormed (forest_of grove.now) }
    ensures { (store : stores.Store) → MovesTo (inserting (tree_of parent.now)
        (tree_of child.now) (node_at (node_number next) (forest_of grove.now)) store
        (forest_of grove.now)) store result }
{
    match find(grove, next) {
        Some(next) => inserted_before(alloc, parent, child, next, grove),
        None => Err(MoveFault::Fault(FaultKind::NoNode)),
    }
}

// The child goes below the parent, unless the parent stands in its tree.
fn appended(alloc: Global, parent: &Tree, child: &Tree, grove: &Grove) -> Result<Grove, MoveFault>
    ensures { (store : stores.Store) → MovesTo (appending (tree_of parent.now)
        (tree_of child.now) store (forest_of grove.now)) store result }
{
    if is_within(child, parent.id) {
        return Err(MoveFault::Fault(FaultKind::Cycle));
    }
    Ok(moved_below(alloc, grove, child, parent.id)?)
}

// The child goes before the next, where that is another node and one of the parent's, unless the
// parent stands in the child's tree.
fn inserted_before(
    alloc: Global,
    parent: &Tree,
    child: &Tree,
    next: &Tree,
    grove: &Grove,
) -> Result<Grove, MoveFault>
    ensures { (store : stores.Store) → MovesTo (inserting (tree_of parent.now)
        (tree_of child.now) (tree_of next.now) store (forest_of grove.now)) store result }
{
    if child.id == next.id {
        return Err(MoveFault::Fault(FaultKind::SelfRef));
    }
    let is_cycle = is_within(child, parent.id);
    if is_cycle {
        return Err(MoveFault::Fault(FaultKind::Cycle));
    }
    if !has_root(&parent.kids, next.id) {
        return Err(MoveFault::Fault(FaultKind::NotChild));
    }
    Ok(moved_before(alloc, grove, child, next.id)?)
}

// The grove with the tree of the second number among the roots, where it is a child of the first.
fn removed(alloc: Global, grove: &Grove, parent: u32, child: u32) -> Result<Grove, MoveFault>
    requires { WellFormed (forest_of grove.now) }
    ensures { (store : stores.Store) → MovesTo (removing
        (node_at (node_number parent) (forest_of grove.now))
        (node_at (node_number child) (forest_of grove.now)) store (forest_of grove.now))
        store result }
{
    let Some(parent) = find(grove, parent) else {
        return Err(MoveFault::Fault(FaultKind::NoNode));
    };
    let Some(child) = find(grove, child) else {
        return Err(MoveFault::Fault(FaultKind::NoNode));
    };
    if !has_root(&parent.kids, child.id) {
        return Err(MoveFault::Fault(FaultKind::NotChild));
    }
    Ok(moved_to_roots(alloc, grove, child)?)
}
