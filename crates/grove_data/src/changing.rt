// Groves in which a tree was moved. They are copies: the grove that is lent stays as it is.
ghost use Rattle.std.specs.Prelude.{◌≡◌, ◌≢◌, cond, IfOk};
ghost use Rattle.model_shapes.specs.Trees.{beside};
ghost use Rattle.model_groves.specs.Groves.{without, adding, adding_before};
ghost use Rattle.grove_data.specs.Trees.{tree_of, forest_of};
ghost use Rattle.grove_data.specs.Moving.{moving, in_front, below_here, before_here};
ghost use Rattle.grove_data.specs.declared.trees.Tree.{out-Tree};

use crate::trees::{Forest, Grove, Tree};
use dom_terms::{Copied, List, OutOfMemory};
use std::alloc::Global;

// where a tree that was taken out is put
#[derive(Clone, Copy)]
enum Place {
    // nowhere
    Nowhere,
    // at the end of the children of the node with the number
    Below(u32),
    // just before the tree of the number
    Before(u32),
}

/// The grove with the child's tree moved to the end of the children of the node with the number:
/// the tree of the child's number is taken out, and a copy of the child is put there.
pub fn moved_below(
    alloc: Global,
    grove: &Grove,
    child: &Tree,
    parent: u32,
) -> Result<Grove, OutOfMemory>
    ensures { IfOk result (λ moved. forest_of moved ≡ adding parent (tree_of child.now)
        (without (out-Tree child.now).id (forest_of grove.now))) }
{
    moved_among(alloc, grove, child, Place::Below(parent))
}

/// The grove with the child's tree moved to just before the tree of the number, wherever that is:
/// the tree of the child's number is taken out, and a copy of the child is put there.
pub fn moved_before(
    alloc: Global,
    grove: &Grove,
    child: &Tree,
    next: u32,
) -> Result<Grove, OutOfMemory>
    ensures { IfOk result (λ moved. forest_of moved ≡ adding_before next (tree_of child.now)
        (without (out-Tree child.now).id (forest_of grove.now))) }
{
    moved_among(alloc, grove, child, Place::Before(next))
}

/// The grove with the child's tree moved to the end of the roots: the tree of the child's number is
/// taken out, and a copy of the child is put there.
#[tactic(auto, using(crate::proofs::Walks::root_at_end))]
pub fn moved_to_roots(alloc: Global, grove: &Grove, child: &Tree) -> Result<Grove, OutOfMemory>
    ensures { IfOk result (λ moved. forest_of moved
        ≡ beside (without (out-Tree child.now).id (forest_of grove.now)) (tree_of child.now)) }
{
    let mut roots = moved_among(alloc, grove, child, Place::Nowhere)?;
    roots.push(child.copy(alloc)?)?;
    Ok(roots)
}

// the forest without the child's tree, with the child at its place
#[cycle(moved)]
#[tactic(auto, using(crate::proofs::Moves::moved_in_turn))]
fn moved_among(
    alloc: Global,
    forest: &Forest,
    child: &Tree,
    place: Place,
) -> Result<Forest, OutOfMemory>
    ensures { IfOk result (λ moved. forest_of moved
        ≡ moving place (out-Tree child.now).id (tree_of child.now) (forest_of forest.now)) }
{
    let mut moved = List::new(alloc);
    for tree in forest.as_slice() {
        if tree.id != child.id {
            moved = completed(alloc, moved, child, is_next(place, tree.id))?;
            moved.push(moved_in(alloc, tree, child, place)?)?;
        }
    }
    Ok(moved)
}

// the same of a tree that stays, without what comes before it
#[cycle(moved)]
#[tactic(auto, using(crate::proofs::Moves::moved_by_fields))]
fn moved_in(alloc: Global, tree: &Tree, child: &Tree, place: Place) -> Result<Tree, OutOfMemory>
    requires { (out-Tree tree.now).id ≢ (out-Tree child.now).id }
    ensures { IfOk result (λ moved.
        beside (in_front place (out-Tree tree.now).id (tree_of child.now)) (tree_of moved)
        ≡ moving place (out-Tree child.now).id (tree_of child.now) (tree_of tree.now)) }
{
    let kids = moved_among(alloc, &tree.kids, child, place)?;
    Ok(Tree {
        name: tree.name.copy(alloc)?,
        id: tree.id,
        kids: completed(alloc, kids, child, is_parent(place, tree.id))?,
        list: tree.list,
    })
}

// whether the child is put before the tree of the number
fn is_next(place: Place, id: u32) -> bool
    ensures { result ≡ before_here place id }
{
    match place {
        Place::Before(next) => next == id,
        _ => false,
    }
}

// whether the child is put below the node with the number
fn is_parent(place: Place, id: u32) -> bool
    ensures { result ≡ below_here place id }
{
    match place {
        Place::Below(parent) => parent == id,
        _ => false,
    }
}

// the trees, with the child after them where it is to be put there
#[tactic(auto, using(crate::proofs::Walks::root_at_end))]
fn completed(
    alloc: Global,
    mut trees: Forest,
    child: &Tree,
    has_child: bool,
) -> Result<Forest, OutOfMemory>
    ensures { IfOk result (λ completed. forest_of completed
        ≡ cond has_child (beside (forest_of trees) (tree_of child.now)) (forest_of trees)) }
{
    if has_child {
        trees.push(child.copy(alloc)?)?;
    }
    Ok(trees)
}
