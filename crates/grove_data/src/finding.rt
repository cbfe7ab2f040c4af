// Nodes found by a number: their own, that of their list, or that of a child.
ghost use Rattle.std.specs.Prelude.{◌≡◌, ◌≢◌, ◌↔◌, true, Some, None};
ghost use Rattle.std.specs.Prelude.{MatchOption, option_copied};
ghost use Rattle.std.specs.Option.{option_map};
ghost use Rattle.model_shapes.specs.Values.{node_number, list_number};
ghost use Rattle.model_shapes.specs.Trees as shapes;
ghost use Rattle.model_shapes.specs.Trees.{node_uses, list_uses, WellFormed};
ghost use Rattle.model_groves.specs.Groves as groves;
ghost use Rattle.model_groves.specs.Groves.{nodes_where, parental, first_number};
ghost use Rattle.model_groves.specs.Groves.{node_at, list_at, positive};
ghost use Rattle.grove_data.specs.Trees.{tree_of, forest_of};
ghost use Rattle.grove_data.specs.Finding.{test_of, first_tree, number_or_null};
ghost use Rattle.grove_data.specs.declared.trees.Tree.{out-Tree};

use crate::trees::{Forest, Grove, Tree};

// what is looked for
#[derive(Clone, Copy)]
enum Wanted {
    // the node with the number
    Node(u32),
    // the node whose list of children has the number
    List(u32),
    // the node that has the node with the number as a child
    Parent(u32),
}

/// The node with the number: none exactly where no node has it.
#[tactic(auto, using(crate::proofs::FirstFound::single_node))]
pub fn find(grove: &Grove, id: u32) -> Option<&Tree>
    requires { WellFormed (forest_of grove.now) }
    ensures { MatchOption (option_copied result)
        (node_at (node_number id) (forest_of grove.now) ≡ shapes.none)
        (λ tree. node_at (node_number id) (forest_of grove.now) ≡ tree_of tree) }
{
    first_among(grove, Wanted::Node(id))
}

/// The node whose list of children has the number: none exactly where no list has it.
#[tactic(auto, using(crate::proofs::FirstFound::single_list))]
pub fn find_list(grove: &Grove, list: u32) -> Option<&Tree>
    requires { WellFormed (forest_of grove.now) }
    ensures { MatchOption (option_copied result)
        (list_at (list_number list) (forest_of grove.now) ≡ shapes.none)
        (λ tree. list_at (list_number list) (forest_of grove.now) ≡ tree_of tree) }
{
    first_among(grove, Wanted::List(list))
}

/// The number of the node that has this one as a child: none exactly where no node has the number,
/// and no parent exactly where it is the number of a root.
#[tactic(auto, using(crate::proofs::Parents::nowhere_found))]
pub fn parent_of(grove: &Grove, id: u32) -> Option<Option<u32>>
    requires { WellFormed (forest_of grove.now) }
    ensures parent { MatchOption result
        (node_at (node_number id) (forest_of grove.now) ≡ shapes.none)
        (λ parent. (node_at (node_number id) (forest_of grove.now) ≢ shapes.none)
        × (first_number (nodes_where (parental id) (forest_of grove.now))
        ≡ number_or_null parent)) }
    ensures root { (result ≡ Some None) ↔ (groves.has_root id (forest_of grove.now) ≡ true) }
{
    if has_root(grove, id) {
        return Some(None);
    }
    let parent = first_among(grove, Wanted::Parent(id))?;
    Some(Some(parent.id))
}

/// Whether the node with the number is this one or stands below it.
#[tactic(auto, using(crate::proofs::Uses::told_of_node))]
pub fn is_within(tree: &Tree, id: u32) -> bool
    ensures { result ≡ positive (node_uses id (tree_of tree.now)) }
{
    first_in(tree, Wanted::Node(id)).is_some()
}

/// Whether a node of the forest has the number.
#[tactic(auto, using(crate::proofs::Uses::told_of_node))]
pub fn has_node(forest: &Forest, id: u32) -> bool
    ensures { result ≡ positive (node_uses id (forest_of forest.now)) }
{
    first_among(forest, Wanted::Node(id)).is_some()
}

/// Whether a children list of the forest has the number.
#[tactic(auto, using(crate::proofs::Uses::told_of_list))]
pub fn has_list(forest: &Forest, list: u32) -> bool
    ensures { result ≡ positive (list_uses list (forest_of forest.now)) }
{
    first_among(forest, Wanted::List(list)).is_some()
}

/// Whether a root of the forest has the number.
#[tactic(auto, using(crate::proofs::FirstFound::roots_in_turn))]
pub fn has_root(forest: &Forest, id: u32) -> bool
    ensures { result ≡ groves.has_root id (forest_of forest.now) }
{
    for tree in forest.as_slice() {
        if tree.id == id {
            return true;
        }
    }
    false
}

// whether the node is what is wanted
fn is_wanted(tree: &Tree, wanted: Wanted) -> bool
    ensures { result ≡ test_of wanted (out-Tree tree.now).id (forest_of (out-Tree tree.now).kids)
        (out-Tree tree.now).list }
{
    match wanted {
        Wanted::Node(id) => tree.id == id,
        Wanted::List(list) => tree.list == list,
        Wanted::Parent(id) => has_root(&tree.kids, id),
    }
}

// the first node in the tree that is wanted, in document order
#[cycle(first)]
#[tactic(auto, using(crate::proofs::FirstFound::first_in_tree))]
fn first_in(tree: &Tree, wanted: Wanted) -> Option<&Tree>
    ensures { option_map tree_of (option_copied result)
        ≡ first_tree (nodes_where (test_of wanted) (tree_of tree.now)) }
{
    if is_wanted(tree, wanted) {
        return Some(tree);
    }
    first_among(&tree.kids, wanted)
}

// the same in the forest
#[cycle(first)]
#[tactic(auto, using(crate::proofs::FirstFound::first_in_turn))]
fn first_among(forest: &Forest, wanted: Wanted) -> Option<&Tree>
    ensures { option_map tree_of (option_copied result)
        ≡ first_tree (nodes_where (test_of wanted) (forest_of forest.now)) }
{
    for tree in forest.as_slice() {
        if let Some(found) = first_in(tree, wanted) {
            return Some(found);
        }
    }
    None
}
