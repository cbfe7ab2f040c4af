// The greatest numbers of a grove, and how many nodes it has.
ghost use Rattle.std.specs.Prelude.{◌≡◌, ◌+◌, ◌<◌, max, nat_le, MatchOption};
ghost use Rattle.model_groves.specs.Sizes.{greatest_node, greatest_list, size};
ghost use Rattle.grove_data.specs.Trees.{tree_of, forest_of};

use crate::trees::{Forest, Grove, Tree};

/// The greatest number of a node and the greatest number of a list: 0 where there is none.
pub fn greatest_ids(grove: &Grove) -> (u32, u32)
    ensures node { result.0 ≡ greatest_node (forest_of grove.now) }
    ensures list { result.1 ≡ greatest_list (forest_of grove.now) }
{
    greatest_among(grove, (0, 0))
}

/// Whether the grove has at most so many nodes.
pub fn has_at_most(grove: &Grove, most: usize) -> bool
    ensures { result ≡ nat_le (size (forest_of grove.now)) most }
{
    left_by_forest(grove, most).is_some()
}

// the greatest of these numbers and those of the tree
#[cycle(greatest)]
#[tactic(auto, using(crate::proofs::Counts::greatest_in_tree))]
fn greatest_in(tree: &Tree, before: (u32, u32)) -> (u32, u32)
    ensures node { result.0 ≡ max before.0 (greatest_node (tree_of tree.now)) }
    ensures list { result.1 ≡ max before.1 (greatest_list (tree_of tree.now)) }
{
    let (node, list) = before;
    greatest_among(&tree.kids, (node.max(tree.id), list.max(tree.list)))
}

// the same of the forest
#[cycle(greatest)]
#[tactic(auto, using(crate::proofs::Counts::greatest_in_turn))]
fn greatest_among(forest: &Forest, before: (u32, u32)) -> (u32, u32)
    ensures node { result.0 ≡ max before.0 (greatest_node (forest_of forest.now)) }
    ensures list { result.1 ≡ max before.1 (greatest_list (forest_of forest.now)) }
{
    let mut greatest = before;
    for tree in forest.as_slice() {
        greatest = greatest_in(tree, greatest);
    }
    greatest
}

// how many nodes may still come after the tree: none where it has too many
#[cycle(left)]
#[tactic(auto, using(crate::proofs::Counts::size_in_tree))]
fn left_by_tree(tree: &Tree, most: usize) -> Option<usize>
    ensures { MatchOption result (most < size (tree_of tree.now))
        (λ left. left + size (tree_of tree.now) ≡ most) }
{
    left_by_forest(&tree.kids, most.checked_sub(1)?)
}

// the same of the forest
#[cycle(left)]
#[tactic(auto, using(crate::proofs::Counts::size_at_place))]
fn left_by_forest(forest: &Forest, most: usize) -> Option<usize>
    ensures { MatchOption result (most < size (forest_of forest.now))
        (λ left. left + size (forest_of forest.now) ≡ most) }
{
    let mut left = most;
    for tree in forest.as_slice() {
        left = left_by_tree(tree, left)?;
    }
    Some(left)
}
