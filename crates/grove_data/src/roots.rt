// Groves whose roots are sorted.
ghost use Rattle.std.specs.Prelude.{◌≡◌, ◌↔◌, IsTrue, OnOk, OnErr};
ghost use Rattle.model_shapes.specs.Trees.{WellFormed};
ghost use Rattle.model_shapes.specs.Sorts.{grove};
ghost use Rattle.model_shapes.specs.Shapes.{SameAt};
ghost use Rattle.model_documents.specs.Roots.{sorted_roots, Rising};
ghost use Rattle.grove_data.specs.Trees.{tree_of, forest_of};
ghost use Rattle.grove_data.specs.SameTrees.{same_trees};

use crate::trees::{Forest, Grove, Tree};
use dom_terms::{OutOfMemory, same_text};

/// Sorts the roots by rising number. Where memory is refused they stand as they did.
pub fn sort_roots(grove: &mut Grove) -> Result<(), OutOfMemory>
    requires { WellFormed (forest_of grove.old) }
    ensures sorted { OnOk result (forest_of grove.new ≡ sorted_roots (forest_of grove.old)) }
    ensures err { OnErr result (grove.new ≡ grove.old) }
{
    grove.sort_by_key(|root| root.id)
}

/// Whether two groves are the same whose roots are sorted.
#[tactic(auto, using(crate::proofs::Sorted::sorted_alike))]
pub fn same_sorted(a: &Grove, b: &Grove) -> bool
    requires first { WellFormed (forest_of a.now) }
    requires first_sorted { Rising (forest_of a.now) }
    requires second { WellFormed (forest_of b.now) }
    requires second_sorted { Rising (forest_of b.now) }
    ensures { IsTrue result ↔ SameAt grove (forest_of a.now) (forest_of b.now) }
{
    are_forests_equal(a, b)
}

// whether the trees are equal
#[cycle(equal)]
#[tactic(auto, using(crate::proofs::Sorted::trees_by_fields))]
fn are_equal(left: &Tree, right: &Tree) -> bool
    ensures { result ≡ same_trees (tree_of left.now) (tree_of right.now) }
{
    same_text(&left.name, &right.name)
        && left.id == right.id
        && left.list == right.list
        && are_forests_equal(&left.kids, &right.kids)
}

// the same of forests
#[cycle(equal)]
#[tactic(auto, using(crate::proofs::Sorted::forests_by_trees))]
fn are_forests_equal(left: &Forest, right: &Forest) -> bool
    ensures { result ≡ same_trees (forest_of left.now) (forest_of right.now) }
{
    let mut others = right.as_slice();
    for tree in left.as_slice() {
        let [other, further @ ..] = others else {
            return false;
        };
        if !are_equal(tree, other) {
            return false;
        }
        others = further;
    }
    matches!(others, [])
}
