// Forests joined to forests, with the trees beside a hole.
ghost use Rattle.std.specs.Prelude.{◌≡◌, IfOk};
ghost use Rattle.model_shapes.specs.Trees.{beside};
ghost use Rattle.grove_data.specs.Trees.{forest_of};

use dom_terms::{Copied, List, OutOfMemory};
use grove_data::{Forest, Tree};
use std::alloc::Global;

// a copy of the trees
pub(crate) fn copied(alloc: Global, trees: &[Tree]) -> Result<Forest, OutOfMemory>
    ensures { IfOk result (λ forest. forest_of forest ≡ forest_of trees.now) }
{
    let mut forest = List::new(alloc);
    for tree in trees {
        forest.push(tree.copy(alloc)?)?;
    }
    Ok(forest)
}

// the trees of the first forest, and after them those of the second
#[tactic(auto, using(crate::proofs::Joined::forest_rules))]
pub(crate) fn joined(mut left: Forest, mut right: Forest) -> Result<Forest, OutOfMemory>
    ensures { IfOk result (λ all. forest_of all ≡ beside (forest_of left) (forest_of right)) }
{
    left.append(&mut right)?;
    Ok(left)
}
