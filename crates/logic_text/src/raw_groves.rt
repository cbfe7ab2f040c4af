// Groves as they are read, whose numbers may be out of range.
ghost use Rattle.std.specs.Prelude.{◌≡◌, IfOk, map};
ghost use Rattle.logic_text.specs.RawGroves.{raw_tree_of};

use dom_terms::{Copied, List, OutOfMemory, Text};
use std::alloc::Global;

/// A list of trees as they are read, in order.
pub type RawForest = List<RawTree>;

/// The trees of a grove as they are read, in the order of the text.
pub type RawGrove = List<RawTree>;

/// A node as it is read: its numbers may be out of range.
#[derive(Debug, Drop)]
pub struct RawTree {
    /// The name.
    pub name: Text,
    /// The node number.
    pub id: u64,
    /// The children, in order.
    pub kids: RawForest,
    /// The number of the list of children.
    pub list: u64,
}

impl Copied for RawTree {
    ghost use Rattle.model_shapes.specs.Trees as model;

    ghost Seen = { model.Trees };

    ghost seen = { raw_tree_of };

    #[cycle(raw_tree_copy)]
    fn copy(&self, alloc: Global) -> Result<RawTree, OutOfMemory>
        ensures { IfOk result (λ copied. raw_tree_of copied ≡ raw_tree_of self.now) }
    {
        Ok(RawTree {
            name: self.name.copy(alloc)?,
            id: self.id,
            kids: copied_forest(alloc, &self.kids)?,
            list: self.list,
        })
    }
}

// A copy of the forest.
#[cycle(raw_tree_copy)]
fn copied_forest(alloc: Global, forest: &RawForest) -> Result<RawForest, OutOfMemory>
    ensures { IfOk result (λ copied. map raw_tree_of copied ≡ map raw_tree_of forest.now) }
{
    let mut copied = List::new(alloc);
    for tree in forest.as_slice() {
        copied.push(tree.copy(alloc)?)?;
    }
    Ok(copied)
}
