// Trees, forests and groves.
ghost use Rattle.std.specs.Prelude.{◌≡◌, IfOk, map};
ghost use Rattle.grove_data.specs.Trees.{tree_of};

use dom_terms::{Copied, List, OutOfMemory, Text};
use std::alloc::Global;

/// A list of trees, in order.
pub type Forest = List<Tree>;

/// The trees of a grove. Their order has no meaning.
pub type Grove = List<Tree>;

/// A node: its name, its number, its children, and the number of their list.
#[derive(Debug, Drop)]
pub struct Tree {
    /// The name.
    pub name: Text,
    /// The node number.
    pub id: u32,
    /// The children, in order.
    pub kids: Forest,
    /// The number of the list of children.
    pub list: u32,
}

/// What a number is the number of.
#[derive(Clone, Copy, Debug, PartialEq, Eq)]
pub enum IdKind {
    /// A node.
    Node,
    /// A children list.
    List,
}

impl Copied for Tree {
    ghost use Rattle.model_shapes.specs.Trees as model;

    ghost Seen = { model.Trees };

    ghost seen = { tree_of };

    #[cycle(tree_copy)]
    fn copy(&self, alloc: Global) -> Result<Tree, OutOfMemory>
        ensures { IfOk result (λ copied. tree_of copied ≡ tree_of self.now) }
    {
        Ok(Tree {
            name: self.name.copy(alloc)?,
            id: self.id,
            kids: copied_forest(alloc, &self.kids)?,
            list: self.list,
        })
    }
}

// a copy of the forest
#[cycle(tree_copy)]
fn copied_forest(alloc: Global, forest: &Forest) -> Result<Forest, OutOfMemory>
    ensures { IfOk result (λ copied. map tree_of copied ≡ map tree_of forest.now) }
{
    let mut copied = List::new(alloc);
    for tree in forest.as_slice() {
        copied.push(tree.copy(alloc)?)?;
    }
    Ok(copied)
}
