// Contexts of trees, forests and groves, and the pieces that go into them.
ghost use Rattle.std.specs.Prelude.{◌≡◌, IfOk};
ghost use Rattle.context_apply.specs.Contexts.{tree_context_of, forest_inner_of, forest_context_of, grove_inner_of, grove_context_of, context_seen, piece_seen};

use dom_terms::{Copied, OutOfMemory, Text};
use grove_data::{Forest, Grove, Tree};
use std::alloc::Global;

/// A context of a tree, with one hole.
#[derive(Debug, Drop)]
#[cycle(contexts)]
pub enum TreeContext {
    /// The hole, for a tree.
    Hole,
    /// A node: its name, its number, its children with the hole among or below them, and the number
    /// of their list.
    Node(Text, u32, Box<ForestContext>, u32),
}

/// What stands between the two forests of a context of a forest.
#[derive(Debug, Drop)]
#[cycle(contexts)]
pub enum ForestInner {
    /// The hole, for a forest.
    Hole,
    /// One context of a tree.
    One(TreeContext),
}

/// A context of a forest, with one hole.
#[derive(Debug, Drop)]
#[cycle(contexts)]
pub struct ForestContext {
    /// The trees before the inner part.
    pub left: Forest,
    /// The inner part, which has the hole.
    pub inner: ForestInner,
    /// The trees after the inner part.
    pub right: Forest,
}

/// What stands beside the rest of the roots of a context of a grove.
#[derive(Debug, Drop)]
pub enum GroveInner {
    /// The hole, for a grove.
    Hole,
    /// One root, a context of a tree.
    Root(TreeContext),
}

/// A context of a grove, with one hole.
#[derive(Debug, Drop)]
pub struct GroveContext {
    /// The inner part, which has the hole.
    pub inner: GroveInner,
    /// The other roots. Their order has no meaning.
    pub rest: Grove,
}

/// A context with one hole.
#[derive(Debug, Drop)]
pub enum Context {
    /// One that gives a tree.
    Tree(TreeContext),
    /// One that gives a forest.
    Forest(ForestContext),
    /// One that gives a grove.
    Grove(GroveContext),
}

/// A tree, a forest or a grove.
#[derive(Debug, Drop)]
pub enum Piece {
    /// A tree.
    Tree(Tree),
    /// A forest.
    Forest(Forest),
    /// A grove.
    Grove(Grove),
}

impl Copied for TreeContext {
    ghost use Rattle.model_shapes.specs.Contexts as model;

    ghost Seen = { model.TreeContext };

    ghost seen = { tree_context_of };

    #[cycle(context_copy)]
    fn copy(&self, alloc: Global) -> Result<TreeContext, OutOfMemory>
        ensures { IfOk result (λ copied. tree_context_of copied ≡ tree_context_of self.now) }
    {
        match self {
            Self::Hole => Ok(Self::Hole),
            Self::Node(name, id, inside, list) => {
                let name = name.copy(alloc)?;
                let inside = Box::new(alloc, inside.copy(alloc)?)?;
                Ok(Self::Node(name, *id, inside, *list))
            }
        }
    }
}

impl Copied for ForestInner {
    ghost use Rattle.model_shapes.specs.Contexts as model;

    ghost Seen = { model.ForestInner };

    ghost seen = { forest_inner_of };

    #[cycle(context_copy)]
    fn copy(&self, alloc: Global) -> Result<ForestInner, OutOfMemory>
        ensures { IfOk result (λ copied. forest_inner_of copied ≡ forest_inner_of self.now) }
    {
        match self {
            Self::Hole => Ok(Self::Hole),
            Self::One(inside) => Ok(Self::One(inside.copy(alloc)?)),
        }
    }
}

impl Copied for ForestContext {
    ghost use Rattle.model_shapes.specs.Contexts as model;

    ghost Seen = { model.ForestContext };

    ghost seen = { forest_context_of };

    #[cycle(context_copy)]
    fn copy(&self, alloc: Global) -> Result<ForestContext, OutOfMemory>
        ensures { IfOk result (λ copied. forest_context_of copied ≡ forest_context_of self.now) }
    {
        Ok(ForestContext {
            left: self.left.copy(alloc)?,
            inner: self.inner.copy(alloc)?,
            right: self.right.copy(alloc)?,
        })
    }
}

impl Copied for GroveInner {
    ghost use Rattle.std.specs.Prelude as plain;
    ghost use Rattle.model_shapes.specs.Contexts as model;

    ghost Seen = { plain.Option model.TreeContext };

    ghost seen = { grove_inner_of };

    fn copy(&self, alloc: Global) -> Result<GroveInner, OutOfMemory>
        ensures { IfOk result (λ copied. grove_inner_of copied ≡ grove_inner_of self.now) }
    {
        match self {
            Self::Hole => Ok(Self::Hole),
            Self::Root(root) => Ok(Self::Root(root.copy(alloc)?)),
        }
    }
}

impl Copied for GroveContext {
    ghost use Rattle.model_shapes.specs.Contexts as model;

    ghost Seen = { model.GroveContext };

    ghost seen = { grove_context_of };

    fn copy(&self, alloc: Global) -> Result<GroveContext, OutOfMemory>
        ensures { IfOk result (λ copied. grove_context_of copied ≡ grove_context_of self.now) }
    {
        Ok(GroveContext {
            inner: self.inner.copy(alloc)?,
            rest: self.rest.copy(alloc)?,
        })
    }
}

impl Copied for Context {
    ghost use Rattle.model_shapes.specs.Sorts as sorts;
    ghost use Rattle.model_shapes.specs.Trees as trees;

    ghost Seen = { sorts.Sort × trees.Trees };

    ghost seen = { context_seen };

    fn copy(&self, alloc: Global) -> Result<Context, OutOfMemory>
        ensures { IfOk result (λ copied. context_seen copied ≡ context_seen self.now) }
    {
        match self {
            Self::Tree(context) => Ok(Self::Tree(context.copy(alloc)?)),
            Self::Forest(context) => Ok(Self::Forest(context.copy(alloc)?)),
            Self::Grove(context) => Ok(Self::Grove(context.copy(alloc)?)),
        }
    }
}

impl Copied for Piece {
    ghost use Rattle.model_shapes.specs.Sorts as sorts;
    ghost use Rattle.model_shapes.specs.Trees as trees;

    ghost Seen = { sorts.Sort × trees.Trees };

    ghost seen = { piece_seen };

    fn copy(&self, alloc: Global) -> Result<Piece, OutOfMemory>
        ensures { IfOk result (λ copied. piece_seen copied ≡ piece_seen self.now) }
    {
        match self {
            Self::Tree(tree) => Ok(Self::Tree(tree.copy(alloc)?)),
            Self::Forest(forest) => Ok(Self::Forest(forest.copy(alloc)?)),
            Self::Grove(grove) => Ok(Self::Grove(grove.copy(alloc)?)),
        }
    }
}
