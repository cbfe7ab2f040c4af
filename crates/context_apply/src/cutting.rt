// A node cut out of a grove, with its context.
ghost use Rattle.std.specs.Prelude.{◌≡◌, ◌↔◌, IfOk, IfSome, IsNone};
ghost use Rattle.model_shapes.specs.Sorts.{tree, grove};
ghost use Rattle.model_shapes.specs.Trees.{fill, node_uses, WellFormed};
ghost use Rattle.model_shapes.specs.Shapes.{SameAt};
ghost use Rattle.model_shapes.specs.Contexts.{tree_thing, forest_thing, grove_thing, tree_hole_sort, forest_hole_sort, grove_hole_sort};
ghost use Rattle.grove_data.specs.Trees.{tree_of, forest_of};
ghost use Rattle.grove_data.specs.declared.trees.Tree.{out-Tree};
ghost use Rattle.context_apply.specs.Contexts.{tree_context_of, forest_context_of, grove_context_of, context_thing};
ghost use Rattle.context_apply.specs.Cuts.{IsCutFrom};

use crate::contexts::{Context, ForestContext, ForestInner, GroveContext, GroveInner, TreeContext};
use crate::forests::{copied, joined};
use dom_terms::{Copied, OutOfMemory};
use grove_data::{Forest, Grove, Tree};
use std::alloc::Global;

/// The tree whose node has the number, and the context of the grove that it leaves when it is cut
/// out: none exactly where no node has the number. Both are well formed where the grove is.
pub fn cut_at(alloc: Global, grove: &Grove, id: u32) -> Result<Option<(Context, Tree)>, OutOfMemory>
    ensures absent { IfOk result (λ cut. IsNone cut ↔ (node_uses id (forest_of grove.now) ≡ 0)) }
    ensures found { IfOk result (λ cut. IfSome cut (IsCutFrom (forest_of grove.now) id)) }
    ensures proper { WellFormed (forest_of grove.now) → IfOk result (λ cut. IfSome cut (λ cut.
        WellFormed (context_thing cut.0) × WellFormed (tree_of cut.1))) }
{
    let Some((inside, cut)) = cut_forest(alloc, grove, id)? else {
        return Ok(None);
    };
    Ok(Some((Context::Grove(as_grove(inside)?), cut)))
}

// the tree with the number in a tree, and the context that it leaves
#[cycle(cutting)]
fn cut_tree(
    alloc: Global,
    whole: &Tree,
    id: u32,
) -> Result<Option<(TreeContext, Tree)>, OutOfMemory>
    ensures absent { IfOk result (λ cut. IsNone cut ↔ (node_uses id (tree_of whole.now) ≡ 0)) }
    ensures found { IfOk result (λ cut. IfSome cut (λ cut.
        (fill (tree_thing (tree_context_of cut.0)) (tree_of cut.1) ≡ tree_of whole.now)
        × (tree_hole_sort (tree_context_of cut.0) ≡ tree) × ((out-Tree cut.1).id ≡ id))) }
{
    if whole.id == id {
        return Ok(Some((TreeContext::Hole, whole.copy(alloc)?)));
    }
    let Some((inside, cut)) = cut_forest(alloc, &whole.kids, id)? else {
        return Ok(None);
    };
    let name = whole.name.copy(alloc)?;
    let inside = Box::new(alloc, inside)?;
    let root = TreeContext::Node(name, whole.id, inside, whole.list);
    Ok(Some((root, cut)))
}

// the same in a forest
#[cycle(cutting)]
fn cut_forest(
    alloc: Global,
    whole: &Forest,
    id: u32,
) -> Result<Option<(ForestContext, Tree)>, OutOfMemory>
    ensures absent { IfOk result (λ cut. IsNone cut ↔ (node_uses id (forest_of whole.now) ≡ 0)) }
    ensures found { IfOk result (λ cut. IfSome cut (λ cut.
        (fill (forest_thing (forest_context_of cut.0)) (tree_of cut.1) ≡ forest_of whole.now)
        × (forest_hole_sort (forest_context_of cut.0) ≡ tree) × ((out-Tree cut.1).id ≡ id))) }
{
    let trees = whole.as_slice();
    for (place, root) in trees.iter().enumerate() {
        if let Some((inside, cut)) = cut_tree(alloc, root, id)? {
            let left = copied(alloc, &trees[..place])?;
            let right = copied(alloc, &trees[place + 1..])?;
            let inner = ForestInner::One(inside);
            return Ok(Some((ForestContext { left, inner, right }, cut)));
        }
    }
    Ok(None)
}

// the context of a forest with a hole for a tree, as one of a grove
fn as_grove(context: ForestContext) -> Result<GroveContext, OutOfMemory>
    requires { forest_hole_sort (forest_context_of context) ≡ tree }
    ensures same { IfOk result (λ whole. SameAt grove (grove_thing (grove_context_of whole))
        (forest_thing (forest_context_of context))) }
    ensures hole { IfOk result (λ whole. grove_hole_sort (grove_context_of whole) ≡ tree) }
{
    let ForestContext { left, inner, right } = context;
    match inner {
        ForestInner::One(root) => {
            let inner = GroveInner::Root(root);
            let rest = joined(left, right)?;
            Ok(GroveContext { inner, rest })
        }
        ForestInner::Hole => unreachable!(),
    }
}
