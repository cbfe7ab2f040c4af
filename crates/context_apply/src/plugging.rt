// Pieces put into contexts.
ghost use Rattle.std.specs.Prelude.{◌≡◌, IfOk};
ghost use Rattle.model_shapes.specs.Trees.{fill, width};
ghost use Rattle.model_shapes.specs.Contexts.{tree_thing, forest_thing, inner_thing, grove_thing};
ghost use Rattle.model_shapes.specs.Shapes.{HasWidth};
ghost use Rattle.grove_data.specs.Trees.{forest_of};
ghost use Rattle.dom_terms.specs.Sorts.{data_sort_of};
ghost use Rattle.context_apply.specs.Contexts.{tree_context_of, forest_inner_of, forest_context_of, grove_context_of, context_thing, hole_sort_of, outer_sort_of, piece_thing, piece_sort_of};
ghost use Rattle.context_apply.specs.Clashes.{NoZero, Reports};

use crate::contexts::{
    Context, ForestContext, ForestInner, GroveContext, GroveInner, Piece, TreeContext,
};
use crate::faults::PlugFault;
use crate::forests::{copied, joined};
use crate::sorts::outer_sort;
use dom_terms::{Copied, DataSort, List, OutOfMemory};
use grove_data::{Forest, Grove, Tree, UniqueFault, check_unique};
use std::alloc::Global;
use std::slice;

/// The context with a piece in the place of its hole. Clash comes exactly where the number of a
/// node, or that of a children list, would stand twice.
pub fn plug(alloc: Global, context: &Context, piece: &Piece) -> Result<Piece, PlugFault>
    requires sort { piece_sort_of piece.now ≡ hole_sort_of context.now }
    requires outside { NoZero (context_thing context.now) }
    requires inside { NoZero (piece_thing piece.now) }
    ensures whole { IfOk result (λ whole. piece_thing whole
        ≡ fill (context_thing context.now) (piece_thing piece.now)) }
    ensures sort { IfOk result (λ whole. piece_sort_of whole ≡ outer_sort_of context.now) }
    ensures clash { Reports result (fill (context_thing context.now) (piece_thing piece.now)) }
{
    let whole = filled(alloc, context, trees_of(piece))?;
    refuse_clash(alloc, &whole)?;
    Ok(as_piece(outer_sort(context), whole))
}

// a clash, where a number stands twice in the trees
pub(crate) fn refuse_clash(alloc: Global, trees: &Grove) -> Result<(), PlugFault>
    requires { NoZero (forest_of trees.now) }
    ensures { Reports result (forest_of trees.now) }
{
    match check_unique(alloc, trees) {
        Ok(()) => Ok(()),
        Err(UniqueFault::Repeated { .. }) => Err(PlugFault::Clash),
        Err(UniqueFault::OutOfMemory) => Err(PlugFault::OutOfMemory),
    }
}

// the trees as a piece of the sort
fn as_piece(sort: DataSort, mut trees: Forest) -> Piece
    requires { HasWidth (data_sort_of sort) (width (forest_of trees)) }
    ensures thing { piece_thing result ≡ forest_of trees }
    ensures sort { piece_sort_of result ≡ data_sort_of sort }
{
    match sort {
        DataSort::Tree => Piece::Tree(trees.remove(0)),
        DataSort::Forest => Piece::Forest(trees),
        DataSort::Grove => Piece::Grove(trees),
    }
}

// the trees of a piece, in order
fn trees_of(piece: &Piece) -> &[Tree]
    ensures { forest_of result.now ≡ piece_thing piece.now }
{
    match piece {
        Piece::Tree(tree) => slice::from_ref(tree),
        Piece::Forest(forest) => forest.as_slice(),
        Piece::Grove(grove) => grove.as_slice(),
    }
}

// the context with these trees in the place of its hole
pub(crate) fn filled(
    alloc: Global,
    context: &Context,
    trees: &[Tree],
) -> Result<Forest, OutOfMemory>
    ensures { IfOk result (λ whole. forest_of whole
        ≡ fill (context_thing context.now) (forest_of trees.now)) }
{
    match context {
        Context::Tree(context) => filled_tree(alloc, context, trees),
        Context::Forest(context) => filled_forest(alloc, context, trees),
        Context::Grove(context) => filled_grove(alloc, context, trees),
    }
}

// the context of a grove with these trees in the place of its hole
#[tactic(auto, using(crate::proofs::Filled::filled_rules))]
fn filled_grove(
    alloc: Global,
    context: &GroveContext,
    trees: &[Tree],
) -> Result<Forest, OutOfMemory>
    ensures { IfOk result (λ whole. forest_of whole
        ≡ fill (grove_thing (grove_context_of context.now)) (forest_of trees.now)) }
{
    let rest = context.rest.copy(alloc)?;
    match &context.inner {
        GroveInner::Hole => joined(copied(alloc, trees)?, rest),
        GroveInner::Root(root) => joined(filled_tree(alloc, root, trees)?, rest),
    }
}

// the context of a tree with these trees in the place of its hole
#[tactic(auto, using(crate::proofs::Filled::filled_rules))]
#[cycle(filled)]
fn filled_tree(alloc: Global, context: &TreeContext, trees: &[Tree]) -> Result<Forest, OutOfMemory>
    ensures { IfOk result (λ whole. forest_of whole
        ≡ fill (tree_thing (tree_context_of context.now)) (forest_of trees.now)) }
{
    match context {
        TreeContext::Hole => copied(alloc, trees),
        TreeContext::Node(name, id, inside, list) => {
            let name = name.copy(alloc)?;
            let kids = filled_forest(alloc, inside, trees)?;
            let (id, list) = (*id, *list);
            let mut whole = List::new(alloc);
            whole.push(Tree {
                name,
                id,
                kids,
                list,
            })?;
            Ok(whole)
        }
    }
}

// the context of a forest with these trees in the place of its hole
#[tactic(auto, using(crate::proofs::Filled::filled_rules))]
#[cycle(filled)]
fn filled_forest(
    alloc: Global,
    context: &ForestContext,
    trees: &[Tree],
) -> Result<Forest, OutOfMemory>
    ensures { IfOk result (λ whole. forest_of whole
        ≡ fill (forest_thing (forest_context_of context.now)) (forest_of trees.now)) }
{
    let inside = filled_inner(alloc, &context.inner, trees)?;
    let inside = joined(inside, context.right.copy(alloc)?)?;
    joined(context.left.copy(alloc)?, inside)
}

// the inner part of a context of a forest with these trees in the place of its hole
#[tactic(auto, using(crate::proofs::Filled::filled_rules))]
#[cycle(filled)]
fn filled_inner(alloc: Global, inner: &ForestInner, trees: &[Tree]) -> Result<Forest, OutOfMemory>
    ensures { IfOk result (λ whole. forest_of whole
        ≡ fill (inner_thing (forest_inner_of inner.now)) (forest_of trees.now)) }
{
    match inner {
        ForestInner::Hole => copied(alloc, trees),
        ForestInner::One(inside) => filled_tree(alloc, inside, trees),
    }
}
