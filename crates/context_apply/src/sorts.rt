// The sorts of a context: of its hole and of what it gives.
ghost use Rattle.std.specs.Prelude.{◌≡◌};
ghost use Rattle.model_shapes.specs.Contexts.{tree_hole_sort, forest_hole_sort, inner_hole_sort};
ghost use Rattle.dom_terms.specs.Sorts.{data_sort_of};
ghost use Rattle.context_apply.specs.Contexts.{tree_context_of, forest_inner_of, hole_sort_of, outer_sort_of};

use crate::contexts::{Context, ForestInner, GroveInner, TreeContext};
use dom_terms::DataSort;

/// The sort of the hole of a context.
pub fn hole_sort(context: &Context) -> DataSort
    ensures { data_sort_of result ≡ hole_sort_of context.now }
{
    match context {
        Context::Tree(context) => hole_of_tree(context),
        Context::Forest(context) => hole_of_inner(&context.inner),
        Context::Grove(context) => match &context.inner {
            GroveInner::Hole => DataSort::Grove,
            GroveInner::Root(root) => hole_of_tree(root),
        },
    }
}

/// The sort of what a context gives.
pub fn outer_sort(context: &Context) -> DataSort
    ensures { data_sort_of result ≡ outer_sort_of context.now }
{
    match context {
        Context::Tree(_) => DataSort::Tree,
        Context::Forest(_) => DataSort::Forest,
        Context::Grove(_) => DataSort::Grove,
    }
}

// the sort of the hole of a context of a tree
#[cycle(hole_sorts)]
fn hole_of_tree(context: &TreeContext) -> DataSort
    ensures { data_sort_of result ≡ tree_hole_sort (tree_context_of context.now) }
{
    match context {
        TreeContext::Hole => DataSort::Tree,
        TreeContext::Node(_, _, inside, _) => hole_of_inner(&inside.inner),
    }
}

// the sort of the hole of the inner part of a context of a forest
#[cycle(hole_sorts)]
fn hole_of_inner(inner: &ForestInner) -> DataSort
    ensures { data_sort_of result ≡ inner_hole_sort (forest_inner_of inner.now) }
{
    match inner {
        ForestInner::Hole => DataSort::Forest,
        ForestInner::One(inside) => hole_of_tree(inside),
    }
}
