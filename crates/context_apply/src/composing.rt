// Contexts put into contexts.
ghost use Rattle.std.specs.Prelude.{◌≡◌, IfOk};
ghost use Rattle.model_shapes.specs.Sorts.{tree, forest, grove};
ghost use Rattle.model_shapes.specs.Trees.{fill, beside};
ghost use Rattle.model_shapes.specs.Contexts.{tree_thing, forest_thing, grove_thing, tree_hole_sort, forest_hole_sort, grove_hole_sort};
ghost use Rattle.grove_data.specs.Trees.{forest_of};
ghost use Rattle.context_apply.specs.Contexts.{tree_context_of, forest_context_of, grove_context_of, context_thing, hole_sort_of, outer_sort_of};
ghost use Rattle.context_apply.specs.Clashes.{NoZero, Reports};

use crate::contexts::{Context, ForestContext, ForestInner, GroveContext, GroveInner, TreeContext};
use crate::faults::PlugFault;
use crate::forests::joined;
use crate::plugging::{filled, refuse_clash};
use dom_terms::{Copied, OutOfMemory};
use grove_data::{Forest, Grove};
use std::alloc::Global;

/// The outer context with the inner one in the place of its hole. Clash comes exactly where the
/// number of a node, or that of a children list, would stand twice.
pub fn compose(alloc: Global, outer: &Context, inner: &Context) -> Result<Context, PlugFault>
    requires sort { outer_sort_of inner.now ≡ hole_sort_of outer.now }
    requires outside { NoZero (context_thing outer.now) }
    requires inside { NoZero (context_thing inner.now) }
    ensures whole { IfOk result (λ composed. context_thing composed
        ≡ fill (context_thing outer.now) (context_thing inner.now)) }
    ensures hole { IfOk result (λ composed. hole_sort_of composed ≡ hole_sort_of inner.now) }
    ensures sort { IfOk result (λ composed. outer_sort_of composed ≡ outer_sort_of outer.now) }
    ensures clash { Reports result (fill (context_thing outer.now) (context_thing inner.now)) }
{
    let composed = composed(alloc, outer, inner)?;
    refuse_clash_in(alloc, &composed)?;
    Ok(composed)
}

// a clash, where a number stands twice in the context
fn refuse_clash_in(alloc: Global, context: &Context) -> Result<(), PlugFault>
    requires { NoZero (context_thing context.now) }
    ensures { Reports result (context_thing context.now) }
{
    let trees = filled(alloc, context, &[])?;
    refuse_clash(alloc, &trees)
}

// the outer context with the inner one in the place of its hole
fn composed(alloc: Global, outer: &Context, inner: &Context) -> Result<Context, OutOfMemory>
    requires { outer_sort_of inner.now ≡ hole_sort_of outer.now }
    ensures whole { IfOk result (λ composed. context_thing composed
        ≡ fill (context_thing outer.now) (context_thing inner.now)) }
    ensures hole { IfOk result (λ composed. hole_sort_of composed ≡ hole_sort_of inner.now) }
    ensures sort { IfOk result (λ composed. outer_sort_of composed ≡ outer_sort_of outer.now) }
{
    match outer {
        Context::Tree(outer) => Ok(Context::Tree(composed_tree(alloc, outer, inner)?)),
        Context::Forest(outer) => Ok(Context::Forest(composed_forest(alloc, outer, inner)?)),
        Context::Grove(outer) => Ok(Context::Grove(composed_grove(alloc, outer, inner)?)),
    }
}

// the context of a grove with the inner context in the place of its hole
#[tactic(auto, using(crate::proofs::Filled::filled_rules))]
fn composed_grove(
    alloc: Global,
    outer: &GroveContext,
    inner: &Context,
) -> Result<GroveContext, OutOfMemory>
    requires { outer_sort_of inner.now ≡ grove_hole_sort (grove_context_of outer.now) }
    ensures whole { IfOk result (λ composed. grove_thing (grove_context_of composed)
        ≡ fill (grove_thing (grove_context_of outer.now)) (context_thing inner.now)) }
    ensures hole { IfOk result (λ composed.
        grove_hole_sort (grove_context_of composed) ≡ hole_sort_of inner.now) }
{
    let rest = outer.rest.copy(alloc)?;
    match &outer.inner {
        GroveInner::Hole => with_rest(grove_context(inner).copy(alloc)?, rest),
        GroveInner::Root(root) => {
            let inner = GroveInner::Root(composed_tree(alloc, root, inner)?);
            Ok(GroveContext { inner, rest })
        }
    }
}

// the context of a tree with the inner context in the place of its hole
#[cycle(composed)]
fn composed_tree(
    alloc: Global,
    outer: &TreeContext,
    inner: &Context,
) -> Result<TreeContext, OutOfMemory>
    requires { outer_sort_of inner.now ≡ tree_hole_sort (tree_context_of outer.now) }
    ensures whole { IfOk result (λ composed. tree_thing (tree_context_of composed)
        ≡ fill (tree_thing (tree_context_of outer.now)) (context_thing inner.now)) }
    ensures hole { IfOk result (λ composed.
        tree_hole_sort (tree_context_of composed) ≡ hole_sort_of inner.now) }
{
    match outer {
        TreeContext::Hole => tree_context(inner).copy(alloc),
        TreeContext::Node(name, id, inside, list) => {
            let name = name.copy(alloc)?;
            let inside = Box::new(alloc, composed_forest(alloc, inside, inner)?)?;
            Ok(TreeContext::Node(name, *id, inside, *list))
        }
    }
}

// the context of a forest with the inner context in the place of its hole
#[tactic(auto, using(crate::proofs::Filled::filled_rules))]
#[cycle(composed)]
fn composed_forest(
    alloc: Global,
    outer: &ForestContext,
    inner: &Context,
) -> Result<ForestContext, OutOfMemory>
    requires { outer_sort_of inner.now ≡ forest_hole_sort (forest_context_of outer.now) }
    ensures whole { IfOk result (λ composed. forest_thing (forest_context_of composed)
        ≡ fill (forest_thing (forest_context_of outer.now)) (context_thing inner.now)) }
    ensures hole { IfOk result (λ composed.
        forest_hole_sort (forest_context_of composed) ≡ hole_sort_of inner.now) }
{
    let left = outer.left.copy(alloc)?;
    let right = outer.right.copy(alloc)?;
    match &outer.inner {
        ForestInner::Hole => between(left, forest_context(inner).copy(alloc)?, right),
        ForestInner::One(inside) => {
            let inner = ForestInner::One(composed_tree(alloc, inside, inner)?);
            Ok(ForestContext { left, inner, right })
        }
    }
}

// the context of a forest between two forests
#[tactic(auto, using(model_shapes::proofs::Basics::beside_assoc))]
fn between(left: Forest, inside: ForestContext, right: Forest) -> Result<ForestContext, OutOfMemory>
    ensures whole { IfOk result (λ whole. forest_thing (forest_context_of whole)
        ≡ beside (forest_of left)
        (beside (forest_thing (forest_context_of inside)) (forest_of right))) }
    ensures hole { IfOk result (λ whole. forest_hole_sort (forest_context_of whole)
        ≡ forest_hole_sort (forest_context_of inside)) }
{
    Ok(ForestContext {
        left: joined(left, inside.left)?,
        inner: inside.inner,
        right: joined(inside.right, right)?,
    })
}

// the context of a grove beside other roots
fn with_rest(inside: GroveContext, rest: Grove) -> Result<GroveContext, OutOfMemory>
    ensures whole { IfOk result (λ whole. grove_thing (grove_context_of whole)
        ≡ beside (grove_thing (grove_context_of inside)) (forest_of rest)) }
    ensures hole { IfOk result (λ whole. grove_hole_sort (grove_context_of whole)
        ≡ grove_hole_sort (grove_context_of inside)) }
{
    Ok(GroveContext {
        inner: inside.inner,
        rest: joined(inside.rest, rest)?,
    })
}

// the context of a tree that a context is
fn tree_context(context: &Context) -> &TreeContext
    requires { outer_sort_of context.now ≡ tree }
    ensures { context.now ≡ Context.Tree result.now }
{
    match context {
        Context::Tree(context) => context,
        _ => unreachable!(),
    }
}

// the context of a forest that a context is
fn forest_context(context: &Context) -> &ForestContext
    requires { outer_sort_of context.now ≡ forest }
    ensures { context.now ≡ Context.Forest result.now }
{
    match context {
        Context::Forest(context) => context,
        _ => unreachable!(),
    }
}

// the context of a grove that a context is
fn grove_context(context: &Context) -> &GroveContext
    requires { outer_sort_of context.now ≡ grove }
    ensures { context.now ≡ Context.Grove result.now }
{
    match context {
        Context::Grove(context) => context,
        _ => unreachable!(),
    }
}
