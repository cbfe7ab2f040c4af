// Contexts: filled, composed and cut out of a grove.
ghost use Rattle.std.specs.Prelude.{◌≡◌, ◌<◌, IfOk, codes};
ghost use Rattle.model_shapes.specs.Sorts.{forest};
ghost use Rattle.model_shapes.specs.Trees.{none, node, hole};
ghost use Rattle.context_apply.specs.Contexts.{context_thing, hole_sort_of, outer_sort_of};

use crate::groves::{document, leaf};
use context_apply::{
    Context, ForestContext, ForestInner, Piece, PlugFault, compose, cut_at, hole_sort, outer_sort,
    plug,
};
use dom_terms::{DataSort, List, OutOfMemory, with};
use std::alloc::Global;
use std::test::Fail;

// the hole for a forest after `<"a"#1[0f]%1>`
fn behind_leaf(alloc: Global) -> Result<Context, OutOfMemory>
    ensures whole { IfOk result (λ outside.
        context_thing outside ≡ node (codes "a") 1 none 1 (hole none)) }
    ensures hole { IfOk result (λ outside. hole_sort_of outside ≡ forest) }
    ensures sort { IfOk result (λ outside. outer_sort_of outside ≡ forest) }
{
    Ok(Context::Forest(ForestContext {
        left: leaf(alloc, "a", 1)?,
        inner: ForestInner::Hole,
        right: List::new(alloc),
    }))
}

// a hole for a forest with nothing round it
fn bare_hole(alloc: Global) -> Context
    ensures whole { context_thing result ≡ hole none }
    ensures sort { outer_sort_of result ≡ forest }
{
    Context::Forest(ForestContext {
        left: List::new(alloc),
        inner: ForestInner::Hole,
        right: List::new(alloc),
    })
}

// what stands after that leaf when the hole takes `<"b"#id[0f]%id>`
fn plugged(alloc: Global, id: u32) -> Result<Piece, PlugFault>
    requires { 0 < id }
{
    let (context, forest) = with(behind_leaf(alloc)?, leaf(alloc, "b", id))?;
    let piece = Piece::Forest(forest);
    let answer = plug(alloc, &context, &piece);
    drop((context, piece));
    answer
}

// the hole after the leaf, with a bare hole in its place
fn composed(alloc: Global) -> Result<Context, PlugFault> {
    let context = behind_leaf(alloc)?;
    let hole = bare_hole(alloc);
    let answer = compose(alloc, &context, &hole);
    drop((context, hole));
    answer
}

#[test]
fn pieces_are_plugged_where_no_number_stands_twice(rt: HostRuntime) -> Result<(), Fail> {
    let alloc = rt.alloc();
    assert!(rt; matches!(plugged(alloc, 1), Err(PlugFault::Clash)));
    let Piece::Forest(whole) = plugged(alloc, 2)? else {
        return Err(Fail::from("no forest"));
    };
    let mut want = leaf(alloc, "a", 1)?;
    want.append(&mut leaf(alloc, "b", 2)?)?;
    let want = format!(in alloc; "{want:?}")?;
    assert_eq!(rt; format!(in alloc; "{whole:?}")?.as_str(), want.as_str());
    Ok(())
}

#[test]
fn a_bare_hole_composes_to_an_equal_context(rt: HostRuntime) -> Result<(), Fail> {
    let alloc = rt.alloc();
    let want = format!(in alloc; "{:?}", behind_leaf(alloc)?)?;
    let answer = format!(in alloc; "{:?}", composed(alloc)?)?;
    assert_eq!(rt; answer.as_str(), want.as_str());
    Ok(())
}

#[test]
fn a_tree_is_cut_out(rt: HostRuntime) -> Result<(), Fail> {
    let alloc = rt.alloc();
    let grove = document(alloc)?;
    assert!(rt; cut_at(alloc, &grove, 9)?.is_none());
    let (context, cut) = cut_at(alloc, &grove, 3)?.ok_or("no tree")?;
    assert_eq!(rt; (cut.name.as_str(), cut.id, cut.kids.len()), ("b", 3, 0));
    let sorts = (hole_sort(&context), outer_sort(&context));
    assert_eq!(rt; sorts, (DataSort::Tree, DataSort::Grove));
    Ok(())
}
