// The questions of a grove that the program doesn't ask, and small groves for all tests.
ghost use Rattle.std.specs.Prelude.{◌≡◌, IfOk, codes};
ghost use Rattle.model_shapes.specs.Trees as shapes;
ghost use Rattle.model_shapes.specs.Trees.{none, WellFormed};
ghost use Rattle.model_documents.specs.Roots.{Rising};
ghost use Rattle.grove_data.specs.Trees.{tree_of, forest_of};

use dom_terms::{List, OutOfMemory, Text, with};
use grove_data::{Forest, Grove, Tree, find_list, parent_of, same_sorted, sort_roots};
use std::alloc::Global;
use std::process::Abort;
use std::test::Fail;

// a node with these children, whose list has the node's number
pub(crate) fn tree(alloc: Global, name: &str, id: u32, kids: Forest) -> Result<Tree, OutOfMemory>
    ensures { IfOk result (λ whole.
        tree_of whole ≡ shapes.node name.now id (forest_of kids) id none) }
{
    let name = Text::from_str(alloc, name)?;
    Ok(Tree {
        name,
        id,
        kids,
        list: id,
    })
}

// the forest of one node without children
pub(crate) fn leaf(alloc: Global, name: &str, id: u32) -> Result<Forest, OutOfMemory>
    ensures { IfOk result (λ leaf. forest_of leaf ≡ shapes.node name.now id none id none) }
{
    let mut leaf = List::new(alloc);
    leaf.push(tree(alloc, name, id, List::new(alloc))?)?;
    Ok(leaf)
}

// `["html"#1[<"a"#2[0f]%2> * <"b"#3[0f]%3>]%1]`
pub(crate) fn document(alloc: Global) -> Result<Grove, OutOfMemory>
    ensures well_formed { IfOk result (λ grove. WellFormed (forest_of grove)) }
    ensures rising { IfOk result (λ grove. Rising (forest_of grove)) }
{
    let mut kids = List::new(alloc);
    kids.push(tree(alloc, "a", 2, List::new(alloc))?)?;
    kids.push(tree(alloc, "b", 3, List::new(alloc))?)?;
    let mut grove = List::new(alloc);
    grove.push(tree(alloc, "html", 1, kids)?)?;
    Ok(grove)
}

// Checks the questions of that grove.
fn check_found(rt: &impl Abort, grove: &Grove)
    requires { WellFormed (forest_of grove.now) }
{
    assert_eq!(rt; parent_of(grove, 3), Some(Some(1)));
    assert_eq!(rt; parent_of(grove, 1), Some(None));
    assert_eq!(rt; parent_of(grove, 9), None);
    assert_eq!(rt; find_list(grove, 2).map(|tree| tree.id), Some(2));
}

#[test]
fn parents_and_lists_are_found(rt: HostRuntime) -> Result<(), Fail> {
    let grove = document(rt.alloc())?;
    check_found(&rt, &grove);
    Ok(())
}

#[test]
fn sorted_groves_are_compared(rt: HostRuntime) -> Result<(), Fail> {
    let alloc = rt.alloc();
    let (grove, other) = with(document(alloc)?, document(alloc))?;
    assert_eq!(rt; same_sorted(&grove, &other), true);
    assert_eq!(rt; same_sorted(&grove, &List::new(alloc)), false);
    Ok(())
}

// two roots, the one with the greater number first
fn falling(alloc: Global) -> Result<Grove, OutOfMemory>
    ensures { IfOk result (λ grove. WellFormed (forest_of grove)) }
{
    let mut grove = List::new(alloc);
    grove.push(tree(alloc, "a", 2, List::new(alloc))?)?;
    grove.push(tree(alloc, "b", 1, List::new(alloc))?)?;
    Ok(grove)
}

#[test]
fn roots_are_sorted(rt: HostRuntime) -> Result<(), Fail> {
    let mut grove = falling(rt.alloc())?;
    let answer = sort_roots(&mut grove);
    let first = grove.get(0).map(|root| root.id);
    drop(grove);
    assert_eq!(rt; (answer, first), (Ok(()), Some(1)));
    Ok(())
}
