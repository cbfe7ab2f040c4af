// Heaps of nodes: a move to just before another, and what the program doesn't ask for: the grove
// and the copy that are made of a heap.
use crate::groves::document;
use dom_meaning::FaultKind;
use dom_terms::OutOfMemory;
use logic_text::write_grove;
use node_heap::NodeHeap;
use std::alloc::Global;
use std::process::Abort;
use std::test::Fail;

const DOCUMENT: &str = "[\"html\"#1[<\"a\"#2[0f]%2> * <\"b\"#3[0f]%3>]%1]";

const TURNED: &str = "[\"html\"#1[<\"b\"#3[0f]%3> * <\"a\"#2[0f]%2>]%1]";

// the heap of the worked document
fn worked(alloc: Global) -> Result<NodeHeap, OutOfMemory> {
    NodeHeap::from_grove(alloc, &document(alloc)?)
}

// Checks a move to just before another child, and what is refused of one, in that heap.
fn check_moves(rt: &impl Abort, alloc: Global, heap: &mut NodeHeap) -> Result<(), Fail> {
    assert_eq!(rt; heap.insert_before(1, 3, Some(3)), Err(FaultKind::SelfRef));
    assert_eq!(rt; heap.write_text(alloc)?.as_str(), DOCUMENT);
    assert_eq!(rt; heap.insert_before(1, 3, Some(2)), Ok(()));
    assert_eq!(rt; heap.write_text(alloc)?.as_str(), TURNED);
    Ok(())
}

// Checks that the grove and the copy of that heap are written as it is.
fn check_made_of(rt: &impl Abort, alloc: Global, heap: &NodeHeap) -> Result<(), Fail> {
    let grove = heap.to_grove(alloc)?;
    let text = write_grove(alloc, &grove);
    drop(grove);
    assert_eq!(rt; text?.as_str(), TURNED);
    let copied = heap.copy(alloc)?;
    let text = copied.write_text(alloc);
    drop(copied);
    assert_eq!(rt; text?.as_str(), TURNED);
    Ok(())
}

// Checks both.
fn check_worked(rt: &impl Abort, alloc: Global, heap: &mut NodeHeap) -> Result<(), Fail> {
    check_moves(rt, alloc, heap)?;
    check_made_of(rt, alloc, heap)
}

#[test]
fn a_child_moves_before_another(rt: HostRuntime) -> Result<(), Fail> {
    let mut heap = worked(rt.alloc())?;
    let answer = check_worked(&rt, rt.alloc(), &mut heap);
    drop(heap);
    answer
}
