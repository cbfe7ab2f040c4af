//! Runs of procedures on a heap of nodes, whose changes are told to observers, boxed or not.
//! Promises the outcome of a run on the heap, the changes of the steps taken, and that each
//! observer was told these in their order.
//! Stands on the turns of runs on heaps, on changes and on lists of observers.
#![tactic(auto)]

mod tracing;

pub use tracing::{Traced, trace_heap};
