//! Runs of procedures on a heap of nodes.
//! Promises exactly the outcomes of the machine of the definitions on the grove that the heap
//! stands for, and that it stands for the grove of the steps taken, up to the order of roots; and
//! of a run step by step, each step and its change.
//! Stands on what comes of commands on a document, and on heaps.
#![tactic(auto)]

mod advancing;
mod effects;
mod outcomes;
mod pieces;
mod placing;
mod runs;
mod stack;

pub use advancing::{HeapRun, HeapStep};
pub use outcomes::HeapOutcome;
pub use runs::run_heap;
