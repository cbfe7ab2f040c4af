//! Groves as heaps of linked records, in which a node is found, made and moved with no copy of the
//! grove and no memory.
//! Promises that each call does what the machine's step does with the grove that the heap stands
//! for, and that the heap stands for a grove always. It stands for one up to the order of roots.
//! Stands on the texts, groves and faults of the program, on its writing of literals, and on the
//! machine of the definitions.
#![tactic(auto)]

mod building;
mod creating;
mod document;
mod heap;
mod index;
mod moving;
mod reading;
mod records;
mod visiting;
mod walking;
mod writing;

pub use creating::NoNumber;
pub use heap::NodeHeap;
