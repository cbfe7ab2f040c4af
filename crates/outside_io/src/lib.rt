//! Where books come from and where output goes: libraries and sinks, in memory and for real.
//! A whole book is read and a whole output is written exactly as far as the outside tells its
//! content, and a failure comes only where a count of failures rose. It stands on std alone.
#![tactic(auto)]

mod folder;
mod library;
mod screen;
mod shelf;
mod sink;
mod tape;

pub use folder::Folder;
pub use library::{Library, MOST_BYTES, ReadAllFault, read_all};
pub use screen::Screen;
pub use shelf::Shelf;
pub use sink::{Sink, write_all_of};
pub use tape::Tape;

/// A fetch or a put that failed.
#[derive(Clone, Copy, Debug, PartialEq, Eq)]
pub struct Failed;
