//! Contexts of trees, forests and groves as the program holds them, plugged, composed and cut out.
//! Promises that each is seen as a context of the definitions, that plugging and composing fill the
//! hole and are refused exactly where a number would stand twice, and that what is cut out fits back.
//! Stands on the trees, forests and groves of the program.
#![tactic(auto)]

mod composing;
mod contexts;
mod cutting;
mod faults;
mod forests;
mod laws;
mod plugging;
mod sorts;

pub use composing::compose;
pub use contexts::{
    Context, ForestContext, ForestInner, GroveContext, GroveInner, Piece, TreeContext,
};
pub use cutting::cut_at;
pub use faults::PlugFault;
pub use laws::{contexts_are_plain, pieces_are_plain, plain_contexts_are_held};
pub use plugging::plug;
pub use sorts::{hole_sort, outer_sort};
