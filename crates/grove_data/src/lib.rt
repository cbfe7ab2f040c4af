//! Trees, forests and groves as the program holds them.
//! Promises that each is seen as the plain data of the definitions, that a copy has the same view,
//! and that what is found, counted and sorted is what the definitions say.
//! Stands on the texts and lists of the program and on the definitions of groves and documents.
#![tactic(auto)]

mod changing;
mod counting;
mod finding;
mod letting_go;
mod roots;
mod trees;
mod unique;

pub use changing::{moved_before, moved_below, moved_to_roots};
pub use counting::{greatest_ids, has_at_most};
pub use finding::{find, find_list, has_list, has_node, has_root, is_within, parent_of};
pub use letting_go::let_go;
pub use roots::{same_sorted, sort_roots};
pub use trees::{Forest, Grove, IdKind, Tree};
pub use unique::{UniqueFault, check_unique};
