//! The definitions of what stands at each number of a grove, which the records of a heap follow,
//! and the lemmas on how a move of a tree changes it, with no Rust data.
//! Nothing here needs to be believed: the contracts of heaps speak of groves alone.
//! Stands on model_shapes and model_groves.
#![tactic(auto)]
