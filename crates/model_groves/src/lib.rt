//! The definitions of what is found in a grove and changed in it, of its sizes and of the numbers
//! that a new node may have, with no Rust data. Promises that they say what is meant: their laws
//! are functions here, each with an empty body. Stands on model_shapes.
#![tactic(auto)]

ghost use Rattle.std.specs.Prelude.{◌≡◌, ◌≤◌, ℕ, true};
ghost use Rattle.model_shapes.specs.Sorts.{context};
ghost use Rattle.model_shapes.specs.Trees.{Trees, fill, node_uses, WellFormed};
ghost use Rattle.model_shapes.specs.Shapes.{holes};
ghost use Rattle.model_groves.specs.Picks.{is_free, next_pick};
ghost use Rattle.model_groves.specs.Groves.{nodes_where, numbered, without, adding, adding_before};

/// Nodes of the data in a context are found, taken out and added to in the data: the context, which
/// isn't reached, stays.
pub fn what_is_not_reached_stays()
    ensures found { (n : ℕ) (outside piece : Trees) → holes outside ≡ 1
        → WellFormed (fill outside piece) → 1 ≤ node_uses n piece
        → nodes_where (numbered n) (fill outside piece) ≡ nodes_where (numbered n) piece }
    ensures taken_out { (n : ℕ) (outside piece : Trees) → holes outside ≡ 1
        → WellFormed (fill outside piece) → 1 ≤ node_uses n piece
        → without n (fill outside piece) ≡ fill outside (without n piece) }
    ensures added { (n : ℕ) (more outside piece : Trees) → holes outside ≡ 1
        → WellFormed (fill outside piece) → 1 ≤ node_uses n piece
        → adding n more (fill outside piece) ≡ fill outside (adding n more piece) }
    ensures added_before { (n : ℕ) (more outside piece : Trees) → holes outside ≡ 1
        → WellFormed (fill outside piece) → 1 ≤ node_uses n piece
        → adding_before n more (fill outside piece) ≡ fill outside (adding_before n more piece) }
{}

/// The next pick of a grove is free.
pub fn next_picks_are_free()
    ensures { (roots : Trees) → is_free (next_pick roots) roots ≡ true }
{}
