//! The definitions of sorts, values, trees, forests, groves and contexts, with no Rust data.
//! Promises that they say what is meant: their laws are functions here, each with an empty body.
//! Stands on std alone.
#![tactic(auto)]

ghost use Rattle.std.specs.Prelude.{◌≡◌, ◌↔◌, true, ℤ};
ghost use Rattle.model_shapes.specs.Sorts.{ValueSort, DataSort, tree, forest, grove, Sort, shape, context, with_outer, is_sort};
ghost use Rattle.model_shapes.specs.Values.{Value};
ghost use Rattle.model_shapes.specs.Tests.{same_value_sort, same_data_sort, same_sort, int_eq, same_value};
ghost use Rattle.model_shapes.specs.Trees.{Trees, none, hole, beside, fill, WellFormed};
ghost use Rattle.model_shapes.specs.Shapes.{holes, Shaped, Same, SameAt};
ghost use Rattle.model_shapes.specs.Things.{Thing, trees, Fits};
ghost use Rattle.model_shapes.specs.Reordered.{Reordered};
ghost use Rattle.model_shapes.specs.Contexts.{TreeContext, ForestContext, ForestInner, between, GroveContext, grove_hole, root_context, tree_thing, forest_thing, inner_thing, grove_thing, tree_hole_sort, forest_hole_sort, grove_hole_sort, TreeBare, ForestBare, GroveBare, SameContext};

/// Each sort has a thing, and nothing fits the two that are no sorts.
pub fn sorts_have_things()
    ensures inhabited { (s : Sort) → is_sort s ≡ true → (x : Thing) × Fits s x }
    ensures only { (s : Sort) (x : Thing) → Fits s x → is_sort s ≡ true }
{}

/// The tests of equality that compute say yes exactly of what is equal.
pub fn tests_are_of_equality()
    ensures value_sorts { (a b : ValueSort) → ((same_value_sort a b ≡ true) ↔ (a ≡ b)) }
    ensures data_sorts { (a b : DataSort) → ((same_data_sort a b ≡ true) ↔ (a ≡ b)) }
    ensures sorts { (a b : Sort) → ((same_sort a b ≡ true) ↔ (a ≡ b)) }
    ensures integers { (a b : ℤ) → ((int_eq a b ≡ true) ↔ (a ≡ b)) }
    ensures values { (a b : Value) → ((same_value a b ≡ true) ↔ (a ≡ b)) }
{}

/// Each well-formed shape or context of a sort is the same as one that fits, and whatever fits is
/// well formed and of the sort.
pub fn a_thing_fits_up_to_sameness()
    ensures found { (s : Sort) (r : Trees) → Shaped s r
        → (t : Trees) × Same s r t × Fits s (trees t) }
    ensures shaped { (s : Sort) (r : Trees) → Fits s (trees r) → Shaped s r }
{}

/// Two groves are the same exactly where the roots of one are those of the other in some order.
pub fn same_groves_are_reordered()
    ensures { (a b : Trees) → SameAt grove a b ↔ Reordered a b }
{}

/// Whether two shapes or contexts are the same can be decided.
pub fn sameness_is_decided()
    ensures { (k : DataSort) (a b : Trees) → Dec (SameAt k a b) }
{}

/// What is the same as something well formed of a sort is well formed and of that sort.
pub fn the_same_has_the_sort()
    ensures { (s : Sort) (k : DataSort) (a b : Trees) → SameAt k a b → Shaped (with_outer k s) a
        → Shaped (with_outer k s) b }
{}

/// A context filled with a shape, or with a context, has the sort that it should, once it is well
/// formed; and a part of what is well formed is well formed.
pub fn filling_gives_the_sort()
    ensures whole { (h k : DataSort) (s : Sort) (outside piece : Trees)
        → Shaped (context h k) outside → Shaped (with_outer h s) piece
        → WellFormed (fill outside piece)
        → Shaped (with_outer k s) (fill outside piece) }
    ensures parts { (outside piece : Trees) → holes outside ≡ 1 → WellFormed (fill outside piece)
        → WellFormed outside × WellFormed piece }
{}

/// Filling a composed context is filling the outer one with the inner one, filled.
pub fn fill_composed()
    ensures { (outer inner piece : Trees)
        → fill (fill outer inner) piece ≡ fill outer (fill inner piece) }
{}

/// Where filling twice is defined, composing first is defined too, and the other way round.
pub fn filling_twice_is_defined_together()
    ensures composed { (h j k : DataSort) (outer inner piece : Trees) → Shaped (context j k) outer
        → Shaped (context h j) inner → WellFormed (fill outer (fill inner piece))
        → Shaped (context h k) (fill outer inner) × WellFormed (fill (fill outer inner) piece) }
    ensures filled { (h j k : DataSort) (s : Sort) (outer inner piece : Trees)
        → Shaped (context j k) outer → Shaped (context h j) inner → Shaped (with_outer h s) piece
        → WellFormed (fill (fill outer inner) piece)
        → Shaped (with_outer j s) (fill inner piece) × WellFormed (fill outer (fill inner piece)) }
{}

/// The same contexts filled with the same pieces are the same.
pub fn filling_keeps_sameness()
    ensures contexts { (k : DataSort) (a b piece : Trees) → SameAt k a b
        → SameAt k (fill a piece) (fill b piece) }
    ensures pieces { (h k : DataSort) (outside a b : Trees) → Shaped (context h k) outside
        → SameAt h a b → SameAt k (fill outside a) (fill outside b) }
{}

/// One context filled with two pieces gives the same only where the pieces are the same.
pub fn filling_cancels()
    ensures { (h k : DataSort) (outside a b : Trees) → Shaped (context h k) outside
        → Shaped (shape h) a → SameAt k (fill outside a) (fill outside b) → SameAt h a b }
{}

/// What stands in a context of a grove can be computed from the context and the grove.
pub fn what_stands_inside_is_computed()
    ensures { (h : DataSort) (outside : Trees) → Shaped (context h grove) outside
        → (inside : Trees → Trees) × ((whole piece : Trees) → Shaped (shape h) piece
        → SameAt grove whole (fill outside piece) → SameAt h piece (inside whole)) }
{}

/// Tree contexts by construction are the plain ones, one for one.
pub fn tree_contexts_are_plain()
    ensures plain { (c : TreeContext) → TreeBare c → WellFormed (tree_thing c)
        → Shaped (context (tree_hole_sort c) tree) (tree_thing c) }
    ensures constructed { (h : DataSort) (r : Trees) → Shaped (context h tree) r
        → (c : TreeContext) × (tree_thing c ≡ r) × (tree_hole_sort c ≡ h) × TreeBare c }
    ensures once { (c d : TreeContext) → TreeBare c → TreeBare d → tree_thing c ≡ tree_thing d
        → tree_hole_sort c ≡ tree_hole_sort d → c ≡ d }
{}

/// Forest contexts by construction are the plain ones, one for one.
pub fn forest_contexts_are_plain()
    ensures plain { (c : ForestContext) → ForestBare c → WellFormed (forest_thing c)
        → Shaped (context (forest_hole_sort c) forest) (forest_thing c) }
    ensures constructed { (h : DataSort) (r : Trees) → Shaped (context h forest) r
        → (c : ForestContext) × (forest_thing c ≡ r) × (forest_hole_sort c ≡ h) × ForestBare c }
    ensures once { (c d : ForestContext) → ForestBare c → ForestBare d
        → forest_thing c ≡ forest_thing d → forest_hole_sort c ≡ forest_hole_sort d → c ≡ d }
{}

/// Grove contexts by construction are the plain ones, one for one up to the order of roots.
pub fn grove_contexts_are_plain()
    ensures plain { (c : GroveContext) → GroveBare c → WellFormed (grove_thing c)
        → Shaped (context (grove_hole_sort c) grove) (grove_thing c) }
    ensures constructed { (h : DataSort) (r : Trees) → Shaped (context h grove) r
        → (c : GroveContext) × SameAt grove r (grove_thing c) × (grove_hole_sort c ≡ h)
        × GroveBare c }
    ensures once { (c d : GroveContext) → GroveBare c → GroveBare d
        → grove_hole_sort c ≡ grove_hole_sort d
        → (SameAt grove (grove_thing c) (grove_thing d) ↔ SameContext c d) }
{}

/// Filling, case by case: a forest goes between its two neighbours, a grove before the other roots,
/// and a root with a hole is filled in its place.
pub fn filling_by_construction()
    ensures at_hole { (piece : Trees) → fill (hole none) piece ≡ piece }
    ensures at_forest { (left right piece : Trees) (inside : ForestInner) → holes left ≡ 0
        → holes right ≡ 0 → fill (forest_thing (between left inside right)) piece
        ≡ beside left (beside (fill (inner_thing inside) piece) right) }
    ensures at_grove { (rest piece : Trees) → holes rest ≡ 0
        → fill (grove_thing (grove_hole rest)) piece ≡ beside piece rest }
    ensures at_root { (root : TreeContext) (rest piece : Trees) → holes rest ≡ 0
        → fill (grove_thing (root_context root rest)) piece
        ≡ beside (fill (tree_thing root) piece) rest }
{}
