//! The definitions of documents: their grammar, their numbers, the order of roots in which they are
//! printed, and the printed text, with no Rust data.
//! Promises that they say what is meant: the laws are functions here, each with an empty body.
//! Stands on the definitions of shapes and of tokens.
#![tactic(auto)]

ghost use Rattle.std.specs.Prelude.{◌≡◌, None};
ghost use Rattle.model_shapes.specs.Trees.{Trees, WellFormed};
ghost use Rattle.model_shapes.specs.Shapes.{SameAt};
ghost use Rattle.model_shapes.specs.RootHoles.{root_holes};
ghost use Rattle.model_shapes.specs.Sorts.{grove};
ghost use Rattle.model_documents.specs.Numbers.{first_out_of_range, first_repeat};
ghost use Rattle.model_documents.specs.Roots.{sorted_roots, Rising};

/// A document with no number out of range and none that repeats is well formed, and in one that is
/// well formed no number repeats.
pub fn documents_are_well_formed_where_numbers_are_unique()
    ensures well_formed { (document : Trees) → first_out_of_range document ≡ None
        → first_repeat document ≡ None → WellFormed document }
    ensures unique { (document : Trees) → WellFormed document → first_repeat document ≡ None }
{}

/// Sorting the roots of a grove gives the same grove, as well formed as before, with its roots by
/// rising number, and leaves a grove as it is whose roots stand so.
pub fn sorting_reorders_the_roots()
    ensures same { (roots : Trees) → SameAt grove (sorted_roots roots) roots }
    ensures well_formed { (roots : Trees) → WellFormed roots → WellFormed (sorted_roots roots) }
    ensures rising { (roots : Trees) → Rising (sorted_roots roots) }
    ensures kept { (roots : Trees) → root_holes roots ≡ 0 → Rising roots
        → sorted_roots roots ≡ roots }
{}

/// Two sorted groves are the same only where they are equal.
pub fn sorted_groves_are_equal_where_the_same()
    ensures { (a b : Trees) → WellFormed a → root_holes a ≡ 0 → Rising a → Rising b
        → SameAt grove a b → a ≡ b }
{}
