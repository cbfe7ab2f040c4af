// Laws about contexts, as functions with an empty body.
ghost use Rattle.std.specs.Prelude.{◌≡◌};
ghost use Rattle.model_shapes.specs.Sorts as sorts;
ghost use Rattle.model_shapes.specs.Trees.{Trees, WellFormed, width};
ghost use Rattle.model_shapes.specs.Shapes.{OneHole, HasWidth, Shaped, SameAt};
ghost use Rattle.context_apply.specs.declared.contexts.Context.{Context};
ghost use Rattle.context_apply.specs.declared.contexts.Piece.{Piece};
ghost use Rattle.context_apply.specs.Contexts.{context_thing, hole_sort_of, outer_sort_of, piece_thing, piece_sort_of};

/// Each context has one hole, which may stand where it stands, and as many roots as its sort asks
/// for: one that is well formed is a plain context of its sorts.
pub fn contexts_are_plain()
    ensures hole { (outside : Context)
        → OneHole (hole_sort_of outside) (outer_sort_of outside) (context_thing outside) }
    ensures roots { (outside : Context)
        → HasWidth (outer_sort_of outside) (width (context_thing outside)) }
    ensures shaped { (outside : Context) → WellFormed (context_thing outside)
        → Shaped (sorts.context (hole_sort_of outside) (outer_sort_of outside))
        (context_thing outside) }
{}

/// Each plain context is one of these, up to the order of the roots of a grove.
pub fn plain_contexts_are_held()
    ensures { (hole outer : sorts.DataSort) (plain : Trees)
        → Shaped (sorts.context hole outer) plain
        → (outside : Context) × SameAt outer plain (context_thing outside)
        × (hole_sort_of outside ≡ hole) × (outer_sort_of outside ≡ outer) }
{}

/// Each piece that is well formed is a plain shape of its sort.
pub fn pieces_are_plain()
    ensures { (piece : Piece) → WellFormed (piece_thing piece)
        → Shaped (sorts.shape (piece_sort_of piece)) (piece_thing piece) }
{}
