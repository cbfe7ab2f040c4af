// The forms of formulas.
use dom_terms::{DataSort, Sort};
use formula_syntax::Side;

/// The form of a formula without the names of bound variables: all that it is but its terms and
/// its parts.
#[derive(Clone, Copy, PartialEq, Eq, Hash)]
pub enum Head {
    /// `true`
    True,
    /// `false`
    False,
    /// `(P and Q)`
    And,
    /// `(P or Q)`
    Or,
    /// `(P -> Q)`
    Imp,
    /// `(not P)`
    Not,
    /// `(exists $x . P)`, of the sort of $x
    Exists(Sort),
    /// `(forall $x . P)`, of the sort of $x
    Forall(Sort),
    /// `E = F`
    Eq,
    /// `E <= F`
    Le,
    /// `0f`
    EmptyForest,
    /// `0g`
    EmptyGrove,
    /// `?t`, `?f` or `?g`
    Hole(DataSort),
    /// `S#I[P]%L`
    Node,
    /// `<P>`
    One,
    /// `[P]`
    Root,
    /// `(P * Q)`, `(K .* Q)` or `(P *. K)`
    Join(Side),
    /// `(P + Q)`
    Plus,
    /// `(K .+ Q)`
    PlusHole,
    /// `(K @h P)`
    App(DataSort),
    /// `(P -o Q)`
    HoleAdj,
    /// `(K o-k Q)`
    CtxAdj(DataSort),
    /// `$x`
    Var,
    /// `len E`
    Len,
    /// `($x is P)`, of the sort of $x
    Is(Sort),
}
