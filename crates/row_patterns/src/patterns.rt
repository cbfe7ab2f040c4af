// Patterns of sorts, terms and formulas. Parts are borrowed, so that a pattern is a constant.
use crate::letters::{DataLetter, FormulaLetter, TermLetter};
use dom_terms::DataSort;
use formula_syntax::Side;

/// A pattern of data sorts.
#[derive(Clone, Copy)]
pub enum DataPattern {
    /// The data sort of the letter.
    Letter(DataLetter),
    /// This data sort.
    Is(DataSort),
}

/// A pattern of sorts.
#[derive(Clone, Copy)]
pub enum SortPattern {
    /// Any sort: the letter s.
    Any,
    /// The sort of $x.
    OfX,
    /// A data sort.
    Shape(DataPattern),
    /// A context sort: the sort of the hole, and that of the whole.
    Context(DataPattern, DataPattern),
    /// The data sort, or a context sort to it: the letter o.
    Either(DataPattern),
}

/// A pattern of terms.
#[derive(Clone, Copy)]
pub enum TermPattern<'a> {
    /// The term of the letter.
    Letter(TermLetter),
    /// `$x`
    X,
    /// `null`
    NullNode,
    /// `nolist`
    NullList,
    /// This number.
    Int(i64),
    /// `E + F`
    Add(&'a TermPattern<'a>, &'a TermPattern<'a>),
    /// `E - F`
    Sub(&'a TermPattern<'a>, &'a TermPattern<'a>),
    /// `E . F`
    Cat(&'a TermPattern<'a>, &'a TermPattern<'a>),
}

/// One of the closed formulas that rows have as they stand.
#[derive(Clone, Copy, PartialEq, Eq)]
pub enum Closed {
    /// Some node: a name, a number, children and a list number.
    SomeNode,
    /// A first tree and the rest of a forest.
    FirstAndRest,
    /// A root and the rest of a grove.
    RootAndRest,
    /// Some length, not negative.
    SomeLength,
}

/// A pattern of formulas; `$x` is the one variable that it may have or bind.
#[derive(Clone, Copy)]
pub enum Pattern<'a> {
    /// The formula of the letter.
    Letter(FormulaLetter),
    /// The formula of the letter, with the term of the other for `$x`.
    Replaced(TermLetter, FormulaLetter),
    /// `true`
    True,
    /// `false`
    False,
    /// A closed formula.
    Closed(Closed),
    /// `(P and Q)`
    And(&'a Pattern<'a>, &'a Pattern<'a>),
    /// `(P or Q)`
    Or(&'a Pattern<'a>, &'a Pattern<'a>),
    /// `(P -> Q)`
    Imp(&'a Pattern<'a>, &'a Pattern<'a>),
    /// `(not P)`
    Not(&'a Pattern<'a>),
    /// `(exists $x . P)`
    Exists(&'a Pattern<'a>),
    /// `(forall $x . P)`
    Forall(&'a Pattern<'a>),
    /// `E = F`
    Eq(TermPattern<'a>, TermPattern<'a>),
    /// `E <= F`
    Le(TermPattern<'a>, TermPattern<'a>),
    /// `0f`
    EmptyForest,
    /// `0g`
    EmptyGrove,
    /// `?h`
    Hole(DataPattern),
    /// `S#I[P]%L`
    Node(TermPattern<'a>, TermPattern<'a>, &'a Pattern<'a>, TermPattern<'a>),
    /// `<P>`
    One(&'a Pattern<'a>),
    /// `[P]`
    Root(&'a Pattern<'a>),
    /// `(P * Q)`, `(K .* Q)` or `(P *. K)`
    Join(Side, &'a Pattern<'a>, &'a Pattern<'a>),
    /// `(P + Q)`
    Plus(&'a Pattern<'a>, &'a Pattern<'a>),
    /// `(K .+ Q)`
    PlusHole(&'a Pattern<'a>, &'a Pattern<'a>),
    /// `(K @h P)`
    App(DataPattern, &'a Pattern<'a>, &'a Pattern<'a>),
    /// `(P -o Q)`
    HoleAdj(&'a Pattern<'a>, &'a Pattern<'a>),
    /// `(K o-k Q)`
    CtxAdj(DataPattern, &'a Pattern<'a>, &'a Pattern<'a>),
    /// `$x`
    Var,
    /// `len E`
    Len(TermPattern<'a>),
    /// `($x is P)`
    Is(&'a Pattern<'a>),
}
