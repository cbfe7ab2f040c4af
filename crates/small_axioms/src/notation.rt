// How the lines of the axioms are written: the letters, some sorts, and the nodes of which they
// speak.
use dom_terms::DataSort;
use formula_syntax::Side::Whole;
use row_patterns::Pattern::{Join, Len, Node, One};
use row_patterns::{DataLetter, DataPattern, FormulaLetter, Pattern, TermLetter, TermPattern};

pub(crate) const P: Pattern<'static> = Pattern::Letter(FormulaLetter::P);

pub(crate) const Q: Pattern<'static> = Pattern::Letter(FormulaLetter::Q);

pub(crate) const R: Pattern<'static> = Pattern::Letter(FormulaLetter::R);

pub(crate) const A: Pattern<'static> = Pattern::Letter(FormulaLetter::A);

pub(crate) const K: Pattern<'static> = Pattern::Letter(FormulaLetter::K);

pub(crate) const E: TermPattern<'static> = TermPattern::Letter(TermLetter::E);

pub(crate) const F: TermPattern<'static> = TermPattern::Letter(TermLetter::F);

pub(crate) const G: TermPattern<'static> = TermPattern::Letter(TermLetter::G);

pub(crate) const S: TermPattern<'static> = TermPattern::Letter(TermLetter::S);

pub(crate) const I: TermPattern<'static> = TermPattern::Letter(TermLetter::I);

pub(crate) const L: TermPattern<'static> = TermPattern::Letter(TermLetter::L);

pub(crate) const T: TermPattern<'static> = TermPattern::Letter(TermLetter::T);

pub(crate) const J: TermPattern<'static> = TermPattern::Letter(TermLetter::J);

pub(crate) const M: TermPattern<'static> = TermPattern::Letter(TermLetter::M);

pub(crate) const Y: TermPattern<'static> = TermPattern::Letter(TermLetter::Y);

pub(crate) const V: TermPattern<'static> = TermPattern::Letter(TermLetter::V);

pub(crate) const N: TermPattern<'static> = TermPattern::Letter(TermLetter::N);

// the variable that a command sets: where one is set, no line has another use of the letter N
pub(crate) const X: TermPattern<'static> = N;

pub(crate) const TREE: DataPattern = DataPattern::Is(DataSort::Tree);

pub(crate) const FOREST: DataPattern = DataPattern::Is(DataSort::Forest);

pub(crate) const GROVE: DataPattern = DataPattern::Is(DataSort::Grove);

// the letter k: any data sort
pub(crate) const ANY: DataPattern = DataPattern::Letter(DataLetter::K);

// `beside!(P, Q, R)`: `((P * Q) * R)`, of two or more
macro_rules! beside {
    ($left:expr, $right:expr) => { Join(Whole, &$left, &$right) };
    ($left:expr, $right:expr, $($rest:expr),+) => {
        beside!(Join(Whole, &$left, &$right), $($rest),+)
    };
}

// `node!(P)`: `S#I[P]%L`
macro_rules! node {
    ($children:expr) => { Node(S, I, &$children, L) };
}

// `T#J[Q]%M`, the child, and `<T#J[Q]%M>`
pub(crate) const CHILD: Pattern<'static> = Node(T, J, &Q, M);

pub(crate) const CHILD_TREE: Pattern<'static> = One(&CHILD);

// `<Y#V[A]%N>`, the child before which another goes
const NEXT_TREE: Pattern<'static> = One(&Node(Y, V, &A, N));

// `(P and len G)`
const COUNTED: Pattern<'static> = Pattern::And(&P, &Len(G));

// the node with any children, and with so many
pub(crate) const NODE: Pattern<'static> = node!(P);

pub(crate) const COUNTED_NODE: Pattern<'static> = node!(COUNTED);

// with the child among them, and so many before it
pub(crate) const PARENT: Pattern<'static> = node!(beside!(P, CHILD_TREE, R));

pub(crate) const COUNTED_PARENT: Pattern<'static> = node!(beside!(COUNTED, CHILD_TREE, R));

// without the child, and with it as the last one
pub(crate) const WITHOUT_CHILD: Pattern<'static> = node!(beside!(P, R));

pub(crate) const WITH_LAST: Pattern<'static> = node!(beside!(P, CHILD_TREE));

// with the next child, and the child before that
pub(crate) const WITH_NEXT: Pattern<'static> = node!(beside!(P, NEXT_TREE, R));

pub(crate) const WITH_BOTH: Pattern<'static> = node!(beside!(P, CHILD_TREE, NEXT_TREE, R));
