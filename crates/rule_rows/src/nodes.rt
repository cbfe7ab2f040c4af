// The rows of the rules of nodes and of lengths.
use crate::notation::{
    A, AT_ANY, AT_FOREST, AT_GROVE, AT_TREE, B, E, F, H, I, J, K, L, M, NODE_OF_P, NODE_OF_Q, P, Q,
    Rows, S, T, TREE, UNIT, ZERO, always,
};
use formula_syntax::Side::Whole;
use row_patterns::Pattern::{
    And, App, EmptyForest, EmptyGrove, Eq, Join, Le, Len, Node, Not, One, Or, Plus, Root,
};
use row_patterns::{Closed, Pattern, TermPattern};

const BOTH: Pattern<'static> = And(&P, &Q);

// NODES
pub(crate) const NODE_AND: Rows = &[always!(
    And(&NODE_OF_P, &NODE_OF_Q)
    => And(&Node(S, I, &BOTH, L), &And(&And(&Eq(S, T), &Eq(I, J)), &Eq(L, M)));
    AT_ANY
)];

pub(crate) const TREE_AND: Rows = &[always!(And(&One(&P), &One(&Q)) => One(&BOTH); AT_ANY)];

pub(crate) const ROOT_AND: Rows = &[always!(And(&Root(&P), &Root(&Q)) => Root(&BOTH); AT_ANY)];

pub(crate) const NODE_SOME: Rows = &[
    always!(Pattern::True => Pattern::Closed(Closed::SomeNode); AT_TREE),
];

pub(crate) const NOT_NULL: Rows = &[always!(
    NODE_OF_P
    => And(&Not(&Eq(I, TermPattern::NullNode)), &Not(&Eq(L, TermPattern::NullList)));
    AT_ANY
)];

// `((not I = J) and (not L = M))`
const OTHER_NUMBERS: Pattern<'static> = And(&Not(&Eq(I, J)), &Not(&Eq(L, M)));

const P_NODE_IN_K: Pattern<'static> = App(TREE, &K, &NODE_OF_P);

const Q_NODE_IN_H: Pattern<'static> = App(TREE, &H, &NODE_OF_Q);

pub(crate) const APART_STAR: Rows = &[
    always!(Join(Whole, &P_NODE_IN_K, &Q_NODE_IN_H) => OTHER_NUMBERS; AT_FOREST),
];

pub(crate) const APART_PLUS: Rows = &[
    always!(Plus(&P_NODE_IN_K, &Q_NODE_IN_H) => OTHER_NUMBERS; AT_GROVE),
];

pub(crate) const APART_UP: Rows = &[
    always!(Node(S, I, &App(TREE, &K, &NODE_OF_Q), L) => OTHER_NUMBERS; AT_TREE),
];

pub(crate) const FOREST_CASES: Rows = &[always!(
    Pattern::True => Or(&EmptyForest, &Pattern::Closed(Closed::FirstAndRest)); AT_FOREST
)];

pub(crate) const GROVE_CASES: Rows = &[always!(
    Pattern::True => Or(&EmptyGrove, &Pattern::Closed(Closed::RootAndRest)); AT_GROVE
)];

pub(crate) const EMPTY_STAR: Rows = &[always!(
    And(&Join(Whole, &P, &Q), &EmptyForest)
    => Join(Whole, &And(&P, &EmptyForest), &And(&Q, &EmptyForest));
    AT_FOREST
)];

pub(crate) const EMPTY_PLUS: Rows = &[always!(
    And(&Plus(&P, &Q), &EmptyGrove) => Plus(&And(&P, &EmptyGrove), &And(&Q, &EmptyGrove));
    AT_GROVE
)];

pub(crate) const TREE_FULL: Rows = &[
    always!(And(&One(&P), &EmptyForest) => Pattern::False; AT_FOREST),
];

pub(crate) const ROOT_FULL: Rows = &[
    always!(And(&Root(&P), &EmptyGrove) => Pattern::False; AT_GROVE),
];

pub(crate) const HEAD: Rows = &[always!(
    And(&Join(Whole, &One(&P), &Q), &Join(Whole, &One(&A), &B))
    => Join(Whole, &One(&And(&P, &A)), &And(&Q, &B));
    AT_FOREST
)];

pub(crate) const LAST: Rows = &[always!(
    And(&Join(Whole, &Q, &One(&P)), &Join(Whole, &B, &One(&A)))
    => Join(Whole, &And(&Q, &B), &One(&And(&P, &A)));
    AT_FOREST
)];

// LENGTHS
pub(crate) const LEN_EMPTY: Rows = &[always!(EmptyForest => Len(ZERO); AT_FOREST)];

pub(crate) const LEN_ZERO: Rows = &[always!(Len(ZERO) => EmptyForest; AT_FOREST)];

pub(crate) const LEN_TREE: Rows = &[always!(One(&P) => Len(UNIT); AT_FOREST)];

pub(crate) const LEN_STAR: Rows = &[always!(
    Join(Whole, &And(&P, &Len(E)), &And(&Q, &Len(F)))
    => And(&Join(Whole, &P, &Q), &Len(TermPattern::Add(&E, &F)));
    AT_FOREST
)];

pub(crate) const LEN_SOME: Rows = &[
    always!(Pattern::True => Pattern::Closed(Closed::SomeLength); AT_FOREST),
];

pub(crate) const LEN_UNIQUE: Rows = &[always!(And(&Len(E), &Len(F)) => Eq(E, F); AT_FOREST)];

pub(crate) const LEN_NONNEG: Rows = &[always!(Len(E) => Le(ZERO, E); AT_FOREST)];
