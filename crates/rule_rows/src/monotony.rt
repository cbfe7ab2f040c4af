// The rows of the rules of monotony, and of those that move a pure part out of a formula and in.
use crate::notation::{
    A, AT_ANY, AT_FOREST, AT_GROVE, AT_HOLE, AT_WHOLE, B, FOREST, GROVE, H, HOLE, I, K, L,
    NODE_OF_P, P, P_IN_K, Q, Rows, S, TO_FOREST, TO_GROVE, TO_WHOLE, TREE, WHOLE, always, entails,
    follows,
};
use formula_syntax::Side;
use row_patterns::Pattern::{And, App, CtxAdj, HoleAdj, Join, Node, Plus, PlusHole};
use row_patterns::Premises::{One, Two};
use row_patterns::SortPattern::Either;
use row_patterns::{Condition, FormulaLetter, Pattern};

// P entails A at the one sort, and Q entails B at the other
macro_rules! parts {
    ($one:expr, $other:expr) => {
        Two(entails!(P => A; $one), entails!(Q => B; $other))
    };
}

pub(crate) const MONO_STAR: Rows = &[follows!(
    parts!(AT_FOREST, AT_FOREST),
    Join(Side::Whole, &P, &Q) => Join(Side::Whole, &A, &B); AT_FOREST
)];

pub(crate) const MONO_STAR_LEFT: Rows = &[follows!(
    parts!(TO_FOREST, AT_FOREST),
    Join(Side::HoleLeft, &P, &Q) => Join(Side::HoleLeft, &A, &B); TO_FOREST
)];

pub(crate) const MONO_STAR_RIGHT: Rows = &[follows!(
    parts!(AT_FOREST, TO_FOREST),
    Join(Side::HoleRight, &P, &Q) => Join(Side::HoleRight, &A, &B); TO_FOREST
)];

pub(crate) const MONO_PLUS: Rows = &[
    follows!(parts!(AT_GROVE, AT_GROVE), Plus(&P, &Q) => Plus(&A, &B); AT_GROVE),
];

pub(crate) const MONO_PLUS_LEFT: Rows = &[
    follows!(parts!(TO_GROVE, AT_GROVE), PlusHole(&P, &Q) => PlusHole(&A, &B); TO_GROVE),
];

pub(crate) const MONO_NODE: Rows = &[follows!(
    One(entails!(P => Q; Either(FOREST))),
    NODE_OF_P => Node(S, I, &Q, L); Either(TREE)
)];

pub(crate) const MONO_TREE: Rows = &[follows!(
    One(entails!(P => Q; Either(TREE))),
    Pattern::One(&P) => Pattern::One(&Q); Either(FOREST)
)];

pub(crate) const MONO_ROOT: Rows = &[follows!(
    One(entails!(P => Q; Either(TREE))),
    Pattern::Root(&P) => Pattern::Root(&Q); Either(GROVE)
)];

pub(crate) const MONO_APP: Rows = &[follows!(
    Two(entails!(K => H; TO_WHOLE), entails!(P => Q; Either(HOLE))),
    P_IN_K => App(HOLE, &H, &Q); Either(WHOLE)
)];

pub(crate) const MONO_HOLE_ADJ: Rows = &[follows!(
    Two(entails!(A => P; AT_HOLE), entails!(Q => B; AT_WHOLE)),
    HoleAdj(&P, &Q) => HoleAdj(&A, &B); TO_WHOLE
)];

pub(crate) const MONO_CTX_ADJ: Rows = &[follows!(
    Two(entails!(H => K; TO_WHOLE), entails!(Q => B; AT_WHOLE)),
    CtxAdj(WHOLE, &K, &Q) => CtxAdj(WHOLE, &H, &B); AT_HOLE
)];

const BOTH: Pattern<'static> = And(&P, &Q);

const PURE: Condition = Condition::Pure(FormulaLetter::Q);

// Q moves out of the part
macro_rules! moves_out {
    ($form:path, ($($before:expr),*), ($($after:expr),*)) => {
        always!(
            $form($($before,)* &BOTH $(, $after)*)
            => And(&$form($($before,)* &P $(, $after)*), &Q);
            AT_ANY; PURE
        )
    };
}

// and into it
macro_rules! moves_in {
    ($form:path, ($($before:expr),*), ($($after:expr),*)) => {
        always!(
            And(&$form($($before,)* &P $(, $after)*), &Q)
            => $form($($before,)* &BOTH $(, $after)*);
            AT_ANY; PURE
        )
    };
}

// the row of each form that has a part
macro_rules! of_each_part {
    ($row:ident) => {
        &[
            $row!(Join, (Side::Whole), (&B)),
            $row!(Join, (Side::Whole, &B), ()),
            $row!(Join, (Side::HoleLeft), (&B)),
            $row!(Join, (Side::HoleLeft, &B), ()),
            $row!(Join, (Side::HoleRight), (&B)),
            $row!(Join, (Side::HoleRight, &B), ()),
            $row!(Plus, (), (&B)),
            $row!(Plus, (&B), ()),
            $row!(PlusHole, (), (&B)),
            $row!(PlusHole, (&B), ()),
            $row!(Node, (S, I), (L)),
            $row!(Pattern::One, (), ()),
            $row!(Pattern::Root, (), ()),
            $row!(App, (HOLE), (&B)),
            $row!(App, (HOLE, &B), ()),
        ]
    };
}

pub(crate) const PURE_OUT: Rows = of_each_part!(moves_out);

pub(crate) const PURE_IN: Rows = of_each_part!(moves_in);
