// The rows of the rules of contexts and of variables.
use crate::notation::{
    AT_ANY, AT_FOREST, AT_GROVE, AT_HOLE, AT_WHOLE, AT_X, FOREST, GROVE, H, HOLE, I, K, L,
    NODE_OF_P, OTHER, P, P_IN_K, Q, Rows, S, TO_WHOLE, WHOLE, always, entails, follows,
};
use formula_syntax::Side::{HoleLeft, HoleRight, Whole};
use row_patterns::Pattern::{
    And, App, CtxAdj, Exists, Hole, HoleAdj, Is, Join, Node, Or, Plus, PlusHole, Var,
};
use row_patterns::Premises::One;
use row_patterns::SortPattern::{Context, Either};
use row_patterns::{Asked, Condition, FormulaLetter, Pattern, Row, SortPattern};

// EACH SIDE OF A RULE THAT HOLDS BOTH WAYS
const P_IN_HOLE: Pattern<'static> = App(HOLE, &Hole(HOLE), &P);

const HOLE_IN_K: Pattern<'static> = App(HOLE, &K, &Hole(HOLE));

const P_IN_H_IN_K: Pattern<'static> = App(OTHER, &App(HOLE, &K, &H), &P);

const P_IN_H_THEN_K: Pattern<'static> = App(HOLE, &K, &App(OTHER, &H, &P));

const P_IN_NODE: Pattern<'static> = App(HOLE, &Node(S, I, &K, L), &P);

const NODE_OF_P_IN_K: Pattern<'static> = Node(S, I, &P_IN_K, L);

const P_IN_TREE: Pattern<'static> = App(HOLE, &Pattern::One(&K), &P);

const TREE_OF_P_IN_K: Pattern<'static> = Pattern::One(&P_IN_K);

const P_IN_ROOT: Pattern<'static> = App(HOLE, &Pattern::Root(&K), &P);

const ROOT_OF_P_IN_K: Pattern<'static> = Pattern::Root(&P_IN_K);

// these have two readings: the part has no hole, and it has one
const TO_FOREST: SortPattern = Context(OTHER, FOREST);

const TO_GROVE: SortPattern = Context(OTHER, GROVE);

const P_IN_K_Q: Pattern<'static> = App(HOLE, &Join(HoleLeft, &K, &Q), &P);

const P_IN_K_THEN_Q: Pattern<'static> = Join(Whole, &P_IN_K, &Q);

const HOLE_IN_K_THEN_Q: Pattern<'static> = Join(HoleLeft, &P_IN_K, &Q);

const P_IN_Q_K: Pattern<'static> = App(HOLE, &Join(HoleRight, &Q, &K), &P);

const Q_THEN_P_IN_K: Pattern<'static> = Join(Whole, &Q, &P_IN_K);

const Q_THEN_HOLE_IN_K: Pattern<'static> = Join(HoleRight, &Q, &P_IN_K);

const P_IN_K_AND_Q: Pattern<'static> = App(HOLE, &PlusHole(&K, &Q), &P);

const P_IN_K_PLUS_Q: Pattern<'static> = Plus(&P_IN_K, &Q);

const HOLE_IN_K_PLUS_Q: Pattern<'static> = PlusHole(&P_IN_K, &Q);

// CONTEXTS, BOTH WAYS
pub(crate) const HOLE_LEFT: Rows = &[always!(P_IN_HOLE => P; Either(HOLE))];

pub(crate) const HOLE_LEFT_BACK: Rows = &[always!(P => P_IN_HOLE; Either(HOLE))];

pub(crate) const HOLE_RIGHT: Rows = &[always!(HOLE_IN_K => K; TO_WHOLE)];

pub(crate) const HOLE_RIGHT_BACK: Rows = &[always!(K => HOLE_IN_K; TO_WHOLE)];

pub(crate) const APP_ASSOC: Rows = &[always!(P_IN_H_IN_K => P_IN_H_THEN_K; AT_ANY)];

pub(crate) const APP_ASSOC_BACK: Rows = &[always!(P_IN_H_THEN_K => P_IN_H_IN_K; AT_ANY)];

pub(crate) const APP_NODE: Rows = &[always!(P_IN_NODE => NODE_OF_P_IN_K; AT_ANY)];

pub(crate) const APP_NODE_BACK: Rows = &[always!(NODE_OF_P_IN_K => P_IN_NODE; AT_ANY)];

pub(crate) const APP_TREE: Rows = &[always!(P_IN_TREE => TREE_OF_P_IN_K; AT_ANY)];

pub(crate) const APP_TREE_BACK: Rows = &[always!(TREE_OF_P_IN_K => P_IN_TREE; AT_ANY)];

pub(crate) const APP_ROOT: Rows = &[always!(P_IN_ROOT => ROOT_OF_P_IN_K; AT_ANY)];

pub(crate) const APP_ROOT_BACK: Rows = &[always!(ROOT_OF_P_IN_K => P_IN_ROOT; AT_ANY)];

pub(crate) const APP_STAR_LEFT: Rows = &[
    always!(P_IN_K_Q => P_IN_K_THEN_Q; AT_FOREST),
    always!(P_IN_K_Q => HOLE_IN_K_THEN_Q; TO_FOREST),
];

pub(crate) const APP_STAR_LEFT_BACK: Rows = &[
    always!(P_IN_K_THEN_Q => P_IN_K_Q; AT_FOREST),
    always!(HOLE_IN_K_THEN_Q => P_IN_K_Q; TO_FOREST),
];

pub(crate) const APP_STAR_RIGHT: Rows = &[
    always!(P_IN_Q_K => Q_THEN_P_IN_K; AT_FOREST),
    always!(P_IN_Q_K => Q_THEN_HOLE_IN_K; TO_FOREST),
];

pub(crate) const APP_STAR_RIGHT_BACK: Rows = &[
    always!(Q_THEN_P_IN_K => P_IN_Q_K; AT_FOREST),
    always!(Q_THEN_HOLE_IN_K => P_IN_Q_K; TO_FOREST),
];

pub(crate) const APP_PLUS: Rows = &[
    always!(P_IN_K_AND_Q => P_IN_K_PLUS_Q; AT_GROVE),
    always!(P_IN_K_AND_Q => HOLE_IN_K_PLUS_Q; TO_GROVE),
];

pub(crate) const APP_PLUS_BACK: Rows = &[
    always!(P_IN_K_PLUS_Q => P_IN_K_AND_Q; AT_GROVE),
    always!(HOLE_IN_K_PLUS_Q => P_IN_K_AND_Q; TO_GROVE),
];

// CONTEXTS, ONE WAY
pub(crate) const HOLE_ADJ_IN: Rows = &[
    follows!(One(entails!(P_IN_K => Q; AT_WHOLE)), K => HoleAdj(&P, &Q); TO_WHOLE),
];

pub(crate) const HOLE_ADJ_OUT: Rows = &[always!(App(HOLE, &HoleAdj(&P, &Q), &P) => Q; AT_WHOLE)];

pub(crate) const CTX_ADJ_IN: Rows = &[
    follows!(One(entails!(P_IN_K => Q; AT_WHOLE)), P => CtxAdj(WHOLE, &K, &Q); AT_HOLE),
];

pub(crate) const CTX_ADJ_OUT: Rows = &[
    always!(App(HOLE, &K, &CtxAdj(WHOLE, &K, &Q)) => Q; AT_WHOLE),
];

pub(crate) const APP_EXISTS_PART: Rows = &[always!(
    App(HOLE, &K, &Exists(&P)) => Exists(&P_IN_K);
    AT_ANY; Condition::NotFree(FormulaLetter::K)
)];

pub(crate) const APP_EXISTS_CTX: Rows = &[always!(
    App(HOLE, &Exists(&K), &P) => Exists(&P_IN_K);
    AT_ANY; Condition::NotFree(FormulaLetter::P)
)];

pub(crate) const APP_OR_PART: Rows = &[
    always!(App(HOLE, &K, &Or(&P, &Q)) => Or(&P_IN_K, &App(HOLE, &K, &Q)); AT_ANY),
];

pub(crate) const APP_OR_CTX: Rows = &[
    always!(App(HOLE, &Or(&K, &H), &P) => Or(&P_IN_K, &App(HOLE, &H, &P)); AT_ANY),
];

// VARIABLES
pub(crate) const SOME: Rows = &[
    always!(P => Exists(&And(&Var, &P)); AT_X; Condition::NotFree(FormulaLetter::P)),
];

pub(crate) const CANCEL_APP: Rows = &[always!(
    And(&App(HOLE, &Var, &P), &App(HOLE, &Var, &Q)) => App(HOLE, &Var, &And(&P, &Q)); AT_WHOLE
)];

pub(crate) const CANCEL_LEFT: Rows = &[always!(
    And(&Join(Whole, &Var, &P), &Join(Whole, &Var, &Q)) => Join(Whole, &Var, &And(&P, &Q));
    AT_FOREST
)];

pub(crate) const CANCEL_RIGHT: Rows = &[always!(
    And(&Join(Whole, &P, &Var), &Join(Whole, &Q, &Var)) => Join(Whole, &And(&P, &Q), &Var);
    AT_FOREST
)];

pub(crate) const CANCEL_PLUS: Rows = &[
    always!(And(&Plus(&Var, &P), &Plus(&Var, &Q)) => Plus(&Var, &And(&P, &Q)); AT_GROVE),
];

pub(crate) const IS_IN: Rows = &[always!(And(&Var, &P) => Is(&P); AT_X)];

pub(crate) const IS_OUT: Rows = &[always!(And(&Var, &Is(&P)) => P; AT_X)];

pub(crate) const IS_MONO: Rows = &[Row {
    asked: Asked::SortOfX,
    premises: One(entails!(P => Q; AT_X)),
    conclusion: entails!(Is(&P) => Is(&Q); AT_ANY),
    condition: Condition::Nothing,
}];
