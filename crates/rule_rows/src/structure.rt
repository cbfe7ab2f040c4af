// The rows of the rules of structure.
use crate::notation::{AT_FOREST, AT_GROVE, K, P, Q, R, Rows, TO_FOREST, TO_GROVE, always};
use formula_syntax::Side::{HoleLeft, HoleRight, Whole};
use row_patterns::Pattern;
use row_patterns::Pattern::{EmptyForest, EmptyGrove, Join, Plus, PlusHole};

// EACH SIDE OF A RULE THAT HOLDS BOTH WAYS
const P_Q_THEN_R: Pattern<'static> = Join(Whole, &Join(Whole, &P, &Q), &R);

const P_THEN_Q_R: Pattern<'static> = Join(Whole, &P, &Join(Whole, &Q, &R));

const K_P_THEN_Q: Pattern<'static> = Join(HoleLeft, &Join(HoleLeft, &K, &P), &Q);

const K_THEN_P_Q: Pattern<'static> = Join(HoleLeft, &K, &Join(Whole, &P, &Q));

const P_THEN_Q_K: Pattern<'static> = Join(HoleRight, &P, &Join(HoleRight, &Q, &K));

const P_Q_THEN_K: Pattern<'static> = Join(HoleRight, &Join(Whole, &P, &Q), &K);

const P_K_THEN_Q: Pattern<'static> = Join(HoleLeft, &Join(HoleRight, &P, &K), &Q);

const P_THEN_K_Q: Pattern<'static> = Join(HoleRight, &P, &Join(HoleLeft, &K, &Q));

const P_THEN_EMPTY: Pattern<'static> = Join(Whole, &P, &EmptyForest);

const EMPTY_THEN_P: Pattern<'static> = Join(Whole, &EmptyForest, &P);

const K_THEN_EMPTY: Pattern<'static> = Join(HoleLeft, &K, &EmptyForest);

const EMPTY_THEN_K: Pattern<'static> = Join(HoleRight, &EmptyForest, &K);

const P_Q_PLUS_R: Pattern<'static> = Plus(&Plus(&P, &Q), &R);

const P_PLUS_Q_R: Pattern<'static> = Plus(&P, &Plus(&Q, &R));

const P_PLUS_EMPTY: Pattern<'static> = Plus(&P, &EmptyGrove);

const K_P_PLUS_Q: Pattern<'static> = PlusHole(&PlusHole(&K, &P), &Q);

const K_PLUS_P_Q: Pattern<'static> = PlusHole(&K, &Plus(&P, &Q));

const K_PLUS_EMPTY: Pattern<'static> = PlusHole(&K, &EmptyGrove);

// FORESTS
pub(crate) const STAR_ASSOC: Rows = &[always!(P_Q_THEN_R => P_THEN_Q_R; AT_FOREST)];

pub(crate) const STAR_ASSOC_BACK: Rows = &[always!(P_THEN_Q_R => P_Q_THEN_R; AT_FOREST)];

pub(crate) const STAR_LEFT_ASSOC: Rows = &[always!(K_P_THEN_Q => K_THEN_P_Q; TO_FOREST)];

pub(crate) const STAR_LEFT_ASSOC_BACK: Rows = &[always!(K_THEN_P_Q => K_P_THEN_Q; TO_FOREST)];

pub(crate) const STAR_RIGHT_ASSOC: Rows = &[always!(P_THEN_Q_K => P_Q_THEN_K; TO_FOREST)];

pub(crate) const STAR_RIGHT_ASSOC_BACK: Rows = &[always!(P_Q_THEN_K => P_THEN_Q_K; TO_FOREST)];

pub(crate) const STAR_MID_ASSOC: Rows = &[always!(P_K_THEN_Q => P_THEN_K_Q; TO_FOREST)];

pub(crate) const STAR_MID_ASSOC_BACK: Rows = &[always!(P_THEN_K_Q => P_K_THEN_Q; TO_FOREST)];

pub(crate) const STAR_UNIT: Rows = &[always!(P_THEN_EMPTY => P; AT_FOREST)];

pub(crate) const STAR_UNIT_BACK: Rows = &[always!(P => P_THEN_EMPTY; AT_FOREST)];

pub(crate) const UNIT_STAR: Rows = &[always!(EMPTY_THEN_P => P; AT_FOREST)];

pub(crate) const UNIT_STAR_BACK: Rows = &[always!(P => EMPTY_THEN_P; AT_FOREST)];

pub(crate) const STAR_LEFT_UNIT: Rows = &[always!(K_THEN_EMPTY => K; TO_FOREST)];

pub(crate) const STAR_LEFT_UNIT_BACK: Rows = &[always!(K => K_THEN_EMPTY; TO_FOREST)];

pub(crate) const STAR_RIGHT_UNIT: Rows = &[always!(EMPTY_THEN_K => K; TO_FOREST)];

pub(crate) const STAR_RIGHT_UNIT_BACK: Rows = &[always!(K => EMPTY_THEN_K; TO_FOREST)];

// GROVES
pub(crate) const PLUS_ASSOC: Rows = &[always!(P_Q_PLUS_R => P_PLUS_Q_R; AT_GROVE)];

pub(crate) const PLUS_ASSOC_BACK: Rows = &[always!(P_PLUS_Q_R => P_Q_PLUS_R; AT_GROVE)];

pub(crate) const PLUS_COMM: Rows = &[always!(Plus(&P, &Q) => Plus(&Q, &P); AT_GROVE)];

pub(crate) const PLUS_UNIT: Rows = &[always!(P_PLUS_EMPTY => P; AT_GROVE)];

pub(crate) const PLUS_UNIT_BACK: Rows = &[always!(P => P_PLUS_EMPTY; AT_GROVE)];

pub(crate) const PLUS_LEFT_ASSOC: Rows = &[always!(K_P_PLUS_Q => K_PLUS_P_Q; TO_GROVE)];

pub(crate) const PLUS_LEFT_ASSOC_BACK: Rows = &[always!(K_PLUS_P_Q => K_P_PLUS_Q; TO_GROVE)];

pub(crate) const PLUS_LEFT_UNIT: Rows = &[always!(K_PLUS_EMPTY => K; TO_GROVE)];

pub(crate) const PLUS_LEFT_UNIT_BACK: Rows = &[always!(K => K_PLUS_EMPTY; TO_GROVE)];
