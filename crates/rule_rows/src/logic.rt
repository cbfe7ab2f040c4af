// The rows of the rules of logic, and of those rules of equations that are matched.
use crate::notation::{AT_ANY, E, F, P, Q, R, Rows, UNIT, always, entails, follows};
use row_patterns::Pattern::{And, Eq, Exists, Forall, Imp, Le, Not, Or, Replaced};
use row_patterns::Premises::{One, Two};
use row_patterns::{
    Asked, Condition, FormulaLetter, Pattern, Premises, Row, TermLetter, TermPattern,
};

pub(crate) const ID: Rows = &[always!(P => P; AT_ANY)];

pub(crate) const CUT: Rows = &[
    follows!(Two(entails!(P => Q; AT_ANY), entails!(Q => R; AT_ANY)), P => R; AT_ANY),
];

pub(crate) const TRUE_IN: Rows = &[always!(P => Pattern::True; AT_ANY)];

pub(crate) const FALSE_OUT: Rows = &[always!(Pattern::False => P; AT_ANY)];

pub(crate) const AND_IN: Rows = &[
    follows!(Two(entails!(P => Q; AT_ANY), entails!(P => R; AT_ANY)), P => And(&Q, &R); AT_ANY),
];

pub(crate) const AND_LEFT: Rows = &[always!(And(&P, &Q) => P; AT_ANY)];

pub(crate) const AND_RIGHT: Rows = &[always!(And(&P, &Q) => Q; AT_ANY)];

pub(crate) const OR_LEFT: Rows = &[always!(P => Or(&P, &Q); AT_ANY)];

pub(crate) const OR_RIGHT: Rows = &[always!(Q => Or(&P, &Q); AT_ANY)];

pub(crate) const OR_OUT: Rows = &[
    follows!(Two(entails!(P => R; AT_ANY), entails!(Q => R; AT_ANY)), Or(&P, &Q) => R; AT_ANY),
];

pub(crate) const IMP_IN: Rows = &[
    follows!(One(entails!(And(&P, &Q) => R; AT_ANY)), P => Imp(&Q, &R); AT_ANY),
];

pub(crate) const IMP_OUT: Rows = &[always!(And(&Imp(&P, &Q), &P) => Q; AT_ANY)];

pub(crate) const NOT_IN: Rows = &[
    follows!(One(entails!(And(&P, &Q) => Pattern::False; AT_ANY)), P => Not(&Q); AT_ANY),
];

pub(crate) const NOT_OUT: Rows = &[always!(And(&Not(&P), &P) => Pattern::False; AT_ANY)];

pub(crate) const CLASSICAL: Rows = &[always!(Not(&Not(&P)) => P; AT_ANY)];

pub(crate) const FORALL_IN: Rows = &[follows!(
    One(entails!(P => Q; AT_ANY)),
    P => Forall(&Q); AT_ANY; Condition::NotFree(FormulaLetter::P)
)];

const P_WITH_E: Pattern<'static> = Replaced(TermLetter::E, FormulaLetter::P);

pub(crate) const FORALL_OUT: Rows = &[Row {
    asked: Asked::Argument(TermLetter::E),
    premises: Premises::Nothing,
    conclusion: entails!(Forall(&P) => P_WITH_E; AT_ANY),
    condition: Condition::Nothing,
}];

pub(crate) const EXISTS_IN: Rows = &[Row {
    asked: Asked::Argument(TermLetter::E),
    premises: Premises::Nothing,
    conclusion: entails!(P_WITH_E => Exists(&P); AT_ANY),
    condition: Condition::Nothing,
}];

pub(crate) const EXISTS_OUT: Rows = &[follows!(
    One(entails!(P => Q; AT_ANY)),
    Exists(&P) => Q; AT_ANY; Condition::NotFree(FormulaLetter::Q)
)];

pub(crate) const EQ_REFL: Rows = &[always!(P => Eq(E, E); AT_ANY)];

pub(crate) const INT_TOTAL: Rows = &[
    always!(P => Or(&Le(E, F), &Le(TermPattern::Add(&F, &UNIT), E)); AT_ANY),
];
