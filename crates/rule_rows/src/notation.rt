// How rows are written: the letters, some sorts and terms, and macros that put a row together.
use dom_terms::DataSort;
use row_patterns::{
    DataLetter, DataPattern, FormulaLetter, Pattern, Row, SortPattern, TermLetter, TermPattern,
};

/// The rows of a rule, one for each of its readings.
pub type Rows = &'static [Row<'static>];

pub(crate) const P: Pattern<'static> = Pattern::Letter(FormulaLetter::P);

pub(crate) const Q: Pattern<'static> = Pattern::Letter(FormulaLetter::Q);

pub(crate) const R: Pattern<'static> = Pattern::Letter(FormulaLetter::R);

pub(crate) const A: Pattern<'static> = Pattern::Letter(FormulaLetter::A);

pub(crate) const B: Pattern<'static> = Pattern::Letter(FormulaLetter::B);

pub(crate) const K: Pattern<'static> = Pattern::Letter(FormulaLetter::K);

pub(crate) const H: Pattern<'static> = Pattern::Letter(FormulaLetter::H);

pub(crate) const E: TermPattern<'static> = TermPattern::Letter(TermLetter::E);

pub(crate) const F: TermPattern<'static> = TermPattern::Letter(TermLetter::F);

pub(crate) const S: TermPattern<'static> = TermPattern::Letter(TermLetter::S);

pub(crate) const I: TermPattern<'static> = TermPattern::Letter(TermLetter::I);

pub(crate) const L: TermPattern<'static> = TermPattern::Letter(TermLetter::L);

pub(crate) const T: TermPattern<'static> = TermPattern::Letter(TermLetter::T);

pub(crate) const J: TermPattern<'static> = TermPattern::Letter(TermLetter::J);

pub(crate) const M: TermPattern<'static> = TermPattern::Letter(TermLetter::M);

// the letters h, k and j: the sort of a hole, of the whole, and of another hole
pub(crate) const HOLE: DataPattern = DataPattern::Letter(DataLetter::H);

pub(crate) const WHOLE: DataPattern = DataPattern::Letter(DataLetter::K);

pub(crate) const OTHER: DataPattern = DataPattern::Letter(DataLetter::J);

pub(crate) const TREE: DataPattern = DataPattern::Is(DataSort::Tree);

pub(crate) const FOREST: DataPattern = DataPattern::Is(DataSort::Forest);

pub(crate) const GROVE: DataPattern = DataPattern::Is(DataSort::Grove);

pub(crate) const AT_ANY: SortPattern = SortPattern::Any;

pub(crate) const AT_X: SortPattern = SortPattern::OfX;

pub(crate) const AT_HOLE: SortPattern = SortPattern::Shape(HOLE);

pub(crate) const AT_WHOLE: SortPattern = SortPattern::Shape(WHOLE);

pub(crate) const AT_TREE: SortPattern = SortPattern::Shape(TREE);

pub(crate) const AT_FOREST: SortPattern = SortPattern::Shape(FOREST);

pub(crate) const AT_GROVE: SortPattern = SortPattern::Shape(GROVE);
// contexts
pub(crate) const TO_WHOLE: SortPattern = SortPattern::Context(HOLE, WHOLE);

pub(crate) const TO_FOREST: SortPattern = SortPattern::Context(HOLE, FOREST);

pub(crate) const TO_GROVE: SortPattern = SortPattern::Context(HOLE, GROVE);

pub(crate) const ZERO: TermPattern<'static> = TermPattern::Int(0);

pub(crate) const UNIT: TermPattern<'static> = TermPattern::Int(1);
// `S#I[P]%L` and `T#J[Q]%M`
pub(crate) const NODE_OF_P: Pattern<'static> = Pattern::Node(S, I, &P, L);

pub(crate) const NODE_OF_Q: Pattern<'static> = Pattern::Node(T, J, &Q, M);
// `(K @h P)`
pub(crate) const P_IN_K: Pattern<'static> = Pattern::App(HOLE, &K, &P);

// `entails!(P => Q; sort)`: an entailment
macro_rules! entails {
    ($left:expr => $right:expr; $sort:expr) => {
        row_patterns::Judged { left: $left, right: $right, sort: $sort }
    };
}

// `always!(P => Q; sort)`: a row without premises; a side condition may follow
macro_rules! always {
    ($left:expr => $right:expr; $sort:expr) => {
        $crate::notation::always!($left => $right; $sort; row_patterns::Condition::Nothing)
    };
    ($left:expr => $right:expr; $sort:expr; $condition:expr) => {
        $crate::notation::follows!(
            row_patterns::Premises::Nothing,
            $left => $right; $sort; $condition
        )
    };
}

// `follows!(premises, P => Q; sort)`: a row; a side condition may follow
macro_rules! follows {
    ($premises:expr, $left:expr => $right:expr; $sort:expr) => {
        $crate::notation::follows!(
            $premises,
            $left => $right; $sort; row_patterns::Condition::Nothing
        )
    };
    ($premises:expr, $left:expr => $right:expr; $sort:expr; $condition:expr) => {
        row_patterns::Row {
            asked: row_patterns::Asked::Nothing,
            premises: $premises,
            conclusion: $crate::notation::entails!($left => $right; $sort),
            condition: $condition,
        }
    };
}

pub(crate) use always;
pub(crate) use entails;
pub(crate) use follows;
