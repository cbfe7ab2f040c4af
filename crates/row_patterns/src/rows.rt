// Rows: what a rule cites, concludes and asks.
use crate::letters::{FormulaLetter, TermLetter};
use crate::patterns::{Pattern, SortPattern};

/// A pattern of entailments: the left formula entails the right one at the sort.
#[derive(Clone, Copy)]
pub struct Judged<'a> {
    /// The formula that entails.
    pub left: Pattern<'a>,
    /// The formula that is entailed.
    pub right: Pattern<'a>,
    /// The sort.
    pub sort: SortPattern,
}

/// The premises of a row.
#[derive(Clone, Copy)]
pub enum Premises<'a> {
    /// No premise.
    Nothing,
    /// One premise.
    One(Judged<'a>),
    /// Two premises, in this order.
    Two(Judged<'a>, Judged<'a>),
}

/// What a row asks of the sort of `$x`, with the argument that it takes.
#[derive(Clone, Copy)]
pub enum Asked {
    /// Nothing is asked, and there is no argument.
    Nothing,
    /// The argument is the term of the letter, and has the sort of `$x`.
    Argument(TermLetter),
    /// The sort of `$x` is one that `$x` may have; there is no argument.
    SortOfX,
}

/// The side condition of a row.
#[derive(Clone, Copy)]
pub enum Condition {
    /// There is none.
    Nothing,
    /// `$x` isn't free in the formula.
    NotFree(FormulaLetter),
    /// The formula is pure.
    Pure(FormulaLetter),
}

/// A row of a rule of entailment.
#[derive(Clone, Copy)]
pub struct Row<'a> {
    /// What is asked of the sort of `$x`, and the argument.
    pub asked: Asked,
    /// The premises.
    pub premises: Premises<'a>,
    /// The conclusion.
    pub conclusion: Judged<'a>,
    /// The side condition.
    pub condition: Condition,
}
