// What a step cites, and what is answered of a step.
use dom_terms::Verdict;
use formula_syntax::Entailment;
use row_walks::Numbered;

/// An entailment that a step cites.
#[derive(Clone, Copy)]
pub struct Premise<'a> {
    /// The entailment.
    pub entailment: &'a Entailment,
    /// The numbers of its formulas in the table, where they are known.
    pub numbers: Option<Numbered>,
}

/// The entailments that a step cites.
#[derive(Clone, Copy)]
pub enum Cited<'a> {
    /// None.
    Nothing,
    /// One.
    One(Premise<'a>),
    /// Two, in this order.
    Two(Premise<'a>, Premise<'a>),
}

/// The verdict on a step.
#[derive(Clone, Copy)]
pub struct StepVerdict {
    /// The verdict.
    pub verdict: Verdict,
    /// The numbers of the formulas of the conclusion, where they are known.
    pub numbers: Option<Numbered>,
}
