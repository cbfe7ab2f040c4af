// What is written at a step for a triple.
use dom_terms::Term;
use theory_syntax::{Step, Triple};

/// What is written at a step whose judgement is a triple, and the steps before it.
#[derive(Drop)]
pub struct Written<'a> {
    /// The steps before it in the proof.
    pub earlier: &'a [Step],
    /// The numbers of the steps that it cites.
    pub citations: &'a [u32],
    /// The arguments.
    pub arguments: &'a [Term],
    /// The judgement.
    pub triple: &'a Triple,
}
