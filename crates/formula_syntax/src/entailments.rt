// Entailments.
ghost use Rattle.std.specs.Prelude.{◌≡◌, IfOk};
ghost use Rattle.formula_syntax.specs.Entailments.{entailment_of};

use crate::formulas::Formula;
use dom_terms::{Copied, OutOfMemory, Sort, copies};
use std::alloc::Global;

/// That whatever of the sort meets the left formula meets the right one.
#[derive(Debug, Drop)]
pub struct Entailment {
    /// What is given.
    pub left: Formula,
    /// What follows.
    pub right: Formula,
    /// The sort that both are judged at.
    pub sort: Sort,
}

impl Copied for Entailment {
    ghost use Rattle.model_formulas.specs.Formulas.{Named};
    ghost use Rattle.model_formulas.specs.Entailments.{EntailmentOf};

    ghost Seen = { EntailmentOf Named };

    ghost seen = { entailment_of };

    fn copy(&self, alloc: Global) -> Result<Entailment, OutOfMemory>
        ensures { IfOk result (λ copied. entailment_of copied ≡ entailment_of self.now) }
    {
        let (left, right) = copies(alloc, &self.left, &self.right)?;
        let sort = self.sort;
        Ok(Entailment { left, right, sort })
    }
}
