// Triples and judgements.
ghost use Rattle.std.specs.Prelude.{◌≡◌, IfOk};
ghost use Rattle.theory_syntax.specs.Judgements.{triple_of, judgement_of};

use crate::commands::Command;
use dom_terms::{Copied, DataSort, OutOfMemory, copies, with};
use formula_syntax::{Entailment, Formula};
use std::alloc::Global;

/// That a command, run on what meets `pre`, never faults and, where it ends, leaves what meets
/// `post`.
#[derive(Debug, Drop)]
pub struct Triple {
    /// What holds before.
    pub pre: Formula,
    /// What is run.
    pub command: Command,
    /// What holds wherever it ends.
    pub post: Formula,
    /// The sort of shapes that both formulas are judged at.
    pub sort: DataSort,
}

/// What a step of a proof says.
#[derive(Debug, Drop)]
pub enum Judgement {
    /// One formula entails another.
    Entails(Entailment),
    /// A triple holds.
    Triple(Triple),
}

impl Copied for Triple {
    ghost use Rattle.model_formulas.specs.Formulas.{Named};
    ghost use Rattle.model_commands.specs.Theories.{JudgementOf};

    ghost Seen = { JudgementOf Named };

    ghost seen = { triple_of };

    fn copy(&self, alloc: Global) -> Result<Triple, OutOfMemory>
        ensures { IfOk result (λ copied. triple_of copied ≡ triple_of self.now) }
    {
        let formulas = copies(alloc, &self.pre, &self.post)?;
        let ((pre, post), command) = with(formulas, self.command.copy(alloc))?;
        let sort = self.sort;
        Ok(Triple {
            pre,
            command,
            post,
            sort,
        })
    }
}

impl Copied for Judgement {
    ghost use Rattle.model_formulas.specs.Formulas.{Named};
    ghost use Rattle.model_commands.specs.Theories.{JudgementOf};

    ghost Seen = { JudgementOf Named };

    ghost seen = { judgement_of };

    fn copy(&self, alloc: Global) -> Result<Judgement, OutOfMemory>
        ensures { IfOk result (λ copied. judgement_of copied ≡ judgement_of self.now) }
    {
        match self {
            Self::Entails(entailment) => Ok(Self::Entails(entailment.copy(alloc)?)),
            Self::Triple(triple) => Ok(Self::Triple(triple.copy(alloc)?)),
        }
    }
}
