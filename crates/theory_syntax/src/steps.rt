// Steps of proofs, with the reasons why they hold.
ghost use Rattle.std.specs.Prelude.{◌≡◌, IfOk};
ghost use Rattle.theory_syntax.specs.Judgements.{reason_of, step_of};

use crate::judgements::Judgement;
use dom_terms::{Copied, List, Numbers, OutOfMemory, Terms, Text, copies, with};
use std::alloc::Global;

/// A list of steps.
pub type Steps = List<Step>;

/// Why a step holds.
#[derive(Debug, Drop)]
pub enum Reason {
    /// A gap, to be filled.
    Auto,
    /// A rule, the numbers of the steps that it cites, and its arguments.
    Rule {
        name: Text,
        premises: Numbers,
        arguments: Terms,
    },
}

/// A step of a proof: its number, the line on which it begins, its reason and what it says.
#[derive(Debug, Drop)]
pub struct Step {
    /// The number written at the step; a well-formed proof counts from 1.
    pub number: u32,
    /// The line of the file that the step begins on, counted from 1.
    pub line: u32,
    /// The rule and what it cites, or none.
    pub reason: Reason,
    /// What the step claims.
    pub judgement: Judgement,
}

impl Copied for Reason {
    ghost use Rattle.model_commands.specs.Theories as model;

    ghost Seen = { model.Reason };

    ghost seen = { reason_of };

    fn copy(&self, alloc: Global) -> Result<Reason, OutOfMemory>
        ensures { IfOk result (λ copied. reason_of copied ≡ reason_of self.now) }
    {
        match self {
            Self::Auto => Ok(Self::Auto),
            Self::Rule {
                name,
                premises,
                arguments,
            } => {
                let cited = copies(alloc, name, premises)?;
                let ((name, premises), arguments) = with(cited, arguments.copy(alloc))?;
                Ok(Self::Rule {
                    name,
                    premises,
                    arguments,
                })
            }
        }
    }
}

impl Copied for Step {
    ghost use Rattle.model_formulas.specs.Formulas.{Named};
    ghost use Rattle.model_commands.specs.Theories.{StepOf};

    ghost Seen = { StepOf Named };

    ghost seen = { step_of };

    fn copy(&self, alloc: Global) -> Result<Step, OutOfMemory>
        ensures { IfOk result (λ copied. step_of copied ≡ step_of self.now) }
    {
        let (reason, judgement) = copies(alloc, &self.reason, &self.judgement)?;
        let (number, line) = (self.number, self.line);
        Ok(Step {
            number,
            line,
            reason,
            judgement,
        })
    }
}
