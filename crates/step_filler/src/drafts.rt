// Steps that are written one after the other, until they pass a size of an offer.
ghost use Rattle.std.specs.Prelude.{◌≡◌, ◌≤◌, IfOk, MatchOption, true, []};
ghost use Rattle.model_commands.specs.Theories.{by_rule, entails};
ghost use Rattle.dom_terms.specs.Sorts.{sort_of};
ghost use Rattle.formula_syntax.specs.Formulas.{formula_of};
ghost use Rattle.theory_syntax.specs.Judgements.{judgement_of, reason_of};
ghost use Rattle.step_filler.specs.declared.drafts.Stop.TheVariants.{OutOfMemory};
ghost use Rattle.step_filler.specs.Drafts.{IsKept, IsPlace, IsReady, WritesOne, drafted, next};
ghost use Rattle.step_filler.specs.Given.{are_too_many};

use crate::weights::left_by_both;
use dom_terms::{Numbers, OutOfMemory, Sort, Terms, Text, copies, with};
use formula_syntax::{Entailment, Formula};
use std::alloc::Global;
use theory_syntax::{Judgement, Reason, Step, Steps};

/// The most steps of an offer.
const MOST_STEPS: usize = 10_000;

/// The most bytes of the text of an offer.
const MOST_BYTES: usize = 1_048_576;

/// Why no further step is written.
#[derive(Clone, Copy, Debug, PartialEq, Eq)]
pub(crate) enum Stop {
    /// Those that were written pass a size of an offer.
    Full,
    /// Memory was refused.
    OutOfMemory,
}

impl From<OutOfMemory> for Stop {
    ghost from_gives = { λ _ e. e ≡ OutOfMemory };

    fn from(_refused: OutOfMemory) -> Stop {
        Stop::OutOfMemory
    }
}

/// Steps that are written one after the other until they pass a size of an offer.
#[derive(Drop)]
pub(crate) struct Draft {
    /// The number of the first step.
    pub first: u32,
    /// The steps so far.
    pub steps: Steps,
    /// How many bytes further steps may have: none where these have too many.
    pub room: Option<usize>,
}

// The numbers as a list.
fn cited(alloc: Global, citations: &[u32]) -> Result<Numbers, OutOfMemory>
    ensures { IfOk result (λ numbers. numbers ≡ citations.now) }
{
    let mut numbers = Numbers::new(alloc);
    for number in citations {
        numbers.push(*number)?;
    }
    Ok(numbers)
}

// By the rule, from the steps that are cited.
fn reason(alloc: Global, rule: &str, citations: &[u32]) -> Result<Reason, OutOfMemory>
    ensures { IfOk result (λ reason. reason_of reason ≡ by_rule rule.now citations.now []) }
{
    let (name, premises) = with(Text::from_str(alloc, rule)?, cited(alloc, citations))?;
    let arguments = Terms::new(alloc);
    Ok(Reason::Rule {
        name,
        premises,
        arguments,
    })
}

// That the one formula entails the other.
fn entailment(
    alloc: Global,
    left: &Formula,
    right: &Formula,
    sort: Sort,
) -> Result<Judgement, OutOfMemory>
    ensures { IfOk result (λ j. judgement_of j
        ≡ entails (formula_of left.now) (formula_of right.now) (sort_of sort)) }
{
    let (left, right) = copies(alloc, left, right)?;
    Ok(Judgement::Entails(Entailment { left, right, sort }))
}

impl Draft {
    /// One without steps, whose first has the number.
    pub(crate) fn new(alloc: Global, first: u32) -> Draft
        requires { first ≤ 4000000000 }
        ensures ready { IsReady result }
        ensures first { next result ≡ first }
        ensures none { drafted result ≡ [] }
    {
        Draft {
            first,
            steps: Steps::new(alloc),
            room: Some(MOST_BYTES),
        }
    }

    // The number of a further step, and the room for it: none where the steps pass a size.
    fn place(&self) -> Option<(u32, usize)>
        requires { IsReady self.now }
        ensures { MatchOption result (are_too_many (drafted self.now) ≡ true)
            (λ place. IsPlace self.now place.0 place.1) }
    {
        let room = self.room?;
        let count = self.steps.len();
        if count > MOST_STEPS {
            return None;
        }
        Some((self.first + count as u32, room))
    }

    /// Writes a step that the left formula entails the right one; its number.
    pub(crate) fn write(
        &mut self,
        alloc: Global,
        rule: &str,
        citations: &[u32],
        left: &Formula,
        right: &Formula,
        sort: Sort,
    ) -> Result<u32, Stop>
        requires ready { IsReady self.old }
        ensures { WritesOne rule.now citations.now
            (entails (formula_of left.now) (formula_of right.now) (sort_of sort))
            self.old self.new result }
    {
        let Some((number, room)) = self.place() else {
            return Err(Stop::Full);
        };
        let judgement = entailment(alloc, left, right, sort)?;
        let (judgement, reason) = with(judgement, reason(alloc, rule, citations))?;
        self.steps.push(Step {
            number,
            line: 0,
            reason,
            judgement,
        })?;
        self.room = left_by_both(left, right, room);
        Ok(number)
    }

    /// The steps, once those of a plan were written or there was no room for all of them.
    pub(crate) fn finish(self, written: Result<u32, Stop>) -> Result<Steps, OutOfMemory>
        ensures { IfOk result (λ steps. (steps ≡ self.steps) × IsKept written) }
    {
        match written {
            Ok(_) | Err(Stop::Full) => Ok(self.steps),
            Err(Stop::OutOfMemory) => Err(OutOfMemory),
        }
    }
}
