// Writing the steps of plans one after the other, to the end or until no more is written.
ghost use Rattle.std.specs.Prelude.{◌≡◌, ◌≤◌, IfOk, Some, None, is_some, []};
ghost use Rattle.model_commands.specs.Theories.{entails};
ghost use Rattle.assistant_laws.specs.Ways.{itself, row, turned};
ghost use Rattle.dom_terms.specs.Sorts.{sort_of};
ghost use Rattle.formula_syntax.specs.Formulas.{formula_of};
ghost use Rattle.step_filler.specs.declared.drafts.Stop.TheVariants as stop;
ghost use Rattle.step_filler.specs.Drafts.{IsKept, drafted, next};
ghost use Rattle.step_filler.specs.Pens.{IsPen, Pens, PensOne, outcome};
ghost use Rattle.step_filler.specs.Turns.{rule_of, way_of};

use crate::drafts::{Draft, Stop};
use crate::turns::{Law, Way};
use dom_terms::{OutOfMemory, Sort};
use formula_syntax::Formula;
use std::alloc::Global;
use theory_syntax::Steps;

/// Writes steps. Once it stopped it writes no more, so that its callers need not ask.
#[derive(Drop)]
pub(crate) struct Pen {
    /// Whence it has memory.
    pub alloc: Global,
    /// The steps so far.
    pub draft: Draft,
    /// Why it stopped, where it did.
    pub stopped: Option<Stop>,
}

impl Pen {
    /// One that wrote nothing, and whose first step has the number.
    pub(crate) fn new(alloc: Global, first: u32) -> Pen
        requires { first ≤ 4000000000 }
        ensures ready { IsPen result }
        ensures going { result.stopped ≡ None }
        ensures first { next result.draft ≡ first }
        ensures none { drafted result.draft ≡ [] }
    {
        Pen {
            alloc,
            draft: Draft::new(alloc, first),
            stopped: None,
        }
    }

    /// Whether it writes no more.
    pub(crate) fn has_stopped(&self) -> bool
        ensures { result ≡ is_some self.now.stopped }
    {
        self.stopped.is_some()
    }

    /// Stops for want of memory.
    pub(crate) fn refuse(&mut self) -> u32
        ensures stopped { self.new.stopped ≡ Some stop.OutOfMemory }
        ensures ready { IsPen self.new }
    {
        self.stopped = Some(Stop::OutOfMemory);
        0
    }

    /// Writes a step that the left formula entails the right one; its number.
    pub(crate) fn write(
        &mut self,
        rule: &str,
        citations: &[u32],
        left: &Formula,
        right: &Formula,
        sort: Sort,
    ) -> u32
        requires ready { IsPen self.old }
        ensures written { PensOne rule.now citations.now
            (entails (formula_of left.now) (formula_of right.now) (sort_of sort))
            self.old self.new result }
        ensures ready { IsPen self.new }
    {
        if self.has_stopped() {
            return 0;
        }
        match self
            .draft
            .write(self.alloc, rule, citations, left, right, sort)
        {
            Ok(number) => number,
            Err(stop) => {
                self.stopped = Some(stop);
                0
            }
        }
    }

    /// Writes a step from the one formula to the other, which way it is to be.
    pub(crate) fn write_so(
        &mut self,
        way: Way,
        rule: &str,
        citations: &[u32],
        from: &Formula,
        to: &Formula,
        sort: Sort,
    ) -> u32
        requires ready { IsPen self.old }
        ensures written { PensOne rule.now citations.now
            (turned (way_of way) (formula_of from.now) (formula_of to.now) (sort_of sort))
            self.old self.new result }
        ensures ready { IsPen self.new }
    {
        match way {
            Way::Onward => self.write(rule, citations, from, to, sort),
            Way::Backward => self.write(rule, citations, to, from, sort),
        }
    }

    /// Writes that a formula entails itself.
    pub(crate) fn write_itself(&mut self, formula: &Formula, sort: Sort) -> u32
        requires ready { IsPen self.old }
        ensures written { Pens (itself (formula_of formula.now) (sort_of sort))
            self.old self.new result }
        ensures ready { IsPen self.new }
    {
        self.write("id", &[], formula, formula, sort)
    }

    /// Writes by a rule that is read both ways.
    pub(crate) fn write_law(
        &mut self,
        way: Way,
        law: Law,
        from: &Formula,
        to: &Formula,
        sort: Sort,
    ) -> u32
        requires ready { IsPen self.old }
        ensures written { Pens (row (way_of way) (rule_of law) (formula_of from.now)
            (formula_of to.now) (sort_of sort))
            self.old self.new result }
        ensures ready { IsPen self.new }
    {
        self.write_so(way, law.name(way), &[], from, to, sort)
    }

    /// The steps that were written, unless memory was refused.
    pub(crate) fn finish(self) -> Result<Steps, OutOfMemory>
        ensures { IfOk result
            (λ steps. (steps ≡ self.draft.steps) × IsKept (outcome self.stopped 0)) }
    {
        let written = match self.stopped {
            None => Ok(0),
            Some(stop) => Err(stop),
        };
        self.draft.finish(written)
    }
}
