// Whoever is asked for the steps of gaps.
ghost use Rattle.std.specs.Prelude.{◌≡◌, ◌≤◌, ◌<◌, List, true, length, map, IfOk};
ghost use Rattle.model_files.specs.FileFaults.{judgement_sorted};
ghost use Rattle.model_files.specs.Sizes.{JudgementIsSmall, TheoryIsSmall};
ghost use Rattle.model_filling.specs.Offers.{Voice};
ghost use Rattle.theory_syntax.specs.Judgements.{judgement_of};
ghost use Rattle.theory_syntax.specs.Theories.{theory_of};
ghost use Rattle.cited_steps.specs.Earlier.{AreCitable};
ghost use Rattle.theory_filler.specs.Answers.{Answered, OfProcedure, WereAsked};

use dom_terms::OutOfMemory;
use formula_table::Table;
use std::alloc::Global;
use theory_syntax::{Judgement, Steps, Theory};

/// Fillers, who are asked in their order for the steps of gaps. What they offer is checked.
pub trait Fillers {
    /// The fillers, each at its turn.
    ghost voices: { Self → List Voice };

    /// Asks for the steps of a gap of this judgement, which comes next in the proof of the
    /// procedure, counted from 1. The first usable offer is put at the end of the proof, and then
    /// the answer is true. Where there is none the proof is unchanged. OutOfMemory comes only where
    /// memory is refused. Whatever comes, each filler was asked some times or not at all.
    fn ask(
        &mut self,
        alloc: Global,
        table: &mut Table,
        theory: &Theory,
        procedure: u32,
        proof: &mut Steps,
        judgement: &Judgement,
    ) -> Result<bool, OutOfMemory>
        requires theory { TheoryIsSmall (theory_of theory.now) }
        requires first { 1 ≤ procedure }
        requires last { procedure ≤ length theory.now.procedures }
        requires proof { AreCitable proof.old }
        requires few { length proof.old < 4000000000 }
        requires small { JudgementIsSmall (judgement_of judgement.now) }
        requires sorted { judgement_sorted (judgement_of judgement.now) ≡ true }
        ensures answer { OfProcedure (theory_of theory.now) procedure (λ f. IfOk result
            (λ found. Answered (theory_of theory.now) f proof.old (judgement_of judgement.now)
            (voices self.old) found proof.new (voices self.new))) }
        ensures citable { AreCitable proof.new }
        ensures asked { WereAsked (voices self.old) (voices self.new) };
}
