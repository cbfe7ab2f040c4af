// How fillers are asked for the steps of a gap.
ghost use Rattle.std.specs.Prelude.{◌≡◌, ◌≤◌, ◌<◌, [], ◌∷◌, true, length, IfOk};
ghost use Rattle.model_files.specs.FileFaults.{judgement_sorted};
ghost use Rattle.model_files.specs.Sizes.{JudgementIsSmall, TheoryIsSmall};
ghost use Rattle.theory_syntax.specs.Judgements.{judgement_of};
ghost use Rattle.theory_syntax.specs.Theories.{theory_of};
ghost use Rattle.cited_steps.specs.Earlier.{AreCitable};
ghost use Rattle.theory_filler.specs.Answers.{Answered, OfProcedure, WasAsked, WereAsked};
ghost use Rattle.boxed_fillers.specs.Voices.{voice_of, voices_of};

use dom_terms::OutOfMemory;
use formula_table::Table;
use gap_filling::take_usable;
use std::alloc::Global;
use step_filler::Filler;
use theory_syntax::{Judgement, Steps, Theory};

// Asks a filler for the steps of a gap that comes next in the proof, as if it were the only one. A
// usable offer is put at the end of the proof, and then the answer is true.
fn ask_one<F: Filler>(
    alloc: Global,
    table: &mut Table,
    theory: &Theory,
    procedure: u32,
    proof: &mut Steps,
    judgement: &Judgement,
    filler: &mut F,
) -> Result<bool, OutOfMemory>
    requires theory { TheoryIsSmall (theory_of theory.now) }
    requires first { 1 ≤ procedure }
    requires last { procedure ≤ length theory.now.procedures }
    requires proof { AreCitable proof.old }
    requires few { length proof.old < 4000000000 }
    requires small { JudgementIsSmall (judgement_of judgement.now) }
    requires sorted { judgement_sorted (judgement_of judgement.now) ≡ true }
    ensures answer { OfProcedure (theory_of theory.now) procedure (λ f. IfOk result
        (λ found. Answered (theory_of theory.now) f proof.old (judgement_of judgement.now)
        (voice_of F.turn F.offers filler.old ∷ []) found proof.new
        (voice_of F.turn F.offers filler.new ∷ []))) }
    ensures citable { AreCitable proof.new }
    ensures asked { WasAsked (voice_of F.turn F.offers filler.old)
        (voice_of F.turn F.offers filler.new) }
{
    let number = (proof.len() + 1) as u32;
    match filler.propose(alloc, number, judgement, proof.as_slice())? {
        Some(offer) => take_usable(alloc, table, theory, procedure, proof, judgement, offer),
        None => Ok(false),
    }
}

/// Asks the fillers in their order for the steps of a gap that comes next in the proof of the
/// procedure, counted from 1. The first usable offer is put at the end of the proof, and then the
/// answer is true; the fillers after that one aren't asked. Where there is none the proof is
/// unchanged. OutOfMemory comes only where memory is refused.
pub(crate) fn ask_each<F: Filler>(
    alloc: Global,
    table: &mut Table,
    theory: &Theory,
    procedure: u32,
    proof: &mut Steps,
    judgement: &Judgement,
    fillers: &mut [F],
) -> Result<bool, OutOfMemory>
    requires theory { TheoryIsSmall (theory_of theory.now) }
    requires first { 1 ≤ procedure }
    requires last { procedure ≤ length theory.now.procedures }
    requires proof { AreCitable proof.old }
    requires few { length proof.old < 4000000000 }
    requires small { JudgementIsSmall (judgement_of judgement.now) }
    requires sorted { judgement_sorted (judgement_of judgement.now) ≡ true }
    ensures answer { OfProcedure (theory_of theory.now) procedure (λ f. IfOk result
        (λ found. Answered (theory_of theory.now) f proof.old (judgement_of judgement.now)
        (voices_of F.turn F.offers fillers.old) found proof.new
        (voices_of F.turn F.offers fillers.new))) }
    ensures citable { AreCitable proof.new }
    ensures asked { WereAsked (voices_of F.turn F.offers fillers.old)
        (voices_of F.turn F.offers fillers.new) }
{
    for filler in fillers.iter_mut() {
        if ask_one(alloc, table, theory, procedure, proof, judgement, filler)? {
            return Ok(true);
        }
    }
    Ok(false)
}
