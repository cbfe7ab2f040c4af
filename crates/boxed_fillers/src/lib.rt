//! Filling the gaps of a theory by the fillers of a list, boxed or not: they are asked in their
//! order, and what they offer is checked.
//! Promises that what comes of it is the filled theory of the definitions for the turns and the
//! offers of these fillers, or the first place that fails, or the limit that it passes.
//! Stands on the filler of theories, on the check of offers and on the trait of a filler.
#![tactic(auto)]

ghost use Rattle.std.specs.Prelude.{◌≡◌, ◌≤◌, None, IfErr, IfOk};
ghost use Rattle.model_files.specs.FileFaults.{IsWellFormedTheory};
ghost use Rattle.model_files.specs.FileLimits.{step_count};
ghost use Rattle.model_files.specs.Sizes.{TheoryIsSmall};
ghost use Rattle.model_filling.specs.Filled.{IsFilled, WalkAll, all_filled, filled_limit};
ghost use Rattle.theory_syntax.specs.Theories.{theory_of};
ghost use Rattle.theory_filler.specs.Answers.{WereAsked};
ghost use Rattle.theory_filler.specs.Faults.{Refuses};
ghost use Rattle.boxed_fillers.specs.Voices.{voices_of};

mod asking;
mod listed;

use listed::Listed;
use std::alloc::Global;
use std::mem;
use step_filler::Filler;
pub use theory_filler::FillFault;
use theory_filler::fill;
use theory_syntax::Theory;

/// The theory with its gaps filled: the same, with the filled proof of each procedure in place of
/// its own. For each gap the fillers are asked in their order, until one has something usable; what
/// they offer is checked. The first place that fails comes exactly where there is one, with the
/// procedure and the step as they are counted in the theory handed in: Fails for a written step
/// that, renumbered, is no instance of its rule, Gap for a gap for which nobody offers something
/// usable, and NoProof where the filled proof doesn't end in the procedure's own triple. Limit
/// comes exactly where no place fails and the filled theory passes that limit, of its steps or else
/// of the bytes of its text. OutOfMemory comes only where memory is refused. Whatever comes, each
/// filler was asked some times or not at all, and its offers are as before.
pub fn fill_theory<F: Filler>(
    alloc: Global,
    theory: &Theory,
    fillers: &mut Vec<F>,
) -> Result<Theory, FillFault>
    requires small { TheoryIsSmall (theory_of theory.now) }
    requires formed { IsWellFormedTheory (theory_of theory.now) }
    requires few { step_count (theory_of theory.now).procedures ≤ 65535 }
    ensures filled { IfOk result (λ t. IsFilled (theory_of theory.now)
        (voices_of F.turn F.offers fillers.old.items) (theory_of t)) }
    ensures turns { IfOk result (λ t. WalkAll (theory_of theory.now) 1
        (theory_of theory.now).procedures (voices_of F.turn F.offers fillers.old.items)
        (all_filled (theory_of t).procedures (voices_of F.turn F.offers fillers.new.items))) }
    ensures within { IfOk result (λ t. filled_limit (theory_of t) ≡ None) }
    ensures asked { WereAsked (voices_of F.turn F.offers fillers.old.items)
        (voices_of F.turn F.offers fillers.new.items) }
    ensures refused { IfErr result (Refuses (theory_of theory.now)
        (voices_of F.turn F.offers fillers.old.items)) }
{
    // moved and not lent, since nothing is known of a list that was lent on
    let mut listed = Listed {
        fillers: mem::replace(fillers, Vec::new(alloc)),
    };
    let filled = fill(alloc, theory, &mut listed);
    *fillers = listed.fillers;
    filled
}
