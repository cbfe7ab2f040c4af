// Filling the gaps of a file, over its bytes.
ghost use Rattle.std.specs.Prelude.{◌≡◌, ◌≤◌, ℕ, List, None, IfErr, IfOk};
ghost use Rattle.model_files.specs.Sizes.{TheoryIsSmall};
ghost use Rattle.model_files.specs.FileFaults.{IsWellFormedTheory};
ghost use Rattle.model_files.specs.FileLimits.{step_count};
ghost use Rattle.model_filling.specs.Filled.{IsFilled, WalkAll, all_filled, filled_limit};
ghost use Rattle.model_filling.specs.Offers.{Voice};
ghost use Rattle.model_grammar.specs.TheoryWriting.{theory_text};
ghost use Rattle.model_answers.specs.Texts.{theory_limit};
ghost use Rattle.theory_syntax.specs.Theories.{theory_of};
ghost use Rattle.theory_filler.specs.Answers.{WereAsked};
ghost use Rattle.theory_filler.specs.Faults.{Refuses};
ghost use Rattle.boxed_fillers.specs.Voices.{voices_of};
ghost use Rattle.domcheck_core.specs.Answers.{FillAnswer, FillVerdict};
ghost use Rattle.domcheck_core.specs.Clauses.{IsFilledFile};

use crate::checks::{Ending, failure, gap, let_go, no_proof};
use crate::file::read_file;
use crate::replies::{Reply, answered, reported};
use crate::status::Status;
use boxed_fillers::FillFault;
use dom_terms::OutOfMemory;
use fault_report::Report;
use std::alloc::Global;
use step_filler::Filler;
use theory_syntax::Theory;
use theory_writing::write_theory;

/// The theory with its gaps filled: the same, with the filled proof of each procedure in place of
/// its own. For each gap the fillers are asked in their order, until one has something usable; what
/// they offer is checked. The first place that fails comes exactly where there is one, with the
/// procedure and the step as they are counted in the theory handed in: Fails for a written step
/// that, renumbered, is no instance of its rule, Gap for a gap for which nobody offers something
/// usable, and NoProof where the filled proof doesn't end in the procedure's own triple. Limit
/// comes exactly where no place fails and the filled theory passes that limit, of its steps or else
/// of the bytes of its text. OutOfMemory comes only where memory is refused. Whatever comes, each
/// filler was asked some times or not at all, and its offers are as before.
pub fn fill_theory(
    alloc: Global,
    theory: &Theory,
    fillers: &mut Vec<Box<dyn Filler>>,
) -> Result<Theory, FillFault>
    requires small { TheoryIsSmall (theory_of theory.now) }
    requires formed { IsWellFormedTheory (theory_of theory.now) }
    requires few { step_count (theory_of theory.now).procedures ≤ 65535 }
    ensures filled { IfOk result (λ t. IsFilled (theory_of theory.now)
        (voices_of turn offers fillers.old.items) (theory_of t)) }
    ensures turns { IfOk result (λ t. WalkAll (theory_of theory.now) 1
        (theory_of theory.now).procedures (voices_of turn offers fillers.old.items)
        (all_filled (theory_of t).procedures (voices_of turn offers fillers.new.items))) }
    ensures within { IfOk result (λ t. filled_limit (theory_of t) ≡ None) }
    ensures asked { WereAsked (voices_of turn offers fillers.old.items)
        (voices_of turn offers fillers.new.items) }
    ensures refused { IfErr result (Refuses (theory_of theory.now)
        (voices_of turn offers fillers.old.items)) }
{
    boxed_fillers::fill_theory(alloc, theory, fillers)
}

// The answer with the text of a filled theory.
fn written(alloc: Global, filled: &Theory) -> Result<Reply, OutOfMemory>
    ensures status { IfOk result (λ r. r.status ≡ Status.Done) }
    ensures output { IfOk result (λ r. r.output ≡ theory_text (theory_of filled.now)) }
{
    let output = write_theory(alloc, filled)?;
    let status = Status::Done;
    Ok(Reply { status, output })
}

// The answer where no filled theory is handed out.
fn unfilled(alloc: Global, theory: &Theory, fault: FillFault) -> Result<Reply, OutOfMemory>
    requires { (voices : List Voice) × Refuses (theory_of theory.now) voices fault }
    ensures { (voices : List Voice) → Refuses (theory_of theory.now) voices fault
        → IfOk result (λ r. FillVerdict voices (theory_of theory.now) r.status r.output) }
{
    match fault {
        FillFault::Fails {
            procedure,
            step,
            verdict,
        } => failure(alloc, theory, procedure, step, verdict),
        FillFault::NoProof { procedure } => no_proof(alloc, theory, procedure),
        FillFault::Gap { procedure, step } => gap(alloc, theory, procedure, step),
        FillFault::Limit(kind) => reported(alloc, Status::Limit(kind), Report::Limit { kind }),
        FillFault::OutOfMemory => Err(OutOfMemory),
    }
}

// The answer on the theory of a file. The memory of the filled theory is given back or left.
fn filling(
    alloc: Global,
    theory: &Theory,
    fillers: &mut Vec<Box<dyn Filler>>,
    ending: Ending,
) -> Result<Reply, OutOfMemory>
    requires small { TheoryIsSmall (theory_of theory.now) }
    requires formed { IsWellFormedTheory (theory_of theory.now) }
    requires within { theory_limit (theory_of theory.now) ≡ None }
    ensures answer { IfOk result (λ r. FillVerdict (voices_of turn offers fillers.old.items)
        (theory_of theory.now) r.status r.output) }
    ensures asked { WereAsked (voices_of turn offers fillers.old.items)
        (voices_of turn offers fillers.new.items) }
{
    match fill_theory(alloc, theory, fillers) {
        Ok(filled) => {
            let reply = written(alloc, &filled);
            let_go(filled, ending);
            reply
        }
        Err(fault) => unfilled(alloc, theory, fault),
    }
}

/// The answer of `fill` on the bytes of a file, however many they are. The memory of the theories
/// is given back or left, as it is asked for.
pub fn fill_until(
    alloc: Global,
    bytes: &[u8],
    fillers: &mut Vec<Box<dyn Filler>>,
    ending: Ending,
) -> Result<Reply, OutOfMemory>
    ensures answer { IfOk result
        (λ r. FillAnswer (voices_of turn offers fillers.old.items) bytes.now r.status r.output) }
    ensures asked { WereAsked (voices_of turn offers fillers.old.items)
        (voices_of turn offers fillers.new.items) }
{
    match read_file(alloc, bytes) {
        Ok(theory) => {
            let reply = filling(alloc, &theory, fillers, ending);
            let_go(theory, ending);
            reply
        }
        Err(why) => answered(alloc, why),
    }
}

/// The answer of `fill` on the bytes of a file, however many they are: that of the definition, and
/// no other. The fillers are asked in their order for the steps of each gap, and what they offer is
/// checked.
pub fn fill_bytes(
    alloc: Global,
    bytes: &[u8],
    fillers: &mut Vec<Box<dyn Filler>>,
) -> Result<Reply, OutOfMemory>
    ensures answer { IfOk result
        (λ r. FillAnswer (voices_of turn offers fillers.old.items) bytes.now r.status r.output) }
    ensures exactly { (s : Status) (output : List ℕ)
        → FillAnswer (voices_of turn offers fillers.old.items) bytes.now s output
        → IfOk result (λ r. (r.status ≡ s) × (r.output ≡ output)) }

    // What is filled is a file of its own, which is accepted.
    ensures filled { IfOk result (λ r. r.status ≡ Status.Done
        → IsFilledFile (voices_of turn offers fillers.old.items) bytes.now r.output) }

    // Whatever comes, each filler was asked some times or not at all.
    ensures asked { WereAsked (voices_of turn offers fillers.old.items)
        (voices_of turn offers fillers.new.items) }
{
    let reply = fill_until(alloc, bytes, fillers, Ending::GiveBack)?;
    // so its text is a file, whose literals are UTF-8
    reply.output.is_utf8();
    Ok(reply)
}
