// The limits of a filled theory.
ghost use Rattle.std.specs.Prelude.{◌≡◌, ◌≤◌, ◌↔◌, IfOk, IsTrue, map};
ghost use Rattle.model_limits.specs.Limits.{standard_limits};
ghost use Rattle.model_files.specs.FileLimits.{step_count};
ghost use Rattle.model_filling.specs.Filled as filled;
ghost use Rattle.dom_terms.specs.Limits.{NamesLimit};
ghost use Rattle.theory_syntax.specs.Theories.{procedure_of, theory_of};

use dom_terms::limits::PROOF_STEPS;
use dom_terms::{LimitKind, OutOfMemory};
use std::alloc::Global;
use theory_syntax::{Procedure, Theory};
use theory_writing::write_theory;

// The most bytes of a file.
const FILE_BYTES: usize = 4_194_304;

// Whether the proofs have no more steps than the most.
fn has_few_steps(procedures: &[Procedure]) -> bool
    ensures { IsTrue result
        ↔ (step_count (map procedure_of procedures.now) ≤ standard_limits.proof_steps) }
{
    let mut left = PROOF_STEPS;
    for procedure in procedures {
        let steps = procedure.proof.len();
        if steps > left {
            return false;
        }
        left -= steps;
    }
    true
}

/// The limit that a filled theory passes: Steps where its proofs have more than 65,535 steps, and
/// else File where its text has more than 4,194,304 bytes. None comes exactly where it passes none.
/// OutOfMemory comes only where memory is refused.
pub fn filled_limit(alloc: Global, theory: &Theory) -> Result<Option<LimitKind>, OutOfMemory>
    ensures { IfOk result
        (λ limit. NamesLimit limit (filled.filled_limit (theory_of theory.now))) }
{
    if !has_few_steps(theory.procedures.as_slice()) {
        return Ok(Some(LimitKind::Steps));
    }
    let text = write_theory(alloc, theory)?;
    if text.len() > FILE_BYTES {
        return Ok(Some(LimitKind::File));
    }
    Ok(None)
}
