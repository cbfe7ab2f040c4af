// The limits of a theory.
ghost use Rattle.std.specs.Prelude.{◌≡◌, ◌≤◌, map, nat_le};
ghost use Rattle.dom_terms.specs.Limits.{NamesLimit};
ghost use Rattle.theory_syntax.specs.Theories.{procedure_of, theory_of};
ghost use Rattle.model_files.specs.FileLimits as files;
ghost use Rattle.model_answers.specs.Texts as texts;

use dom_syntax::variables_within;
use dom_terms::LimitKind;
use dom_terms::limits::PROOF_STEPS;
use theory_syntax::{Procedure, Theory};

// Whether the proofs have no more steps together than the most.
fn steps_within(procedures: &[Procedure]) -> bool
    ensures { result ≡ nat_le (files.step_count (map procedure_of procedures.now)) PROOF_STEPS }
{
    let mut rest = procedures;
    let mut left = PROOF_STEPS;
    'procedures: while let [first, others @ ..] = rest {
        let steps = first.proof.len();
        if steps > left {
            return false;
        }
        left -= steps;
        rest = others;
    }
    true
}

/// The limit that the theory passes: that of the variables of a procedure, or that of the steps of
/// all proofs. None comes exactly where it passes neither.
pub fn theory_limit(theory: &Theory) -> Option<LimitKind>
    ensures { NamesLimit result (texts.theory_limit (theory_of theory.now)) }
{
    if !variables_within(theory) {
        Some(LimitKind::Variables)
    } else if !steps_within(theory.procedures.as_slice()) {
        Some(LimitKind::Steps)
    } else {
        None
    }
}
