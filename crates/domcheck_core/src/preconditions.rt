// Weakest preconditions of the procedures of a file, over its bytes.
ghost use Rattle.std.specs.Prelude.{◌≡◌, ℕ, List, None, Some, map, IfOk};
ghost use Rattle.model_answers.specs.Output.{precondition_lines};
ghost use Rattle.model_answers.specs.Texts.{IsFile};
ghost use Rattle.model_weakest.specs.Straight as straight;
ghost use Rattle.dom_terms.specs.Terms.{logic_var_of};
ghost use Rattle.formula_syntax.specs.Formulas.{formula_of};
ghost use Rattle.theory_syntax.specs.Commands.{command_of};
ghost use Rattle.theory_syntax.specs.Theories.{procedure_of, theory_of};
ghost use Rattle.wp_calc.specs.Faults.{IsFaultOf};
ghost use Rattle.domcheck_core.specs.Answers.{PreconditionAnswer, WpAnswer, WpVerdict};
ghost use Rattle.domcheck_core.specs.Clauses.{IsPrecondition};
ghost use Rattle.domcheck_core.specs.Preconditions.{StandsInFile, bent_answer, body_refusal};

use crate::calls::place_of;
use crate::checks::{Ending, let_go};
use crate::file::read_file;
use crate::replies::{Reply, answered, reported};
use crate::status::Status;
use dom_terms::{Copied, DataSort, LimitKind, OutOfMemory, Text, same_data_sort};
use fault_report::Report;
use std::alloc::Global;
use theory_syntax::{Command, Procedure, Theory};
use theory_writing::write_precondition;
use wp_calc::{Precondition, WpFault, first_not_straight, weakest_with_names};

// The answer with the text of a weakest precondition.
fn written(alloc: Global, found: &Precondition) -> Result<Reply, OutOfMemory>
    ensures status { IfOk result (λ r. r.status ≡ Status.Done) }
    ensures output { IfOk result (λ r. r.output ≡ precondition_lines
        (map logic_var_of found.now.variables) (formula_of found.now.formula)) }
{
    let output = write_precondition(alloc, &found.variables, &found.formula)?;
    let status = Status::Done;
    Ok(Reply { status, output })
}

// The answer for a body that isn't straight-line.
fn bent(alloc: Global, body: &Command) -> Result<Reply, OutOfMemory>
    requires { straight.first_not_straight (command_of body.now) ≡ None → ⊥ }
    ensures { IfOk result (λ r. bent_answer (command_of body.now) ≡ Some (r.status, r.output)) }
{
    let Some(command) = first_not_straight(body) else {
        unreachable!();
    };
    let command = command.copy(alloc)?;
    reported(alloc, Status::NotStraight, Report::NotStraight { command })
}

// The answer where a body has no weakest precondition that is computed.
fn without(alloc: Global, body: &Command, fault: WpFault) -> Result<Reply, OutOfMemory>
    requires { IsFaultOf (command_of body.now) fault }
    ensures { IfOk result (λ r. body_refusal (command_of body.now) ≡ Some (r.status, r.output)) }
{
    match fault {
        WpFault::NotStraight { .. } => bent(alloc, body),
        WpFault::TooLong => {
            let kind = LimitKind::Straight;
            reported(alloc, Status::Limit(kind), Report::Limit { kind })
        }
        WpFault::OutOfMemory => Err(OutOfMemory),
    }
}

// The answer on a procedure of the theory.
fn answer_for(alloc: Global, theory: &Theory, procedure: &Procedure) -> Result<Reply, OutOfMemory>
    requires { StandsInFile (theory_of theory.now) (procedure_of procedure.now) }
    ensures { IfOk result (λ r.
        PreconditionAnswer (theory_of theory.now) (procedure_of procedure.now) r.status r.output) }
{
    if !same_data_sort(procedure.sort, DataSort::Grove) {
        return reported(alloc, Status::NotStraight, Report::NotStraightSort);
    }
    match weakest_with_names(alloc, theory, &procedure.body, &procedure.post) {
        Ok(found) => written(alloc, &found),
        Err(fault) => without(alloc, &procedure.body, fault),
    }
}

// The answer on the theory of a file.
fn verdict(alloc: Global, theory: &Theory, procedure: &Text) -> Result<Reply, OutOfMemory>
    requires { (bytes : List ℕ) × IsFile bytes (theory_of theory.now) }
    ensures { IfOk result
        (λ r. WpVerdict procedure.now (theory_of theory.now) r.status r.output) }
{
    let Some(place) = place_of(theory.procedures.as_slice(), procedure.as_str()) else {
        return reported(alloc, Status::BadWords, Report::BadWords);
    };
    let Some(asked) = theory.procedures.get(place) else {
        unreachable!();
    };
    answer_for(alloc, theory, asked)
}

/// The answer of `wp` on the bytes of a file, however many they are. The memory of the theory is
/// given back or left, as it is asked for.
pub fn wp_until(
    alloc: Global,
    file: &[u8],
    procedure: &Text,
    ending: Ending,
) -> Result<Reply, OutOfMemory>
    ensures { IfOk result (λ r. WpAnswer procedure.now file.now r.status r.output) }
{
    match read_file(alloc, file) {
        Ok(theory) => {
            let reply = verdict(alloc, &theory, procedure);
            let_go(theory, ending);
            reply
        }
        Err(why) => answered(alloc, why),
    }
}

/// The answer of `wp` on the bytes of a file, however many they are: that of the definition, and no
/// other.
pub fn wp_bytes(alloc: Global, file: &[u8], procedure: &Text) -> Result<Reply, OutOfMemory>
    ensures answer { IfOk result (λ r. WpAnswer procedure.now file.now r.status r.output) }
    ensures exactly { (s : Status) (output : List ℕ) → WpAnswer procedure.now file.now s output
        → IfOk result (λ r. (r.status ≡ s) × (r.output ≡ output)) }

    // What is printed for a procedure is its weakest precondition.
    ensures precondition { IfOk result
        (λ r. r.status ≡ Status.Done → IsPrecondition procedure.now file.now r.output) }
{
    wp_until(alloc, file, procedure, Ending::GiveBack)
}
