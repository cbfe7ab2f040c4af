// What a run calls.
ghost use Rattle.std.specs.Prelude.{◌≡◌, None, map, IfOk, MatchOption, bytes_eq, position};
ghost use Rattle.model_commands.specs.Theories.{procedure_named};
ghost use Rattle.theory_syntax.specs.Theories.{procedure_of, theory_of};
ghost use Rattle.model_answers.specs.Arguments.{called};
ghost use Rattle.domcheck_core.specs.Calls.{IsPlaceOf, IsCallOf};

use dom_terms::{OutOfMemory, Text, Texts, Values};
use request_words::read_arguments;
use std::alloc::Global;
use theory_syntax::{Procedure, Theory};

/// A procedure of a theory with the values of its parameters.
#[derive(Drop)]
pub struct Call {
    /// The place of the procedure, counted from 0.
    pub procedure: usize,
    /// The values.
    pub values: Values,
}

// The place of the first procedure of the name, counted from 0, or none.
fn position_of(procedures: &[Procedure], name: &str) -> Option<usize>
    ensures { result ≡ position (λ f. bytes_eq name.now f.name) procedures.now }
{
    procedures
        .iter()
        .position(|procedure| name == procedure.name.as_str())
}

/// The same, with what stands there.
pub fn place_of(procedures: &[Procedure], name: &str) -> Option<usize>
    ensures { MatchOption result
        (procedure_named name.now (map procedure_of procedures.now) ≡ None)
        (λ place. IsPlaceOf name.now procedures.now place) }
{
    position_of(procedures, name)
}

/// The call of the procedure of this name on these arguments. None comes exactly where the name
/// isn't in the theory, or the arguments aren't as many as the parameters, or one doesn't read.
pub fn read_call(
    alloc: Global,
    theory: &Theory,
    name: &Text,
    arguments: &Texts,
) -> Result<Option<Call>, OutOfMemory>
    ensures { IfOk result (λ found. MatchOption found
        (called (theory_of theory.now) name.now arguments.now ≡ None)
        (λ call. IsCallOf theory.now name.now arguments.now call)) }
{
    let Some(procedure) = place_of(theory.procedures.as_slice(), name.as_str()) else {
        return Ok(None);
    };
    let Some(called) = theory.procedures.get(procedure) else {
        unreachable!();
    };
    let params = called.params.as_slice();
    match read_arguments(alloc, params, arguments.as_slice())? {
        Some(values) => Ok(Some(Call { procedure, values })),
        None => Ok(None),
    }
}
