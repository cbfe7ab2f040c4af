// Whether procedures declare no more variables than the most.
ghost use Rattle.std.specs.Prelude.{◌≡◌, ◌+◌, ◌<◌, length, map, nat_le, MatchOption};
ghost use Rattle.model_limits.specs.Limits.{standard_limits};
ghost use Rattle.model_commands.specs.CommandParts.{locals_of};
ghost use Rattle.model_files.specs.FileFaults.{declared_by};
ghost use Rattle.model_files.specs.FileLimits as files;
ghost use Rattle.theory_syntax.specs.Commands.{block_of, command_of};
ghost use Rattle.theory_syntax.specs.Theories.{procedure_of, theory_of};
ghost use Rattle.dom_syntax.specs.Scopes.{block_locals};

use dom_terms::limits::VARIABLES;
use theory_syntax::{Block, Command, Procedure, Theory};

// How much room the local variables of the command leave: none where there are more.
#[cycle(room_left)]
#[tactic(auto, using(crate::proofs::LimitLaws::room_rules))]
fn room_left(command: &Command, room: usize) -> Option<usize>
    ensures { MatchOption result (room < length (locals_of (command_of command.now)))
        (λ left. left + length (locals_of (command_of command.now)) ≡ room) }
{
    match command {
        Command::Block(block) | Command::While(_, block) => block_room_left(block, room),
        Command::If(_, first, second) => block_room_left(second, block_room_left(first, room)?),
        Command::Local(_, block) => block_room_left(block, room.checked_sub(1)?),
        _ => Some(room),
    }
}

#[cycle(room_left)]
#[tactic(auto, using(crate::proofs::LimitLaws::room_rules))]
fn block_room_left(block: &Block, room: usize) -> Option<usize>
    ensures { MatchOption result (room < length (block_locals (block_of block.now)))
        (λ left. left + length (block_locals (block_of block.now)) ≡ room) }
{
    let mut left = room;
    for command in block.as_slice() {
        left = room_left(command, left)?;
    }
    Some(left)
}

// Whether the procedure declares no more variables than the most.
#[tactic(auto, using(crate::proofs::LimitLaws::declared_rules))]
fn declares_few(procedure: &Procedure) -> bool
    ensures { result ≡ nat_le (length (declared_by (procedure_of procedure.now)))
        standard_limits.variables }
{
    let (params, results) = (procedure.params.len(), procedure.results.len());
    if params > VARIABLES || results > VARIABLES - params {
        return false;
    }
    room_left(&procedure.body, VARIABLES - params - results).is_some()
}

// Whether none declares more.
fn declare_few(procedures: &[Procedure]) -> bool
    ensures { result ≡ files.variables_within (map procedure_of procedures.now) }
{
    for procedure in procedures {
        if !declares_few(procedure) {
            return false;
        }
    }
    true
}

/// Whether no procedure of the theory declares more variables than the most: its parameters, its
/// results and the local variables of its body are counted.
pub fn variables_within(theory: &Theory) -> bool
    ensures { result ≡ files.variables_within (theory_of theory.now).procedures }
{
    declare_few(theory.procedures.as_slice())
}
