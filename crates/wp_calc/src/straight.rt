// The first command that isn't straight-line, and how long a command is.
ghost use Rattle.std.specs.Prelude.{◌≡◌, ◌+◌, ◌<◌, ◌^◌, length, map, not, MatchOption, MatchResult, None, Some, nat_le};
ghost use Rattle.std.specs.List.{filter, find, position_from};
ghost use Rattle.model_limits.specs.Limits.{standard_limits};
ghost use Rattle.model_commands.specs.CommandParts.{commands_in, commands_of};
ghost use Rattle.model_weakest.specs.Straight.{acts, first_not_straight, goes_straight, is_short, length_of};
ghost use Rattle.theory_syntax.specs.Commands.{block_of, command_of};

use dom_terms::limits::STRAIGHT;
use theory_syntax::{Block, Command};

/// The first command in the command that is a choice, a loop, a local variable or a call, a command
/// before those in it: none where the command is straight-line.
#[cycle(first_not_straight)]
pub fn first_not_straight(command: &Command) -> Option<&Command>
    ensures { MatchOption result (first_not_straight (command_of command.now) ≡ None)
        (λ found. first_not_straight (command_of command.now) ≡ Some (command_of found.now)) }
{
    match command {
        Command::Block(block) => first_in_block(block),
        Command::If(_, _, _) | Command::While(_, _) => Some(command),
        Command::Local(_, _) | Command::Call(_, _, _) => Some(command),
        _ => None,
    }
}

// The same of a block.
#[cycle(first_not_straight)]
fn first_in_block(block: &Block) -> Option<&Command>
    ensures { MatchOption result
        (find (λ c. not (goes_straight c)) (commands_of (block_of block.now)) ≡ None)
        (λ found. find (λ c. not (goes_straight c)) (commands_of (block_of block.now))
        ≡ Some (command_of found.now)) }
{
    for command in block.as_slice() {
        if let Some(found) = first_not_straight(command) {
            return Some(found);
        }
    }
    None
}

/// The number after that of the last command in the command, itself the one with this number, or
/// else the number of the first that isn't straight-line.
#[cycle(place_after)]
pub(crate) fn place_after(command: &Command, place: u32) -> Result<u32, u32>
    requires { place + length (commands_in (command_of command.now)) < 2 ^ 32 }
    ensures { MatchResult result
        (λ next. (position_from not place (map goes_straight (commands_in (command_of command.now)))
        ≡ None) × (next ≡ place + length (commands_in (command_of command.now))))
        (λ part. position_from not place (map goes_straight (commands_in (command_of command.now)))
        ≡ Some part) }
{
    match command {
        Command::Block(block) => place_after_block(block, place + 1),
        Command::If(_, _, _) | Command::While(_, _) => Err(place),
        Command::Local(_, _) | Command::Call(_, _, _) => Err(place),
        _ => Ok(place + 1),
    }
}

// The same of a block.
#[cycle(place_after)]
fn place_after_block(block: &Block, place: u32) -> Result<u32, u32>
    requires { place + length (commands_of (block_of block.now)) < 2 ^ 32 }
    ensures { MatchResult result
        (λ next. (position_from not place (map goes_straight (commands_of (block_of block.now)))
        ≡ None) × (next ≡ place + length (commands_of (block_of block.now))))
        (λ part. position_from not place (map goes_straight (commands_of (block_of block.now)))
        ≡ Some part) }
{
    let mut next = place;
    for command in block.as_slice() {
        match place_after(command, next) {
            Ok(after) => next = after,
            Err(part) => return Err(part),
        }
    }
    Ok(next)
}

/// Whether no more commands in the command, but for skip and blocks, than the most.
pub(crate) fn is_short(command: &Command) -> bool
    ensures { result ≡ is_short (command_of command.now) }
{
    room_left(command, STRAIGHT).is_some()
}

// How much room the commands in the command leave, but for skip and blocks: none where there are
// more.
#[cycle(room_left)]
#[tactic(auto, using(crate::proofs::StraightLaws::room_rules))]
fn room_left(command: &Command, room: usize) -> Option<usize>
    ensures { MatchOption result (room < length_of (command_of command.now))
        (λ left. left + length_of (command_of command.now) ≡ room) }
{
    match command {
        Command::Skip => Some(room),
        Command::Block(block) => room_left_by_block(block, room),
        Command::While(_, block) | Command::Local(_, block) => {
            room_left_by_block(block, room.checked_sub(1)?)
        }
        Command::If(_, first, second) => {
            room_left_by_block(second, room_left_by_block(first, room.checked_sub(1)?)?)
        }
        _ => room.checked_sub(1),
    }
}

// The same of a block.
#[cycle(room_left)]
#[tactic(auto, using(crate::proofs::StraightLaws::room_rules))]
fn room_left_by_block(block: &Block, room: usize) -> Option<usize>
    ensures { MatchOption result
        (room < length (filter acts (commands_of (block_of block.now))))
        (λ left. left + length (filter acts (commands_of (block_of block.now))) ≡ room) }
{
    let mut left = room;
    for command in block.as_slice() {
        left = room_left(command, left)?;
    }
    Some(left)
}
