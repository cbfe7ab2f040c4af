// Tests of commands, and walks that ask one of each command in a command.
ghost use Rattle.std.specs.Prelude.{◌≡◌, Bool, IfOk};
ghost use Rattle.std.specs.List.{list_all};
ghost use Rattle.model_commands.specs.Commands as model;
ghost use Rattle.model_commands.specs.CommandParts.{commands_in, commands_of};
ghost use Rattle.theory_syntax.specs.Commands.{block_of, command_of};

use dom_terms::OutOfMemory;
use theory_syntax::{Block, Command};

/// A test of a command by itself. It may take memory.
pub(crate) trait CommandTest {
    // the test may be asked
    ghost ready: { Self → Type 0 };

    // the command passes
    ghost test: { Self → model.Command → Bool };

    /// Whether the command passes.
    fn takes(&self, command: &Command) -> Result<bool, OutOfMemory>
        requires { ready self.now }
        ensures { IfOk result (λ b. b ≡ test self.now (command_of command.now)) };
}

/// Whether the command and each command in its blocks passes.
#[cycle(all_commands)]
pub(crate) fn all_commands<T: CommandTest>(test: &T, command: &Command) -> Result<bool, OutOfMemory>
    requires { T.ready test.now }
    ensures { IfOk result
        (λ b. b ≡ list_all (T.test test.now) (commands_in (command_of command.now))) }
{
    if !test.takes(command)? {
        return Ok(false);
    }
    match command {
        Command::Block(block) | Command::While(_, block) | Command::Local(_, block) => {
            all_in_block(test, block)
        }
        Command::If(_, first, second) => {
            Ok(all_in_block(test, first)? && all_in_block(test, second)?)
        }
        _ => Ok(true),
    }
}

#[cycle(all_commands)]
fn all_in_block<T: CommandTest>(test: &T, block: &Block) -> Result<bool, OutOfMemory>
    requires { T.ready test.now }
    ensures { IfOk result
        (λ b. b ≡ list_all (T.test test.now) (commands_of (block_of block.now))) }
{
    for command in block.as_slice() {
        if !all_commands(test, command)? {
            return Ok(false);
        }
    }
    Ok(true)
}
