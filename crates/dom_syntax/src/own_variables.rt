// The variables that a command has of its own, as a test of commands.
ghost use Rattle.std.specs.Prelude.{◌≡◌};
ghost use Rattle.std.specs.List.{list_all};
ghost use Rattle.model_commands.specs.CommandParts.{own_variables};
ghost use Rattle.theory_syntax.specs.Commands.{command_of};

use crate::command_tests::CommandTest;
use crate::variable_tests::{VariableTest, all_in_cond, all_in_term, all_in_terms, all_variables};
use dom_terms::OutOfMemory;
use theory_syntax::Command;

/// Whether each variable that a command has of its own passes the test.
#[derive(Drop)]
pub(crate) struct OwnVariables<'a, T>(pub(crate) &'a T);

impl<'a, T: VariableTest> CommandTest for OwnVariables<'a, T> {
    ghost ready = { λ own. T.ready own.0.now };

    ghost test = { λ own command. list_all (T.test own.0.now) (own_variables command) };

    fn takes(&self, command: &Command) -> Result<bool, OutOfMemory> {
        Ok(all_own_variables(self.0, command))
    }
}

// Whether each variable that the command has of its own passes.
fn all_own_variables<T: VariableTest>(test: &T, command: &Command) -> bool
    requires { T.ready test.now }
    ensures { result ≡ list_all (T.test test.now) (own_variables (command_of command.now)) }
{
    match command {
        Command::Skip | Command::Block(_) => true,
        Command::Local(variable, _) => test.takes_prog(variable),
        Command::Assign(variable, term)
        | Command::Create(variable, term)
        | Command::Name(variable, term)
        | Command::Parent(variable, term)
        | Command::Children(variable, term) => {
            test.takes_prog(variable) && all_in_term(test, term)
        }
        Command::Item(variable, list, place) => {
            test.takes_prog(variable) && all_in_term(test, list) && all_in_term(test, place)
        }
        Command::Append(parent, child) | Command::Remove(parent, child) => {
            all_in_term(test, parent) && all_in_term(test, child)
        }
        Command::InsertBefore(parent, child, next) => {
            all_in_term(test, parent) && all_in_term(test, child) && all_in_term(test, next)
        }
        Command::If(cond, _, _) | Command::While(cond, _) => all_in_cond(test, cond),
        Command::Call(results, _, arguments) => {
            all_variables(test, results.as_slice()) && all_in_terms(test, arguments.as_slice())
        }
    }
}
