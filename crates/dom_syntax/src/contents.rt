// What stands in the header of a procedure or in a step: formulas, a command and arguments.
ghost use Rattle.std.specs.Prelude.{◌≡◌, ◌++◌, map, true, IfOk};
ghost use Rattle.std.specs.Bool.{OnTrue};
ghost use Rattle.std.specs.List.{flat_map, list_all};
ghost use Rattle.model_commands.specs.CommandParts.{arguments_of, commands_in};
ghost use Rattle.model_commands.specs.CommandParts.{commands_of_judgement, variables_of};
ghost use Rattle.model_commands.specs.CommandParts.{variables_of_command};
ghost use Rattle.model_commands.specs.CommandParts.{variables_of_judgement, variables_of_term};
ghost use Rattle.dom_terms.specs.Terms.{term_of};
ghost use Rattle.formula_syntax.specs.Formulas.{formula_of};
ghost use Rattle.theory_syntax.specs.Commands.{command_of};
ghost use Rattle.theory_syntax.specs.Judgements.{judgement_of, reason_of};
ghost use Rattle.dom_syntax.specs.Contents.{commands_there, variables_in, variables_of_any};

use crate::command_tests::{CommandTest, all_commands};
use crate::own_variables::OwnVariables;
use crate::variable_tests::{VariableTest, all_in_formula, all_in_terms};
use dom_terms::{OutOfMemory, Term};
use formula_syntax::Formula;
use theory_syntax::{Command, Judgement, Procedure, Reason, Step};

/// Two formulas, a command or none, and arguments.
#[derive(Drop)]
pub(crate) struct Contents<'a> {
    left: &'a Formula,
    right: &'a Formula,
    command: Option<&'a Command>,
    arguments: &'a [Term],
}

// The arguments of the reason.
fn reason_arguments(reason: &Reason) -> &[Term]
    ensures { map term_of result.now ≡ arguments_of (reason_of reason.now) }
{
    match reason {
        Reason::Auto => &[],
        Reason::Rule { arguments, .. } => arguments.as_slice(),
    }
}

// Whether each variable in the command passes, if there is one.
#[tactic(auto, using(crate::proofs::ContentLaws::command_rules))]
fn all_in_command<T: VariableTest>(test: &T, command: Option<&Command>) -> Result<bool, OutOfMemory>
    requires { T.ready test.now }
    ensures { IfOk result (λ b. b ≡ list_all (T.test test.now) (variables_of_any command.entry)) }
{
    match command {
        Some(command) => all_commands(&OwnVariables(test), command),
        None => Ok(true),
    }
}

impl<'a> Contents<'a> {
    /// What stands in the header and the body.
    #[tactic(auto, using(crate::proofs::ContentLaws::contents_rules))]
    pub(crate) fn of_head(procedure: &'a Procedure) -> Contents<'a>
        ensures variables { variables_in result
            ≡ variables_of (formula_of procedure.now.pre)
            ++ (variables_of (formula_of procedure.now.post)
            ++ variables_of_command (command_of procedure.now.body)) }
        ensures commands { commands_there result ≡ commands_in (command_of procedure.now.body) }
    {
        Contents {
            left: &procedure.pre,
            right: &procedure.post,
            command: Some(&procedure.body),
            arguments: &[],
        }
    }

    /// What stands in the step.
    #[tactic(auto, using(crate::proofs::ContentLaws::contents_rules))]
    pub(crate) fn of_step(step: &'a Step) -> Contents<'a>
        ensures variables { variables_in result
            ≡ variables_of_judgement (judgement_of step.now.judgement)
            ++ flat_map variables_of_term (arguments_of (reason_of step.now.reason)) }
        ensures commands { commands_there result
            ≡ commands_of_judgement (judgement_of step.now.judgement) }
    {
        let arguments = reason_arguments(&step.reason);
        match &step.judgement {
            Judgement::Entails(entailment) => Contents {
                left: &entailment.left,
                right: &entailment.right,
                command: None,
                arguments,
            },
            Judgement::Triple(triple) => Contents {
                left: &triple.pre,
                right: &triple.post,
                command: Some(&triple.command),
                arguments,
            },
        }
    }

    /// Whether each variable that stands there passes.
    #[tactic(auto, using(crate::proofs::ContentLaws::command_rules))]
    pub(crate) fn all_variables<T: VariableTest>(&self, test: &T) -> Result<bool, OutOfMemory>
        requires { T.ready test.now }
        ensures { IfOk result (λ b. b ≡ list_all (T.test test.now) (variables_in self.now)) }
    {
        let in_formulas = all_in_formula(test, self.left) && all_in_formula(test, self.right);
        let in_terms = in_formulas && all_in_terms(test, self.arguments);
        Ok(in_terms && all_in_command(test, self.command)?)
    }

    /// The same where it may be sure that each passes: then none is asked.
    pub(crate) fn all_pass<T: VariableTest>(
        &self,
        test: &T,
        is_sure: bool,
    ) -> Result<bool, OutOfMemory>
        requires ready { T.ready test.now }
        requires sure { OnTrue is_sure (list_all (T.test test.now) (variables_in self.now) ≡ true) }
        ensures { IfOk result (λ b. b ≡ list_all (T.test test.now) (variables_in self.now)) }
    {
        if is_sure {
            return Ok(true);
        }
        self.all_variables(test)
    }

    /// Whether each command that stands there passes.
    pub(crate) fn all_commands<T: CommandTest>(&self, test: &T) -> Result<bool, OutOfMemory>
        requires { T.ready test.now }
        ensures { IfOk result (λ b. b ≡ list_all (T.test test.now) (commands_there self.now)) }
    {
        match self.command {
            Some(command) => all_commands(test, command),
            None => Ok(true),
        }
    }

    /// The same where it may be sure that each passes: then none is asked.
    pub(crate) fn all_fit<T: CommandTest>(
        &self,
        test: &T,
        is_sure: bool,
    ) -> Result<bool, OutOfMemory>
        requires ready { T.ready test.now }
        requires sure { OnTrue is_sure
            (list_all (T.test test.now) (commands_there self.now) ≡ true) }
        ensures { IfOk result (λ b. b ≡ list_all (T.test test.now) (commands_there self.now)) }
    {
        if is_sure {
            return Ok(true);
        }
        self.all_commands(test)
    }
}
