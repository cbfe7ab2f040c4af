// Tests of a command by itself: the version has it, a procedure that it calls is there, its parts
// fit, it sets no parameter, and the results of a call are apart.
ghost use Rattle.std.specs.Prelude.{◌≡◌, ◌&&◌, true, not, map, [], IfOk};
ghost use Rattle.std.specs.Bool.{OnTrue};
ghost use Rattle.std.specs.List.{flat_map, list_all};
ghost use Rattle.std.specs.Option.{option_map};
ghost use Rattle.model_shapes.specs.Tests as sorts;
ghost use Rattle.model_terms.specs.TermSorts as terms;
ghost use Rattle.model_terms.specs.Stores.{same_name, sort_of};
ghost use Rattle.model_commands.specs.CommandParts.{variables_of_term};
ghost use Rattle.model_commands.specs.SortTests as tests;
ghost use Rattle.model_commands.specs.SortTests.{distinct_by, is_among, stands_in};
ghost use Rattle.model_files.specs.FileFaults as files;
ghost use Rattle.dom_terms.specs.Sorts.{value_sort_of};
ghost use Rattle.dom_terms.specs.Terms.{prog_var_of, term_of};
ghost use Rattle.theory_syntax.specs.Commands.{command_of};
ghost use Rattle.dom_syntax.specs.Apt.{is_apt};
ghost use Rattle.dom_syntax.specs.Callees.{callee_of};
ghost use Rattle.dom_syntax.specs.Scopes.{HasNames, IsScope, callees_in, procedure_in};
ghost use Rattle.dom_syntax.specs.VariableSets.{Holds};
ghost use Rattle.dom_syntax.specs.ScopeTests.{stands_outside};

use crate::command_tests::CommandTest;
use crate::scopes::{Names, Scope};
use crate::sort_tests::{
    do_arguments_feed, do_variables_receive, has_command, is_condition_sorted,
};
use crate::variable_sets::VariableSet;
use crate::variable_tests::{VariableTest, all_in_terms};
use dom_terms::{LogicVar, OutOfMemory, ProgVar, Term, ValueSort, evaluates, same_value_sort};
use std::alloc::Global;
use theory_syntax::{Command, Procedure};

/// Whether the version of a theory has a command.
#[derive(Drop)]
pub(crate) struct OfVersion {
    pub(crate) version: u32,
}

impl CommandTest for OfVersion {
    ghost ready = { λ _. Unit };

    ghost test = { λ of command. files.is_of_version of.version command };

    fn takes(&self, command: &Command) -> Result<bool, OutOfMemory> {
        match command {
            Command::InsertBefore(_, _, _) => Ok(self.version == 2),
            _ => Ok(true),
        }
    }
}

/// Whether the procedure that a call names is there.
#[derive(Drop)]
pub(crate) struct CalleeKnown<'a>(pub(crate) &'a Names<'a>);

impl<'a> CommandTest for CalleeKnown<'a> {
    ghost ready = { λ known. HasNames known.0.now };

    ghost test = { λ known command. tests.callee_known (callees_in known.0.now) command };

    #[tactic(auto, using(crate::proofs::PartTestLaws::callee_rules))]
    fn takes(&self, command: &Command) -> Result<bool, OutOfMemory> {
        match command {
            Command::Call(_, name, _) => Ok(self.0.callee(name).is_some()),
            _ => Ok(true),
        }
    }
}

// Whether the variable has the sort, and a command may evaluate the term at the other one.
fn is_query(variable: &ProgVar, sort: ValueSort, term: &Term, of: ValueSort) -> bool
    ensures { result ≡ (sorts.same_value_sort (sort_of (prog_var_of variable.now))
        (value_sort_of sort) && terms.evaluates (value_sort_of of) (term_of term.now)) }
{
    same_value_sort(variable.sort, sort) && evaluates(term, of)
}

// Whether the results and the arguments are those of a call of the procedure, if it is there.
fn does_call_fit(callee: Option<&Procedure>, results: &[ProgVar], arguments: &[Term]) -> bool
    ensures { result ≡ tests.call_fits (option_map callee_of callee.entry)
        (map prog_var_of results.now)
        (map term_of arguments.now) }
{
    match callee {
        Some(procedure) => {
            do_arguments_feed(procedure.params.as_slice(), arguments)
                && do_variables_receive(procedure.results.as_slice(), results)
        }
        None => true,
    }
}

// Whether the parts of the command have the right sorts and number.
fn do_parts_fit(names: &Names, command: &Command) -> bool
    requires { HasNames names.now }
    ensures { result ≡ tests.parts_fit (callees_in names.now) (command_of command.now) }
{
    match command {
        Command::Skip => true,
        Command::Block(block) | Command::Local(_, block) => has_command(block),
        Command::Assign(x, value) => evaluates(value, x.sort),
        Command::Create(x, name) => is_query(x, ValueSort::Node, name, ValueSort::Str),
        Command::Name(x, node) => is_query(x, ValueSort::Str, node, ValueSort::Node),
        Command::Parent(x, node) => is_query(x, ValueSort::Node, node, ValueSort::Node),
        Command::Children(x, node) => is_query(x, ValueSort::List, node, ValueSort::Node),
        Command::Item(x, list, place) => {
            same_value_sort(x.sort, ValueSort::Node)
                && evaluates(list, ValueSort::List)
                && evaluates(place, ValueSort::Int)
        }
        Command::Append(parent, child) | Command::Remove(parent, child) => {
            evaluates(parent, ValueSort::Node) && evaluates(child, ValueSort::Node)
        }
        Command::InsertBefore(parent, child, next) => {
            evaluates(parent, ValueSort::Node)
                && evaluates(child, ValueSort::Node)
                && evaluates(next, ValueSort::Node)
        }
        Command::If(cond, first, second) => {
            is_condition_sorted(cond) && has_command(first) && has_command(second)
        }
        Command::While(cond, block) => is_condition_sorted(cond) && has_command(block),
        Command::Call(results, name, arguments) => {
            does_call_fit(names.callee(name), results.as_slice(), arguments.as_slice())
        }
    }
}

/// Whether the parts of a command have the right sorts and number.
#[derive(Drop)]
pub(crate) struct PartsFit<'a>(pub(crate) &'a Names<'a>);

impl<'a> CommandTest for PartsFit<'a> {
    ghost ready = { λ fit. HasNames fit.0.now };

    ghost test = { λ fit command. tests.parts_fit (callees_in fit.0.now) command };

    fn takes(&self, command: &Command) -> Result<bool, OutOfMemory> {
        Ok(do_parts_fit(self.0, command))
    }
}

// Whether none of the variables is a parameter.
fn are_no_params(scope: &Scope, variables: &[ProgVar]) -> bool
    requires { IsScope scope.now }
    ensures { result ≡ list_all (λ x. not (is_among (procedure_in scope.now).params x))
        (map prog_var_of variables.now) }
{
    for variable in variables {
        if scope.params.has(variable) {
            return false;
        }
    }
    true
}

/// Whether a command sets no parameter.
#[derive(Drop)]
pub(crate) struct Spares<'a>(pub(crate) &'a Scope<'a>);

impl<'a> CommandTest for Spares<'a> {
    ghost ready = { λ spares. IsScope spares.0.now };

    ghost test = { λ spares command. files.spares (procedure_in spares.0.now).params command };

    fn takes(&self, command: &Command) -> Result<bool, OutOfMemory> {
        match command {
            Command::Assign(x, _)
            | Command::Create(x, _)
            | Command::Name(x, _)
            | Command::Parent(x, _)
            | Command::Children(x, _)
            | Command::Item(x, _, _)
            | Command::Local(x, _) => Ok(!self.0.params.has(x)),
            Command::Call(results, _, _) => Ok(are_no_params(self.0, results.as_slice())),
            _ => Ok(true),
        }
    }
}

// Whether a variable is none of those in a set.
#[derive(Drop)]
struct Outside<'a> {
    set: &'a VariableSet<'a>,
    all: &'a [ProgVar],
}

impl<'a> VariableTest for Outside<'a> {
    ghost ready = { λ outside. Holds outside.set.now (map prog_var_of outside.all.now) };

    ghost test = { λ outside x. stands_outside (map prog_var_of outside.all.now) x };

    fn takes_prog(&self, variable: &ProgVar) -> bool {
        !self.set.has(variable)
    }

    fn takes_logic(&self, _variable: &LogicVar) -> bool {
        true
    }
}

// Whether none of the variables, of which this is the set, stands in the terms.
fn are_all_outside(set: &VariableSet, all: &[ProgVar], terms: &[Term]) -> bool
    requires { Holds set.now (map prog_var_of all.now) }
    ensures { result ≡ list_all (stands_outside (map prog_var_of all.now))
        (flat_map variables_of_term (map term_of terms.now)) }
{
    all_in_terms(&Outside { set, all }, terms)
}

// Puts the variables into the empty set; tells whether none repeats.
fn put_each<'a>(set: &mut VariableSet<'a>, variables: &'a [ProgVar]) -> Result<bool, OutOfMemory>
    requires { Holds set.now [] }
    ensures { IfOk result (λ b. (b ≡ distinct_by same_name (map prog_var_of variables.now))
        × OnTrue b (Holds set.new (map prog_var_of variables.now))) }
{
    for variable in variables {
        if set.has(variable) {
            return Ok(false);
        }
        set.insert(variable)?;
    }
    Ok(true)
}

// Whether no result repeats, and none of them stands in the arguments; puts them into the set.
#[tactic(auto, using(crate::proofs::PartTestLaws::apart_rules))]
fn are_apart<'a>(
    set: &mut VariableSet<'a>,
    results: &'a [ProgVar],
    arguments: &[Term],
) -> Result<bool, OutOfMemory>
    requires { Holds set.now [] }
    ensures { IfOk result (λ b. b ≡ (distinct_by same_name (map prog_var_of results.now)
        && list_all (λ x. not (stands_in
        (flat_map variables_of_term (map term_of arguments.now)) x))
        (map prog_var_of results.now))) }
{
    Ok(put_each(set, results)? && are_all_outside(set, results, arguments))
}

// Whether no result repeats, and none of them stands in the arguments.
fn are_results_apart(
    alloc: Global,
    results: &[ProgVar],
    arguments: &[Term],
) -> Result<bool, OutOfMemory>
    ensures { IfOk result (λ b. b ≡ (distinct_by same_name (map prog_var_of results.now)
        && list_all (λ x. not (stands_in
        (flat_map variables_of_term (map term_of arguments.now)) x))
        (map prog_var_of results.now))) }
{
    let mut set = VariableSet::new(alloc);
    let answer = are_apart(&mut set, results, arguments);
    drop(set);
    answer
}

/// Whether the results of a call don't repeat, and none of them stands in its arguments.
#[derive(Drop)]
pub(crate) struct ResultsApart {
    pub(crate) alloc: Global,
}

impl CommandTest for ResultsApart {
    ghost ready = { λ _. Unit };

    ghost test = { λ _ command. tests.results_apart command };

    fn takes(&self, command: &Command) -> Result<bool, OutOfMemory> {
        match command {
            Command::Call(results, _, arguments) => {
                are_results_apart(self.alloc, results.as_slice(), arguments.as_slice())
            }
            _ => Ok(true),
        }
    }
}

/// Whether a command passes each of these tests.
#[derive(Drop)]
pub(crate) struct Apt<'a> {
    pub(crate) alloc: Global,
    pub(crate) scope: &'a Scope<'a>,
}

impl<'a> CommandTest for Apt<'a> {
    ghost ready = { λ apt. IsScope apt.scope.now };

    ghost test = { λ apt command. is_apt apt.scope.now command };

    fn takes(&self, command: &Command) -> Result<bool, OutOfMemory> {
        let names = self.scope.names;
        let version = names.theory.version;
        Ok(
            OfVersion { version }.takes(command)?
                && CalleeKnown(names).takes(command)?
                && PartsFit(names).takes(command)?
                && Spares(self.scope).takes(command)?
                && ResultsApart { alloc: self.alloc }.takes(command)?,
        )
    }
}
