// Commands.
ghost use Rattle.std.specs.Prelude.{◌≡◌, ◌∷◌, ◌++◌, map};
ghost use Rattle.std.specs.List.{list_all, flat_map};
ghost use Rattle.model_terms.specs.Stores.{as_var};
ghost use Rattle.model_commands.specs.CommandParts.{commands_of, own_variables};
ghost use Rattle.model_commands.specs.CommandParts.{variables_of_command, variables_of_term};
ghost use Rattle.model_grammar.specs.Sorts.{sorted_name, sorted_term, sorted_command, sorted_block};
ghost use Rattle.dom_terms.specs.Terms.{prog_var_of, term_of};
ghost use Rattle.theory_syntax.specs.Commands.{block_of, command_of};
ghost use Rattle.declared_sorts.specs.Declarations.{declared_of, scope_in};
ghost use Rattle.declared_sorts.specs.Known.{Knows};
ghost use Rattle.declared_sorts.specs.Settled.{is_settled};

use crate::declared::Declared;
use crate::sorted::{Sorted, set_all};
use crate::terms::set_terms;
use dom_terms::{ProgVar, Term, Terms, Vars};
use theory_syntax::{Block, Command};

impl Sorted for Command {
    ghost use Rattle.model_commands.specs.Commands as model;

    ghost Seen = { model.Command };

    ghost seen = { command_of };

    ghost sorted = { sorted_command };

    ghost variables = { variables_of_command };

    // A local variable keeps the sort that it is written with.
    #[cycle(sorting)]
    #[tactic(auto, using(crate::proofs::CommandLaws::command_rules))]
    fn set_sorts(&mut self, declared: &Declared) -> bool
        requires { Knows declared.now }
        ensures sorted { command_of self.new
            ≡ sorted_command (declared_of declared.now) (command_of self.old) }
        ensures settled { result ≡ list_all (is_settled (scope_in declared.now))
            (variables_of_command (command_of self.new)) }
    {
        match self {
            Command::Skip => true,
            Command::Assign(x, value) => set_target(x, value, declared),
            Command::Create(x, name) => set_target(x, name, declared),
            Command::Name(x, node) => set_target(x, node, declared),
            Command::Parent(x, node) => set_target(x, node, declared),
            Command::Children(x, node) => set_target(x, node, declared),
            Command::Item(x, list, place) => set_item(x, list, place, declared),
            Command::Append(parent, child) => set_terms(parent, child, declared),
            Command::Remove(parent, child) => set_terms(parent, child, declared),
            Command::InsertBefore(parent, child, next) => set_three(parent, child, next, declared),
            Command::Block(block) => set_block(block, declared),
            Command::Local(x, block) => {
                let is_block_settled = set_block(block, declared);
                declared.declares(x) & is_block_settled
            }
            Command::If(cond, first, second) => {
                let is_cond_settled = cond.set_sorts(declared);
                let is_first_settled = set_block(first, declared);
                let is_second_settled = set_block(second, declared);
                is_cond_settled & is_first_settled & is_second_settled
            }
            Command::While(cond, block) => {
                let is_cond_settled = cond.set_sorts(declared);
                let is_block_settled = set_block(block, declared);
                is_cond_settled & is_block_settled
            }
            Command::Call(results, _, arguments) => set_call(results, arguments, declared),
        }
    }
}

// Gives a variable that is set, and each variable of the term after it, the sort of its
// declaration, and tells whether each of them is declared, first with the sort that it then has.
fn set_target(x: &mut ProgVar, term: &mut Term, declared: &Declared) -> bool
    requires { Knows declared.now }
    ensures x { prog_var_of x.new ≡ sorted_name (declared_of declared.now) (prog_var_of x.old) }
    ensures term { term_of term.new ≡ sorted_term (declared_of declared.now) (term_of term.old) }
    ensures settled { result ≡ list_all (is_settled (scope_in declared.now))
        (as_var (prog_var_of x.new) ∷ variables_of_term (term_of term.new)) }
{
    let is_x_settled = x.set_sorts(declared);
    let is_term_settled = term.set_sorts(declared);
    is_x_settled & is_term_settled
}

// The same of a variable that is set and two terms.
fn set_item(x: &mut ProgVar, list: &mut Term, place: &mut Term, declared: &Declared) -> bool
    requires { Knows declared.now }
    ensures x { prog_var_of x.new ≡ sorted_name (declared_of declared.now) (prog_var_of x.old) }
    ensures list { term_of list.new ≡ sorted_term (declared_of declared.now) (term_of list.old) }
    ensures place { term_of place.new
        ≡ sorted_term (declared_of declared.now) (term_of place.old) }
    ensures settled { result ≡ list_all (is_settled (scope_in declared.now))
        (as_var (prog_var_of x.new)
        ∷ (variables_of_term (term_of list.new) ++ variables_of_term (term_of place.new))) }
{
    let is_x_settled = x.set_sorts(declared);
    let are_terms_settled = set_terms(list, place, declared);
    is_x_settled & are_terms_settled
}

// The same of three terms.
fn set_three(first: &mut Term, second: &mut Term, third: &mut Term, declared: &Declared) -> bool
    requires { Knows declared.now }
    ensures first { term_of first.new
        ≡ sorted_term (declared_of declared.now) (term_of first.old) }
    ensures second { term_of second.new
        ≡ sorted_term (declared_of declared.now) (term_of second.old) }
    ensures third { term_of third.new
        ≡ sorted_term (declared_of declared.now) (term_of third.old) }
    ensures settled { result ≡ list_all (is_settled (scope_in declared.now))
        (variables_of_term (term_of first.new)
        ++ (variables_of_term (term_of second.new) ++ variables_of_term (term_of third.new))) }
{
    let is_first_settled = first.set_sorts(declared);
    let are_others_settled = set_terms(second, third, declared);
    is_first_settled & are_others_settled
}

// The same of the results and the arguments of a call.
#[tactic(auto, using(crate::proofs::CommandLaws::command_rules))]
fn set_call(results: &mut Vars, arguments: &mut Terms, declared: &Declared) -> bool
    requires { Knows declared.now }
    ensures results { map prog_var_of results.new
        ≡ map (sorted_name (declared_of declared.now)) (map prog_var_of results.old) }
    ensures arguments { map term_of arguments.new
        ≡ map (sorted_term (declared_of declared.now)) (map term_of arguments.old) }
    ensures settled { result ≡ list_all (is_settled (scope_in declared.now))
        (map as_var (map prog_var_of results.new)
        ++ flat_map variables_of_term (map term_of arguments.new)) }
{
    let are_results_settled = set_all(results.as_mut_slice(), declared);
    let are_arguments_settled = set_all(arguments.as_mut_slice(), declared);
    are_results_settled & are_arguments_settled
}

// The same of the commands of a block.
#[cycle(sorting)]
fn set_block(block: &mut Block, declared: &Declared) -> bool
    requires { Knows declared.now }
    ensures sorted { block_of block.new ≡ sorted_block (declared_of declared.now)
        (block_of block.old) }
    ensures settled { result ≡ list_all (is_settled (scope_in declared.now))
        (flat_map own_variables (commands_of (block_of block.new))) }
{
    set_commands(block.as_mut_slice(), declared)
}

// The same, where the commands are lent one after the other.
#[cycle(sorting)]
fn set_commands(commands: &mut [Command], declared: &Declared) -> bool
    requires { Knows declared.now }
    ensures sorted { block_of commands.new
        ≡ sorted_block (declared_of declared.now) (block_of commands.old) }
    ensures settled { result ≡ list_all (is_settled (scope_in declared.now))
        (flat_map own_variables (commands_of (block_of commands.new))) }
{
    let mut are_settled = true;
    for i in 0..commands.len() {
        // a command gets its sorts whatever the others tell
        let is_settled = commands[i].set_sorts(declared);
        are_settled &= is_settled;
    }
    are_settled
}
