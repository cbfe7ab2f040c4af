// The weakest precondition of a straight-line command.
ghost use Rattle.std.specs.Prelude.{◌≡◌, ◌↔◌, ◌<◌, ◌≤◌, ◌+◌, ◌^◌, IfErr, IfOk, length, map, true};
ghost use Rattle.std.specs.List.{list_all};
ghost use Rattle.model_shapes.specs.Sorts.{shape, grove};
ghost use Rattle.model_shapes.specs.Trees.{Trees};
ghost use Rattle.model_shapes.specs.Shapes.{Shaped};
ghost use Rattle.model_terms.specs.Stores.{Store, ProperStore};
ghost use Rattle.model_formulas.specs.Nameless.{nameless};
ghost use Rattle.model_formulas.specs.Satisfaction.{Environment};
ghost use Rattle.model_commands.specs.CommandParts.{commands_in, variables_of};
ghost use Rattle.model_commands.specs.SortTests.{is_sorted};
ghost use Rattle.model_commands.specs.Theories.{procedures_of};
ghost use Rattle.model_files.specs.FileFaults.{IsWellFormedTheory};
ghost use Rattle.model_weakest.specs.Straight.{is_short, is_straight};
ghost use Rattle.model_weakest.specs.Weakest.{MeetsWith, MeetsWeakest};
ghost use Rattle.model_weakest.specs.Written.{AreNew, is_named, new_sorts, new_variables, written};
ghost use Rattle.weakest_laws.specs.Table.{weakest};
ghost use Rattle.dom_terms.specs.Terms.{logic_var_of};
ghost use Rattle.formula_syntax.specs.Formulas.{formula_of};
ghost use Rattle.theory_syntax.specs.Commands.{command_of};
ghost use Rattle.theory_syntax.specs.Theories.{theory_of};
ghost use Rattle.wp_calc.specs.Faults.{IsFaultOf, IsWrittenFor};
ghost use Rattle.wp_calc.specs.Rows.{names_in};

use crate::names::{add_sorts, new_variables};
use crate::straight::{is_short, place_after};
use crate::walk::{Supply, before};
use dom_terms::{Copied, List, LogicVars, OutOfMemory};
use formula_syntax::Formula;
use std::alloc::Global;
use theory_syntax::{Command, Theory};

/// Why no weakest precondition is computed.
#[derive(Clone, Copy, Debug, PartialEq, Eq)]
pub enum WpFault {
    /// The command isn't straight-line. The part is its first choice, loop, local variable or call,
    /// counted from 0, a command before those in it.
    NotStraight {
        /// Its number.
        part: u32,
    },
    /// It is straight-line, and has more commands than the most, but for skip and blocks.
    TooLong,
    /// Memory was refused.
    OutOfMemory,
}

/// The weakest precondition of a command and of what is asked for after it.
#[derive(Debug, Drop)]
pub struct Precondition {
    /// The variables that it brings, in the order of their names.
    pub variables: LogicVars,
    /// The formula.
    pub formula: Formula,
}

// Whether the command is straight-line and not too long.
#[tactic(auto, using(crate::proofs::FaultLaws::fault_rules))]
fn checked(command: &Command) -> Result<(), WpFault>
    requires { length (commands_in (command_of command.now)) < 500000000 }
    ensures fine { IfOk result (λ _. (is_straight (command_of command.now) ≡ true)
        × (is_short (command_of command.now) ≡ true)) }
    ensures fault { IfErr result (λ fault. IsFaultOf (command_of command.now) fault) }
{
    match place_after(command, 0) {
        Err(part) => Err(WpFault::NotStraight { part }),
        Ok(_) if is_short(command) => Ok(()),
        Ok(_) => Err(WpFault::TooLong),
    }
}

// The precondition as it is written.
#[tactic(auto, using(crate::proofs::FaultLaws::count_rules))]
fn written_before(
    alloc: Global,
    theory: &Theory,
    command: &Command,
    post: &Formula,
) -> Result<Precondition, OutOfMemory>
    ensures new { IfOk result (λ answer.
        AreNew (theory_of theory.now).logic 1 (names_in answer.variables)) }
    ensures count { IfOk result (λ answer. length (names_in answer.variables)
        ≡ length (new_sorts (command_of command.now))) }
    ensures room { IfOk result (λ answer. 1 + length (theory_of theory.now).logic
        + length (names_in answer.variables) ≤ 2 ^ 64) }
    ensures variables { IfOk result (λ answer. map logic_var_of answer.variables
        ≡ new_variables (names_in answer.variables) (new_sorts (command_of command.now))) }
    ensures written { IfOk result (λ answer. formula_of answer.formula
        ≡ written (names_in answer.variables) (command_of command.now) (formula_of post.now)) }
{
    let mut sorts = List::new(alloc);
    add_sorts(command, &mut sorts)?;
    let variables = new_variables(alloc, theory.logic.as_slice(), sorts.as_slice())?;
    let asked = post.copy(alloc)?;
    let formula = before_with(alloc, command, asked, &variables)?;
    Ok(Precondition { variables, formula })
}

// What is asked for before the command, with these new variables.
fn before_with(
    alloc: Global,
    command: &Command,
    asked: Formula,
    variables: &LogicVars,
) -> Result<Formula, OutOfMemory>
    ensures { IfOk result (λ formula. formula_of formula
        ≡ written (names_in variables.now) (command_of command.now) (formula_of asked)) }
{
    let mut supply = Supply {
        alloc,
        rest: variables.as_slice(),
    };
    before(command, asked, &mut supply)
}

/// The weakest precondition of a straight-line command of a well-formed theory, and the variables
/// that it brings: a grove and a store meet it exactly where no list of picks makes the command
/// fault and each end meets what is asked for.
#[tactic(auto, using(crate::proofs::FaultLaws::fault_rules))]
pub fn weakest_with_names(
    alloc: Global,
    theory: &Theory,
    command: &Command,
    post: &Formula,
) -> Result<Precondition, WpFault>
    requires well_formed { IsWellFormedTheory (theory_of theory.now) }
    requires sorted { is_sorted (procedures_of (theory_of theory.now)) (command_of command.now)
        ≡ true }
    requires declared { list_all (is_named (theory_of theory.now).logic)
        (variables_of (formula_of post.now)) ≡ true }
    requires small { length (commands_in (command_of command.now)) < 500000000 }
    ensures straight { IfOk result (λ _. (is_straight (command_of command.now) ≡ true)
        × (is_short (command_of command.now) ≡ true)) }
    ensures new { IfOk result (λ answer.
        AreNew (theory_of theory.now).logic 1 (names_in answer.variables)) }
    ensures count { IfOk result (λ answer. length (names_in answer.variables)
        ≡ length (new_sorts (command_of command.now))) }
    ensures variables { IfOk result (λ answer. map logic_var_of answer.variables
        ≡ new_variables (names_in answer.variables) (new_sorts (command_of command.now))) }
    ensures written { IfOk result (λ answer. formula_of answer.formula
        ≡ written (names_in answer.variables) (command_of command.now) (formula_of post.now)) }
    ensures same { IfOk result (λ answer. nameless (formula_of answer.formula)
        ≡ weakest (command_of command.now) (nameless (formula_of post.now))) }
    ensures exact { IfOk result (λ answer. (e : Environment) (store : Store) → ProperStore store
        → (roots : Trees) → Shaped (shape grove) roots
        → (MeetsWith (nameless (formula_of answer.formula)) e store roots
        ↔ MeetsWeakest (procedures_of (theory_of theory.now)) (command_of command.now)
        (nameless (formula_of post.now)) e store roots)) }
    ensures fault { IfErr result (λ fault. IsFaultOf (command_of command.now) fault) }
{
    checked(command)?;
    match written_before(alloc, theory, command, post) {
        Ok(answer) => Ok(answer),
        Err(_) => Err(WpFault::OutOfMemory),
    }
}

/// The same without the new variables.
pub fn weakest(
    alloc: Global,
    theory: &Theory,
    command: &Command,
    post: &Formula,
) -> Result<Formula, WpFault>
    requires well_formed { IsWellFormedTheory (theory_of theory.now) }
    requires sorted { is_sorted (procedures_of (theory_of theory.now)) (command_of command.now)
        ≡ true }
    requires declared { list_all (is_named (theory_of theory.now).logic)
        (variables_of (formula_of post.now)) ≡ true }
    requires small { length (commands_in (command_of command.now)) < 500000000 }
    ensures straight { IfOk result (λ _. (is_straight (command_of command.now) ≡ true)
        × (is_short (command_of command.now) ≡ true)) }
    ensures written { IfOk result (λ formula. IsWrittenFor (theory_of theory.now).logic
        (command_of command.now) (formula_of post.now) (formula_of formula)) }
    ensures same { IfOk result (λ formula. nameless (formula_of formula)
        ≡ weakest (command_of command.now) (nameless (formula_of post.now))) }
    ensures exact { IfOk result (λ formula. (e : Environment) (store : Store) → ProperStore store
        → (roots : Trees) → Shaped (shape grove) roots
        → (MeetsWith (nameless (formula_of formula)) e store roots
        ↔ MeetsWeakest (procedures_of (theory_of theory.now)) (command_of command.now)
        (nameless (formula_of post.now)) e store roots)) }
    ensures fault { IfErr result (λ fault. IsFaultOf (command_of command.now) fault) }
{
    match weakest_with_names(alloc, theory, command, post) {
        Ok(answer) => Ok(answer.formula),
        Err(fault) => Err(fault),
    }
}
