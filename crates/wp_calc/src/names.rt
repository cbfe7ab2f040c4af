// The new variables of a command: their sorts, and the names that no declaration has.
ghost use Rattle.std.specs.Prelude.{◌≡◌, ◌+◌, ◌^◌, ◌≤◌, ◌∷◌, ◌++◌, length, map, IfOk, OnOk, is_some, slice_get, string_bytes};
ghost use Rattle.model_shapes.specs.Sorts.{value};
ghost use Rattle.model_weakest.specs.Written.{AreNew, new_sorts, new_sorts_of, new_variables, numbered};
ghost use Rattle.dom_terms.specs.Sorts.{sort_of, value_sort_of};
ghost use Rattle.dom_terms.specs.Terms.{logic_var_of};
ghost use Rattle.theory_syntax.specs.Commands.{block_of, command_of};
ghost use Rattle.declared_sorts.specs.Names.{found};
ghost use Rattle.wp_calc.specs.NewNames.{pushed};
ghost use Rattle.wp_calc.specs.Rows.{names_in};

use crate::sorts::{CONTEXT, FOREST, GROVE, INT, LIST, NODE, STR, TREE};
use declared_sorts::{Names, names_of};
use dom_terms::{List, LogicVar, LogicVars, OutOfMemory, ProgVar, Sort, Text};
use std::alloc::{AllocError, Global};
use theory_syntax::{Block, Command};

// Puts the sorts after those that are there.
fn push_all(sorts: &mut List<Sort>, more: &[Sort]) -> Result<(), OutOfMemory>
    ensures { OnOk result (sorts.new ≡ sorts.old ++ more.now) }
{
    for sort in more {
        sorts.push(*sort)?;
    }
    Ok(())
}

// The same, as the sorts that they stand for.
fn push_sorts(sorts: &mut List<Sort>, more: &[Sort]) -> Result<(), OutOfMemory>
    ensures { OnOk result (map sort_of sorts.new
        ≡ map sort_of sorts.old ++ map sort_of more.now) }
{
    push_all(sorts, more)
}

// Puts the sort of the variable and the others after those that are there.
fn push_value(sorts: &mut List<Sort>, x: &ProgVar, more: &[Sort]) -> Result<(), OutOfMemory>
    ensures { OnOk result (map sort_of sorts.new
        ≡ map sort_of sorts.old ++ (value (value_sort_of x.now.sort) ∷ map sort_of more.now)) }
{
    sorts.push(Sort::Value(x.sort))?;
    push_all(sorts, more)
}

/// Puts the sorts of the variables that the command brings after those that are there.
#[cycle(add_sorts)]
pub(crate) fn add_sorts(command: &Command, sorts: &mut List<Sort>) -> Result<(), OutOfMemory>
    ensures { OnOk result (map sort_of sorts.new
        ≡ map sort_of sorts.old ++ new_sorts (command_of command.now)) }
{
    match command {
        Command::Block(block) => add_block_sorts(block, sorts),
        Command::Assign(x, _) => push_value(sorts, x, &[]),
        Command::Create(_, _) => push_sorts(sorts, &[NODE, LIST]),
        Command::Name(x, _) => push_value(sorts, x, &[LIST]),
        Command::Children(x, _) => push_value(sorts, x, &[STR]),
        Command::Parent(x, _) => push_value(sorts, x, &[STR, STR, LIST, LIST, STR, LIST]),
        Command::Item(x, _, _) => push_value(sorts, x, &[STR, NODE, STR, LIST, STR, NODE, INT]),
        Command::Append(_, _) => {
            push_sorts(sorts, &[GROVE, CONTEXT, STR, FOREST, LIST, TREE, STR, LIST])
        }
        Command::Remove(_, _) => push_sorts(
            sorts,
            &[GROVE, CONTEXT, STR, FOREST, FOREST, LIST, TREE, STR, LIST],
        ),
        Command::InsertBefore(_, _, _) => push_sorts(
            sorts,
            &[
                GROVE, CONTEXT, STR, FOREST, LIST, TREE, STR, LIST, CONTEXT, STR, FOREST, FOREST,
                LIST, TREE, TREE, STR, LIST, STR, LIST,
            ],
        ),
        _ => Ok(()),
    }
}

// The same of a block, the last command first.
#[cycle(add_sorts)]
fn add_block_sorts(block: &Block, sorts: &mut List<Sort>) -> Result<(), OutOfMemory>
    ensures { OnOk result (map sort_of sorts.new
        ≡ map sort_of sorts.old ++ new_sorts_of (block_of block.now)) }
{
    let commands = block.as_slice();
    let mut place = commands.len();
    while place > 0 {
        place -= 1;
        add_sorts(&commands[place], sorts)?;
    }
    Ok(())
}

// The name with the number, as characters.
fn characters(alloc: Global, number: u64) -> Result<String, AllocError>
    ensures { IfOk result (λ text. string_bytes text ≡ numbered number) }
{
    format!(in alloc; "$w{number}")
}

// The name with the number.
fn numbered(alloc: Global, number: u64) -> Result<Text, OutOfMemory>
    ensures { IfOk result (λ name. name ≡ numbered number) }
{
    let name = characters(alloc, number)?;
    Text::from_str(alloc, name.as_str())
}

// The sort at a place.
fn sort_at(sorts: &[Sort], place: usize) -> Option<Sort>
    ensures { result ≡ slice_get sorts.now place }
{
    sorts.get(place).copied()
}

// Puts a variable of the sort and with the name of the number after those that are there, if the
// name isn't declared.
fn push_new(
    alloc: Global,
    names: &Names<Sort>,
    number: u64,
    sort: Sort,
    variables: &mut LogicVars,
) -> Result<(), OutOfMemory>
    ensures { OnOk result (variables.new
        ≡ pushed (is_some (found names.now (numbered number))) variables.old number sort) }
{
    let name = numbered(alloc, number)?;
    if names.get(name.as_str()).is_none() {
        variables.push(LogicVar { name, sort })?;
    }
    Ok(())
}

/// Variables of these sorts, with the first names that no declaration has. More declarations and
/// sorts than numbers are want of memory, which hasn't room for so many.
pub(crate) fn new_variables(
    alloc: Global,
    declared: &[LogicVar],
    sorts: &[Sort],
) -> Result<LogicVars, OutOfMemory>
    ensures new { IfOk result
        (λ variables. AreNew (map logic_var_of declared.now) 1 (names_in variables)) }
    ensures sorts { IfOk result (λ variables. map logic_var_of variables
        ≡ new_variables (names_in variables) (map sort_of sorts.now)) }
    ensures count { IfOk result (λ variables. length variables ≡ length sorts.now) }
    ensures room { IfOk result (λ variables.
        1 + length declared.now + length variables ≤ 2 ^ 64) }
{
    if declared.len().checked_add(sorts.len()).is_none() {
        return Err(OutOfMemory);
    }
    let names = names_of(alloc, declared)?;
    let mut variables = List::new(alloc);
    for number in 1..u64::MAX {
        let Some(sort) = sort_at(sorts, variables.len()) else {
            return Ok(variables);
        };
        push_new(alloc, &names, number, sort, &mut variables)?;
    }
    Err(OutOfMemory)
}
