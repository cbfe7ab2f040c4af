// The variables that a command modifies.
ghost use Rattle.std.specs.Prelude.{◌≡◌, ◌↔◌, true, map, IfOk, OnOk};
ghost use Rattle.model_terms.specs.Stores as stores;
ghost use Rattle.model_terms.specs.Stores.{same_name};
ghost use Rattle.model_commands.specs.Commands.{Among, BlockModifies, Modifies};
ghost use Rattle.model_commands.specs.SortTests.{distinct_by, is_among};
ghost use Rattle.dom_terms.specs.Terms.{prog_var_of};
ghost use Rattle.theory_syntax.specs.Commands.{block_of, command_of};
ghost use Rattle.dom_syntax.specs.Modified.{Adds, IsFound, IsOutside, found_in, shadowed_by};

use crate::variable_sets::VariableSet;
use dom_terms::{Copied, List, OutOfMemory, ProgVar, Vars, same_prog_var};
use std::alloc::Global;
use theory_syntax::{Block, Command};

// The local variables of the blocks around, the innermost first.
#[derive(Drop)]
enum Shadows<'a> {
    Nothing,
    Local(&'a ProgVar, &'a Shadows<'a>),
}

// The variables that were found, as a list and as a set.
#[derive(Drop)]
struct Found<'a> {
    variables: Vars,
    set: VariableSet<'a>,
}

/// The variables that the command modifies: those that it assigns or sets as results, those in a
/// local block without its own variable. Each is there once. OutOfMemory comes only where memory is
/// refused.
pub fn modified(alloc: Global, command: &Command) -> Result<Vars, OutOfMemory>
    ensures modified { IfOk result (λ vars. (x : stores.ProgVar)
        → (Among (map prog_var_of vars) x ↔ Modifies (command_of command.now) x)) }
    ensures once { IfOk result (λ vars. distinct_by same_name (map prog_var_of vars) ≡ true) }
{
    let mut found = Found {
        variables: List::new(alloc),
        set: VariableSet::new(alloc),
    };
    add_modified(alloc, command, &Shadows::Nothing, &mut found)?;
    Ok(found.variables)
}

// Whether the variable is one of a block around.
fn is_shadowed(over: &Shadows, variable: &ProgVar) -> bool
    ensures { result ≡ is_among (shadowed_by over.now) (prog_var_of variable.now) }
{
    match over {
        Shadows::Nothing => false,
        Shadows::Local(local, outer) => {
            same_prog_var(variable, local) || is_shadowed(outer, variable)
        }
    }
}

// Puts the variable after those that were found, unless it is there or is one of a block around.
fn put<'a>(
    alloc: Global,
    variable: &'a ProgVar,
    over: &Shadows,
    found: &mut Found<'a>,
) -> Result<(), OutOfMemory>
    requires { IsFound found.old }
    ensures found { OnOk result (IsFound found.new) }
    ensures added { OnOk result (Adds (found_in found.old) (found_in found.new)
        (λ x. (x ≡ prog_var_of variable.now) × IsOutside over.now x)) }
{
    if is_shadowed(over, variable) || found.set.has(variable) {
        return Ok(());
    }
    found.set.insert(variable)?;
    found.variables.push(variable.copy(alloc)?)
}

// Puts each of the variables.
fn put_all<'a>(
    alloc: Global,
    variables: &'a [ProgVar],
    over: &Shadows,
    found: &mut Found<'a>,
) -> Result<(), OutOfMemory>
    requires { IsFound found.old }
    ensures found { OnOk result (IsFound found.new) }
    ensures added { OnOk result (Adds (found_in found.old) (found_in found.new)
        (λ x. Among (map prog_var_of variables.now) x × IsOutside over.now x)) }
{
    for variable in variables {
        put(alloc, variable, over, found)?;
    }
    Ok(())
}

// Puts the variables that the command modifies.
#[cycle(add_modified)]
fn add_modified<'a>(
    alloc: Global,
    command: &'a Command,
    over: &Shadows,
    found: &mut Found<'a>,
) -> Result<(), OutOfMemory>
    requires { IsFound found.old }
    ensures found { OnOk result (IsFound found.new) }
    ensures added { OnOk result (Adds (found_in found.old) (found_in found.new)
        (λ x. Modifies (command_of command.now) x × IsOutside over.now x)) }
{
    match command {
        Command::Assign(x, _)
        | Command::Create(x, _)
        | Command::Name(x, _)
        | Command::Parent(x, _)
        | Command::Children(x, _)
        | Command::Item(x, _, _) => put(alloc, x, over, found),
        Command::Call(results, _, _) => put_all(alloc, results.as_slice(), over, found),
        Command::Block(block) | Command::While(_, block) => {
            add_in_block(alloc, block, over, found)
        }
        Command::If(_, first, second) => {
            add_in_block(alloc, first, over, found)?;
            add_in_block(alloc, second, over, found)
        }
        Command::Local(x, block) => {
            add_in_block(alloc, block, &Shadows::Local(&*x, &*over), found)
        }
        Command::Skip
        | Command::Append(_, _)
        | Command::Remove(_, _)
        | Command::InsertBefore(_, _, _) => Ok(()),
    }
}

// The same of a block.
#[cycle(add_modified)]
fn add_in_block<'a>(
    alloc: Global,
    block: &'a Block,
    over: &Shadows,
    found: &mut Found<'a>,
) -> Result<(), OutOfMemory>
    requires { IsFound found.old }
    ensures found { OnOk result (IsFound found.new) }
    ensures added { OnOk result (Adds (found_in found.old) (found_in found.new)
        (λ x. BlockModifies (block_of block.now) x × IsOutside over.now x)) }
{
    for command in block.as_slice() {
        add_modified(alloc, command, over, found)?;
    }
    Ok(())
}
