// What is declared in a procedure.
ghost use Rattle.std.specs.Prelude.{◌≡◌, ◌++◌, OnOk, IfOk, map};
ghost use Rattle.std.specs.List.{flat_map};
ghost use Rattle.model_commands.specs.CommandParts.{locals, commands_of, locals_of};
ghost use Rattle.model_files.specs.FileFaults.{declared_by};
ghost use Rattle.dom_terms.specs.Terms.{prog_var_of};
ghost use Rattle.theory_syntax.specs.Commands.{block_with, command_of};
ghost use Rattle.theory_syntax.specs.Theories.{procedure_of};

use dom_terms::{Copied, OutOfMemory, ProgVar, Vars};
use std::alloc::Global;
use theory_syntax::{Command, Procedure};

// Puts copies of the variables at the end.
fn add_all(alloc: Global, found: &mut Vars, more: &[ProgVar]) -> Result<(), OutOfMemory>
    ensures { OnOk result (map prog_var_of found.new
        ≡ map prog_var_of found.old ++ map prog_var_of more.now) }
{
    for item in more {
        found.push(item.copy(alloc)?)?;
    }
    Ok(())
}

// Puts the local variables of a block at the end, in the order of the text.
#[cycle(gathering)]
fn add_block(alloc: Global, found: &mut Vars, block: &[Command]) -> Result<(), OutOfMemory>
    ensures { OnOk result (map prog_var_of found.new ≡ map prog_var_of found.old
        ++ flat_map locals (commands_of (block_with (map command_of block.now)))) }
{
    for item in block {
        add_locals(alloc, found, item)?;
    }
    Ok(())
}

// Puts the local variables of a command at the end, in the order of the text.
#[cycle(gathering)]
fn add_locals(alloc: Global, found: &mut Vars, command: &Command) -> Result<(), OutOfMemory>
    ensures { OnOk result (map prog_var_of found.new
        ≡ map prog_var_of found.old ++ locals_of (command_of command.now)) }
{
    match command {
        Command::Block(block) => add_block(alloc, found, block.as_slice()),
        Command::If(_, first, second) => {
            add_block(alloc, found, first.as_slice())?;
            add_block(alloc, found, second.as_slice())
        }
        Command::While(_, block) => add_block(alloc, found, block.as_slice()),
        Command::Local(x, block) => {
            found.push(x.copy(alloc)?)?;
            add_block(alloc, found, block.as_slice())
        }
        _ => Ok(()),
    }
}

/// What is declared in a procedure: its parameters, its results and the local variables of its
/// body, in the order of the text.
pub fn declared_in(alloc: Global, procedure: &Procedure) -> Result<Vars, OutOfMemory>
    ensures { IfOk result (λ all. map prog_var_of all ≡ declared_by (procedure_of procedure.now)) }
{
    let mut all = Vars::new(alloc);
    add_all(alloc, &mut all, procedure.params.as_slice())?;
    add_all(alloc, &mut all, procedure.results.as_slice())?;
    add_locals(alloc, &mut all, &procedure.body)?;
    Ok(all)
}
