// The commands of a procedure.
ghost use Rattle.std.specs.Prelude.{◌≡◌, IfOk};
ghost use Rattle.model_commands.specs.Commands.{stop, ◌then◌};
ghost use Rattle.theory_syntax.specs.Commands.{command_of, block_of};
ghost use Rattle.model_generator.specs.Generated.{creation, body};

use crate::formulas::tag;
use crate::variables::x;
use dom_terms::{OutOfMemory, with};
use std::alloc::Global;
use theory_syntax::{Block, Command};

/// `x := createNode("tK")`
pub fn creation(alloc: Global, k: u32) -> Result<Command, OutOfMemory>
    ensures { IfOk result (λ command. command_of command ≡ creation k) }
{
    let (x, name) = with(x(alloc)?, tag(alloc, k))?;
    Ok(Command::Create(x, name))
}

/// `{ x := createNode("tK") }`
pub fn creation_block(alloc: Global, k: u32) -> Result<Block, OutOfMemory>
    ensures { IfOk result (λ block. block_of block ≡ (creation k then stop)) }
{
    let mut block = Block::new(alloc);
    block.push(creation(alloc, k)?)?;
    Ok(block)
}

/// `local x : node { x := createNode("tK") }`
pub fn body(alloc: Global, k: u32) -> Result<Command, OutOfMemory>
    ensures { IfOk result (λ command. command_of command ≡ body k) }
{
    let (x, block) = with(x(alloc)?, creation_block(alloc, k))?;
    Ok(Command::Local(x, block))
}
