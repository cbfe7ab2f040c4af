// Commands and blocks.
ghost use Rattle.std.specs.Prelude.{◌≡◌, IfOk, map};
ghost use Rattle.theory_syntax.specs.Commands.{command_of};

use dom_terms::{Cond, Copied, List, OutOfMemory, ProgVar, Term, Terms, Text, Vars, copies, with};
use std::alloc::Global;

/// A list of commands.
pub type Block = List<Command>;

/// A command of a program.
#[derive(Debug, Drop)]
pub enum Command {
    /// `skip`
    Skip,
    /// `{ C1 ; .. ; Cn }`
    Block(Block),
    /// `x := E`
    Assign(ProgVar, Term),
    /// `x := createNode(S)`
    Create(ProgVar, Term),
    /// `x := nodeName(E)`
    Name(ProgVar, Term),
    /// `x := parentNode(E)`
    Parent(ProgVar, Term),
    /// `x := childNodes(E)`
    Children(ProgVar, Term),
    /// `x := item(E, F)`
    Item(ProgVar, Term, Term),
    /// `appendChild(E, F)`
    Append(Term, Term),
    /// `removeChild(E, F)`
    Remove(Term, Term),
    /// `insertBefore(E, F, G)`
    InsertBefore(Term, Term, Term),
    /// `if B {..} else {..}`
    If(Cond, Block, Block),
    /// `while B {..}`
    While(Cond, Block),
    /// `local x : s {..}`
    Local(ProgVar, Block),
    /// `call (r1, .., rn) := f(E1, .., Em)`
    Call(Vars, Text, Terms),
}

impl Copied for Command {
    ghost use Rattle.model_commands.specs.Commands as model;

    ghost Seen = { model.Command };

    ghost seen = { command_of };

    #[cycle(command_copy)]
    fn copy(&self, alloc: Global) -> Result<Command, OutOfMemory>
        ensures { IfOk result (λ copied. command_of copied ≡ command_of self.now) }
    {
        match self {
            Self::Skip => Ok(Self::Skip),
            Self::Block(block) => Ok(Self::Block(copied_block(alloc, block)?)),
            Self::Assign(x, value) => {
                let (x, value) = copies(alloc, x, value)?;
                Ok(Self::Assign(x, value))
            }
            Self::Create(x, name) => {
                let (x, name) = copies(alloc, x, name)?;
                Ok(Self::Create(x, name))
            }
            Self::Name(x, node) => {
                let (x, node) = copies(alloc, x, node)?;
                Ok(Self::Name(x, node))
            }
            Self::Parent(x, node) => {
                let (x, node) = copies(alloc, x, node)?;
                Ok(Self::Parent(x, node))
            }
            Self::Children(x, node) => {
                let (x, node) = copies(alloc, x, node)?;
                Ok(Self::Children(x, node))
            }
            Self::Item(x, list, place) => {
                let ((x, list), place) = with(copies(alloc, x, list)?, place.copy(alloc))?;
                Ok(Self::Item(x, list, place))
            }
            Self::Append(parent, child) => {
                let (parent, child) = copies(alloc, parent, child)?;
                Ok(Self::Append(parent, child))
            }
            Self::Remove(parent, child) => {
                let (parent, child) = copies(alloc, parent, child)?;
                Ok(Self::Remove(parent, child))
            }
            Self::InsertBefore(parent, child, next) => {
                let moved = copies(alloc, parent, child)?;
                let ((parent, child), next) = with(moved, next.copy(alloc))?;
                Ok(Self::InsertBefore(parent, child, next))
            }
            Self::If(cond, first, second) => {
                let blocks = with(copied_block(alloc, first)?, copied_block(alloc, second))?;
                let ((first, second), cond) = with(blocks, cond.copy(alloc))?;
                Ok(Self::If(cond, first, second))
            }
            Self::While(cond, block) => {
                let (cond, block) = with(cond.copy(alloc)?, copied_block(alloc, block))?;
                Ok(Self::While(cond, block))
            }
            Self::Local(x, block) => {
                let (x, block) = with(x.copy(alloc)?, copied_block(alloc, block))?;
                Ok(Self::Local(x, block))
            }
            Self::Call(results, name, arguments) => {
                let named = copies(alloc, results, name)?;
                let ((results, name), arguments) = with(named, arguments.copy(alloc))?;
                Ok(Self::Call(results, name, arguments))
            }
        }
    }
}

// a copy of the block
#[cycle(command_copy)]
fn copied_block(alloc: Global, block: &Block) -> Result<Block, OutOfMemory>
    ensures { IfOk result (λ copied. map command_of copied ≡ map command_of block.now) }
{
    let mut copied = List::new(alloc);
    for command in block.as_slice() {
        copied.push(command.copy(alloc)?)?;
    }
    Ok(copied)
}
