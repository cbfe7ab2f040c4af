// What is put in the place of the first piece of a run.
ghost use Rattle.std.specs.Prelude as plain;
ghost use Rattle.std.specs.Prelude.{◌≡◌, ◌∷◌, ◌++◌, map, OnOk, OnErr};
ghost use Rattle.model_shapes.specs.Values.{FitsValue};
ghost use Rattle.model_terms.specs.Stores.{set, default};
ghost use Rattle.dom_terms.specs.Sorts.{value_sort_of};
ghost use Rattle.dom_terms.specs.Stores.{store_of};
ghost use Rattle.dom_terms.specs.Terms.{prog_var_of};
ghost use Rattle.dom_terms.specs.Values.{value_seen};
ghost use Rattle.theory_syntax.specs.declared.commands.Command.TheVariants.{Block as BlockOf};
ghost use Rattle.dom_meaning.specs.Configs.{piece_of};
ghost use Rattle.dom_meaning.specs.Effects.{pieces_put, store_put, FitsStore};
ghost use Rattle.dom_meaning.specs.declared.configurations.Pending.{Pending};
ghost use Rattle.dom_meaning.specs.declared.configurations.Pending.TheVariants.{Run, Restore};
ghost use Rattle.dom_meaning.specs.declared.configurations.Pending.TheVariants.{Return};
ghost use Rattle.heap_runner.specs.Effects.{GoesOn, IsQuiet};

use crate::pieces::Piece;
use crate::stack::Stack;
use dom_meaning::Effect;
use dom_terms::{Copied, OutOfMemory, ProgVar, Store, Value, Vars, default_of};
use std::alloc::Global;
use std::mem::replace;
use theory_syntax::{Block, Procedure};

/// Puts what the effect says in the place of the first piece, and sets the store as it says. What
/// may want memory comes first: where it is refused nothing is changed.
pub(crate) fn put<'a>(
    alloc: Global,
    effect: Effect<'a>,
    stack: &mut Stack<'a>,
    store: &mut Store,
) -> Result<(), OutOfMemory>
    requires goes_on { GoesOn effect }
    requires fits { FitsStore effect }
    ensures pieces { OnOk result ((first : Pending) (others : plain.List Pending)
        → stack.old.pieces ≡ first ∷ others → map piece_of stack.new.pieces
        ≡ pieces_put effect.entry (piece_of first) (store_of store.old) ++ map piece_of others) }
    ensures store { OnOk result (store_of store.new ≡ store_put effect.entry (store_of store.old)) }
    ensures quiet { OnErr result (IsQuiet effect.entry) }
    ensures err { OnErr result ((stack.new.pieces ≡ stack.old.pieces) × (store.new ≡ store.old)) }
{
    match effect {
        Effect::Set(variable, value) => put_value(alloc, variable, value, stack, store),
        Effect::Commands(block) => put_commands(block, stack),
        Effect::Block(block) => put_block(block, stack),
        Effect::Again(block) => put_before(block, stack),
        Effect::Local(variable, old, block) => {
            put_local(alloc, variable, old, block, stack, store)
        }
        Effect::Call(procedure, variables, callee) => {
            put_call(procedure, variables, callee, stack, store)
        }
        Effect::Back(caller) => {
            *store = caller;
            stack.drop_first();
            Ok(())
        }
        Effect::Nothing | Effect::Created { .. } | Effect::Moved { .. } | Effect::Removed { .. } =>
            {
                stack.drop_first();
                Ok(())
            }
        Effect::Fault(_) | Effect::BadPick => unreachable!(),
    }
}

// Nothing in the place of the first piece, and the variable is set to the value.
fn put_value(
    alloc: Global,
    variable: &ProgVar,
    value: Value,
    stack: &mut Stack,
    store: &mut Store,
) -> Result<(), OutOfMemory>
    requires { FitsValue (value_sort_of variable.now.sort) (value_seen value) }
    ensures pieces { OnOk result ((first : Pending) (others : plain.List Pending)
        → stack.old.pieces ≡ first ∷ others → stack.new.pieces ≡ others) }
    ensures store { OnOk result (store_of store.new
        ≡ set (prog_var_of variable.now) (value_seen value) (store_of store.old)) }
    ensures err { OnErr result ((stack.new.pieces ≡ stack.old.pieces) × (store.new ≡ store.old)) }
{
    store.set(variable.copy(alloc)?, value)?;
    stack.drop_first();
    Ok(())
}

// The commands of the block in the place of the first piece.
fn put_commands<'a>(block: &'a Block, stack: &mut Stack<'a>) -> Result<(), OutOfMemory>
    ensures pieces { OnOk result ((first : Pending) (others : plain.List Pending)
        → stack.old.pieces ≡ first ∷ others
        → stack.new.pieces ≡ map Run block.now ++ others) }
    ensures err { OnErr result (stack.new.pieces ≡ stack.old.pieces) }
{
    stack.make_room()?;
    stack.drop_first();
    let [command, rest @ ..] = block.as_slice() else {
        return Ok(());
    };
    stack.push(Piece::Commands(command, rest));
    Ok(())
}

// The block in the place of the first piece.
fn put_block<'a>(block: &'a Block, stack: &mut Stack<'a>) -> Result<(), OutOfMemory>
    ensures pieces { OnOk result ((first : Pending) (others : plain.List Pending)
        → stack.old.pieces ≡ first ∷ others
        → stack.new.pieces ≡ Run (BlockOf block.now) ∷ others) }
    ensures err { OnErr result (stack.new.pieces ≡ stack.old.pieces) }
{
    stack.make_room()?;
    stack.drop_first();
    stack.push(Piece::Block(block));
    Ok(())
}

// The block before the first piece.
fn put_before<'a>(block: &'a Block, stack: &mut Stack<'a>) -> Result<(), OutOfMemory>
    ensures pieces { OnOk result (stack.new.pieces ≡ Run (BlockOf block.now) ∷ stack.old.pieces) }
    ensures err { OnErr result (stack.new.pieces ≡ stack.old.pieces) }
{
    stack.make_room()?;
    stack.push(Piece::Block(block));
    Ok(())
}

// The block in the place of the first piece, and after it the variable's old value. The variable is
// set to its default.
fn put_local<'a>(
    alloc: Global,
    variable: &'a ProgVar,
    old: Value,
    block: &'a Block,
    stack: &mut Stack<'a>,
    store: &mut Store,
) -> Result<(), OutOfMemory>
    ensures pieces { OnOk result ((first : Pending) (others : plain.List Pending)
        → stack.old.pieces ≡ first ∷ others
        → stack.new.pieces ≡ Run (BlockOf block.now) ∷ Restore variable.now old ∷ others) }
    ensures store { OnOk result (store_of store.new ≡ set (prog_var_of variable.now)
        (default (value_sort_of variable.now.sort)) (store_of store.old)) }
    ensures err { OnErr result ((stack.new.pieces ≡ stack.old.pieces) × (store.new ≡ store.old)) }
{
    let inner = variable.copy(alloc)?;
    stack.make_room()?;
    store.set(inner, default_of(alloc, variable.sort))?;
    stack.drop_first();
    stack.push(Piece::Restore(variable, old));
    stack.push(Piece::Block(block));
    Ok(())
}

// The body of the procedure in the place of the first piece, and after it the return to the store.
// The store is the callee's.
fn put_call<'a>(
    procedure: &'a Procedure,
    variables: &'a Vars,
    callee: Store,
    stack: &mut Stack<'a>,
    store: &mut Store,
) -> Result<(), OutOfMemory>
    ensures pieces { OnOk result ((first : Pending) (others : plain.List Pending)
        → stack.old.pieces ≡ first ∷ others → stack.new.pieces ≡ Run procedure.now.body
        ∷ Return store.old procedure.now.results variables.now ∷ others) }
    ensures store { OnOk result (store.new ≡ callee) }
    ensures err { OnErr result ((stack.new.pieces ≡ stack.old.pieces) × (store.new ≡ store.old)) }
{
    stack.make_room()?;
    let caller = replace(store, callee);
    stack.drop_first();
    stack.push(Piece::Return(caller, &procedure.results, variables));
    stack.push(Piece::Commands(&procedure.body, &[]));
    Ok(())
}
