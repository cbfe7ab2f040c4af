// What comes of a command: each command stands here once.
ghost use Rattle.std.specs.Prelude as plain;
ghost use Rattle.std.specs.Prelude.{◌≡◌, false, Option, IfOk};
ghost use Rattle.model_shapes.specs.Sorts.{shape};
ghost use Rattle.model_shapes.specs.Sorts as sorts;
ghost use Rattle.model_shapes.specs.Shapes.{Shaped};
ghost use Rattle.model_shapes.specs.Trees.{WellFormed};
ghost use Rattle.model_terms.specs.Stores.{ProperStore};
ghost use Rattle.model_commands.specs.Theories.{procedures_of};
ghost use Rattle.model_files.specs.FileFaults.{IsWellFormedTheory};
ghost use Rattle.model_groves.specs.Picks.{Pick};
ghost use Rattle.model_limits.specs.Limits.{LimitKind};
ghost use Rattle.model_machine.specs.Machine.{Piece, run, move};
ghost use Rattle.model_machine.specs.Fitting.{FitsPiece};
ghost use Rattle.dom_terms.specs.Stores.{store_of};
ghost use Rattle.theory_syntax.specs.Commands.{command_of};
ghost use Rattle.theory_syntax.specs.Theories.{theory_of};
ghost use Rattle.dom_meaning.specs.Documents.{Kept};
ghost use Rattle.dom_meaning.specs.Faults.{TellsLimit};
ghost use Rattle.dom_meaning.specs.OwnTerms.{TermsFit};
ghost use Rattle.dom_meaning.specs.Effects.{Comes, move_of, if_quiet, changes, own_limit, FitsStore, Counted};
ghost use Rattle.dom_meaning.specs.Effects.{TellsChange};

use crate::documents::Document;
use crate::effects::Effect;
use crate::faults::StepFault;
use crate::flow::{assigned, called, chosen, opened, repeated};
use crate::moves::{created, inserted, removed};
use crate::reads::{Read, item_read, node_read};
use dom_terms::Store;
use std::alloc::Global;
use theory_syntax::{Command, Theory};

/// What comes of the command on the document, where so many returns are pending after it. Limit
/// comes exactly where the command passes one: Number or Text of its terms, and then Nodes, the
/// limit of the numbers of a new node, or Depth. Where the effect tells no change of the document,
/// and after every refusal, the store and the document are as they were; where memory was refused
/// the document may have more room.
#[tactic(auto, using(crate::proofs::TermLaws::terms_fit))]
pub fn command_effect<'a, D: Document>(
    alloc: Global,
    theory: &'a Theory,
    command: &'a Command,
    returns: usize,
    store: &mut Store,
    document: &mut D,
) -> Result<Effect<'a>, StepFault>
    requires well_formed { IsWellFormedTheory (theory_of theory.now) }
    requires fits { FitsPiece (procedures_of (theory_of theory.now))
        (run (command_of command.now)) }
    requires proper { ProperStore (store_of store.old) }
    requires shaped { Shaped (shape sorts.grove) (D.grove document.old) }
    ensures comes { IfOk result (Comes (D.StandsFor document.new)
        (move (procedures_of (theory_of theory.now)) (D.pick document.old)
        (run (command_of command.now)) (store_of store.old) (D.grove document.old))
        (run (command_of command.now)) (store_of store.new)) }
    ensures kept { Kept if_quiet D.Keeps result (store.new ≡ store.old) document.old document.new }
    ensures change { IfOk result (TellsChange (D.pick document.old) (run (command_of command.now))
        (store_of store.old) (D.grove document.old)) }
    ensures limit { (rest : plain.List Piece) → Counted (run (command_of command.now)) rest returns
        → TellsLimit result (own_limit (command_of command.now) rest (store_of store.old)
        (D.grove document.old) (D.numbers_limit document.old)) }
    ensures store { IfOk result FitsStore }
{
    planned(alloc, theory, command, returns, store, document)
}

// The same, of a command whose terms are known to be sorted.
#[tactic(auto, using(crate::proofs::EffectLaws::planning_rules))]
fn planned<'a, D: Document>(
    alloc: Global,
    theory: &'a Theory,
    command: &'a Command,
    returns: usize,
    store: &mut Store,
    document: &mut D,
) -> Result<Effect<'a>, StepFault>
    requires terms { TermsFit (procedures_of (theory_of theory.now)) (command_of command.now) }
    requires well_formed { WellFormed (D.grove document.old) }
    ensures comes { IfOk result (Comes (D.StandsFor document.new)
        (move (procedures_of (theory_of theory.now)) (D.pick document.old)
        (run (command_of command.now)) (store_of store.old) (D.grove document.old))
        (run (command_of command.now)) (store_of store.new)) }
    ensures kept { Kept if_quiet D.Keeps result (store.new ≡ store.old) document.old document.new }
    ensures change { IfOk result (TellsChange (D.pick document.old) (run (command_of command.now))
        (store_of store.old) (D.grove document.old)) }
    ensures limit { (rest : plain.List Piece) → Counted (run (command_of command.now)) rest returns
        → TellsLimit result (own_limit (command_of command.now) rest (store_of store.old)
        (D.grove document.old) (D.numbers_limit document.old)) }
{
    match command {
        Command::Create(x, name) => created(alloc, x, name, store, document),
        Command::Append(parent, child) => inserted(alloc, parent, child, None, store, document),
        Command::InsertBefore(parent, child, next) => {
            inserted(alloc, parent, child, Some(next), store, document)
        }
        Command::Remove(parent, child) => removed(alloc, parent, child, store, document),
        _ => still(alloc, theory, command, returns, store, document),
    }
}

// What comes of a command that leaves the document as it is.
#[tactic(auto, using(crate::proofs::EffectLaws::tells_none))]
fn still<'a, D: Document>(
    alloc: Global,
    theory: &'a Theory,
    command: &'a Command,
    returns: usize,
    store: &Store,
    document: &D,
) -> Result<Effect<'a>, StepFault>
    requires terms { TermsFit (procedures_of (theory_of theory.now)) (command_of command.now) }
    requires still { changes (command_of command.now) ≡ false }
    requires well_formed { WellFormed (D.grove document.now) }
    ensures moves { IfOk result (λ effect. (pick : Pick)
        → move_of effect (run (command_of command.now)) (store_of store.now) (D.grove document.now)
        ≡ move (procedures_of (theory_of theory.now)) pick (run (command_of command.now))
        (store_of store.now) (D.grove document.now)) }
    ensures change { (pick : Pick) → IfOk result (TellsChange pick (run (command_of command.now))
        (store_of store.now) (D.grove document.now)) }
    ensures limit { (rest : plain.List Piece) (numbers : Option LimitKind)
        → Counted (run (command_of command.now)) rest returns → TellsLimit result (own_limit
        (command_of command.now) rest (store_of store.now) (D.grove document.now) numbers) }
{
    match command {
        Command::Skip => Ok(Effect::Nothing),
        Command::Block(block) => Ok(Effect::Commands(block)),
        Command::Assign(x, value) => assigned(alloc, x, value, store),
        Command::Name(x, node) => node_read(alloc, Read::Name, x, node, store, document),
        Command::Parent(x, node) => node_read(alloc, Read::Parent, x, node, store, document),
        Command::Children(x, node) => node_read(alloc, Read::List, x, node, store, document),
        Command::Item(x, list, place) => item_read(alloc, x, list, place, store, document),
        Command::If(cond, first, second) => chosen(alloc, cond, first, second, store),
        Command::While(cond, block) => repeated(alloc, cond, block, store),
        Command::Local(x, block) => Ok(opened(alloc, x, block, store)?),
        Command::Call(results, name, arguments) => {
            called(alloc, theory, results, name, arguments, returns, store)
        }
        _ => unreachable!(),
    }
}
