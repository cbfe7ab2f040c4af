// What comes of the first piece of a run.
ghost use Rattle.std.specs.Prelude as plain;
ghost use Rattle.std.specs.Prelude.{◌≡◌, ◌∷◌, IfOk};
ghost use Rattle.model_shapes.specs.Sorts.{shape};
ghost use Rattle.model_shapes.specs.Sorts as sorts;
ghost use Rattle.model_shapes.specs.Shapes.{Shaped, SameAt};
ghost use Rattle.model_terms.specs.Stores.{ProperStore};
ghost use Rattle.model_commands.specs.Theories.{procedures_of};
ghost use Rattle.model_files.specs.FileFaults.{IsWellFormedTheory};
ghost use Rattle.model_groves.specs.Picks.{next_pick};
ghost use Rattle.model_machine.specs.Machine.{Piece, configuration, move};
ghost use Rattle.model_machine.specs.Fitting.{FitsPiece};
ghost use Rattle.dom_terms.specs.Stores.{store_of};
ghost use Rattle.theory_syntax.specs.Theories.{theory_of};
ghost use Rattle.dom_meaning.specs.Configs.{piece_of};
ghost use Rattle.dom_meaning.specs.Documents.{Kept};
ghost use Rattle.dom_meaning.specs.Faults.{TellsLimit};
ghost use Rattle.dom_meaning.specs.Effects.{Comes, if_quiet, FitsStore};
ghost use Rattle.dom_meaning.specs.Effects.{Counted, TellsChange};
ghost use Rattle.heap_runner.specs.Turns.{limit_here};
ghost use Rattle.heap_runner.specs.Pieces.{first_seen};

use crate::pieces::First;
use dom_meaning::{Effect, StepFault, command_effect, with_results};
use dom_terms::{Copied, Store};
use node_heap::NodeHeap;
use std::alloc::Global;
use theory_syntax::Theory;

/// What comes of the piece on the heap, where so many returns are pending after it.
#[tactic(auto, using(dom_meaning::proofs::TermLaws::received))]
pub(crate) fn piece_effect<'a>(
    alloc: Global,
    theory: &'a Theory,
    first: First<'a, '_>,
    returns: usize,
    store: &mut Store,
    heap: &mut NodeHeap,
) -> Result<Effect<'a>, StepFault>
    requires well_formed { IsWellFormedTheory (theory_of theory.now) }
    requires fits { FitsPiece (procedures_of (theory_of theory.now)) (piece_of (first_seen first)) }
    requires proper { ProperStore (store_of store.old) }
    requires shaped { Shaped (shape sorts.grove) heap.old.grove }
    ensures comes { IfOk result (Comes (λ trees. SameAt sorts.grove trees heap.new.grove)
        (move (procedures_of (theory_of theory.now)) (next_pick heap.old.grove)
        (piece_of (first_seen first.entry)) (store_of store.old) heap.old.grove)
        (piece_of (first_seen first.entry)) (store_of store.new)) }
    ensures kept { Kept if_quiet (λ before after. after.grove ≡ before.grove) result
        (store.new ≡ store.old) heap.old heap.new }
    ensures change { IfOk result (TellsChange (next_pick heap.old.grove)
        (piece_of (first_seen first.entry)) (store_of store.old) heap.old.grove) }
    ensures limit { (rest : plain.List Piece)
        → Counted (piece_of (first_seen first.entry)) rest returns → TellsLimit result
        (limit_here (configuration (piece_of (first_seen first.entry) ∷ rest) (store_of store.old)
        heap.old.grove)) }
    ensures store { IfOk result FitsStore }
{
    match first {
        First::Command(command) => command_effect(alloc, theory, command, returns, store, heap),
        First::Block(block) => Ok(Effect::Commands(block)),
        First::Restore(variable, value) => Ok(Effect::Set(variable, value.copy(alloc)?)),
        First::Return(caller, results, variables) => {
            let (results, variables) = (results.as_slice(), variables.as_slice());
            Ok(Effect::Back(with_results(alloc, results, variables, store, caller)?))
        }
    }
}
