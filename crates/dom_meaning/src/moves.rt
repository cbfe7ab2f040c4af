// Nodes that are made, and trees that are moved.
ghost use Rattle.std.specs.Prelude.{◌≡◌, [], ◌∷◌, true, option_copied, IfOk, IfSome};
ghost use Rattle.model_shapes.specs.Sorts as sorts;
ghost use Rattle.model_shapes.specs.Trees.{WellFormed};
ghost use Rattle.model_shapes.specs.Values.{FitsValue, str};
ghost use Rattle.model_terms.specs.Stores.{value_of, text_in};
ghost use Rattle.model_terms.specs.TermSorts.{evaluates};
ghost use Rattle.model_groves.specs.Groves.{node_at};
ghost use Rattle.model_machine.specs.Machine.{Piece, creating, removing, inserting_at};
ghost use Rattle.model_limits.specs.Limits.{standard_limits};
ghost use Rattle.model_terms.specs.TermLimits.{or_else, term_limit, terms_limit};
ghost use Rattle.dom_terms.specs.Evaluation.{Reports};
ghost use Rattle.dom_terms.specs.Sorts.{value_sort_of};
ghost use Rattle.dom_terms.specs.Terms.{prog_var_of, term_of};
ghost use Rattle.dom_terms.specs.Values.{value_seen};
ghost use Rattle.dom_terms.specs.Stores.{store_of};
ghost use Rattle.grove_data.specs.Finding.{number_or_null};
ghost use Rattle.dom_meaning.specs.Documents.{Kept, making_limit};
ghost use Rattle.dom_meaning.specs.Effects.{Comes, if_quiet, Tells, making, moving, removing_from};
ghost use Rattle.dom_meaning.specs.Effects.{next_value, next_terms};
ghost use Rattle.dom_meaning.specs.Faults.{TellsLimit};

use crate::documents::Document;
use crate::effects::Effect;
use crate::faults::{Creation, FaultKind, MoveFault, StepFault};
use dom_terms::{EvalFault, ProgVar, Store, Term, Text, Value, eval};
use std::alloc::Global;

/// A root is added, with the text as its name, and the variable set to its number.
#[tactic(auto, using(crate::proofs::MoveLaws::creating_rules))]
pub(crate) fn created<'a, D: Document>(
    alloc: Global,
    variable: &ProgVar,
    name: &Term,
    store: &mut Store,
    document: &mut D,
) -> Result<Effect<'a>, StepFault>
    requires variable { value_sort_of variable.now.sort ≡ sorts.node_sort }
    requires name { evaluates sorts.str_sort (term_of name.now) ≡ true }
    ensures comes { (piece : Piece) → IfOk result (Comes (D.StandsFor document.new) (creating
        (D.pick document.old) (prog_var_of variable.now)
        (text_in (value_of (store_of store.old) (term_of name.now))) (store_of store.old)
        (D.grove document.old)) piece (store_of store.new)) }
    ensures kept { Kept if_quiet D.Keeps result (store.new ≡ store.old) document.old document.new }
    ensures change { IfOk result (Tells (making (D.pick document.old))) }
    ensures limit { TellsLimit result
        (or_else (term_limit standard_limits (store_of store.old) (term_of name.now))
        (making_limit (D.grove document.old) (D.numbers_limit document.old))) }
{
    let name = text(eval(alloc, name, store)?);
    match document.create_node(alloc, variable, name, store)? {
        Creation::Made { node, list } => Ok(Effect::Created { node, list }),
        Creation::BadPick => Ok(Effect::BadPick),
    }
}

// The text that a value is.
fn text(value: Value) -> Text
    requires { FitsValue sorts.str_sort (value_seen value) }
    ensures { str result ≡ value_seen value }
{
    match value {
        Value::Str(text) => text,
        _ => unreachable!(),
    }
}

/// The tree of the second node moves to just before the third, a child of the first, or to the end
/// of the children of the first where the third is null or there is no third.
#[tactic(auto, using(crate::proofs::MoveLaws::inserting_rules))]
pub(crate) fn inserted<'a, D: Document>(
    alloc: Global,
    parent: &Term,
    child: &Term,
    next: Option<&Term>,
    store: &Store,
    document: &mut D,
) -> Result<Effect<'a>, StepFault>
    requires parent { evaluates sorts.node_sort (term_of parent.now) ≡ true }
    requires child { evaluates sorts.node_sort (term_of child.now) ≡ true }
    requires next { IfSome next (λ next. evaluates sorts.node_sort (term_of next.now) ≡ true) }
    requires well_formed { WellFormed (D.grove document.old) }
    ensures comes { (piece : Piece) → IfOk result (Comes (D.StandsFor document.new) (inserting_at
        (next_value (store_of store.now) (option_copied next.entry))
        (node_at (value_of (store_of store.now) (term_of parent.now)) (D.grove document.old))
        (node_at (value_of (store_of store.now) (term_of child.now)) (D.grove document.old))
        (store_of store.now) (D.grove document.old)) piece (store_of store.now)) }
    ensures kept { Kept if_quiet D.Keeps result Unit document.old document.new }
    ensures change { IfOk result (Tells (moving (value_of (store_of store.now) (term_of parent.now))
        (value_of (store_of store.now) (term_of child.now))
        (next_value (store_of store.now) (option_copied next.entry)) (D.grove document.old))) }
    ensures limit { TellsLimit result (terms_limit standard_limits (store_of store.now)
        (term_of parent.now ∷ term_of child.now ∷ next_terms (option_copied next.entry))) }
{
    let parent = eval(alloc, parent, store)?;
    let child = eval(alloc, child, store)?;
    let next = number_of(alloc, next, store)?;
    let Value::Node(parent) = parent else {
        return Ok(Effect::Fault(FaultKind::NoNode));
    };
    let Value::Node(child) = child else {
        return Ok(Effect::Fault(FaultKind::NoNode));
    };
    let from = match document.parent_node(child) {
        Ok(from) => from,
        Err(kind) => return Ok(Effect::Fault(kind)),
    };
    match document.insert_child(alloc, parent, child, next) {
        Ok(()) => Ok(Effect::Moved {
            node: child,
            from,
            to: parent,
            before: next,
        }),
        Err(MoveFault::Fault(kind)) => Ok(Effect::Fault(kind)),
        Err(MoveFault::OutOfMemory) => Err(StepFault::OutOfMemory),
    }
}

// The number of the node that the value of a term names: none where it is null or there is no term.
fn number_of(alloc: Global, term: Option<&Term>, store: &Store) -> Result<Option<u32>, EvalFault>
    requires { IfSome term (λ term. evaluates sorts.node_sort (term_of term.now) ≡ true) }
    ensures number { IfOk result (λ number.
        number_or_null number ≡ next_value (store_of store.now) (option_copied term.entry)) }
    ensures limit { Reports result
        (terms_limit standard_limits (store_of store.now) (next_terms (option_copied term.entry))) }
{
    match term {
        Some(term) => Ok(number(eval(alloc, term, store)?)),
        None => Ok(None),
    }
}

// The number of the node that a value names: none where it is null.
fn number(value: Value) -> Option<u32>
    requires { FitsValue sorts.node_sort (value_seen value) }
    ensures { number_or_null result ≡ value_seen value }
{
    match value {
        Value::NullNode => None,
        Value::Node(number) => Some(number),
        _ => unreachable!(),
    }
}

/// The tree of the second node, a child of the first, moves to the roots.
#[tactic(auto, using(crate::proofs::MoveLaws::removing_rules))]
pub(crate) fn removed<'a, D: Document>(
    alloc: Global,
    parent: &Term,
    child: &Term,
    store: &Store,
    document: &mut D,
) -> Result<Effect<'a>, StepFault>
    requires parent { evaluates sorts.node_sort (term_of parent.now) ≡ true }
    requires child { evaluates sorts.node_sort (term_of child.now) ≡ true }
    requires well_formed { WellFormed (D.grove document.old) }
    ensures comes { (piece : Piece) → IfOk result (Comes (D.StandsFor document.new) (removing
        (node_at (value_of (store_of store.now) (term_of parent.now)) (D.grove document.old))
        (node_at (value_of (store_of store.now) (term_of child.now)) (D.grove document.old))
        (store_of store.now) (D.grove document.old)) piece (store_of store.now)) }
    ensures kept { Kept if_quiet D.Keeps result Unit document.old document.new }
    ensures change { IfOk result (Tells (removing_from
        (value_of (store_of store.now) (term_of parent.now))
        (value_of (store_of store.now) (term_of child.now)))) }
    ensures limit { TellsLimit result (terms_limit standard_limits (store_of store.now)
        (term_of parent.now ∷ term_of child.now ∷ [])) }
{
    let parent = eval(alloc, parent, store)?;
    let child = eval(alloc, child, store)?;
    let Value::Node(parent) = parent else {
        return Ok(Effect::Fault(FaultKind::NoNode));
    };
    let Value::Node(child) = child else {
        return Ok(Effect::Fault(FaultKind::NoNode));
    };
    match document.remove_child(alloc, parent, child) {
        Ok(()) => Ok(Effect::Removed {
            node: child,
            from: parent,
        }),
        Err(MoveFault::Fault(kind)) => Ok(Effect::Fault(kind)),
        Err(MoveFault::OutOfMemory) => Err(StepFault::OutOfMemory),
    }
}
