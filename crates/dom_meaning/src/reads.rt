// What commands read off the document.
ghost use Rattle.std.specs.Prelude.{◌≡◌, [], ◌∷◌, true, IfOk};
ghost use Rattle.model_shapes.specs.Sorts as sorts;
ghost use Rattle.model_shapes.specs.Trees.{WellFormed};
ghost use Rattle.model_shapes.specs.Values.{FitsValue, node_number, int};
ghost use Rattle.model_terms.specs.Stores.{value_of};
ghost use Rattle.model_terms.specs.TermSorts.{evaluates};
ghost use Rattle.model_groves.specs.Groves.{node_at, list_at, item_of};
ghost use Rattle.model_machine.specs.Machine.{Piece, reading, no_node, no_list};
ghost use Rattle.model_limits.specs.Limits.{standard_limits};
ghost use Rattle.model_terms.specs.TermLimits.{term_limit, terms_limit};
ghost use Rattle.dom_terms.specs.Terms.{prog_var_of, term_of};
ghost use Rattle.dom_terms.specs.Values.{value_seen};
ghost use Rattle.dom_terms.specs.Stores.{store_of};
ghost use Rattle.grove_data.specs.Finding.{number_or_null};
ghost use Rattle.dom_meaning.specs.Documents.{Reads};
ghost use Rattle.dom_meaning.specs.Effects.{move_of, value_read, TellsNone};
ghost use Rattle.dom_meaning.specs.Faults.{TellsLimit};

use crate::documents::Document;
use crate::effects::Effect;
use crate::faults::{FaultKind, StepFault};
use dom_terms::{Copied, OutOfMemory, ProgVar, Store, Term, Value, eval};
use std::alloc::Global;

/// What is read off a node.
#[derive(Clone, Copy)]
pub(crate) enum Read {
    /// Its name.
    Name,
    /// The number of its children list.
    List,
    /// The number of its parent, or null for a root.
    Parent,
}

/// The variable is to be set to what is read off the node.
pub(crate) fn node_read<'a, D: Document>(
    alloc: Global,
    read: Read,
    variable: &'a ProgVar,
    node: &Term,
    store: &Store,
    document: &D,
) -> Result<Effect<'a>, StepFault>
    requires node { evaluates sorts.node_sort (term_of node.now) ≡ true }
    requires well_formed { WellFormed (D.grove document.now) }
    ensures moves { IfOk result (λ effect. (piece : Piece)
        → move_of effect piece (store_of store.now) (D.grove document.now)
        ≡ reading (node_at (value_of (store_of store.now) (term_of node.now))
        (D.grove document.now)) no_node (value_read read (D.grove document.now))
        (prog_var_of variable.now) (store_of store.now) (D.grove document.now)) }
    ensures change { IfOk result TellsNone }
    ensures limit { TellsLimit result
        (term_limit standard_limits (store_of store.now) (term_of node.now)) }
{
    let Value::Node(node) = eval(alloc, node, store)? else {
        return Ok(Effect::Fault(FaultKind::NoNode));
    };
    match read_off(alloc, read, node, document)? {
        Ok(value) => Ok(Effect::Set(variable, value)),
        Err(kind) => Ok(Effect::Fault(kind)),
    }
}

// What is read off the node with the number.
fn read_off<D: Document>(
    alloc: Global,
    read: Read,
    node: u32,
    document: &D,
) -> Result<Result<Value, FaultKind>, OutOfMemory>
    requires { WellFormed (D.grove document.now) }
    ensures { IfOk result (Reads value_seen (node_at (node_number node) (D.grove document.now))
        no_node (value_read read (D.grove document.now))) }
{
    match read {
        Read::Name => name_of(alloc, node, document),
        Read::List => Ok(list_of(node, document)),
        Read::Parent => Ok(parent_of(node, document)),
    }
}

// The name of the node.
fn name_of<D: Document>(
    alloc: Global,
    node: u32,
    document: &D,
) -> Result<Result<Value, FaultKind>, OutOfMemory>
    requires { WellFormed (D.grove document.now) }
    ensures { IfOk result (Reads value_seen (node_at (node_number node) (D.grove document.now))
        no_node (value_read Read.Name (D.grove document.now))) }
{
    match document.node_name(node) {
        Ok(name) => Ok(Ok(Value::Str(name.copy(alloc)?))),
        Err(kind) => Ok(Err(kind)),
    }
}

// The number of the children list of the node.
fn list_of<D: Document>(node: u32, document: &D) -> Result<Value, FaultKind>
    requires { WellFormed (D.grove document.now) }
    ensures { Reads value_seen (node_at (node_number node) (D.grove document.now)) no_node
        (value_read Read.List (D.grove document.now)) result }
{
    match document.child_nodes(node) {
        Ok(list) => Ok(Value::List(list)),
        Err(kind) => Err(kind),
    }
}

// The number of the parent of the node, or null.
fn parent_of<D: Document>(node: u32, document: &D) -> Result<Value, FaultKind>
    requires { WellFormed (D.grove document.now) }
    ensures { Reads value_seen (node_at (node_number node) (D.grove document.now)) no_node
        (value_read Read.Parent (D.grove document.now)) result }
{
    match document.parent_node(node) {
        Ok(parent) => Ok(node_or_null(parent)),
        Err(kind) => Err(kind),
    }
}

// The number as that of a node, or null where there is none.
fn node_or_null(node: Option<u32>) -> Value
    ensures { value_seen result ≡ number_or_null node }
{
    match node {
        Some(number) => Value::Node(number),
        None => Value::NullNode,
    }
}

/// The variable is to be set to the child at a place, counted from 0, of the node with the list, or
/// to null where there is none.
pub(crate) fn item_read<'a, D: Document>(
    alloc: Global,
    variable: &'a ProgVar,
    list: &Term,
    place: &Term,
    store: &Store,
    document: &D,
) -> Result<Effect<'a>, StepFault>
    requires list { evaluates sorts.list_sort (term_of list.now) ≡ true }
    requires place { evaluates sorts.int_sort (term_of place.now) ≡ true }
    requires well_formed { WellFormed (D.grove document.now) }
    ensures moves { IfOk result (λ effect. (piece : Piece)
        → move_of effect piece (store_of store.now) (D.grove document.now)
        ≡ reading (list_at (value_of (store_of store.now) (term_of list.now))
        (D.grove document.now)) no_list
        (λ s i k l. item_of (value_of (store_of store.now) (term_of place.now)) k)
        (prog_var_of variable.now) (store_of store.now) (D.grove document.now)) }
    ensures change { IfOk result TellsNone }
    ensures limit { TellsLimit result (terms_limit standard_limits (store_of store.now)
        (term_of list.now ∷ term_of place.now ∷ [])) }
{
    let list = eval(alloc, list, store)?;
    let place = integer(eval(alloc, place, store)?);
    let Value::List(list) = list else {
        return Ok(Effect::Fault(FaultKind::NoList));
    };
    match document.list_item(list, place) {
        Ok(item) => Ok(Effect::Set(variable, node_or_null(item))),
        Err(kind) => Ok(Effect::Fault(kind)),
    }
}

// The integer that a value is.
fn integer(value: Value) -> i64
    requires { FitsValue sorts.int_sort (value_seen value) }
    ensures { int result ≡ value_seen value }
{
    match value {
        Value::Int(number) => number,
        _ => unreachable!(),
    }
}
