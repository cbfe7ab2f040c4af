// The value of a term in a store, within the limits.
ghost use Rattle.std.specs.Prelude.{◌≡◌, true, ℤ, IfOk, FitsSigned};
ghost use Rattle.std.specs.Int.{w64};
ghost use Rattle.std.specs.Option.{SomeIff};
ghost use Rattle.model_shapes.specs.Sorts as model;
ghost use Rattle.model_shapes.specs.Values.{FitsValue, int, str, boolean};
ghost use Rattle.model_terms.specs.Stores.{default, value_in, value_of};
ghost use Rattle.model_terms.specs.TermSorts.{evaluates};
ghost use Rattle.model_terms.specs.Computing.{Computes};
ghost use Rattle.model_limits.specs.Limits.{standard_limits};
ghost use Rattle.model_terms.specs.TermLimits.{value_limit, term_limit};
ghost use Rattle.dom_terms.specs.Sorts.{value_sort_of};
ghost use Rattle.dom_terms.specs.Values.{value_seen};
ghost use Rattle.dom_terms.specs.Terms.{prog_var_of, term_of};
ghost use Rattle.dom_terms.specs.Stores.{store_of};
ghost use Rattle.dom_terms.specs.Evaluation.{Reports};

use crate::copied::Copied;
use crate::limits::TEXT_BYTES;
use crate::memory::OutOfMemory;
use crate::sorts::ValueSort;
use crate::store::Store;
use crate::terms::{ProgVar, Term};
use crate::text::Text;
use crate::values::Value;
use crate::verdicts::EvalFault;
use std::alloc::Global;

/// The value of a term of a command in a store. A variable that the store doesn't have has its
/// sort's default. NumberRange comes exactly where the first subterm that passes a limit, from left
/// to right and inner ones first, is an integer that leaves 64 bits, and TextLimit exactly where it
/// is a text of more than 4,096 bytes; want of memory may come before either.
#[tactic(auto, using(crate::proofs::SortedParts::evaluates_some))]
pub fn eval(alloc: Global, term: &Term, store: &Store) -> Result<Value, EvalFault>
    requires { (s : model.ValueSort) × (evaluates s (term_of term.now) ≡ true) }
    ensures value { IfOk result (λ value.
        value_seen value ≡ value_of (store_of store.now) (term_of term.now)) }
    ensures limit { Reports result (term_limit standard_limits (store_of store.now)
        (term_of term.now)) }
    ensures sort { (s : model.ValueSort) → evaluates s (term_of term.now) ≡ true
        → IfOk result (λ value. FitsValue s (value_seen value)) }
{
    evaluated(alloc, term, store)
}

// The same, of a term whose parts are known to be sorted.
pub(crate) fn evaluated(alloc: Global, term: &Term, store: &Store) -> Result<Value, EvalFault>
    requires { (s : model.ValueSort) × Computes s (term_of term.now) }
    ensures value { IfOk result (λ value.
        value_seen value ≡ value_of (store_of store.now) (term_of term.now)) }
    ensures limit { Reports result (term_limit standard_limits (store_of store.now)
        (term_of term.now)) }
    ensures sort { (s : model.ValueSort) → Computes s (term_of term.now)
        → IfOk result (λ value. FitsValue s (value_seen value)) }
{
    match term {
        Term::NullNode => Ok(Value::NullNode),
        Term::NullList => Ok(Value::NullList),
        Term::Int(number) => Ok(Value::Int(*number)),
        Term::Str(text) => within_limit(Value::Str(text.copy(alloc)?)),
        Term::Bool(truth) => Ok(Value::Bool(*truth)),
        Term::Prog(variable) => within_limit(value_or_default(alloc, variable, store)?),
        Term::Logic(_) => unreachable!(),
        Term::Add(left, right) => {
            let left = integer(evaluated(alloc, left, store)?);
            let right = integer(evaluated(alloc, right, store)?);
            number_within(left.checked_add(right))
        }
        Term::Sub(left, right) => {
            let left = integer(evaluated(alloc, left, store)?);
            let right = integer(evaluated(alloc, right, store)?);
            number_within(left.checked_sub(right))
        }
        Term::Cat(left, right) => {
            let mut joined = text(evaluated(alloc, left, store)?);
            let right = text(evaluated(alloc, right, store)?);
            joined.append(&right)?;
            within_limit(Value::Str(joined))
        }
    }
}

// The integer that was computed, where it stays in range.
fn number_within(number: Option<i64>) -> Result<Value, EvalFault>
    ensures value { (exact : ℤ) → SomeIff number (FitsSigned w64 exact) exact
        → IfOk result (λ value. value_seen value ≡ int exact) }
    ensures limit { (exact : ℤ) → SomeIff number (FitsSigned w64 exact) exact
        → Reports result (value_limit standard_limits (int exact)) }
{
    match number {
        Some(number) => Ok(Value::Int(number)),
        None => Err(EvalFault::NumberRange),
    }
}

/// The value of a variable, or its sort's default where the store doesn't have it.
pub fn value_or_default(
    alloc: Global,
    variable: &ProgVar,
    store: &Store,
) -> Result<Value, OutOfMemory>
    ensures value { IfOk result (λ value.
        value_seen value ≡ value_in (store_of store.now) (prog_var_of variable.now)) }
    ensures fits { IfOk result (λ value.
        FitsValue (value_sort_of variable.now.sort) (value_seen value)) }
{
    match store.get(variable) {
        Some(value) => value.copy(alloc),
        None => Ok(default_of(alloc, variable.sort)),
    }
}

/// The value of a variable of the sort that was never set. It takes no memory.
pub fn default_of(alloc: Global, sort: ValueSort) -> Value
    ensures value { value_seen result ≡ default (value_sort_of sort) }
    ensures fits { FitsValue (value_sort_of sort) (value_seen result) }
{
    match sort {
        ValueSort::Node => Value::NullNode,
        ValueSort::List => Value::NullList,
        ValueSort::Int => Value::Int(0),
        ValueSort::Str => Value::Str(Text::new(alloc)),
        ValueSort::Bool => Value::Bool(false),
    }
}

// The value, where it is no text of too many bytes.
fn within_limit(value: Value) -> Result<Value, EvalFault>
    ensures value { IfOk result (λ within. within ≡ value) }
    ensures limit { Reports result (value_limit standard_limits (value_seen value)) }
{
    match value {
        Value::Str(text) if text.len() > TEXT_BYTES => Err(EvalFault::TextLimit),
        value => Ok(value),
    }
}

// The integer that a value is.
pub(crate) fn integer(value: Value) -> i64
    requires { FitsValue model.int_sort (value_seen value) }
    ensures { int result ≡ value_seen value }
{
    match value {
        Value::Int(number) => number,
        _ => unreachable!(),
    }
}

// The text that a value is.
fn text(value: Value) -> Text
    requires { FitsValue model.str_sort (value_seen value) }
    ensures { str result ≡ value_seen value }
{
    match value {
        Value::Str(text) => text,
        _ => unreachable!(),
    }
}

// The truth value that a value is.
pub(crate) fn truth(value: Value) -> bool
    requires { FitsValue model.bool_sort (value_seen value) }
    ensures { boolean result ≡ value_seen value }
{
    match value {
        Value::Bool(truth) => truth,
        _ => unreachable!(),
    }
}
