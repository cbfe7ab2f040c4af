// Tests of equality: of texts, sorts, values and variables.
ghost use Rattle.std.specs.Prelude.{◌≡◌, bytes_eq};
ghost use Rattle.model_shapes.specs.Tests as sorts;
ghost use Rattle.model_terms.specs.VariableTests.{same_var};
ghost use Rattle.dom_terms.specs.Sorts.{value_sort_of, data_sort_of, sort_of};
ghost use Rattle.dom_terms.specs.Values.{value_seen};
ghost use Rattle.dom_terms.specs.Terms.{var_of, logic_var_of};

use crate::sorts::{DataSort, Sort, ValueSort};
use crate::terms::{LogicVar, ProgVar};
use crate::text::Text;
use crate::values::Value;

/// Whether the bytes are the same. It walks them one by one: names have few.
pub fn same_bytes(left: &[u8], right: &[u8]) -> bool
    ensures { result ≡ bytes_eq left.now right.now }
{
    match (left, right) {
        ([], []) => true,
        ([first, rest @ ..], [other, others @ ..]) => *first == *other && same_bytes(rest, others),
        _ => false,
    }
}

/// Whether the texts have the same bytes.
#[inline(always)]
pub fn same_text(left: &Text, right: &Text) -> bool
    ensures { result ≡ bytes_eq left.now right.now }
{
    left.is_same(right)
}

/// Whether the sorts of values are the same.
pub fn same_value_sort(left: ValueSort, right: ValueSort) -> bool
    ensures { result ≡ sorts.same_value_sort (value_sort_of left) (value_sort_of right) }
{
    left == right
}

/// Whether the sorts of data are the same.
pub fn same_data_sort(left: DataSort, right: DataSort) -> bool
    ensures { result ≡ sorts.same_data_sort (data_sort_of left) (data_sort_of right) }
{
    left == right
}

/// Whether the sorts are the same.
pub fn same_sort(left: Sort, right: Sort) -> bool
    ensures { result ≡ sorts.same_sort (sort_of left) (sort_of right) }
{
    match (left, right) {
        (Sort::Value(left), Sort::Value(right)) => same_value_sort(left, right),
        (Sort::Shape(left), Sort::Shape(right)) => same_data_sort(left, right),
        (Sort::Context(hole, whole), Sort::Context(other_hole, other_whole)) => {
            same_data_sort(hole, other_hole) && same_data_sort(whole, other_whole)
        }
        _ => false,
    }
}

/// Whether the values are the same.
pub fn same_value(left: &Value, right: &Value) -> bool
    ensures { result ≡ sorts.same_value (value_seen left.now) (value_seen right.now) }
{
    match (left, right) {
        (Value::NullNode, Value::NullNode) | (Value::NullList, Value::NullList) => true,
        (Value::Node(left), Value::Node(right)) => left == right,
        (Value::List(left), Value::List(right)) => left == right,
        (Value::Int(left), Value::Int(right)) => left == right,
        (Value::Str(left), Value::Str(right)) => same_text(left, right),
        (Value::Bool(left), Value::Bool(right)) => left == right,
        _ => false,
    }
}

/// Whether the program variables have the same name and the same sort.
pub fn same_prog_var(left: &ProgVar, right: &ProgVar) -> bool
    ensures { result ≡ same_var (var_of left.now) (var_of right.now) }
{
    same_text(&left.name, &right.name) && same_value_sort(left.sort, right.sort)
}

/// Whether the logic variables have the same name and the same sort.
pub fn same_logic_var(left: &LogicVar, right: &LogicVar) -> bool
    ensures { result ≡ same_var (logic_var_of left.now) (logic_var_of right.now) }
{
    same_text(&left.name, &right.name) && same_sort(left.sort, right.sort)
}
