// Names and variables that are compared with many others.
ghost use Rattle.std.specs.Prelude.{◌≡◌, bytes_eq};
ghost use Rattle.model_terms.specs.VariableTests.{same_var};
ghost use Rattle.dom_terms.specs.Terms.{logic_var_of};

use dom_terms::{LogicVar, same_bytes, same_sort};

/// Whether the names are the same. Most that differ differ in length or in their last byte.
#[inline(always)]
pub(crate) fn same_name(left: &str, right: &str) -> bool
    ensures { result ≡ bytes_eq left.now right.now }
{
    let (own, other) = (left.as_bytes(), right.as_bytes());
    if own.len() != other.len() || own.last() != other.last() {
        return false;
    }
    same_bytes(own, other)
}

/// A sum over the name: its length and its last two bytes.
#[inline(always)]
pub(crate) fn sum_of_name(name: &str) -> u32 {
    match name.as_bytes() {
        [] => 0,
        [only] => *only as u32,
        [.., before, last] => {
            let length = (name.len() % 65_536) as u32;
            length.wrapping_mul(65_536) ^ ((*before as u32) << 8) ^ (*last as u32)
        }
    }
}

/// Whether the variables have the same name and the same sort.
#[inline(always)]
pub(crate) fn same_variable(left: &LogicVar, right: &LogicVar) -> bool
    ensures { result ≡ same_var (logic_var_of left.now) (logic_var_of right.now) }
{
    same_name(left.name.as_str(), right.name.as_str()) && same_sort(left.sort, right.sort)
}
