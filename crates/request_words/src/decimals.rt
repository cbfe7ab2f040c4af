// Decimal numbers.
ghost use Rattle.std.specs.Prelude.{◌≡◌, ◌≤◌, ℕ, IfSome};
ghost use Rattle.std.specs.Option.{option_map};
ghost use Rattle.model_shapes.specs.Values.{Value, int};
ghost use Rattle.model_limits.specs.Limits.{standard_limits};
ghost use Rattle.model_answers.specs.Words.{decimal_of};
ghost use Rattle.model_answers.specs.Arguments as model;

use dom_terms::limits::{IDENTIFIER, INTEGER};
use text_tokens::number_value;

/// The decimal number of at most so much that the bytes are, or none.
pub fn decimal(bytes: &[u8], most: u64) -> Option<u64>
    ensures value { result ≡ decimal_of most bytes.now }
    ensures most { IfSome result (λ number. number ≤ most) }
{
    match bytes {
        [] | [b'0', _, ..] => None,
        _ => match number_value(bytes) {
            Some(number) if number <= most => Some(number),
            _ => None,
        },
    }
}

// The positive number within the limit that the bytes are, or none.
fn positive(bytes: &[u8]) -> Option<u32>
    ensures { (named : ℕ → Value) → option_map named result
        ≡ model.positive_of named (decimal_of standard_limits.identifier bytes.now) }
{
    match decimal(bytes, u64::from(IDENTIFIER)) {
        None | Some(0) => None,
        Some(number) => Some(number as u32),
    }
}

/// The number of a node or a list that the bytes write after its mark, or none.
pub fn marked(bytes: &[u8], mark: u8) -> Option<u32>
    ensures { (named : ℕ → Value) → option_map named result ≡ model.marked mark named bytes.now }
{
    match bytes {
        [first, digits @ ..] if *first == mark => positive(digits),
        _ => None,
    }
}

// The integer below 0 whose digits stand after its sign, or none.
fn negative(digits: &[u8]) -> Option<i64>
    ensures { option_map int result
        ≡ model.negative_of (decimal_of standard_limits.integer digits.now) }
{
    match decimal(digits, INTEGER) {
        None | Some(0) => None,
        Some(number) => Some(-(number as i64)),
    }
}

/// The integer that the bytes are, or none.
pub fn integer(bytes: &[u8]) -> Option<i64>
    ensures { option_map int result ≡ model.integer_of bytes.now }
{
    match bytes {
        [b'-', digits @ ..] => negative(digits),
        _ => Some(decimal(bytes, INTEGER)? as i64),
    }
}
