// The digits at the front of a text, and the numbers that they write.
ghost use Rattle.std.specs.Prelude.{◌≡◌, ◌≤◌, map, if◌then◌else◌};
ghost use Rattle.std.specs.Str.Parse.{digits_value};
ghost use Rattle.model_text.specs.Tokens.{leading_zero, digits_fit, is_number};
ghost use Rattle.text_tokens.specs.Digits.{with_digit};

use crate::letters::Letter;

/// The greatest number.
const GREATEST: u64 = 9_223_372_036_854_775_807;

/// Whether a 0 stands before another character.
#[inline(always)]
fn leading_zero<C: Letter>(run: &[C]) -> bool
    ensures { result ≡ leading_zero (map C.code run.now) }
{
    match run {
        [first, _, ..] => first.character() == '0',
        _ => false,
    }
}

/// The number with one more digit, where the character of the code is a digit and the number then
/// isn't too great.
#[inline(always)]
fn with_digit(value: u64, code: u32) -> Option<u64>
    requires { value ≤ GREATEST }
    ensures { result ≡ with_digit value code }
{
    if !(48..=57).contains(&code) {
        return None;
    }
    let digit = u64::from(code - 48);
    if value > (GREATEST - digit) / 10 {
        return None;
    }
    Some(value * 10 + digit)
}

/// Whether these are digits, and the number that they write is at most the greatest.
#[inline(always)]
fn digits_fit<C: Letter>(run: &[C]) -> bool
    ensures { result ≡ digits_fit (map C.code run.now) }
{
    let mut value = 0;
    for letter in run {
        let Some(next) = with_digit(value, letter.character() as u32) else {
            return false;
        };
        value = next;
    }
    true
}

/// The number that the digits write: none exactly where these aren't digits or it is too great.
pub fn number_value(digits: &[u8]) -> Option<u64>
    ensures { result ≡ (if digits_fit digits.now then Some (digits_value 10 digits.now) else None) }
{
    let mut value = 0;
    for digit in digits {
        value = with_digit(value, u32::from(*digit))?;
    }
    Some(value)
}

/// Whether the run is a number.
#[inline(always)]
pub fn is_number<C: Letter>(run: &[C]) -> bool
    ensures { result ≡ is_number (map C.code run.now) }
{
    !leading_zero(run) && digits_fit(run)
}
