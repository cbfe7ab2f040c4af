// The names that have a number.
ghost use Rattle.std.specs.Prelude.{◌≡◌, ◌++◌, IfOk, string_bytes};
ghost use Rattle.std.specs.Fmt.{decimal};

use dom_terms::{OutOfMemory, Text};
use std::alloc::{AllocError, Global};

// The letters and the number, as characters.
fn characters(alloc: Global, letters: &str, number: u32) -> Result<String, AllocError>
    ensures { IfOk result (λ text. string_bytes text ≡ letters.now ++ decimal number) }
{
    format!(in alloc; "{letters}{number}")
}

/// The letters with the number after them, as `p12`.
pub fn numbered(alloc: Global, letters: &str, number: u32) -> Result<Text, OutOfMemory>
    ensures { IfOk result (λ text. text ≡ letters.now ++ decimal number) }
{
    let text = characters(alloc, letters, number)?;
    Text::from_str(alloc, text.as_str())
}
