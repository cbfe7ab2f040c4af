// The generated theory: printed, and tried.
ghost use Rattle.std.specs.Prelude.{◌≡◌, ◌≤◌, ◌*◌, IfOk};
ghost use Rattle.model_generator.specs.Made.{most_makers, made_text};
ghost use Rattle.model_answers.specs.Output.{line, accepted_text};

use crate::checks::check_bytes;
use crate::replies::Reply;
use crate::status::Status;
use dom_terms::{OutOfMemory, Text};
use std::alloc::Global;
use theory_writing::write_theory;
use work_maker::make_theory;

// The text with so many procedures, written from the generated theory.
fn generated_text(alloc: Global, count: u32) -> Result<Text, OutOfMemory>
    requires some { 1 ≤ count }
    requires most { count ≤ most_makers }
    ensures { IfOk result (λ text. text ≡ made_text count) }
{
    let theory = make_theory(alloc, count)?;
    write_theory(alloc, &theory)
}

/// The answer of `make`: that text.
pub fn print_generated(alloc: Global, count: u32) -> Result<Reply, OutOfMemory>
    requires some { 1 ≤ count }
    requires most { count ≤ most_makers }
    ensures status { IfOk result (λ r. r.status ≡ Status.Done) }
    ensures output { IfOk result (λ r. r.output ≡ made_text count) }
{
    let output = generated_text(alloc, count)?;
    let status = Status::Done;
    Ok(Reply { status, output })
}

/// The answer of `trial`: that of `check` on that text, which is accepted.
pub fn try_generated(alloc: Global, count: u32) -> Result<Reply, OutOfMemory>
    requires some { 1 ≤ count }
    requires most { count ≤ most_makers }
    ensures status { IfOk result (λ r. r.status ≡ Status.Done) }
    ensures output { IfOk result (λ r. r.output ≡ line (accepted_text count (8 * count))) }
{
    let text = generated_text(alloc, count)?;
    check_bytes(alloc, text.as_str().as_bytes())
}
