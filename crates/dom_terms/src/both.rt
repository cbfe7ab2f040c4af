// Two values of which the second may be refused.
ghost use Rattle.std.specs.Prelude.{◌≡◌, IfOk, IfErr, Ok, Err};

use crate::copied::Copied;
use crate::memory::OutOfMemory;
use std::alloc::Global;

/// Both values, where the second is there, and its refusal where it isn't. The first is then let go
/// here, once, and not in its caller, where each of its shapes would be gone through in the proof.
pub fn with<A: Drop, B: Drop, E: Drop>(first: A, second: Result<B, E>) -> Result<(A, B), E>
    ensures both { IfOk result (λ both. (both.0 ≡ first) × (second ≡ Ok both.1)) }
    ensures refused { IfErr result (λ refusal. second ≡ Err refusal) }
{
    Ok((first, second?))
}

/// Copies of both.
pub fn copies<A: Copied, B: Copied>(
    alloc: Global,
    first: &A,
    second: &B,
) -> Result<(A, B), OutOfMemory>
    ensures first { IfOk result (λ copied. A.seen copied.0 ≡ A.seen first.now) }
    ensures second { IfOk result (λ copied. B.seen copied.1 ≡ B.seen second.now) }
{
    with(first.copy(alloc)?, second.copy(alloc))
}
