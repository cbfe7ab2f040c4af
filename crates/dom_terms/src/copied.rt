// What it is to be copied: an equal value with memory of its own.
ghost use Rattle.std.specs.Prelude.{◌≡◌, IfOk, Ok};

use crate::memory::OutOfMemory;
use std::alloc::Global;

/// A type whose values stand for plain data and can be copied.
pub trait Copied: Drop + Sized {
    // the type of the plain data
    ghost Seen: { Type 0 };

    // the plain data that a value stands for
    ghost seen: { Self → Seen };

    /// The same data, on memory of its own.
    fn copy(&self, alloc: Global) -> Result<Self, OutOfMemory>
        ensures { IfOk result (λ copied. seen copied ≡ seen self.now) };
}

impl Copied for u32 {
    ghost use Rattle.std.specs.Prelude.{ℕ};

    ghost Seen = { ℕ };

    ghost seen = { λ number. number };

    fn copy(&self, _alloc: Global) -> Result<u32, OutOfMemory>
        ensures { result ≡ Ok self.now }
    {
        Ok(*self)
    }
}
