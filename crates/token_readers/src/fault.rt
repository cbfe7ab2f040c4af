// Why a reader gave nothing.
ghost use Rattle.std.specs.Prelude.{◌≡◌};
ghost use Rattle.token_readers.specs.Faults.{AtToken, LeavesWithin, FirstLeft};
ghost use Rattle.token_readers.specs.declared.fault.ReadFault.TheVariants.{Memory};
ghost use Rattle.token_readers.specs.declared.fault.TextFault.TheVariants.{OutOfMemory as RanOut};

use dom_terms::OutOfMemory;
use std::alloc::{AllocError, AllocFailed};

/// Why nothing was read.
#[derive(Debug, Drop)]
pub enum ReadFault {
    /// The tokens spell nothing; so many were left where the reading stopped.
    Text(usize),
    /// Memory ran out.
    Memory,
}

impl From<AllocError> for ReadFault {
    ghost from_gives = { λ _ e. e ≡ Memory };

    fn from(_e: AllocError) -> ReadFault {
        ReadFault::Memory
    }
}

impl<T: Drop> From<AllocFailed<T>> for ReadFault {
    ghost from_gives = { λ _ e. e ≡ Memory };

    fn from(_e: AllocFailed<T>) -> ReadFault {
        ReadFault::Memory
    }
}

impl From<OutOfMemory> for ReadFault {
    ghost from_gives = { λ _ e. e ≡ Memory };

    fn from(_e: OutOfMemory) -> ReadFault {
        ReadFault::Memory
    }
}

/// Why a whole list of tokens gave nothing.
#[derive(Clone, Copy, Debug, PartialEq, Eq)]
pub enum TextFault {
    /// The tokens spell nothing.
    BadText {
        /// The fault token, counted from 1; one more than there are where the text only ends too
        /// early.
        token: u32,
    },
    /// Memory ran out.
    OutOfMemory,
}

impl From<OutOfMemory> for TextFault {
    ghost from_gives = { λ _ e. e ≡ RanOut };

    fn from(_e: OutOfMemory) -> TextFault {
        TextFault::OutOfMemory
    }
}

impl ReadFault {
    /// Why a whole list of so many tokens gave nothing, where the reading of it ended so. A fault
    /// token whose number has more than 32 bits is answered as want of memory.
    pub fn of_whole(self, count: usize) -> TextFault
        requires { LeavesWithin count self }
        ensures { AtToken result (FirstLeft count self) }
    {
        let ReadFault::Text(left) = self else {
            return TextFault::OutOfMemory;
        };
        match u32::try_from(count - left) {
            Ok(before) if before < u32::MAX => TextFault::BadText { token: before + 1 },
            _ => TextFault::OutOfMemory,
        }
    }
}
