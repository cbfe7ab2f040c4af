// Why words have no reading.
ghost use Rattle.std.specs.Prelude.{◌≡◌};
ghost use Rattle.request_words.specs.declared.faults.WordFault.TheVariants.{OutOfMemory};

use dom_terms::OutOfMemory;

/// Why words have no reading.
#[derive(Clone, Copy, Debug, PartialEq, Eq)]
pub enum WordFault {
    /// The words have none of the forms.
    BadWords,
    /// Memory ran out.
    OutOfMemory,
}

impl From<OutOfMemory> for WordFault {
    ghost from_gives = { λ _ e. e ≡ OutOfMemory };

    fn from(_e: OutOfMemory) -> WordFault {
        WordFault::OutOfMemory
    }
}
