// Why a formula gets no number.
ghost use Rattle.std.specs.Prelude.{◌≡◌};
ghost use Rattle.formula_table.specs.declared.faults.TableFault.TheVariants as t;

use dom_terms::OutOfMemory;

/// Why a formula gets no number.
#[derive(Clone, Copy, Debug, PartialEq, Eq)]
pub enum TableFault {
    /// The table has as many formulas as it may have.
    Full,
    /// Memory was refused, or a number would pass 32 bits.
    OutOfMemory,
}

impl From<OutOfMemory> for TableFault {
    ghost from_gives = { λ _ fault. fault ≡ t.OutOfMemory };

    fn from(_refused: OutOfMemory) -> TableFault {
        TableFault::OutOfMemory
    }
}
