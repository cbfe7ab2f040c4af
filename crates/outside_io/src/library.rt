// What a library is, and how a whole book is read from one.
ghost use Rattle.std.specs.Prelude.{◌≡◌, ℕ, ◌<◌, ◌≤◌, List, Option, Some, length};
ghost use Rattle.std.specs.Prelude.{IfOk, OnErr, IsErrOf};
ghost use Rattle.outside_io.specs.Causes.{Rose, Told};
ghost use Rattle.outside_io.specs.Pieces.{GivesPiece};

use crate::Failed;
use std::alloc::Global;

/// Books by name.
pub trait Library {
    /// The bytes under a name, where the library tells them.
    ghost book: { Self → List ℕ → Option (List ℕ) };

    /// How often a fetch of a name has failed.
    ghost faults: { Self → List ℕ → ℕ };

    /// Puts bytes of a book, from `at` on, at the front of `into`, and answers how many.
    /// A name that isn't there is a failed fetch. After one, nothing is said of `into`.
    fn fetch(&mut self, name: &str, at: u64, into: &mut [u8]) -> Result<usize, Failed>
        ensures bound { IfOk result (λ count. count ≤ length into.old) }
        ensures bytes { IfOk result
            (λ count. Told (book self.old name.now) (λ b. GivesPiece b at count into.new)) }
        ensures kept { (other : List ℕ)
            → Told (book self.old other) (λ b. book self.new other ≡ Some b) }
        ensures later { (other : List ℕ) → faults self.old other ≤ faults self.new other }
        ensures cause { OnErr result (Rose (faults self.old name.now) (faults self.new name.now)) };
}

/// Why a book couldn't be read whole.
#[derive(Clone, Copy, Debug, PartialEq, Eq)]
pub enum ReadAllFault {
    /// A fetch failed: the library's count of the name rose.
    Failed,
    /// The book has more than `MOST_BYTES` bytes.
    TooLarge,
    /// There is no memory for the bytes.
    OutOfMemory,
}

/// The most bytes of a book that are read.
pub const MOST_BYTES: usize = 4_194_304;

/// The most bytes that are fetched at once.
const PIECE_BYTES: usize = 4_096;

/// All the bytes of a book, fetched in pieces until one is empty. Where the library tells the
/// book, an answer is `TooLarge` exactly where the book has more than `MOST_BYTES` bytes and no
/// fetch failed and memory sufficed.
pub fn read_all<L: Library>(
    alloc: Global,
    library: &mut L,
    name: &str,
) -> Result<Vec<u8>, ReadAllFault>
    ensures whole { IfOk result
        (λ bytes. Told (L.book library.old name.now) (λ b. bytes.items ≡ b)) }
    ensures small { IfOk result (λ bytes. length bytes.items ≤ MOST_BYTES) }
    ensures too_large { IsErrOf result ReadAllFault.TooLarge
        → Told (L.book library.old name.now) (λ b. MOST_BYTES < length b) }
    ensures cause { IsErrOf result ReadAllFault.Failed
        → Rose (L.faults library.old name.now) (L.faults library.new name.now) }

    // The library tells what it told, and no count has fallen.
    ensures kept { (other : List ℕ)
        → Told (L.book library.old other) (λ b. L.book library.new other ≡ Some b) }
    ensures later { (other : List ℕ) → L.faults library.old other ≤ L.faults library.new other }
{
    let mut found = Vec::new(alloc);
    let mut piece = [0u8; PIECE_BYTES];
    'pieces: loop {
        let count = match library.fetch(name, found.len() as u64, &mut piece) {
            Ok(count) => count,
            Err(Failed) => return Err(ReadAllFault::Failed),
        };
        if count == 0 {
            return Ok(found);
        }
        if count > MOST_BYTES - found.len() {
            return Err(ReadAllFault::TooLarge);
        }
        if found.extend_from_slice(&piece[..count]).is_err() {
            return Err(ReadAllFault::OutOfMemory);
        }
    }
}
