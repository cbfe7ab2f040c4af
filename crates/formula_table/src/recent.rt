// Where rows were found last.
ghost use Rattle.std.specs.Prelude.{◌<◌};

// How many places are kept.
const SLOTS: usize = 512;

/// For sums over rows the places where such rows were found last, and the place found last of all.
/// What stands there is compared before it is taken, so that nothing is asked of a sum or of a
/// place.
#[derive(Drop)]
pub(crate) struct Recent {
    places: [u32; SLOTS],
    last: u32,
}

// The slot of a sum: its upper bits, which all lower ones have a part in.
#[inline(always)]
fn slot_of(sum: u32) -> usize
    ensures { result < 512 }
{
    (sum.wrapping_mul(2_654_435_769) >> 23) as usize % SLOTS
}

impl Recent {
    /// Nothing was found.
    pub(crate) fn new() -> Recent {
        Recent {
            places: [0; SLOTS],
            last: 0,
        }
    }

    /// The place where a row with the sum may stand.
    #[inline(always)]
    pub(crate) fn guess(&self, sum: u32) -> u32 {
        self.places[slot_of(sum)]
    }

    /// The place after the one found last: what is written again has its rows in the same order.
    #[inline(always)]
    pub(crate) fn next(&self) -> u32 {
        self.last.saturating_add(1)
    }

    /// A row with the sum was found at the place.
    #[inline(always)]
    pub(crate) fn note(&mut self, sum: u32, place: u32) {
        self.places[slot_of(sum)] = place;
        self.last = place;
    }
}
