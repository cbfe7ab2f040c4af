// Indexes: the keys of records by number, in rising order of the numbers.
ghost use Rattle.std.specs.Prelude.{◌≡◌};
ghost use Rattle.node_heap.specs.Indexes.{lookup, Rising, greatest_of};

/// A number with the key of its record.
#[derive(Clone, Copy)]
pub struct Pair {
    /// The number of a node or of a list.
    pub number: u32,
    /// The key of the record of that node, or of the node with that list.
    pub key: usize,
}

/// The key beside the number, found by halving.
pub fn find(index: &[Pair], number: u32) -> Option<usize>
    requires { Rising index.now }
    ensures { result ≡ lookup number index.now }
{
    let mut low = 0;
    let mut high = index.len();
    while low < high {
        let middle = low + (high - low) / 2;
        let pair = index[middle];
        if pair.number == number {
            return Some(pair.key);
        }
        if pair.number < number {
            low = middle + 1;
        } else {
            high = middle;
        }
    }
    None
}

/// The greatest number, which is the last one, or 0 where there is none.
#[tactic(auto, using(crate::proofs::Ends::last_number))]
pub fn greatest(index: &[Pair]) -> u32
    ensures { result ≡ greatest_of index.now }
{
    match index {
        [.., last] => last.number,
        [] => 0,
    }
}
