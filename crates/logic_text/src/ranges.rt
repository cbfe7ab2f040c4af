// Groves whose numbers are in range.
ghost use Rattle.std.specs.Prelude.{◌≡◌, true, false, map, None, IfOk, OnOk, IfErr};
ghost use Rattle.model_documents.specs.Numbers.{is_in_range, first_out_of_range};
ghost use Rattle.grove_data.specs.Trees.{tree_of, forest_of};
ghost use Rattle.logic_text.specs.RawGroves.{raw_tree_of, raw_forest_of};
ghost use Rattle.logic_text.specs.Ranges.{numbered, Tells};

use crate::raw_groves::{RawForest, RawGrove, RawTree};
use dom_terms::limits::IDENTIFIER;
use dom_terms::{Copied, OutOfMemory};
use grove_data::{Forest, Grove, IdKind, Tree};
use std::alloc::Global;

/// Why a grove that was read is no grove of the program.
#[derive(Clone, Copy, Debug, PartialEq, Eq)]
pub enum RangeFault {
    /// A number isn't from 1 to 4,294,967,295. It is the first one in the order of the text, where
    /// the number of a list stands after its children.
    OutOfRange {
        /// Whether it is the number of a node or of a children list.
        kind: IdKind,
        /// The number.
        number: u64,
    },
    /// Memory ran out.
    OutOfMemory,
}

impl From<OutOfMemory> for RangeFault {
    ghost use Rattle.logic_text.specs.declared.ranges.RangeFault.TheVariants as faults;

    ghost from_gives = { λ _ e. e ≡ faults.OutOfMemory };

    fn from(_e: OutOfMemory) -> RangeFault {
        RangeFault::OutOfMemory
    }
}

// The number, if it is in range.
fn ranged(kind: IdKind, number: u64) -> Result<u32, RangeFault>
    ensures kept { IfOk result (λ n. n ≡ number) }
    ensures in_range { OnOk result (is_in_range (numbered kind number) ≡ true) }
    ensures out { IfErr result (λ e. (e ≡ RangeFault.OutOfRange kind number)
        × (is_in_range (numbered kind number) ≡ false)) }
{
    if number == 0 || number > u64::from(IDENTIFIER) {
        return Err(RangeFault::OutOfRange { kind, number });
    }
    Ok(number as u32)
}

// The tree with the same numbers.
#[cycle(ranges)]
fn ranged_tree(alloc: Global, raw: &RawTree) -> Result<Tree, RangeFault>
    ensures made { IfOk result (λ tree. tree_of tree ≡ raw_tree_of raw.now) }
    ensures in_range { OnOk result (first_out_of_range (raw_tree_of raw.now) ≡ None) }
    ensures told { IfErr result (λ e. Tells e (first_out_of_range (raw_tree_of raw.now))) }
{
    let id = ranged(IdKind::Node, raw.id)?;
    let kids = ranged_forest(alloc, &raw.kids)?;
    let list = ranged(IdKind::List, raw.list)?;
    let name = raw.name.copy(alloc)?;
    Ok(Tree {
        name,
        id,
        kids,
        list,
    })
}

// The trees with the same numbers.
#[cycle(ranges)]
fn ranged_forest(alloc: Global, raw: &RawForest) -> Result<Forest, RangeFault>
    ensures made { IfOk result (λ forest. map tree_of forest ≡ map raw_tree_of raw.now) }
    ensures in_range { OnOk result (first_out_of_range (raw_forest_of raw.now) ≡ None) }
    ensures told { IfErr result (λ e. Tells e (first_out_of_range (raw_forest_of raw.now))) }
{
    let mut made = Forest::new(alloc);
    for tree in raw.as_slice() {
        let item = ranged_tree(alloc, tree)?;
        made.push(item)?;
    }
    Ok(made)
}

/// The grove that was read, if each of its numbers is from 1 to 4,294,967,295. `OutOfRange` comes
/// exactly where one isn't, and tells the first in the order of the text.
pub fn to_grove(alloc: Global, raw: &RawGrove) -> Result<Grove, RangeFault>
    ensures made { IfOk result (λ grove. forest_of grove ≡ raw_forest_of raw.now) }
    ensures in_range { OnOk result (first_out_of_range (raw_forest_of raw.now) ≡ None) }
    ensures told { IfErr result (λ e. Tells e (first_out_of_range (raw_forest_of raw.now))) }
{
    ranged_forest(alloc, raw)
}
