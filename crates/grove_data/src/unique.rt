// Whether a number repeats in a grove.
ghost use Rattle.std.specs.Prelude.{◌≡◌, ◌++◌, ◌||◌, Some, None, not, map};
ghost use Rattle.std.specs.Prelude.{IfOk, OnOk, MatchResult};
ghost use Rattle.model_documents.specs.Numbers.{Numbered, same_numbered, numbers_in, first_repeat};
ghost use Rattle.grove_data.specs.Trees.{tree_of, forest_of};
ghost use Rattle.grove_data.specs.UsedNumbers.{Names, used, was_seen};
ghost use Rattle.grove_data.specs.declared.unique.UniqueFault.TheVariants.{OutOfMemory};

use crate::trees::{Forest, Grove, IdKind, Tree};
use dom_terms::{List, OutOfMemory};
use std::alloc::Global;
use std::collections::BTreeSet;

/// Why the numbers of a grove aren't known to be unique.
#[derive(Clone, Copy, Debug, PartialEq, Eq)]
pub enum UniqueFault {
    /// The first number, in document order, that stood before.
    Repeated {
        /// Whether it is the number of a node or of a list.
        kind: IdKind,
        /// The number.
        number: u32,
    },
    /// Memory was refused.
    OutOfMemory,
}

impl From<OutOfMemory> for UniqueFault {
    ghost from_gives = { λ _ fault. fault ≡ OutOfMemory };

    fn from(_refused: OutOfMemory) -> UniqueFault {
        UniqueFault::OutOfMemory
    }
}

// a number with what it is the number of
#[derive(Clone, Copy)]
enum UsedNumber {
    Node(u32),
    List(u32),
}

// the numbers that were seen
#[derive(Drop)]
struct Seen {
    nodes: BTreeSet<u32>,
    lists: BTreeSet<u32>,
}

impl Seen {
    // whether the number is new; now it was seen
    fn is_new(&mut self, next: UsedNumber) -> Result<bool, OutOfMemory>
        ensures new { IfOk result (λ is_new. is_new ≡ not (was_seen self.old (used next))) }
        ensures seen { OnOk result ((q : Numbered)
            → was_seen self.new q ≡ (same_numbered q (used next) || was_seen self.old q)) }
    {
        match next {
            UsedNumber::Node(number) => Ok(self.nodes.insert(number)?),
            UsedNumber::List(number) => Ok(self.lists.insert(number)?),
        }
    }
}

/// Whether no number of one kind stands twice. Repeated comes exactly where one does, and tells the
/// first in document order that stood before.
pub fn check_unique(alloc: Global, grove: &Grove) -> Result<(), UniqueFault>
    ensures { MatchResult result (λ _. first_repeat (forest_of grove.now) ≡ None)
        (Names (first_repeat (forest_of grove.now))) }
{
    let mut numbers = List::new(alloc);
    add_numbers_among(grove, &mut numbers)?;
    let mut seen = Seen {
        nodes: BTreeSet::new(alloc),
        lists: BTreeSet::new(alloc),
    };
    for next in numbers.as_slice() {
        if !seen.is_new(*next)? {
            return Err(repeated(*next));
        }
    }
    Ok(())
}

// the fault that names the number
fn repeated(number: UsedNumber) -> UniqueFault
    ensures { Names (Some (used number)) result }
{
    let (kind, number) = match number {
        UsedNumber::Node(number) => (IdKind::Node, number),
        UsedNumber::List(number) => (IdKind::List, number),
    };
    UniqueFault::Repeated { kind, number }
}

// puts the numbers of the tree to the others, in document order
#[cycle(numbers)]
fn add_numbers_in(tree: &Tree, numbers: &mut List<UsedNumber>) -> Result<(), OutOfMemory>
    ensures { OnOk result
        (map used numbers.new ≡ map used numbers.old ++ numbers_in (tree_of tree.now)) }
{
    numbers.push(UsedNumber::Node(tree.id))?;
    numbers.push(UsedNumber::List(tree.list))?;
    add_numbers_among(&tree.kids, numbers)
}

// the same of the forest
#[cycle(numbers)]
fn add_numbers_among(forest: &Forest, numbers: &mut List<UsedNumber>) -> Result<(), OutOfMemory>
    ensures { OnOk result
        (map used numbers.new ≡ map used numbers.old ++ numbers_in (forest_of forest.now)) }
{
    for tree in forest.as_slice() {
        add_numbers_in(tree, numbers)?;
    }
    Ok(())
}
