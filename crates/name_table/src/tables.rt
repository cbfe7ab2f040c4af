// Tables of names, each with a value.
ghost use Rattle.std.specs.Prelude.{◌≡◌, ℕ, List, None, Some, cond, bytes_eq, OnOk, OnErr};
ghost use Rattle.name_table.specs.Found.{found};

use crate::rows::place_of;
use dom_terms::OutOfMemory;
use indexmap::IndexMap;
use std::alloc::Global;

// How many names lie in the row of a table.
const FEW: usize = 8;

/// Names, each with a value. The first names lie in a row that is walked, the others in a table by
/// hashes.
#[derive(Drop)]
pub struct NameTable<'a, V> {
    few: Vec<(&'a str, V)>,
    others: IndexMap<&'a str, V>,
}

impl<'a, V: Copy + Drop> NameTable<'a, V> {
    /// The table with no name. It takes memory only when it grows.
    #[tactic(auto, unfolding(crate::specs::Found::found))]
    pub fn new(alloc: Global) -> NameTable<'a, V>
        ensures { (q : List ℕ) → found result q ≡ None }
    {
        NameTable {
            few: Vec::new(alloc),
            others: IndexMap::new(alloc),
        }
    }

    /// The value of the name.
    pub fn get(&self, name: &str) -> Option<V>
        ensures { result ≡ found self.now name.now }
    {
        match self.few.get(place_of(&self.few, name)) {
            Some(entry) => Some(entry.1),
            None if self.others.is_empty() => None,
            None => self.others.get(name).copied(),
        }
    }

    /// Puts the value for the name, in place of one that it has. Where memory is refused the table
    /// is unchanged.
    pub fn insert(&mut self, name: &'a str, value: V) -> Result<(), OutOfMemory>
        ensures ok { OnOk result ((q : List ℕ) → found self.new q
            ≡ cond (bytes_eq q name.now) (Some value) (found self.old q)) }
        ensures err { OnErr result ((q : List ℕ) → found self.new q ≡ found self.old q) }
    {
        let place = place_of(&self.few, name);
        if place < self.few.len() {
            self.few[place].1 = value;
        } else if place < FEW {
            self.few.push((name, value))?;
        } else {
            self.others.insert(name, value)?;
        }
        Ok(())
    }
}
