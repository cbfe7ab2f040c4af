// Lists of items, which contracts see as lists.
ghost use Rattle.std.specs.Prelude.{◌≡◌, ◌≤◌, ◌<◌, ◌+◌, ◌↔◌, [], ◌∷◌, ◌++◌, length, map, take, drop, slice_get, option_copied, Some, ◌-◌};
ghost use Rattle.std.specs.Prelude.{reverse, IsTrue, IsNone, MatchOption, IfOk, OnOk, OnErr};
ghost use Rattle.std.specs.Borrow.{sem};
ghost use Rattle.std.specs.List.{ItemMut};
ghost use Rattle.std.specs.List.Sorted.{IsPermutation, IsSortedByKeyClosure};

use crate::copied::Copied;
use crate::made::MadeOf;
use crate::memory::OutOfMemory;
use std::alloc::Global;
use std::marker::Model;

/// A list, seen as the list of its items.
#[derive(Debug, Drop)]
pub struct List<T> {
    items: Vec<T>,
}

impl<T> Model for List<T> {
    ghost use Rattle.std.specs.Prelude as plain;
    ghost use Rattle.std.specs.Coded.{coded_list};

    ghost Value = { plain.List T };

    ghost coded = { coded_list T.code };

    ghost view = { λ list. list.items.items };
}

impl<T> List<T> {
    ghost use Rattle.dom_terms.specs.Lends.{LendsItems, LendsLast};

    /// The empty list. It takes memory only when it grows.
    pub fn new(alloc: Global) -> List<T>
        ensures { result ≡ [] }
    {
        List {
            items: Vec::new(alloc),
        }
    }

    /// How many items there are.
    pub fn len(&self) -> usize
        ensures { result ≡ length self.now }
    {
        self.items.len()
    }

    /// Whether there is no item.
    pub fn is_empty(&self) -> bool
        ensures { IsTrue result ↔ (self.now ≡ []) }
    {
        self.items.is_empty()
    }

    /// The item at a place counted from 0: none exactly where the place isn't below the length.
    pub fn get(&self, place: usize) -> Option<&T>
        ensures item { option_copied result ≡ slice_get self.now place }
        ensures absent { IsNone result ↔ (length self.now ≤ place) }
    {
        self.items.as_slice().get(place)
    }

    /// The items as a slice.
    pub fn as_slice(&self) -> &[T]
        ensures { result.now ≡ self.now }
    {
        self.items.as_slice()
    }

    /// The items as a slice, to be changed. There stay as many.
    pub fn as_mut_slice(&mut self) -> &mut [T]
        ensures* writes_back { sem 𝓛 (LendsItems T.row self.entry result) }
        ensures items { result.now ≡ self.old }
    {
        self.items.as_mut_slice()
    }

    /// The last item: none exactly where there is no item.
    pub fn last(&self) -> Option<&T>
        ensures item { option_copied result ≡ slice_get self.now (length self.now - 1) }
        ensures absent { IsNone result ↔ (self.now ≡ []) }
    {
        self.items.as_slice().last()
    }

    /// The last item, to be changed: none exactly where there is no item. The rest of the list is
    /// unchanged.
    pub fn last_mut(&mut self) -> Option<&mut T>
        ensures* writes_back { sem 𝓛 (LendsLast T.row self.entry result) }
        ensures item { ItemMut self.old 0 (length self.old - 1) result }
    {
        self.items.last_mut()
    }

    /// Takes the last item away: none exactly where there is no item.
    pub fn pop(&mut self) -> Option<T>
        ensures { MatchOption result ((self.old ≡ []) × (self.new ≡ []))
            (λ item. self.old ≡ self.new ++ item ∷ []) }
    {
        self.items.pop()
    }

    /// Takes the item at a place counted from 0 away. Those behind it keep their order.
    pub fn remove(&mut self, place: usize) -> T
        requires { place < length self.old }
        ensures item { slice_get self.old place ≡ Some result }
        ensures rest { self.new ≡ take place self.old ++ drop (place + 1) self.old }
    {
        self.items.remove(place)
    }

    /// Moves the items of another list to the end. Where memory is refused both are unchanged.
    pub fn append(&mut self, other: &mut List<T>) -> Result<(), OutOfMemory>
        ensures ok { OnOk result ((self.new ≡ self.old ++ other.old) × (other.new ≡ [])) }
        ensures err { OnErr result ((self.new ≡ self.old) × (other.new ≡ other.old)) }
    {
        self.items.append(&mut other.items)?;
        Ok(())
    }

    /// Moves the items of another list to the end, the last one first, and makes an item of each.
    /// Where memory is refused both are unchanged.
    pub fn append_reversed<U>(&mut self, other: &mut List<U>) -> Result<(), OutOfMemory>
    where
        T: MadeOf<U>,
        ensures ok { OnOk result ((self.new ≡ self.old ++ map T.make (reverse other.old))
            × (other.new ≡ [])) }
        ensures err { OnErr result ((self.new ≡ self.old) × (other.new ≡ other.old)) }
    {
        self.items.reserve(other.items.len())?;
        while let Some(item) = other.items.pop() {
            self.items.push_reserved(T::made(item));
        }
        Ok(())
    }

    /// Sorts the items by their keys, with std's sort, which keeps the order of equal keys. Where
    /// memory is refused the list is unchanged.
    pub fn sort_by_key<K: Ord + Drop, F: FnMut(&T) -> K>(
        &mut self,
        key: F,
    ) -> Result<(), OutOfMemory>
        requires { F.IsAlwaysCallable key }
        ensures permutation { IsPermutation self.old self.new }
        ensures sorted { OnOk result (IsSortedByKeyClosure F.FnMut K.cmp key self.new) }
        ensures err { OnErr result (self.new ≡ self.old) }
    {
        self.items.sort_by_key(key)?;
        Ok(())
    }
}

impl<T: Drop> List<T> {
    /// Puts an item at the end. Where memory is refused the list is unchanged and the item dropped.
    pub fn push(&mut self, item: T) -> Result<(), OutOfMemory>
        ensures ok { OnOk result (self.new ≡ self.old ++ item ∷ []) }
        ensures err { OnErr result (self.new ≡ self.old) }
    {
        // most lists of commands and of trees have one item, and no room for more is taken then
        if self.items.is_empty() {
            self.items.reserve_exact(1)?;
        }
        self.items.push(item)?;
        Ok(())
    }
}

impl<T: Copied> Copied for List<T> {
    ghost use Rattle.std.specs.Prelude as plain;

    ghost Seen = { plain.List T.Seen };

    ghost seen = { map T.seen };

    fn copy(&self, alloc: Global) -> Result<List<T>, OutOfMemory>
        ensures { IfOk result (λ copied. map T.seen copied ≡ map T.seen self.now) }
    {
        let mut copied = List::new(alloc);
        for item in self.as_slice() {
            copied.push(item.copy(alloc)?)?;
        }
        Ok(copied)
    }
}
