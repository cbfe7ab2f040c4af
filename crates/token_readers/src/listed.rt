// Lists of items with a mark between each two.
ghost use Rattle.std.specs.Prelude.{◌≡◌, [], ◌∷◌, ◌++◌, map, OnOk};
ghost use Rattle.token_readers.specs.Reading.{sep_list, many, the_terminal, with_front};
ghost use Rattle.token_readers.specs.Giving.{Gives};
ghost use Rattle.token_readers.specs.Leaves.{lexemes_in};

use crate::fault::ReadFault;
use crate::terminals::skip;
use dom_terms::{Few, List, OutOfMemory};
use std::alloc::Global;
use text_tokens::Front;

/// Something that reads an item at the front of a list of tokens.
pub trait Reader<T> {
    ghost use Rattle.token_readers.specs.Reading.{Read};

    // the type of the plain data
    ghost Seen: { Type 0 };

    // the plain data that an item stands for
    ghost seen: { T → Seen };

    // how it is read from lexemes
    ghost reading: { Self → Read Seen };

    /// The item; moves past it.
    fn read(&self, alloc: Global, tokens: &mut Front) -> Result<T, ReadFault>
        ensures { Gives (λ item. (seen item, lexemes_in tokens.new)) result
            (reading self.now (lexemes_in tokens.old)) };
}

/// A list that takes items at its end.
pub trait Gathers<T>: Sized + Drop {
    ghost use Rattle.std.specs.Prelude as plain;

    // the items of the list
    ghost items: { Self → plain.List T };

    /// The empty list.
    fn empty(alloc: Global) -> Self
        ensures { items result ≡ [] };

    /// Puts an item at the end.
    fn put(&mut self, item: T) -> Result<(), OutOfMemory>
        ensures { OnOk result (items self.new ≡ items self.old ++ item ∷ []) };
}

impl<T: Drop> Gathers<T> for List<T> {
    ghost items = { λ list. list };

    fn empty(alloc: Global) -> List<T>
        ensures { result ≡ [] }
    {
        List::new(alloc)
    }

    fn put(&mut self, item: T) -> Result<(), OutOfMemory>
        ensures { OnOk result (self.new ≡ self.old ++ item ∷ []) }
    {
        self.push(item)
    }
}

impl<T: Default + Drop, const N: usize> Gathers<T> for Few<T, N> {
    ghost items = { λ list. list };

    fn empty(alloc: Global) -> Few<T, N>
        ensures { result ≡ [] }
    {
        Few::new(alloc)
    }

    fn put(&mut self, item: T) -> Result<(), OutOfMemory>
        ensures { OnOk result (self.new ≡ self.old ++ item ∷ []) }
    {
        self.push(item)
    }
}

/// One item or more, with the mark between each two.
pub fn separated<T: Drop, R: Reader<T>, L: Gathers<T>>(
    alloc: Global,
    reader: &R,
    mark: &str,
    tokens: &mut Front,
) -> Result<L, ReadFault>
    ensures { Gives (λ found. (map R.seen (L.items found), lexemes_in tokens.new)) result
        (sep_list mark.now (R.reading reader.now) u32.MAX (lexemes_in tokens.old)) }
{
    let mut found = L::empty(alloc);
    for _ in 0..u32::MAX {
        let item = reader.read(alloc, tokens)?;
        found.put(item)?;
        if !skip(tokens, mark) {
            return Ok(found);
        }
    }
    Err(ReadFault::Memory)
}

/// Those found before, and items as long as the word comes, each after it.
pub fn repeated<T: Drop, R: Reader<T>, L: Gathers<T>>(
    alloc: Global,
    reader: &R,
    word: &str,
    before: L,
    tokens: &mut Front,
) -> Result<L, ReadFault>
    ensures { Gives (λ found. (map R.seen (L.items found), lexemes_in tokens.new)) result
        (with_front (map R.seen (L.items before)) (many (the_terminal word.now)
        (λ _. R.reading reader.now) u32.MAX (lexemes_in tokens.old))) }
{
    let mut found = before;
    for _ in 0..u32::MAX {
        if !skip(tokens, word) {
            return Ok(found);
        }
        let item = reader.read(alloc, tokens)?;
        found.put(item)?;
    }
    Err(ReadFault::Memory)
}
