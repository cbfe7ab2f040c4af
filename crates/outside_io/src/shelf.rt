// The library in memory.
ghost use Rattle.std.specs.Prelude.{◌≡◌, ◌≢◌, ◌↔◌, ◌≤◌, ◌++◌, ℕ, List, Some, None, [], ◌∷◌, length};
ghost use Rattle.std.specs.Prelude.{IsErr, IsSome, IfOk, OnOk, OnErr, position};
ghost use Rattle.outside_io.specs.Causes.{next_count, Rose, Told};
ghost use Rattle.outside_io.specs.Pieces.{GivesPiece};
ghost use Rattle.outside_io.specs.Shelves.{has_name, shelf_book, shelf_faults};
ghost use Rattle.outside_io.specs.Shelves.{FetchFails, SameBooks, PutsPiece};

use crate::{Failed, Library};
use std::alloc::{AllocError, Global};
use std::marker::Model;

// A book, and how often a fetch of it has failed.
#[derive(Drop)]
struct Book {
    name: String,
    bytes: Vec<u8>,
    faults: u64,
}

impl Model for Book {
    ghost use Rattle.std.specs.Prelude.{string_bytes};
    ghost use Rattle.outside_io.specs.Shelves.{Entry};

    ghost Value = { Entry };

    ghost view = { λ b.
        record { name = string_bytes b.name; bytes = b.bytes.items; faults = b.faults } };
}

impl Book {
    // The same book with its own memory.
    fn copy(&self, alloc: Global) -> Result<Self, AllocError>
        ensures { IfOk result (λ book. book ≡ self.now) }
    {
        Ok(Book {
            name: String::from_str(alloc, self.name.as_str())?,
            bytes: Vec::from_slice(alloc, &self.bytes)?,
            faults: self.faults,
        })
    }
}

/// Books in memory, which it tells, and the fetches that fail.
#[derive(Drop)]
pub struct Shelf {
    alloc: Global,
    books: Vec<Book>,
    further: u64,
    calls: u64,
    failing: Vec<u64>,
}

impl Model for Shelf {
    ghost use Rattle.outside_io.specs.Shelves.{ShelfState};

    ghost Value = { ShelfState };

    ghost view = { λ s. record {
      entries = s.books.items;
      further = s.further;
      calls = s.calls;
      failing = s.failing.items;
    } };
}

fn place_of(books: &[Book], name: &str) -> Option<usize>
    ensures { result ≡ position (has_name name.now) books.now }
{
    books.iter().position(|book| book.name.as_str() == name)
}

// Puts bytes from `at` on at the front of `into`, as many as there are and fit.
fn copy_piece(bytes: &[u8], at: u64, into: &mut [u8]) -> usize
    ensures { PutsPiece bytes.now at result into.old into.new }
{
    let start = usize::min(at as usize, bytes.len());
    let count = usize::min(bytes.len() - start, into.len());
    into[..count].copy_from_slice(&bytes[start..start + count]);
    count
}

impl Shelf {
    /// No books, and no fetch that fails.
    pub fn new(alloc: Global) -> Shelf
        ensures { result ≡ record { entries = []; further = 0; calls = 0; failing = [] } }
    {
        Shelf {
            alloc,
            books: Vec::new(alloc),
            further: 0,
            calls: 0,
            failing: Vec::new(alloc),
        }
    }

    /// Adds a book whose name isn't there. Its count begins at the one that served its name.
    pub fn add(&mut self, name: &str, bytes: &[u8]) -> Result<(), AllocError>
        requires { shelf_book self.old name.now ≡ None }
        ensures book { OnOk result (shelf_book self.new name.now ≡ Some bytes.now) }
        ensures count { OnOk result (shelf_faults self.new name.now ≡ self.old.further) }

        // The other books, all other counts and the calls that fail stay.
        ensures others { (other : List ℕ) → other ≢ name.now
            → shelf_book self.new other ≡ shelf_book self.old other }
        ensures counts { (other : List ℕ) → other ≢ name.now
            → shelf_faults self.new other ≡ shelf_faults self.old other }
        ensures rest { self.new ≡ record self.old { entries = self.new.entries } }
        ensures err { OnErr result (self.new ≡ self.old) }
    {
        let book = Book {
            name: String::from_str(self.alloc, name)?,
            bytes: Vec::from_slice(self.alloc, bytes)?,
            faults: self.further,
        };
        self.books.push(book)?;
        Ok(())
    }

    /// Has a fetch call fail, counted from 1.
    pub fn fail_at(&mut self, call: u64) -> Result<(), AllocError>
        ensures ok { OnOk result
            (self.new ≡ record self.old { failing = self.old.failing ++ call ∷ [] }) }
        ensures err { OnErr result (self.new ≡ self.old) }
    {
        self.failing.push(call)?;
        Ok(())
    }

    /// An equal shelf with its own memory.
    pub fn copy(&self, alloc: Global) -> Result<Self, AllocError>
        ensures { IfOk result (λ shelf. shelf ≡ self.now) }
    {
        let mut books = Vec::with_capacity(alloc, self.books.len())?;
        for book in &self.books {
            books.push(book.copy(alloc)?)?;
        }
        Ok(Shelf {
            alloc,
            books,
            further: self.further,
            calls: self.calls,
            failing: Vec::from_slice(alloc, &self.failing)?,
        })
    }
}

impl Library for Shelf {
    ghost book = { shelf_book };

    ghost faults = { shelf_faults };

    fn fetch(&mut self, name: &str, at: u64, into: &mut [u8]) -> Result<usize, Failed>
        // What every library promises.
        ensures bound { IfOk result (λ count. count ≤ length into.old) }
        ensures bytes { IfOk result
            (λ count. Told (shelf_book self.old name.now) (λ b. GivesPiece b at count into.new)) }
        ensures kept { (other : List ℕ)
            → Told (shelf_book self.old other) (λ b. shelf_book self.new other ≡ Some b) }
        ensures later { (other : List ℕ)
            → shelf_faults self.old other ≤ shelf_faults self.new other }
        ensures cause { OnErr result
            (Rose (shelf_faults self.old name.now) (shelf_faults self.new name.now)) }

        // Which fetch fails, and that as many bytes are put as there are and fit.
        ensures fails { IsErr result ↔ FetchFails self.old name.now }
        ensures piece { IfOk result
            (λ count. Told (shelf_book self.old name.now)
            (λ b. PutsPiece b at count into.old into.new)) }

        // A success counts the call alone. A failure also raises by one the count that serves the
        // name, which is that of its book or the further one, and no other.
        ensures ok { OnOk result
            (self.new ≡ record self.old { calls = next_count self.old.calls }) }
        ensures raised { let count = next_count (shelf_faults self.old name.now) in
            OnErr result (shelf_faults self.new name.now ≡ count) }
        ensures others { (other : List ℕ) → other ≢ name.now → IsSome (shelf_book self.old other)
            → shelf_faults self.new other ≡ shelf_faults self.old other }
        ensures further { IsSome (shelf_book self.old name.now)
            → self.new.further ≡ self.old.further }
        ensures books { SameBooks self.old self.new }
        ensures call { self.new.calls ≡ next_count self.old.calls }
        ensures failing { self.new.failing ≡ self.old.failing }
    {
        self.calls = self.calls.saturating_add(1);
        let Some(place) = place_of(&self.books, name) else {
            self.further = self.further.saturating_add(1);
            return Err(Failed);
        };
        if self.failing.contains(&self.calls) {
            let book = &mut self.books[place];
            book.faults = book.faults.saturating_add(1);
            return Err(Failed);
        }
        let book = &self.books[place];
        Ok(copy_piece(&book.bytes, at, into))
    }
}
