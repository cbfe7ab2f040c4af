// Tables of names, by which the sort of the first declaration of a name is found.
ghost use Rattle.std.specs.Prelude.{◌≡◌, ℕ, List, [], Some, cond, bytes_eq, map, OnOk, IfOk};
ghost use Rattle.declared_sorts.specs.Names.{found, Tells};

use dom_terms::{LogicVar, OutOfMemory, ProgVar, Sort, ValueSort};
use name_table::NameTable;
use std::alloc::Global;

/// Something that declares a name with a sort.
pub trait Declares<S> {
    ghost use Rattle.std.specs.Prelude as plain;

    // the name and the sort
    ghost declaration: { Self → plain.List plain.ℕ × S };

    /// The name.
    fn declared_name(&self) -> &str
        ensures { result.now ≡ (declaration self.now).0 };

    /// The sort.
    fn declared_sort(&self) -> S
        ensures { result ≡ (declaration self.now).1 };
}

impl Declares<ValueSort> for ProgVar {
    ghost use Rattle.declared_sorts.specs.Names as names;

    ghost declaration = { names.of_variable };

    fn declared_name(&self) -> &str {
        self.name.as_str()
    }

    fn declared_sort(&self) -> ValueSort {
        self.sort
    }
}

impl Declares<Sort> for LogicVar {
    ghost use Rattle.declared_sorts.specs.Names as names;

    ghost declaration = { names.of_logic };

    fn declared_name(&self) -> &str {
        self.name.as_str()
    }

    fn declared_sort(&self) -> Sort {
        self.sort
    }
}

/// The names of a list of declarations, each with the sort with which it is declared first.
#[derive(Drop)]
pub struct Names<'a, S> {
    first: NameTable<'a, S>,
}

impl<'a, S: Copy + Drop> Names<'a, S> {
    // The table with no name.
    fn new(alloc: Global) -> Names<'a, S>
        ensures { Tells result [] }
    {
        Names {
            first: NameTable::new(alloc),
        }
    }

    /// The sort with which the name is declared first.
    pub fn get(&self, name: &str) -> Option<S>
        ensures { result ≡ found self.now name.now }
    {
        self.first.get(name)
    }

    // Puts a declaration before those that are there.
    fn put(&mut self, name: &'a str, sort: S) -> Result<(), OutOfMemory>
        ensures { OnOk result ((q : List ℕ) → found self.new q
            ≡ cond (bytes_eq q name.now) (Some sort) (found self.old q)) }
    {
        self.first.insert(name, sort)
    }
}

/// The names of the declarations.
pub fn names_of<'a, S: Copy + Drop, V: Declares<S>>(
    alloc: Global,
    all: &'a [V],
) -> Result<Names<'a, S>, OutOfMemory>
    ensures { IfOk result (λ names. Tells names (map V.declaration all.now)) }
{
    let mut names = Names::new(alloc);
    let mut place = all.len();
    while place > 0 {
        place -= 1;
        names.put(all[place].declared_name(), all[place].declared_sort())?;
    }
    Ok(names)
}
