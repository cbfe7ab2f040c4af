// Tables of names: what each name is declared as first.
ghost use Rattle.std.specs.Prelude.{◌≡◌, [], ◌∷◌, ◌++◌, ℕ, List, OnOk};
ghost use Rattle.std.specs.Option.{option_map};
ghost use Rattle.dom_syntax.specs.Tables.{Declaration, Declares, found};

use dom_terms::OutOfMemory;
use name_table::NameTable;
use std::alloc::Global;

/// What a name may be declared as.
pub(crate) trait Declared: Copy + Drop {
    // the plain data
    ghost Seen: { Type 0 };

    // the plain data that a value stands for
    ghost seen: { Self → Seen };
}

/// The names of a list of declarations, each with what it is declared as first.
#[derive(Drop)]
pub(crate) struct Table<'a, V> {
    first: NameTable<'a, V>,
    /// Whether a name is declared twice.
    pub(crate) repeats: bool,
}

impl<'a, V: Declared> Table<'a, V> {
    /// The table with no name.
    pub(crate) fn new(alloc: Global) -> Table<'a, V>
        ensures { Declares V.seen result [] }
    {
        Table {
            first: NameTable::new(alloc),
            repeats: false,
        }
    }

    /// What the name is declared as first.
    pub(crate) fn get(&self, name: &str) -> Option<V>
        ensures { result ≡ found self.now name.now }
    {
        self.first.get(name)
    }

    /// Puts a declaration after those that are there.
    pub(crate) fn declare(&mut self, name: &'a str, value: V) -> Result<(), OutOfMemory>
        ensures { OnOk result ((ds : List (Declaration V.Seen)) → Declares V.seen self.old ds
            → Declares V.seen self.new (ds ++ (name.now, V.seen value) ∷ [])) }
    {
        if self.first.get(name).is_some() {
            self.repeats = true;
        } else {
            self.first.insert(name, value)?;
        }
        Ok(())
    }
}
