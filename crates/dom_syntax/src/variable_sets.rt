// Sets of program variables: one of a name at two sorts is two.
ghost use Rattle.std.specs.Prelude.{◌≡◌, [], ◌∷◌, ◌++◌, List, map, IfOk, OnOk};
ghost use Rattle.model_terms.specs.Stores as model;
ghost use Rattle.model_commands.specs.SortTests.{is_among};
ghost use Rattle.dom_terms.specs.Sorts.{value_sort_of};
ghost use Rattle.dom_terms.specs.Terms.{prog_var_of};
ghost use Rattle.dom_syntax.specs.VariableSets.{Holds, table_of};

use crate::tables::{Declared, Table};
use dom_terms::{OutOfMemory, ProgVar, ValueSort};
use std::alloc::Global;

impl Declared for () {
    ghost Seen = { Unit };

    ghost seen = { λ u. u };
}

/// A set of program variables, as the names of those of each sort.
#[derive(Drop)]
pub(crate) struct VariableSet<'a> {
    nodes: Table<'a, ()>,
    lists: Table<'a, ()>,
    ints: Table<'a, ()>,
    strs: Table<'a, ()>,
    bools: Table<'a, ()>,
}

impl<'a> VariableSet<'a> {
    /// The empty set.
    pub(crate) fn new(alloc: Global) -> VariableSet<'a>
        ensures { Holds result [] }
    {
        VariableSet {
            nodes: Table::new(alloc),
            lists: Table::new(alloc),
            ints: Table::new(alloc),
            strs: Table::new(alloc),
            bools: Table::new(alloc),
        }
    }

    /// The set of the variables.
    pub(crate) fn of(alloc: Global, xs: &'a [ProgVar]) -> Result<VariableSet<'a>, OutOfMemory>
        ensures { IfOk result (λ set. Holds set (map prog_var_of xs.now)) }
    {
        let mut set = VariableSet::new(alloc);
        for variable in xs {
            set.insert(variable)?;
        }
        Ok(set)
    }

    /// Puts a variable into the set.
    pub(crate) fn insert(&mut self, variable: &'a ProgVar) -> Result<(), OutOfMemory>
        ensures { OnOk result ((xs : List model.ProgVar) → Holds self.old xs
            → Holds self.new (xs ++ prog_var_of variable.now ∷ [])) }
    {
        let name = variable.name.as_str();
        match variable.sort {
            ValueSort::Node => self.nodes.declare(name, ()),
            ValueSort::List => self.lists.declare(name, ()),
            ValueSort::Int => self.ints.declare(name, ()),
            ValueSort::Str => self.strs.declare(name, ()),
            ValueSort::Bool => self.bools.declare(name, ()),
        }
    }

    /// Whether the variable is in the set.
    pub(crate) fn has(&self, variable: &ProgVar) -> bool
        ensures { (xs : List model.ProgVar) → Holds self.now xs
            → result ≡ is_among xs (prog_var_of variable.now) }
    {
        self.names(variable.sort)
            .get(variable.name.as_str())
            .is_some()
    }

    // The names that the set has at the sort.
    fn names(&self, sort: ValueSort) -> &Table<'a, ()>
        ensures { result.now ≡ table_of self.now (value_sort_of sort) }
    {
        match sort {
            ValueSort::Node => &self.nodes,
            ValueSort::List => &self.lists,
            ValueSort::Int => &self.ints,
            ValueSort::Str => &self.strs,
            ValueSort::Bool => &self.bools,
        }
    }
}
