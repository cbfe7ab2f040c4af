// Stores: the values of program variables.
ghost use Rattle.std.specs.Prelude.{◌≡◌, IfOk, OnOk, OnErr, map, option_map, option_copied, find, position};
ghost use Rattle.model_shapes.specs.Values.{FitsValue};
ghost use Rattle.model_terms.specs.Stores.{unset, set, ProperStore};
ghost use Rattle.dom_terms.specs.Sorts.{value_sort_of};
ghost use Rattle.dom_terms.specs.Values.{value_seen};
ghost use Rattle.dom_terms.specs.Terms.{prog_var_of};
ghost use Rattle.dom_terms.specs.Stores.{store_of, cell_seen, has_variable, found_in};

use crate::copied::Copied;
use crate::memory::OutOfMemory;
use crate::same::same_prog_var;
use crate::terms::ProgVar;
use crate::values::Value;
use std::alloc::Global;
use std::marker::Model;

// A variable that was set, and its value.
#[derive(Debug, Drop)]
struct Cell {
    variable: ProgVar,
    value: Value,
}

/// What the program variables are set to. Each value has its variable's sort and no number 0.
#[derive(Debug, Drop)]
pub struct Store {
    cells: Vec<Cell>,
}

impl Model for Store {
    ghost use Rattle.std.specs.Prelude.{List};
    ghost use Rattle.dom_terms.specs.declared.store.Cell.{Cell};
    ghost use Rattle.model_terms.specs.Stores.{ProperStore};

    ghost Value = { List Cell };

    ghost use Rattle.dom_terms.specs.Stores.{store_of};

    ghost view = { λ store. store.cells.items };

    ghost invariant = { λ store. ProperStore (store_of store.cells.items) };
}

impl Store {
    /// The store in which no variable is set. It takes memory only when it grows.
    pub fn new(alloc: Global) -> Store
        ensures { store_of result ≡ unset }
    {
        Store {
            cells: Vec::new(alloc),
        }
    }

    /// The value that a variable was set to: none exactly where it never was.
    pub fn get(&self, variable: &ProgVar) -> Option<&Value>
        ensures value { option_map value_seen (option_copied result)
            ≡ found_in (store_of self.now) (prog_var_of variable.now) }
        ensures proper { ProperStore (store_of self.now) }
    {
        Some(&cell_of(&self.cells, variable)?.value)
    }

    /// Sets a variable to a value. Where memory is refused the store is unchanged, and the variable
    /// and the value are dropped.
    pub fn set(&mut self, variable: ProgVar, value: Value) -> Result<(), OutOfMemory>
        requires { FitsValue (value_sort_of variable.sort) (value_seen value) }
        ensures ok { OnOk result (store_of self.new
            ≡ set (prog_var_of variable) (value_seen value) (store_of self.old)) }
        ensures err { OnErr result (self.new ≡ self.old) }
    {
        match place_of(&self.cells, &variable) {
            Some(place) => self.cells[place].value = value,
            None => self.cells.push(Cell { variable, value })?,
        }
        Ok(())
    }
}

// The first cell of a variable.
fn cell_of<'a>(cells: &'a [Cell], variable: &ProgVar) -> Option<&'a Cell>
    ensures { option_copied result ≡ find (has_variable (prog_var_of variable.now)) cells.now }
{
    cells
        .iter()
        .find(|cell| same_prog_var(variable, &cell.variable))
}

// The place of the first cell of a variable.
fn place_of(cells: &[Cell], variable: &ProgVar) -> Option<usize>
    ensures { result ≡ position (has_variable (prog_var_of variable.now)) cells.now }
{
    cells
        .iter()
        .position(|cell| same_prog_var(variable, &cell.variable))
}

impl Copied for Store {
    ghost use Rattle.model_terms.specs.Stores as model;

    ghost Seen = { model.Store };

    ghost seen = { store_of };

    #[tactic(auto, using(crate::proofs::StoreLaws::same_cells))]
    fn copy(&self, alloc: Global) -> Result<Store, OutOfMemory>
        ensures { IfOk result (λ copied. store_of copied ≡ store_of self.now) }
    {
        let cells = copied_cells(alloc, &self.cells)?;
        Ok(Store { cells })
    }
}

// A copy of the cells.
fn copied_cells(alloc: Global, cells: &[Cell]) -> Result<Vec<Cell>, OutOfMemory>
    ensures { IfOk result (λ copied. map cell_seen copied.items ≡ map cell_seen cells.now) }
{
    let mut copied = Vec::new(alloc);
    for cell in cells {
        copied.push(Cell {
            variable: cell.variable.copy(alloc)?,
            value: cell.value.copy(alloc)?,
        })?;
    }
    Ok(copied)
}
