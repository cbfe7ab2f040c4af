// From the last command to the first: the formula that is asked for after a command becomes the one
// that is asked for before it.
ghost use Rattle.std.specs.Prelude.{◌≡◌, drop, length, IfOk, OnOk};
ghost use Rattle.model_weakest.specs.Rows.{written_taking};
ghost use Rattle.model_weakest.specs.Written.{new_sorts, new_sorts_of, put, written, written_of};
ghost use Rattle.dom_terms.specs.Terms.{prog_var_of};
ghost use Rattle.formula_syntax.specs.Formulas.{formula_of};
ghost use Rattle.theory_syntax.specs.Commands.{block_of, command_of};
ghost use Rattle.wp_calc.specs.Rows.{made, name_at, names_in, places_of, row_in, variable_of};

use crate::commands::{adding, moving, taking};
use crate::entries::{Entry, Kind, entry_of, sort_for};
use crate::putting::{Putting, put};
use crate::rows::{Filling, Row, name_at};
use dom_terms::{LogicVar, OutOfMemory, ProgVar};
use formula_syntax::Formula;
use std::alloc::Global;
use theory_syntax::{Block, Command};

/// The new variables that no command has yet.
#[derive(Drop)]
pub(crate) struct Supply<'a> {
    pub(crate) alloc: Global,
    pub(crate) rest: &'a [LogicVar],
}

impl<'a> Supply<'a> {
    // The new variables that are left, of which the first are now taken.
    #[tactic(auto, using(crate::proofs::NameLaws::drop_rules))]
    fn take(&mut self, count: usize) -> &'a [LogicVar]
        ensures taken { result.now ≡ self.old.rest.now }
        ensures left { names_in self.new.rest.now ≡ drop count (names_in self.old.rest.now) }
    {
        let variables = self.rest;
        self.rest = behind(variables, count);
        variables
    }
}

// The variables after the first ones.
#[tactic(auto, using(crate::proofs::NameLaws::drop_rules))]
fn behind(variables: &[LogicVar], count: usize) -> &[LogicVar]
    ensures { result.now ≡ drop count variables.now }
{
    if count <= variables.len() {
        &variables[count..]
    } else {
        &[]
    }
}

// What is asked for before a command that gives the variable a value, of which the row speaks.
fn before_value(
    row: &Row,
    x: &ProgVar,
    filling: &Filling,
    asked: Formula,
) -> Result<Formula, OutOfMemory>
    ensures { let places = places_of filling.now in IfOk result (λ formula. formula_of formula
        ≡ written_taking (variable_of places) (name_at places 0) (row_in places row.now)
        (put (prog_var_of x.now) (name_at places 0) (formula_of asked))) }
{
    let asked = with_value(x, filling, asked)?;
    taking(row, filling, asked)
}

// The formula with the value for the variable.
fn with_value(x: &ProgVar, filling: &Filling, asked: Formula) -> Result<Formula, OutOfMemory>
    ensures { IfOk result (λ formula. formula_of formula
        ≡ put (prog_var_of x.now) (name_at (places_of filling.now) 0) (formula_of asked)) }
{
    let mut asked = asked;
    let name = name_at(0, filling)?;
    let putting = Putting {
        alloc: filling.alloc,
        variable: x,
        name: &name,
    };
    put(&mut asked, &putting)?;
    Ok(asked)
}

// What is asked for before a command with the entry.
fn before_entry(entry: &Entry, asked: Formula, supply: &mut Supply) -> Result<Formula, OutOfMemory>
    ensures formula { IfOk result (λ formula. formula_of formula
        ≡ made entry.now (names_in supply.old.rest.now) (formula_of asked)) }
    ensures rest { names_in supply.new.rest.now
        ≡ drop entry.now.count (names_in supply.old.rest.now) }
{
    let filling = Filling {
        alloc: supply.alloc,
        names: supply.take(entry.count),
        sort: sort_for(entry.kind),
        first: entry.first,
        second: entry.second,
        third: entry.third,
    };
    match entry.kind {
        Kind::Value(x) => before_value(&entry.row, x, &filling, asked),
        Kind::Root(x) => {
            let asked = with_value(x, &filling, asked)?;
            adding(&entry.row, &filling, asked)
        }
        Kind::Move => moving(&entry.row, &filling, asked),
    }
}

/// What is asked for before the command. Of one that isn't straight-line nothing is changed.
#[cycle(before)]
pub(crate) fn before(
    command: &Command,
    asked: Formula,
    supply: &mut Supply,
) -> Result<Formula, OutOfMemory>
    ensures formula { IfOk result (λ formula. formula_of formula
        ≡ written (names_in supply.old.rest.now) (command_of command.now) (formula_of asked)) }
    ensures rest { OnOk result (names_in supply.new.rest.now
        ≡ drop (length (new_sorts (command_of command.now))) (names_in supply.old.rest.now)) }
{
    match command {
        Command::Block(block) => before_block(block, asked, supply),
        _ => match entry_of(command) {
            Some(entry) => before_entry(&entry, asked, supply),
            None => Ok(asked),
        },
    }
}

// The same of a block, the last command first.
#[cycle(before)]
fn before_block(block: &Block, asked: Formula, supply: &mut Supply) -> Result<Formula, OutOfMemory>
    ensures formula { IfOk result (λ formula. formula_of formula
        ≡ written_of (names_in supply.old.rest.now) (block_of block.now) (formula_of asked)) }
    ensures rest { OnOk result (names_in supply.new.rest.now
        ≡ drop (length (new_sorts_of (block_of block.now))) (names_in supply.old.rest.now)) }
{
    let commands = block.as_slice();
    let mut asked = asked;
    let mut place = commands.len();
    while place > 0 {
        place -= 1;
        asked = before(&commands[place], asked, supply)?;
    }
    Ok(asked)
}
