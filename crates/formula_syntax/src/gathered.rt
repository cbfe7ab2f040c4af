// The variables that a walk has found, and the names that they have.
ghost use Rattle.std.specs.Prelude.{◌≡◌, [], ◌∷◌, ◌++◌, true, IfOk, map};
ghost use Rattle.std.specs.List.{list_any};
ghost use Rattle.model_terms.specs.VariableTests.{same_var};
ghost use Rattle.formula_syntax.specs.Formulas.{any_var_of};
ghost use Rattle.formula_syntax.specs.FreeVariables.{is_among};
ghost use Rattle.formula_syntax.specs.Gathering.{var_text};
ghost use Rattle.formula_syntax.specs.Substitution.{var_named};

use crate::replaced::{Name, is_named};
use crate::variables::AnyVar;
use dom_terms::{Copied, OutOfMemory};
use name_table::NameTable;
use std::alloc::Global;
use std::marker::Model;

/// Variables in order, seen as the list of them.
#[derive(Drop)]
pub(crate) struct Gathered<'a> {
    found: Vec<AnyVar>,
    // for each of their names the place of one that has it, so that a variable of a new name is
    // known to be new without a walk
    places: NameTable<'a, usize>,
}

impl<'a> Model for Gathered<'a> {
    ghost use Rattle.std.specs.Prelude.{List, map};
    ghost use Rattle.model_terms.specs.Variables.{Var};
    ghost use Rattle.formula_syntax.specs.Formulas.{any_var_of};
    ghost use Rattle.formula_syntax.specs.Gathering.{HasPlaces};

    ghost Value = { List Var };

    ghost view = { λ gathered. map any_var_of gathered.found.items };

    ghost invariant = { λ gathered.
        HasPlaces gathered.places (map any_var_of gathered.found.items) };
}

// the name of the variable
fn text_of<'a>(name: &Name<'a>) -> &'a str
    ensures { result.now ≡ var_text (var_named name.now) }
{
    match name {
        Name::Prog(variable) => variable.name.as_str(),
        Name::Logic(variable) => variable.name.as_str(),
    }
}

// a copy of the variable
fn variable_of(alloc: Global, name: &Name) -> Result<AnyVar, OutOfMemory>
    ensures { IfOk result (λ variable. any_var_of variable ≡ var_named name.now) }
{
    match name {
        Name::Prog(variable) => Ok(AnyVar::Prog(variable.copy(alloc)?)),
        Name::Logic(variable) => Ok(AnyVar::Logic(variable.copy(alloc)?)),
    }
}

// whether the variable is one of those
fn is_one_of(found: &[AnyVar], name: &Name) -> bool
    ensures { result ≡ list_any (λ v. same_var (var_named name.now) (any_var_of v)) found.now }
{
    found.iter().any(|variable| is_named(name, variable))
}

// whether the variable stands at the place
fn stands_at(found: &[AnyVar], place: usize, name: &Name) -> bool
    ensures { result ≡ true
        → list_any (λ v. same_var (var_named name.now) (any_var_of v)) found.now ≡ true }
{
    match found.get(place) {
        Some(variable) => is_named(name, variable),
        None => false,
    }
}

impl<'a> Gathered<'a> {
    /// No variable.
    pub(crate) fn new(alloc: Global) -> Gathered<'a>
        ensures { result ≡ [] }
    {
        Gathered {
            found: Vec::new(alloc),
            places: NameTable::new(alloc),
        }
    }

    /// Whether the variable is one of them.
    pub(crate) fn has(&self, name: &Name) -> bool
        ensures { result ≡ is_among (var_named name.now) self.now }
    {
        match self.places.get(text_of(name)) {
            None => false,
            Some(place) => { stands_at(&self.found, place, name) || is_one_of(&self.found, name) }
        }
    }

    /// Puts the variable at the end.
    pub(crate) fn put(&mut self, alloc: Global, name: &Name<'a>) -> Result<(), OutOfMemory>
        ensures { IfOk result (λ _. self.new ≡ self.old ++ var_named name.now ∷ []) }
    {
        let variable = variable_of(alloc, name)?;
        self.places.insert(text_of(name), self.found.len())?;
        self.found.push(variable)?;
        Ok(())
    }

    /// The variables, as a vector.
    pub(crate) fn into_variables(self) -> Vec<AnyVar>
        ensures { map any_var_of result.items ≡ self.entry }
    {
        self.found
    }
}
