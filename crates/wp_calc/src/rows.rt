// The rows of the table, with places for the names that they bring, as types that constants can
// have; and what is built of one.
ghost use Rattle.std.specs.Prelude.{◌≡◌, IfOk, true};
ghost use Rattle.dom_terms.specs.Terms.{term_of, logic_var_of};
ghost use Rattle.dom_terms.specs.Sorts.{sort_of};
ghost use Rattle.model_terms.specs.Variables.{logic};
ghost use Rattle.formula_syntax.specs.Formulas.{formula_of};
ghost use Rattle.wp_calc.specs.Rows as view;

use dom_terms::{Copied, DataSort, LogicVar, OutOfMemory, Sort, Term, Text, ValueSort, with};
use formula_syntax::{Formula, Side};
use std::alloc::Global;

/// A term of a row.
#[derive(Clone, Copy)]
pub(crate) enum RowTerm {
    /// The first term of the command.
    First,
    /// The second.
    Second,
    /// The third.
    Third,
    /// The new variable at this place among those of the row, of the sort.
    New(usize, ValueSort),
    /// The first new variable, of the sort of the command's variable.
    Value,
    /// `null`
    NullNode,
    /// This number.
    Int(i64),
}

/// A formula of a row.
#[derive(Clone, Copy)]
pub(crate) enum Row<'a> {
    /// `true`
    True,
    /// `(P and Q)`
    And(&'a Row<'a>, &'a Row<'a>),
    /// `(P or Q)`
    Or(&'a Row<'a>, &'a Row<'a>),
    /// `(exists $x . P)`, with the place and the sort of the variable
    Exists(usize, Sort, &'a Row<'a>),
    /// `E = F`
    Eq(RowTerm, RowTerm),
    /// `E <= F`
    Le(RowTerm, RowTerm),
    /// `0f`
    EmptyForest,
    /// `0g`
    EmptyGrove,
    /// `?h`
    Hole(DataSort),
    /// `S#I[P]%L`
    Node(RowTerm, RowTerm, &'a Row<'a>, RowTerm),
    /// `<P>`
    One(&'a Row<'a>),
    /// `[P]`
    Root(&'a Row<'a>),
    /// `(P * Q)`
    Join(&'a Row<'a>, &'a Row<'a>),
    /// `(P + Q)`
    Plus(&'a Row<'a>, &'a Row<'a>),
    /// `(K .+ Q)`
    PlusHole(&'a Row<'a>, &'a Row<'a>),
    /// `(K @h P)`
    App(DataSort, &'a Row<'a>, &'a Row<'a>),
    /// `(P -o Q)`
    HoleAdj(&'a Row<'a>, &'a Row<'a>),
    /// `$x`
    Var(usize, Sort),
    /// `len E`
    Len(RowTerm),
    /// `($x is P)`
    Is(usize, Sort, &'a Row<'a>),
}

// what stands for the places of a row
#[derive(Drop)]
pub(crate) struct Filling<'a> {
    pub(crate) alloc: Global,
    pub(crate) names: &'a [LogicVar],
    pub(crate) sort: ValueSort,
    pub(crate) first: &'a Term,
    pub(crate) second: &'a Term,
    pub(crate) third: &'a Term,
}

// the name at the place; the empty one where there is none
#[tactic(auto, using(crate::proofs::NameLaws::name_rules))]
pub(crate) fn name_at(place: usize, filling: &Filling) -> Result<Text, OutOfMemory>
    ensures { IfOk result (λ name. name ≡ view.name_at (view.places_of filling.now) place) }
{
    match filling.names.get(place) {
        Some(variable) => variable.name.copy(filling.alloc),
        None => Ok(Text::new(filling.alloc)),
    }
}

// the new variable at the place
pub(crate) fn new_at(place: usize, sort: Sort, filling: &Filling) -> Result<LogicVar, OutOfMemory>
    ensures { IfOk result (λ variable. logic_var_of variable
        ≡ logic (view.name_at (view.places_of filling.now) place) (sort_of sort)) }
{
    let name = name_at(place, filling)?;
    Ok(LogicVar { name, sort })
}

// the term
fn term(of: RowTerm, filling: &Filling) -> Result<Term, OutOfMemory>
    ensures { IfOk result (λ term. term_of term ≡ view.term_in (view.places_of filling.now) of) }
{
    match of {
        RowTerm::First => filling.first.copy(filling.alloc),
        RowTerm::Second => filling.second.copy(filling.alloc),
        RowTerm::Third => filling.third.copy(filling.alloc),
        RowTerm::New(place, sort) => Ok(Term::Logic(new_at(place, Sort::Value(sort), filling)?)),
        RowTerm::Value => Ok(Term::Logic(new_at(0, Sort::Value(filling.sort), filling)?)),
        RowTerm::NullNode => Ok(Term::NullNode),
        RowTerm::Int(number) => Ok(Term::Int(number)),
    }
}

// the formula of the row
#[cycle(built)]
pub(crate) fn built(row: &Row, filling: &Filling) -> Result<Formula, OutOfMemory>
    ensures { IfOk result (λ formula. formula_of formula
        ≡ view.row_in (view.places_of filling.now) row.now) }
{
    match row {
        Row::True => Ok(Formula::True),
        Row::EmptyForest => Ok(Formula::EmptyForest),
        Row::EmptyGrove => Ok(Formula::EmptyGrove),
        Row::Hole(sort) => Ok(Formula::Hole(*sort)),
        Row::One(p) => Ok(Formula::One(boxed(p, filling)?)),
        Row::Root(p) => Ok(Formula::Root(boxed(p, filling)?)),
        Row::Exists(place, sort, p) => {
            let (x, p) = over(*place, *sort, p, filling)?;
            Ok(Formula::Exists(x, p))
        }
        Row::Is(place, sort, p) => {
            let (x, p) = over(*place, *sort, p, filling)?;
            Ok(Formula::Is(x, p))
        }
        Row::Var(place, sort) => Ok(Formula::Var(new_at(*place, *sort, filling)?)),
        Row::Eq(_, _) | Row::Le(_, _) | Row::Node(_, _, _, _) | Row::Len(_) => {
            of_terms(row, filling)
        }
        _ => of_two_parts(row, filling),
    }
}

// the same of a row that has two parts
#[cycle(built)]
fn of_two_parts(row: &Row, filling: &Filling) -> Result<Formula, OutOfMemory>
    requires { view.has_two_parts row.now ≡ true }
    ensures { IfOk result (λ formula. formula_of formula
        ≡ view.row_in (view.places_of filling.now) row.now) }
{
    match row {
        Row::And(p, q) => {
            let (p, q) = with(boxed(p, filling)?, boxed(q, filling))?;
            Ok(Formula::And(p, q))
        }
        Row::Or(p, q) => {
            let (p, q) = with(boxed(p, filling)?, boxed(q, filling))?;
            Ok(Formula::Or(p, q))
        }
        Row::Join(p, q) => {
            let (p, q) = with(boxed(p, filling)?, boxed(q, filling))?;
            Ok(Formula::Join(Side::Whole, p, q))
        }
        Row::Plus(p, q) => {
            let (p, q) = with(boxed(p, filling)?, boxed(q, filling))?;
            Ok(Formula::Plus(p, q))
        }
        Row::PlusHole(p, q) => {
            let (p, q) = with(boxed(p, filling)?, boxed(q, filling))?;
            Ok(Formula::PlusHole(p, q))
        }
        Row::App(sort, p, q) => {
            let (p, q) = with(boxed(p, filling)?, boxed(q, filling))?;
            Ok(Formula::App(*sort, p, q))
        }
        Row::HoleAdj(p, q) => {
            let (p, q) = with(boxed(p, filling)?, boxed(q, filling))?;
            Ok(Formula::HoleAdj(p, q))
        }
        _ => unreachable!(),
    }
}

// the same of a row that has terms
#[cycle(built)]
fn of_terms(row: &Row, filling: &Filling) -> Result<Formula, OutOfMemory>
    requires { view.has_terms row.now ≡ true }
    ensures { IfOk result (λ formula. formula_of formula
        ≡ view.row_in (view.places_of filling.now) row.now) }
{
    match row {
        Row::Eq(a, b) => {
            let (a, b) = with(term(*a, filling)?, term(*b, filling))?;
            Ok(Formula::Eq(a, b))
        }
        Row::Le(a, b) => {
            let (a, b) = with(term(*a, filling)?, term(*b, filling))?;
            Ok(Formula::Le(a, b))
        }
        Row::Len(a) => Ok(Formula::Len(term(*a, filling)?)),
        Row::Node(name, number, p, list) => {
            let (name, number) = with(term(*name, filling)?, term(*number, filling))?;
            let (list, p) = with(term(*list, filling)?, boxed(p, filling))?;
            Ok(Formula::Node(name, number, p, list))
        }
        _ => unreachable!(),
    }
}

// the formula of the row, boxed
#[cycle(built)]
pub(crate) fn boxed(row: &Row, filling: &Filling) -> Result<Box<Formula>, OutOfMemory>
    ensures { IfOk result
        (λ formula. formula_of formula.value ≡ view.row_in (view.places_of filling.now) row.now) }
{
    let formula = built(row, filling)?;
    Ok(Box::new(filling.alloc, formula)?)
}

// a new variable and the formula of the row
#[cycle(built)]
fn over(
    place: usize,
    sort: Sort,
    row: &Row,
    filling: &Filling,
) -> Result<(LogicVar, Box<Formula>), OutOfMemory>
    ensures variable { IfOk result (λ both. logic_var_of both.0
        ≡ logic (view.name_at (view.places_of filling.now) place) (sort_of sort)) }
    ensures part { IfOk result (λ both. formula_of both.1.value
        ≡ view.row_in (view.places_of filling.now) row.now) }
{
    with(new_at(place, sort, filling)?, boxed(row, filling))
}
