// How many bytes of a room are left when the formulas of a step are written: none where the room is
// too little. What is counted is less than what is written, and needs no text.
ghost use Rattle.std.specs.Prelude.{◌+◌, length};
ghost use Rattle.dom_terms.specs.Terms.{logic_var_of, term_of};
ghost use Rattle.formula_syntax.specs.Formulas.{formula_of};
ghost use Rattle.step_filler.specs.Drafts.{Leaves};
ghost use Rattle.step_filler.specs.Weights.{weight_of_formula, weight_of_term, weight_of_variable};

use dom_terms::{LogicVar, Term};
use formula_syntax::Formula;

// Those left by the variable.
fn left_by_variable(variable: &LogicVar, room: usize) -> Option<usize>
    ensures { Leaves room (weight_of_variable (logic_var_of variable.now)) result }
{
    room.checked_sub(variable.name.len())
}

// Those left by the term.
fn left_by_term(term: &Term, room: usize) -> Option<usize>
    ensures { Leaves room (weight_of_term (term_of term.now)) result }
{
    match term {
        Term::NullNode | Term::NullList | Term::Int(_) | Term::Bool(_) => Some(room),
        Term::Str(text) => room.checked_sub(text.len()),
        Term::Prog(variable) => room.checked_sub(variable.name.len()),
        Term::Logic(variable) => left_by_variable(variable, room),
        Term::Add(a, b) | Term::Sub(a, b) | Term::Cat(a, b) => {
            left_by_term(b, left_by_term(a, room.checked_sub(1)?)?)
        }
    }
}

// Those left by both terms.
fn left_by_terms(a: &Term, b: &Term, room: usize) -> Option<usize>
    ensures { Leaves room (weight_of_term (term_of a.now) + weight_of_term (term_of b.now)) result }
{
    left_by_term(b, left_by_term(a, room)?)
}

// Those left by the formula.
fn left_by(formula: &Formula, room: usize) -> Option<usize>
    ensures { Leaves room (weight_of_formula (formula_of formula.now)) result }
{
    match formula {
        Formula::EmptyForest | Formula::EmptyGrove => Some(room),
        Formula::True | Formula::False | Formula::Hole(_) => room.checked_sub(1),
        Formula::And(p, q) | Formula::Or(p, q) | Formula::Imp(p, q) => {
            left_by(q, left_by(p, room.checked_sub(1)?)?)
        }
        Formula::Join(_, p, q) | Formula::App(_, p, q) | Formula::CtxAdj(_, p, q) => {
            left_by(q, left_by(p, room.checked_sub(1)?)?)
        }
        Formula::Plus(p, q) | Formula::PlusHole(p, q) | Formula::HoleAdj(p, q) => {
            left_by(q, left_by(p, room.checked_sub(1)?)?)
        }
        Formula::Not(p) | Formula::One(p) | Formula::Root(p) => left_by(p, room.checked_sub(1)?),
        Formula::Exists(x, p) | Formula::Forall(x, p) | Formula::Is(x, p) => {
            left_by(p, left_by_variable(x, room.checked_sub(1)?)?)
        }
        Formula::Eq(a, b) | Formula::Le(a, b) => left_by_terms(a, b, room.checked_sub(1)?),
        Formula::Node(name, number, p, list) => {
            let room = left_by_terms(name, number, room.checked_sub(1)?)?;
            left_by_term(list, left_by(p, room)?)
        }
        Formula::Var(x) => left_by_variable(x, room),
        Formula::Len(length) => left_by_term(length, room.checked_sub(1)?),
    }
}

/// The bytes left by both formulas, if the room suffices.
pub(crate) fn left_by_both(left: &Formula, right: &Formula, room: usize) -> Option<usize>
    ensures { Leaves room
        (weight_of_formula (formula_of left.now) + weight_of_formula (formula_of right.now))
        result }
{
    left_by(right, left_by(left, room)?)
}
