// The walk over a formula that stands below no binder, form by form.
ghost use Rattle.std.specs.Prelude.{◌≡◌, cond, None};
ghost use Rattle.model_formulas.specs.SameFormulas as tests;
ghost use Rattle.letter_bindings.specs.Matching.{match_formula};
ghost use Rattle.formula_syntax.specs.Formulas.{side_of};
ghost use Rattle.row_patterns.specs.Views.{formula_in};
ghost use Rattle.formula_table.specs.Forms.{form_at};
ghost use Rattle.row_walks.specs.Views.{known_at, Walks};
ghost use Rattle.row_walks.specs.Forms.{is_logical, is_shaped};

use crate::below::walk_below;
use crate::flat::walk_flat;
use crate::known::Known;
use crate::letters::{walk_letter, walk_replaced};
use crate::sorts::{walk_data, walk_x_sort};
use crate::terms::walk_term;
use formula_syntax::Side;
use formula_table::{Head, Table};
use numbered_formulas::is_closed;
use row_patterns::{Pattern, TermPattern};

/// The walk over a formula that stands below no binder of the pattern.
#[cycle(walk)]
pub fn walk_formula(table: &Table, pattern: &Pattern, number: u32, known: &mut Known) -> bool
    ensures { Walks result (known_at table.now known.new)
        (match_formula (formula_in pattern.now) (form_at table.now number)
        (known_at table.now known.old)) }
{
    match pattern {
        Pattern::Letter(a) => walk_letter(table, *a, number, &mut *known),
        Pattern::Replaced(e, a) => walk_replaced(table, *e, *a, number, &mut *known),
        Pattern::Closed(c) => is_closed(table, *c, number),
        Pattern::And(_, _)
        | Pattern::Or(_, _)
        | Pattern::Imp(_, _)
        | Pattern::Not(_)
        | Pattern::Exists(_)
        | Pattern::Forall(_)
        | Pattern::Is(_) => walk_logical(table, pattern, number, &mut *known),
        Pattern::Node(_, _, _, _)
        | Pattern::One(_)
        | Pattern::Root(_)
        | Pattern::Join(_, _, _)
        | Pattern::Plus(_, _)
        | Pattern::PlusHole(_, _)
        | Pattern::App(_, _, _)
        | Pattern::HoleAdj(_, _)
        | Pattern::CtxAdj(_, _, _) => walk_shaped(table, pattern, number, &mut *known),
        Pattern::True
        | Pattern::False
        | Pattern::Eq(_, _)
        | Pattern::Le(_, _)
        | Pattern::EmptyForest
        | Pattern::EmptyGrove
        | Pattern::Hole(_)
        | Pattern::Var
        | Pattern::Len(_) => walk_flat(table, pattern, number, &mut *known),
    }
}

// the same of a connective, a quantifier or `is`
#[cycle(walk)]
fn walk_logical(table: &Table, pattern: &Pattern, number: u32, known: &mut Known) -> bool
    ensures { Walks result (known_at table.now known.new)
        (cond (is_logical pattern.now) (match_formula (formula_in pattern.now)
        (form_at table.now number) (known_at table.now known.old)) None) }
{
    let row = table.form(number);
    match (pattern, row.head) {
        (Pattern::And(p, q), Head::And)
        | (Pattern::Or(p, q), Head::Or)
        | (Pattern::Imp(p, q), Head::Imp) => {
            walk_formula(table, p, row.left, &mut *known)
                && walk_formula(table, q, row.right, &mut *known)
        }
        (Pattern::Not(p), Head::Not) => walk_formula(table, p, row.left, &mut *known),
        (Pattern::Exists(p), Head::Exists(s)) | (Pattern::Forall(p), Head::Forall(s)) => {
            walk_x_sort(s, &mut *known) && walk_below(table, p, row.left, &mut *known)
        }
        (Pattern::Is(p), Head::Is(s)) => {
            walk_x_sort(s, &mut *known)
                && walk_term(table, &TermPattern::X, row.first, &mut *known)
                && walk_formula(table, p, row.left, &mut *known)
        }
        _ => false,
    }
}

// the same of a formula of shapes or contexts with parts
#[cycle(walk)]
fn walk_shaped(table: &Table, pattern: &Pattern, number: u32, known: &mut Known) -> bool
    ensures { Walks result (known_at table.now known.new)
        (cond (is_shaped pattern.now) (match_formula (formula_in pattern.now)
        (form_at table.now number) (known_at table.now known.old)) None) }
{
    let row = table.form(number);
    match (pattern, row.head) {
        (Pattern::Node(a, b, p, c), Head::Node) => {
            walk_term(table, a, row.first, &mut *known)
                && walk_term(table, b, row.second, &mut *known)
                && walk_formula(table, p, row.left, &mut *known)
                && walk_term(table, c, row.third, &mut *known)
        }
        (Pattern::One(p), Head::One) | (Pattern::Root(p), Head::Root) => {
            walk_formula(table, p, row.left, &mut *known)
        }
        (Pattern::Join(side, p, q), Head::Join(other)) => {
            same_side(*side, other)
                && walk_formula(table, p, row.left, &mut *known)
                && walk_formula(table, q, row.right, &mut *known)
        }
        (Pattern::Plus(p, q), Head::Plus)
        | (Pattern::PlusHole(p, q), Head::PlusHole)
        | (Pattern::HoleAdj(p, q), Head::HoleAdj) => {
            walk_formula(table, p, row.left, &mut *known)
                && walk_formula(table, q, row.right, &mut *known)
        }
        (Pattern::App(h, p, q), Head::App(j)) | (Pattern::CtxAdj(h, p, q), Head::CtxAdj(j)) => {
            walk_data(*h, j, &mut *known)
                && walk_formula(table, p, row.left, &mut *known)
                && walk_formula(table, q, row.right, &mut *known)
        }
        _ => false,
    }
}

// whether the hole is at the same side
fn same_side(left: Side, right: Side) -> bool
    ensures { result ≡ tests.same_side (side_of left) (side_of right) }
{
    left == right
}
