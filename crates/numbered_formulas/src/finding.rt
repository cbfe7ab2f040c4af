// The variable that a binder bound, found by what stands below the binder.
ghost use Rattle.std.specs.Prelude.{◌≡◌, option_map};
ghost use Rattle.std.specs.Option.{option_or};
ghost use Rattle.letter_bindings.specs.Settled as settled;
ghost use Rattle.formula_table.specs.Forms.{form_at, term_at};
ghost use Rattle.numbered_formulas.specs.Variables.{variable_at};

use crate::variables::Variable;
use formula_table::{FormRow, Head, Table, TermRow};

/// The variable at the first place where the one formula has a variable of the logic and the other
/// a bound one, as far as they have the same forms.
#[tactic(auto, using(crate::proofs::FirstFound::first_rules))]
pub fn bound_in(table: &Table, from: u32, to: u32) -> Option<Variable>
    ensures { option_map (variable_at table.now) result
        ≡ settled.bound_in (form_at table.now from) (form_at table.now to) }
{
    let row = table.form(from);
    let other = table.form(to);
    match (row.head, other.head) {
        (Head::And, Head::And)
        | (Head::Or, Head::Or)
        | (Head::Imp, Head::Imp)
        | (Head::Join(_), Head::Join(_))
        | (Head::Plus, Head::Plus)
        | (Head::PlusHole, Head::PlusHole)
        | (Head::App(_), Head::App(_))
        | (Head::HoleAdj, Head::HoleAdj)
        | (Head::CtxAdj(_), Head::CtxAdj(_)) => match bound_in(table, row.left, other.left) {
            Some(found) => Some(found),
            None => bound_in(table, row.right, other.right),
        },
        (Head::Not, Head::Not)
        | (Head::One, Head::One)
        | (Head::Root, Head::Root)
        | (Head::Exists(_), Head::Exists(_))
        | (Head::Forall(_), Head::Forall(_)) => bound_in(table, row.left, other.left),
        (Head::Eq, Head::Eq) | (Head::Le, Head::Le) => bound_in_terms(table, row, other),
        (Head::Node, Head::Node) => {
            let below = bound_in(table, row.left, other.left);
            let list = bound_in_term(table, row.third, other.third);
            bound_in_terms(table, row, other).or(below.or(list))
        }
        (Head::Var, Head::Var) | (Head::Len, Head::Len) => {
            bound_in_term(table, row.first, other.first)
        }
        (Head::Is(_), Head::Is(_)) => bound_in_term(table, row.first, other.first).or(bound_in(
            table, row.left, other.left,
        )),
        _ => None,
    }
}

// the same of the first two terms
fn bound_in_terms(table: &Table, row: FormRow, other: FormRow) -> Option<Variable>
    ensures { option_map (variable_at table.now) result ≡ option_or
        (settled.bound_in_term (term_at table.now row.first) (term_at table.now other.first))
        (settled.bound_in_term (term_at table.now row.second) (term_at table.now other.second)) }
{
    match bound_in_term(table, row.first, other.first) {
        Some(found) => Some(found),
        None => bound_in_term(table, row.second, other.second),
    }
}

// the same of a term
fn bound_in_term(table: &Table, from: u32, to: u32) -> Option<Variable>
    ensures { option_map (variable_at table.now) result
        ≡ settled.bound_in_term (term_at table.now from) (term_at table.now to) }
{
    match (table.term(from), table.term(to)) {
        (TermRow::Logic(name, sort), TermRow::Bound(_, _)) => Some(Variable { name, sort }),
        (TermRow::Add(a, b), TermRow::Add(c, d))
        | (TermRow::Sub(a, b), TermRow::Sub(c, d))
        | (TermRow::Cat(a, b), TermRow::Cat(c, d)) => match bound_in_term(table, a, c) {
            Some(found) => Some(found),
            None => bound_in_term(table, b, d),
        },
        _ => None,
    }
}
