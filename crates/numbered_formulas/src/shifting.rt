// Whether one formula is another shifted: closed over a variable, raised, or opened.
ghost use Rattle.std.specs.Prelude.{IfSome, IsNone, ◌≡◌, ◌+◌, ◌<◌, ◌^◌};
ghost use Rattle.model_terms.specs.Variables.{bound};
ghost use Rattle.model_terms.specs.Terms.{raised, term_with};
ghost use Rattle.model_formulas.specs.Substitution.{formula_with};
ghost use Rattle.model_formulas.specs.SameFormulas.{same_formula, same_term};
ghost use Rattle.rule_table.specs.Letters.{as_logic};
ghost use Rattle.letter_bindings.specs.Shifts.{shifted, shifting, under};
ghost use Rattle.dom_terms.specs.Sorts.{sort_of};
ghost use Rattle.formula_table.specs.Heads.{build};
ghost use Rattle.formula_table.specs.Rows.{bound_sort};
ghost use Rattle.formula_table.specs.Forms.{form_at, term_at};
ghost use Rattle.numbered_formulas.specs.Variables.{variable_at};
ghost use Rattle.numbered_formulas.specs.Shifts.{shift_at, raised_by, IsApart};

use crate::variables::{Variable, is_bound, is_logic, same_variables};
use dom_terms::Sort;
use formula_table::{FormRow, Head, Table, TermRow};

/// What becomes of the variables of a formula.
#[derive(Clone, Copy)]
pub enum Shift {
    /// A binder of the variable comes round it.
    Close(Variable),
    /// A binder of a variable that isn't in it comes round it.
    Raise,
    /// The nearest binder goes, and the term of the number takes the place of what it bound.
    Open(u32),
}

/// Whether the second formula is the first one shifted.
pub fn is_shifted(table: &Table, shift: Shift, from: u32, to: u32) -> bool
    ensures { result ≡ same_formula (shifted (shift_at table.now shift) (form_at table.now from))
        (form_at table.now to) }
{
    is_shifted_below(table, shift, 0, from, to)
}

// whether the second formula is the first one shifted, both below so many more binders
#[tactic(auto, using(crate::proofs::OneHead::same_rules))]
fn is_shifted_below(table: &Table, shift: Shift, depth: u32, from: u32, to: u32) -> bool
    requires { depth + from < 2 ^ 32 }
    ensures { result ≡ same_formula
        (formula_with (under depth (shifting (shift_at table.now shift))) (form_at table.now from))
        (form_at table.now to) }
{
    let row = table.form(from);
    let Some(other) = row_of(table, row.head, to) else {
        return false;
    };
    match row.head {
        Head::True | Head::False | Head::EmptyForest | Head::EmptyGrove | Head::Hole(_) => true,
        Head::Not | Head::One | Head::Root => {
            is_shifted_below(table, shift, depth, row.left, other.left)
        }
        Head::Exists(_) | Head::Forall(_) => {
            is_shifted_below(table, shift, depth + 1, row.left, other.left)
        }
        Head::Eq | Head::Le => {
            is_term_shifted(table, shift, depth, row.first, other.first)
                && is_term_shifted(table, shift, depth, row.second, other.second)
        }
        Head::Node => {
            is_term_shifted(table, shift, depth, row.first, other.first)
                && is_term_shifted(table, shift, depth, row.second, other.second)
                && is_shifted_below(table, shift, depth, row.left, other.left)
                && is_term_shifted(table, shift, depth, row.third, other.third)
        }
        Head::Var | Head::Len => is_term_shifted(table, shift, depth, row.first, other.first),
        Head::Is(_) => {
            is_term_shifted(table, shift, depth, row.first, other.first)
                && is_shifted_below(table, shift, depth, row.left, other.left)
        }
        _ => {
            is_shifted_below(table, shift, depth, row.left, other.left)
                && is_shifted_below(table, shift, depth, row.right, other.right)
        }
    }
}

// the row of the formula, where it has the form
fn row_of(table: &Table, head: Head, number: u32) -> Option<FormRow>
    ensures some { IfSome result (λ row. form_at table.now number ≡ build bound_sort head
        (term_at table.now row.first) (term_at table.now row.second) (term_at table.now row.third)
        (form_at table.now row.left) (form_at table.now row.right)) }
    ensures none { IsNone result → IsApart head (form_at table.now number) }
{
    let row = table.form(number);
    if row.head == head { Some(row) } else { None }
}

// the same of terms
#[tactic(auto, using(crate::proofs::Under::prog_stays))]
fn is_term_shifted(table: &Table, shift: Shift, depth: u32, from: u32, to: u32) -> bool
    ensures { result ≡ same_term
        (term_with (under depth (shifting (shift_at table.now shift))) (term_at table.now from))
        (term_at table.now to) }
{
    match (table.term(from), table.term(to)) {
        (TermRow::Add(a, b), TermRow::Add(c, d))
        | (TermRow::Sub(a, b), TermRow::Sub(c, d))
        | (TermRow::Cat(a, b), TermRow::Cat(c, d)) => {
            is_term_shifted(table, shift, depth, a, c) && is_term_shifted(table, shift, depth, b, d)
        }
        (TermRow::Logic(name, sort), _) => {
            is_free_shifted(table, shift, depth, Variable { name, sort }, to)
        }
        (TermRow::Bound(place, sort), _) => {
            is_bound_shifted(table, shift, depth, place, sort, to)
        }
        _ => table.same_terms(from, to),
    }
}

// whether the term is the variable of the logic shifted
fn is_free_shifted(table: &Table, shift: Shift, depth: u32, variable: Variable, to: u32) -> bool
    ensures { result ≡ same_term
        (under depth (shifting (shift_at table.now shift))
        (as_logic (variable_at table.now variable)))
        (term_at table.now to) }
{
    match shift {
        Shift::Close(closed) if same_variables(table, variable, closed) => {
            is_bound(table, u64::from(depth), closed.sort, to)
        }
        _ => is_logic(table, variable, to),
    }
}

// whether the term is the bound variable shifted
fn is_bound_shifted(
    table: &Table,
    shift: Shift,
    depth: u32,
    place: u32,
    sort: Sort,
    to: u32,
) -> bool
    ensures { result ≡ same_term
        (under depth (shifting (shift_at table.now shift)) (bound place (sort_of sort)))
        (term_at table.now to) }
{
    match shift {
        _ if place < depth => is_bound(table, u64::from(place), sort, to),
        Shift::Open(term) if place == depth => is_raised(table, depth, term, to),
        Shift::Open(_) => is_bound(table, u64::from(place) - 1, sort, to),
        Shift::Close(_) | Shift::Raise => is_bound(table, u64::from(place) + 1, sort, to),
    }
}

/// Whether the second term is the first one below one binder more.
pub fn is_term_raised(table: &Table, from: u32, to: u32) -> bool
    ensures { result ≡ same_term (raised (term_at table.now from)) (term_at table.now to) }
{
    is_raised(table, 1, from, to)
}

// whether the second term is the first one below so many more binders
#[tactic(auto, using(crate::proofs::Under::raised_rules))]
fn is_raised(table: &Table, depth: u32, from: u32, to: u32) -> bool
    ensures { result ≡ same_term (raised_by depth (term_at table.now from)) (term_at table.now to) }
{
    match (table.term(from), table.term(to)) {
        (TermRow::Add(a, b), TermRow::Add(c, d))
        | (TermRow::Sub(a, b), TermRow::Sub(c, d))
        | (TermRow::Cat(a, b), TermRow::Cat(c, d)) => {
            is_raised(table, depth, a, c) && is_raised(table, depth, b, d)
        }
        (TermRow::Bound(place, sort), _) => {
            is_bound(table, u64::from(place) + u64::from(depth), sort, to)
        }
        _ => table.same_terms(from, to),
    }
}
