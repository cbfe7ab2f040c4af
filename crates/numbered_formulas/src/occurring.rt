// Whether a variable stands free in a formula, and whether the formula is pure.
ghost use Rattle.std.specs.Prelude.{◌≡◌};
ghost use Rattle.model_formulas.specs.Formulas as model;
ghost use Rattle.rule_table.specs.Letters.{as_logic};
ghost use Rattle.letter_bindings.specs.Shifts as shifts;
ghost use Rattle.formula_table.specs.Forms.{form_at, term_at};
ghost use Rattle.numbered_formulas.specs.Variables.{unbound_at, variable_at};

use crate::variables::{Unbound, Variable, same_variables};
use dom_terms::same_value_sort;
use formula_table::{Head, Table, TermRow};

/// Whether the formula is built from truth, connectives, quantifiers, comparisons and `is`.
pub fn is_pure(table: &Table, number: u32) -> bool
    ensures { result ≡ model.is_pure (form_at table.now number) }
{
    let row = table.form(number);
    match row.head {
        Head::True | Head::False | Head::Eq | Head::Le | Head::Is(_) => true,
        Head::Not | Head::Exists(_) | Head::Forall(_) => is_pure(table, row.left),
        Head::And | Head::Or | Head::Imp => is_pure(table, row.left) && is_pure(table, row.right),
        _ => false,
    }
}

/// Whether the variable of the logic stands free in the formula.
pub fn is_free(table: &Table, variable: Variable, number: u32) -> bool
    ensures { result ≡ shifts.is_free (as_logic (variable_at table.now variable))
        (form_at table.now number) }
{
    stands_free(table, Unbound::Logic(variable), number)
}

/// Whether the variable stands free in the formula.
#[tactic(auto, using(crate::proofs::KeptVariables::unbound_rules))]
pub fn stands_free(table: &Table, variable: Unbound, number: u32) -> bool
    ensures { result ≡ shifts.is_free (unbound_at table.now variable) (form_at table.now number) }
{
    let row = table.form(number);
    match row.head {
        Head::True | Head::False => false,
        Head::EmptyForest | Head::EmptyGrove | Head::Hole(_) => false,
        Head::Not | Head::One | Head::Root => stands_free(table, variable, row.left),
        Head::Exists(_) | Head::Forall(_) => stands_free(table, variable, row.left),
        Head::Eq | Head::Le => {
            is_in_term(table, variable, row.first) || is_in_term(table, variable, row.second)
        }
        Head::Node => {
            is_in_term(table, variable, row.first)
                || is_in_term(table, variable, row.second)
                || stands_free(table, variable, row.left)
                || is_in_term(table, variable, row.third)
        }
        Head::Var | Head::Len => is_in_term(table, variable, row.first),
        Head::Is(_) => {
            is_in_term(table, variable, row.first) || stands_free(table, variable, row.left)
        }
        _ => stands_free(table, variable, row.left) || stands_free(table, variable, row.right),
    }
}

/// Whether the variable stands in the term.
pub fn is_in_term(table: &Table, variable: Unbound, number: u32) -> bool
    ensures { result ≡ shifts.is_in_term (unbound_at table.now variable)
        (term_at table.now number) }
{
    match (variable, table.term(number)) {
        (_, TermRow::Add(a, b) | TermRow::Sub(a, b) | TermRow::Cat(a, b)) => {
            is_in_term(table, variable, a) || is_in_term(table, variable, b)
        }
        (Unbound::Logic(own), TermRow::Logic(name, sort)) => {
            same_variables(table, own, Variable { name, sort })
        }
        (Unbound::Prog(own, own_sort), TermRow::Prog(name, sort)) => {
            table.same_names(own, name) && same_value_sort(own_sort, sort)
        }
        _ => false,
    }
}
