// Variables of the logic, named by number.
ghost use Rattle.std.specs.Prelude.{◌≡◌};
ghost use Rattle.model_terms.specs.Variables.{bound};
ghost use Rattle.model_terms.specs.Terms as terms;
ghost use Rattle.model_formulas.specs.SameFormulas.{same_term};
ghost use Rattle.dom_terms.specs.Sorts.{sort_of};
ghost use Rattle.formula_table.specs.Forms.{term_at};
ghost use Rattle.model_terms.specs.VariableTests.{same_var};
ghost use Rattle.rule_table.specs.Letters.{as_logic};
ghost use Rattle.numbered_formulas.specs.Variables.{variable_at};

use dom_terms::{Sort, ValueSort, same_sort};
use formula_table::{Table, TermRow};

/// A variable of the logic: the number of its name, and its sort.
#[derive(Clone, Copy)]
pub struct Variable {
    /// The number of its name.
    pub name: u32,
    /// Its sort.
    pub sort: Sort,
}

/// A variable that no quantifier binds: of the logic, or of a program, whose name has the number.
#[derive(Clone, Copy)]
pub enum Unbound {
    /// One of the logic.
    Logic(Variable),
    /// One of a program, and its sort.
    Prog(u32, ValueSort),
}

/// Whether the two stand for one variable.
pub fn same_variables(table: &Table, left: Variable, right: Variable) -> bool
    ensures { result ≡ same_var (as_logic (variable_at table.now left))
        (as_logic (variable_at table.now right)) }
{
    table.same_names(left.name, right.name) && same_sort(left.sort, right.sort)
}

/// Whether the term is the bound variable.
pub fn is_bound(table: &Table, place: u64, sort: Sort, term: u32) -> bool
    ensures { result ≡ same_term (terms.variable (bound place (sort_of sort)))
        (term_at table.now term) }
{
    match table.term(term) {
        TermRow::Bound(own, own_sort) => u64::from(own) == place && same_sort(sort, own_sort),
        _ => false,
    }
}

// whether the term is the variable of the logic
pub(crate) fn is_logic(table: &Table, variable: Variable, term: u32) -> bool
    ensures { result ≡ same_term (terms.variable (as_logic (variable_at table.now variable)))
        (term_at table.now term) }
{
    match table.term(term) {
        TermRow::Logic(name, sort) => same_variables(table, variable, Variable { name, sort }),
        _ => false,
    }
}
