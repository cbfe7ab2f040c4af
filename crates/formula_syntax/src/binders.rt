// The binders passed on the way down a formula, and terms below them.
ghost use Rattle.std.specs.Prelude.{◌≡◌, ◌+◌, ◌<◌, ◌^◌, MatchOption, length};
ghost use Rattle.model_terms.specs.VariableTests.{same_var};
ghost use Rattle.model_terms.specs.Variables.{bound};
ghost use Rattle.model_terms.specs.Terms.{term_with};
ghost use Rattle.model_formulas.specs.Nameless.{names, naming};
ghost use Rattle.model_formulas.specs.SameFormulas as tests;
ghost use Rattle.dom_terms.specs.Sorts.{sort_of};
ghost use Rattle.dom_terms.specs.Terms.{logic_var_of, term_of};
ghost use Rattle.formula_syntax.specs.Binders.{bound_by};

use dom_terms::{LogicVar, Term, same_logic_var, same_prog_var, same_sort, same_text};

/// The binders passed on the way down a formula, the nearest first.
#[derive(Drop)]
pub enum Binders<'a> {
    /// None.
    Empty,
    /// The nearest one, and those outside it.
    More(&'a LogicVar, &'a Binders<'a>),
}

/// Whether the terms are the same, each below its binders.
#[tactic(auto, using(crate::proofs::BoundNames::prog_rules))]
pub fn same_term(left: &Term, right: &Term, over: &Binders, other: &Binders) -> bool
    requires left { length (bound_by over.now) < 2 ^ 32 }
    requires right { length (bound_by other.now) < 2 ^ 32 }
    ensures { result ≡ tests.same_term
        (term_with (naming (bound_by over.now)) (term_of left.now))
        (term_with (naming (bound_by other.now)) (term_of right.now)) }
{
    match (left, right) {
        (Term::NullNode, Term::NullNode) | (Term::NullList, Term::NullList) => true,
        (Term::Int(a), Term::Int(b)) => a == b,
        (Term::Str(a), Term::Str(b)) => same_text(a, b),
        (Term::Bool(a), Term::Bool(b)) => a == b,
        (Term::Prog(x), Term::Prog(y)) => same_prog_var(x, y),
        (Term::Logic(x), Term::Logic(y)) => same_variable(x, y, over, other),
        (Term::Add(a, b), Term::Add(c, d))
        | (Term::Sub(a, b), Term::Sub(c, d))
        | (Term::Cat(a, b), Term::Cat(c, d)) => {
            same_term(a, c, over, other) && same_term(b, d, over, other)
        }
        _ => false,
    }
}

/// Whether the variables are the same, each below its binders.
pub fn same_variable(left: &LogicVar, right: &LogicVar, over: &Binders, other: &Binders) -> bool
    requires left { length (bound_by over.now) < 2 ^ 32 }
    requires right { length (bound_by other.now) < 2 ^ 32 }
    ensures { result ≡ same_var
        (names (bound_by over.now) (logic_var_of left.now))
        (names (bound_by other.now) (logic_var_of right.now)) }
{
    match (place_of(left, over), place_of(right, other)) {
        (Some(place), Some(other_place)) => {
            place == other_place && same_sort(left.sort, right.sort)
        }
        (None, None) => same_logic_var(left, right),
        _ => false,
    }
}

// how many binders there are between the variable and its binder
#[tactic(auto, using(crate::proofs::BoundNames::place_rules))]
pub(crate) fn place_of(variable: &LogicVar, over: &Binders) -> Option<u32>
    requires { length (bound_by over.now) < 2 ^ 32 }
    ensures { MatchOption result
        (names (bound_by over.now) (logic_var_of variable.now) ≡ logic_var_of variable.now)
        (λ place. (names (bound_by over.now) (logic_var_of variable.now)
        ≡ bound place (sort_of variable.now.sort)) × (place < length (bound_by over.now))) }
{
    match over {
        Binders::Empty => None,
        Binders::More(nearest, outer) => {
            if same_logic_var(variable, nearest) {
                Some(0)
            } else {
                let place = place_of(variable, outer)?;
                Some(place + 1)
            }
        }
    }
}
