// Terms and conditions.
ghost use Rattle.std.specs.Prelude.{◌≡◌, ◌++◌};
ghost use Rattle.std.specs.List.{list_all, flat_map};
ghost use Rattle.model_commands.specs.CommandParts.{terms_of_cond, variables_of_term};
ghost use Rattle.model_grammar.specs.Sorts.{sorted_term, sorted_cond};
ghost use Rattle.dom_terms.specs.Terms.{term_of};
ghost use Rattle.dom_terms.specs.Conditions.{cond_of};
ghost use Rattle.declared_sorts.specs.Declarations.{declared_of, scope_in};
ghost use Rattle.declared_sorts.specs.Known.{Knows};
ghost use Rattle.declared_sorts.specs.Settled.{is_settled};

use crate::declared::Declared;
use crate::sorted::Sorted;
use dom_terms::{Cond, Term};

impl Sorted for Term {
    ghost use Rattle.model_terms.specs.Terms as model;

    ghost Seen = { model.Term };

    ghost seen = { term_of };

    ghost sorted = { sorted_term };

    ghost variables = { variables_of_term };

    fn set_sorts(&mut self, declared: &Declared) -> bool
        requires { Knows declared.now }
        ensures sorted { term_of self.new
            ≡ sorted_term (declared_of declared.now) (term_of self.old) }
        ensures settled { result ≡ list_all (is_settled (scope_in declared.now))
            (variables_of_term (term_of self.new)) }
    {
        match self {
            Term::NullNode | Term::NullList | Term::Int(_) | Term::Str(_) | Term::Bool(_) => true,
            Term::Prog(variable) => variable.set_sorts(declared),
            Term::Logic(variable) => variable.set_sorts(declared),
            Term::Add(left, right) => {
                let is_left_settled = left.set_sorts(declared);
                let is_right_settled = right.set_sorts(declared);
                is_left_settled & is_right_settled
            }
            Term::Sub(left, right) => {
                let is_left_settled = left.set_sorts(declared);
                let is_right_settled = right.set_sorts(declared);
                is_left_settled & is_right_settled
            }
            Term::Cat(left, right) => {
                let is_left_settled = left.set_sorts(declared);
                let is_right_settled = right.set_sorts(declared);
                is_left_settled & is_right_settled
            }
        }
    }
}

/// Gives each variable of two terms the sort of its declaration, and tells whether each of them is
/// declared, first with the sort that it then has.
pub fn set_terms(left: &mut Term, right: &mut Term, declared: &Declared) -> bool
    requires { Knows declared.now }
    ensures left { term_of left.new ≡ sorted_term (declared_of declared.now) (term_of left.old) }
    ensures right { term_of right.new
        ≡ sorted_term (declared_of declared.now) (term_of right.old) }
    ensures settled { result ≡ list_all (is_settled (scope_in declared.now))
        (variables_of_term (term_of left.new) ++ variables_of_term (term_of right.new)) }
{
    let is_left_settled = left.set_sorts(declared);
    let is_right_settled = right.set_sorts(declared);
    is_left_settled & is_right_settled
}

impl Sorted for Cond {
    ghost use Rattle.model_terms.specs.Conditions as model;

    ghost Seen = { model.Cond };

    ghost seen = { cond_of };

    ghost sorted = { sorted_cond };

    ghost variables = { λ c. flat_map variables_of_term (terms_of_cond c) };

    fn set_sorts(&mut self, declared: &Declared) -> bool
        requires { Knows declared.now }
        ensures sorted { cond_of self.new
            ≡ sorted_cond (declared_of declared.now) (cond_of self.old) }
        ensures settled { result ≡ list_all (is_settled (scope_in declared.now))
            (flat_map variables_of_term (terms_of_cond (cond_of self.new))) }
    {
        match self {
            Cond::True | Cond::False => true,
            Cond::Holds(variable) => variable.set_sorts(declared),
            Cond::Eq(left, right) => set_terms(left, right, declared),
            Cond::Le(left, right) => set_terms(left, right, declared),
            Cond::Not(inner) => inner.set_sorts(declared),
            Cond::And(left, right) => {
                let is_left_settled = left.set_sorts(declared);
                let is_right_settled = right.set_sorts(declared);
                is_left_settled & is_right_settled
            }
            Cond::Or(left, right) => {
                let is_left_settled = left.set_sorts(declared);
                let is_right_settled = right.set_sorts(declared);
                is_left_settled & is_right_settled
            }
        }
    }
}
