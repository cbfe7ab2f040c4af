// Tests of variables, and walks that ask one of each variable of a term, a formula or a list.
ghost use Rattle.std.specs.Prelude.{◌≡◌, Bool, map};
ghost use Rattle.std.specs.List.{list_all, flat_map};
ghost use Rattle.model_terms.specs.Variables.{Var};
ghost use Rattle.model_terms.specs.Stores.{as_var};
ghost use Rattle.model_commands.specs.CommandParts.{terms_of_cond, variables_of, variables_of_term};
ghost use Rattle.dom_terms.specs.Terms.{logic_var_of, prog_var_of, term_of, var_of};
ghost use Rattle.dom_terms.specs.Conditions.{cond_of};
ghost use Rattle.formula_syntax.specs.Formulas.{formula_of};

use dom_terms::{Cond, LogicVar, ProgVar, Term};
use formula_syntax::Formula;

/// A test of variables.
pub(crate) trait VariableTest {
    // the test may be asked
    ghost ready: { Self → Type 0 };

    // the variable passes
    ghost test: { Self → Var → Bool };

    /// Whether the program variable passes.
    fn takes_prog(&self, variable: &ProgVar) -> bool
        requires { ready self.now }
        ensures { result ≡ test self.now (var_of variable.now) };

    /// Whether the logic variable passes.
    fn takes_logic(&self, variable: &LogicVar) -> bool
        requires { ready self.now }
        ensures { result ≡ test self.now (logic_var_of variable.now) };
}

/// Whether each of the variables passes.
pub(crate) fn all_variables<T: VariableTest>(test: &T, variables: &[ProgVar]) -> bool
    requires { T.ready test.now }
    ensures { result ≡ list_all (T.test test.now) (map as_var (map prog_var_of variables.now)) }
{
    for variable in variables {
        if !test.takes_prog(variable) {
            return false;
        }
    }
    true
}

/// Whether each variable of the term passes.
pub(crate) fn all_in_term<T: VariableTest>(test: &T, term: &Term) -> bool
    requires { T.ready test.now }
    ensures { result ≡ list_all (T.test test.now) (variables_of_term (term_of term.now)) }
{
    match term {
        Term::NullNode | Term::NullList | Term::Int(_) | Term::Str(_) | Term::Bool(_) => true,
        Term::Prog(variable) => test.takes_prog(variable),
        Term::Logic(variable) => test.takes_logic(variable),
        Term::Add(left, right) | Term::Sub(left, right) | Term::Cat(left, right) => {
            all_in_term(test, left) && all_in_term(test, right)
        }
    }
}

/// Whether each variable of the terms passes.
pub(crate) fn all_in_terms<T: VariableTest>(test: &T, terms: &[Term]) -> bool
    requires { T.ready test.now }
    ensures { result ≡ list_all (T.test test.now)
        (flat_map variables_of_term (map term_of terms.now)) }
{
    for term in terms {
        if !all_in_term(test, term) {
            return false;
        }
    }
    true
}

/// Whether each variable of the condition passes.
pub(crate) fn all_in_cond<T: VariableTest>(test: &T, cond: &Cond) -> bool
    requires { T.ready test.now }
    ensures { result ≡ list_all (T.test test.now)
        (flat_map variables_of_term (terms_of_cond (cond_of cond.now))) }
{
    match cond {
        Cond::True | Cond::False => true,
        Cond::Holds(variable) => test.takes_prog(variable),
        Cond::Eq(left, right) | Cond::Le(left, right) => {
            all_in_term(test, left) && all_in_term(test, right)
        }
        Cond::Not(inner) => all_in_cond(test, inner),
        Cond::And(left, right) | Cond::Or(left, right) => {
            all_in_cond(test, left) && all_in_cond(test, right)
        }
    }
}

/// Whether each variable of the formula passes, those of its quantifiers included.
pub(crate) fn all_in_formula<T: VariableTest>(test: &T, formula: &Formula) -> bool
    requires { T.ready test.now }
    ensures { result ≡ list_all (T.test test.now) (variables_of (formula_of formula.now)) }
{
    match formula {
        Formula::True | Formula::False | Formula::Hole(_) => true,
        Formula::EmptyForest | Formula::EmptyGrove => true,
        Formula::And(p, q) | Formula::Or(p, q) | Formula::Imp(p, q) | Formula::Plus(p, q) => {
            all_in_formula(test, p) && all_in_formula(test, q)
        }
        Formula::Join(_, p, q) | Formula::App(_, p, q) | Formula::CtxAdj(_, p, q) => {
            all_in_formula(test, p) && all_in_formula(test, q)
        }
        Formula::PlusHole(p, q) | Formula::HoleAdj(p, q) => {
            all_in_formula(test, p) && all_in_formula(test, q)
        }
        Formula::Not(p) | Formula::One(p) | Formula::Root(p) => all_in_formula(test, p),
        Formula::Exists(variable, p) | Formula::Forall(variable, p) | Formula::Is(variable, p) => {
            test.takes_logic(variable) && all_in_formula(test, p)
        }
        Formula::Eq(left, right) | Formula::Le(left, right) => {
            all_in_term(test, left) && all_in_term(test, right)
        }
        Formula::Node(name, number, p, list) => {
            all_in_term(test, name)
                && all_in_term(test, number)
                && all_in_formula(test, p)
                && all_in_term(test, list)
        }
        Formula::Var(variable) => test.takes_logic(variable),
        Formula::Len(length) => all_in_term(test, length),
    }
}
