// Whether two formulas are alike to the last name.
ghost use Rattle.std.specs.Prelude.{◌≡◌, true};
ghost use Rattle.dom_terms.specs.Terms.{logic_var_of, term_of};
ghost use Rattle.formula_syntax.specs.Formulas.{formula_of};

use crate::formulas::Formula;
use dom_terms::{LogicVar, Term, same_data_sort, same_logic_var, same_prog_var, same_text};

// whether the variables are alike
fn is_identical_variable(left: &LogicVar, right: &LogicVar) -> bool
    ensures { result ≡ true → logic_var_of left.now ≡ logic_var_of right.now }
{
    same_logic_var(left, right)
}

// whether the terms are alike
#[cycle(identical_term)]
fn is_identical_term(left: &Term, right: &Term) -> bool
    ensures { result ≡ true → term_of left.now ≡ term_of right.now }
{
    match (left, right) {
        (Term::NullNode, Term::NullNode) | (Term::NullList, Term::NullList) => true,
        (Term::Int(a), Term::Int(b)) => a == b,
        (Term::Str(a), Term::Str(b)) => same_text(a, b),
        (Term::Bool(a), Term::Bool(b)) => a == b,
        (Term::Prog(x), Term::Prog(y)) => same_prog_var(x, y),
        (Term::Logic(x), Term::Logic(y)) => is_identical_variable(x, y),
        (Term::Add(a, b), Term::Add(c, d))
        | (Term::Sub(a, b), Term::Sub(c, d))
        | (Term::Cat(a, b), Term::Cat(c, d)) => is_identical_term(a, c) && is_identical_term(b, d),
        _ => false,
    }
}

/// Whether the formulas are alike to the last name.
#[cycle(identical_formula)]
pub(crate) fn is_identical(left: &Formula, right: &Formula) -> bool
    ensures { result ≡ true → formula_of left.now ≡ formula_of right.now }
{
    match (left, right) {
        (Formula::True, Formula::True) | (Formula::False, Formula::False) => true,
        (Formula::EmptyForest, Formula::EmptyForest) | (Formula::EmptyGrove, Formula::EmptyGrove) =>
            true,
        (Formula::Hole(h), Formula::Hole(k)) => same_data_sort(*h, *k),
        (Formula::And(p, q), Formula::And(r, s))
        | (Formula::Or(p, q), Formula::Or(r, s))
        | (Formula::Imp(p, q), Formula::Imp(r, s))
        | (Formula::Plus(p, q), Formula::Plus(r, s))
        | (Formula::PlusHole(p, q), Formula::PlusHole(r, s))
        | (Formula::HoleAdj(p, q), Formula::HoleAdj(r, s)) => {
            is_identical(p, r) && is_identical(q, s)
        }
        (Formula::Not(p), Formula::Not(q))
        | (Formula::One(p), Formula::One(q))
        | (Formula::Root(p), Formula::Root(q)) => is_identical(p, q),
        (Formula::Exists(x, p), Formula::Exists(y, q))
        | (Formula::Forall(x, p), Formula::Forall(y, q))
        | (Formula::Is(x, p), Formula::Is(y, q)) => {
            is_identical_variable(x, y) && is_identical(p, q)
        }
        (Formula::Eq(a, b), Formula::Eq(c, d)) | (Formula::Le(a, b), Formula::Le(c, d)) => {
            is_identical_term(a, c) && is_identical_term(b, d)
        }
        (Formula::Node(a, b, p, c), Formula::Node(d, e, q, f)) => {
            is_identical_term(a, d)
                && is_identical_term(b, e)
                && is_identical(p, q)
                && is_identical_term(c, f)
        }
        (Formula::Join(d, p, q), Formula::Join(e, r, s)) => {
            *d == *e && is_identical(p, r) && is_identical(q, s)
        }
        (Formula::App(h, p, q), Formula::App(k, r, s))
        | (Formula::CtxAdj(h, p, q), Formula::CtxAdj(k, r, s)) => {
            same_data_sort(*h, *k) && is_identical(p, r) && is_identical(q, s)
        }
        (Formula::Var(x), Formula::Var(y)) => is_identical_variable(x, y),
        (Formula::Len(a), Formula::Len(b)) => is_identical_term(a, b),
        _ => false,
    }
}
