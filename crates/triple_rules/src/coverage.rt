// What putting a term for a variable can give: each occurrence of the variable stands in one of the
// term.
ghost use Rattle.std.specs.Prelude.{◌≡◌, ◌+◌, ◌<◌, ◌^◌, length};
ghost use Rattle.model_terms.specs.Terms.{term_with, variable as plain_variable};
ghost use Rattle.model_formulas.specs.Nameless.{names, naming, walked};
ghost use Rattle.model_formulas.specs.Parts.{parts};
ghost use Rattle.model_formulas.specs.SameFormulas.{same_term as same};
ghost use Rattle.dom_terms.specs.Terms.{logic_var_of, term_of};
ghost use Rattle.formula_syntax.specs.Binders.{bound_by};
ghost use Rattle.formula_syntax.specs.Formulas.{formula_of};
ghost use Rattle.triple_rules.specs.Covered as test;

use dom_terms::{LogicVar, Term};
use formula_syntax::{Binders, Formula, same_term, same_variable};

// Whether the variable of the name, which stands below these binders, is the other term, or isn't
// the variable.
#[tactic(auto, using(crate::proofs::Sameness::covering_rules))]
fn variable_covers(name: &LogicVar, over: &Binders, variable: &LogicVar, other: &Term) -> bool
    requires { length (bound_by over.now) < 2 ^ 32 }
    ensures { result ≡ test.term_covers (logic_var_of variable.now) (term_of other.now)
        (plain_variable (names (bound_by over.now) (logic_var_of name.now))) }
{
    let is_other = match other {
        Term::Logic(other) => same_variable(name, other, over, &Binders::Empty),
        _ => false,
    };
    is_other || !same_variable(name, variable, over, &Binders::Empty)
}

// Whether the term, which stands below these binders, is the other one.
#[tactic(auto, using(crate::proofs::Sameness::plain_rules))]
fn is_other(term: &Term, over: &Binders, other: &Term) -> bool
    requires { length (bound_by over.now) < 2 ^ 32 }
    ensures { result ≡ same (term_with (naming (bound_by over.now)) (term_of term.now))
        (term_of other.now) }
{
    same_term(term, other, over, &Binders::Empty)
}

// Whether each occurrence of the variable in the term, which stands below these binders, stands in
// one of the other term.
#[tactic(auto, using(crate::proofs::Sameness::covering_rules))]
fn term_covers(term: &Term, over: &Binders, variable: &LogicVar, other: &Term) -> bool
    requires { length (bound_by over.now) < 2 ^ 32 }
    ensures { result ≡ test.term_covers (logic_var_of variable.now) (term_of other.now)
        (term_with (naming (bound_by over.now)) (term_of term.now)) }
{
    match term {
        Term::Logic(name) => variable_covers(name, over, variable, other),
        Term::Add(a, b) | Term::Sub(a, b) | Term::Cat(a, b) => {
            is_other(term, over, other)
                || (term_covers(a, over, variable, other) && term_covers(b, over, variable, other))
        }
        _ => true,
    }
}

/// Whether each occurrence of the variable in the formula, which stands below these binders, stands
/// in one of the other term.
pub(crate) fn covers(formula: &Formula, over: &Binders, variable: &LogicVar, other: &Term) -> bool
    requires { length (bound_by over.now) + parts (formula_of formula.now) < 2 ^ 32 }
    ensures { result ≡ test.covers (logic_var_of variable.now) (term_of other.now)
        (walked (bound_by over.now) (formula_of formula.now)) }
{
    match formula {
        Formula::True | Formula::False => true,
        Formula::EmptyForest | Formula::EmptyGrove | Formula::Hole(_) => true,
        Formula::And(p, q) | Formula::Or(p, q) | Formula::Imp(p, q) => {
            covers(p, over, variable, other) && covers(q, over, variable, other)
        }
        Formula::Join(_, p, q) | Formula::App(_, p, q) | Formula::CtxAdj(_, p, q) => {
            covers(p, over, variable, other) && covers(q, over, variable, other)
        }
        Formula::Plus(p, q) | Formula::PlusHole(p, q) | Formula::HoleAdj(p, q) => {
            covers(p, over, variable, other) && covers(q, over, variable, other)
        }
        Formula::Not(p) | Formula::One(p) | Formula::Root(p) => covers(p, over, variable, other),
        Formula::Exists(x, p) | Formula::Forall(x, p) => {
            let passed = Binders::More(x, &*over);
            covers(p, &passed, variable, other)
        }
        Formula::Eq(a, b) | Formula::Le(a, b) => {
            term_covers(a, over, variable, other) && term_covers(b, over, variable, other)
        }
        Formula::Node(name, number, p, list) => {
            term_covers(name, over, variable, other)
                && term_covers(number, over, variable, other)
                && covers(p, over, variable, other)
                && term_covers(list, over, variable, other)
        }
        Formula::Var(x) => variable_covers(x, over, variable, other),
        Formula::Len(length) => term_covers(length, over, variable, other),
        Formula::Is(x, p) => {
            variable_covers(x, over, variable, other) && covers(p, over, variable, other)
        }
    }
}
