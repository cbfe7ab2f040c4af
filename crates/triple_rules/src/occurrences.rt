// The program variables that stand in terms and formulas.
ghost use Rattle.std.specs.Prelude.{◌≡◌, map};
ghost use Rattle.model_commands.specs.SortTests.{is_among};
ghost use Rattle.dom_terms.specs.Terms.{prog_var_of, term_of};
ghost use Rattle.formula_syntax.specs.Formulas.{formula_of};
ghost use Rattle.triple_rules.specs.Occurring as test;

use dom_terms::{ProgVar, Term, same_prog_var};
use formula_syntax::Formula;

// Whether the variable is one of these.
fn is_one(variables: &[ProgVar], variable: &ProgVar) -> bool
    ensures { result ≡ is_among (map prog_var_of variables.now) (prog_var_of variable.now) }
{
    for other in variables {
        if same_prog_var(variable, other) {
            return true;
        }
    }
    false
}

/// Whether one of the variables stands in the term.
pub(crate) fn term_mentions(variables: &[ProgVar], term: &Term) -> bool
    ensures { result ≡ test.term_mentions (map prog_var_of variables.now) (term_of term.now) }
{
    match term {
        Term::Prog(variable) => is_one(variables, variable),
        Term::Add(left, right) | Term::Sub(left, right) | Term::Cat(left, right) => {
            term_mentions(variables, left) || term_mentions(variables, right)
        }
        _ => false,
    }
}

/// Whether one of the variables stands in the formula.
pub(crate) fn mentions(variables: &[ProgVar], formula: &Formula) -> bool
    ensures { result ≡ test.mentions (map prog_var_of variables.now) (formula_of formula.now) }
{
    match formula {
        Formula::True | Formula::False => false,
        Formula::EmptyForest | Formula::EmptyGrove | Formula::Hole(_) => false,
        Formula::And(p, q) | Formula::Or(p, q) | Formula::Imp(p, q) => {
            mentions(variables, p) || mentions(variables, q)
        }
        Formula::Join(_, p, q) | Formula::App(_, p, q) | Formula::CtxAdj(_, p, q) => {
            mentions(variables, p) || mentions(variables, q)
        }
        Formula::Plus(p, q) | Formula::PlusHole(p, q) | Formula::HoleAdj(p, q) => {
            mentions(variables, p) || mentions(variables, q)
        }
        Formula::Not(p) | Formula::One(p) | Formula::Root(p) => mentions(variables, p),
        Formula::Exists(_, p) | Formula::Forall(_, p) | Formula::Is(_, p) => {
            mentions(variables, p)
        }
        Formula::Eq(a, b) | Formula::Le(a, b) => {
            term_mentions(variables, a) || term_mentions(variables, b)
        }
        Formula::Node(name, number, p, list) => {
            term_mentions(variables, name)
                || term_mentions(variables, number)
                || mentions(variables, p)
                || term_mentions(variables, list)
        }
        Formula::Var(_) => false,
        Formula::Len(length) => term_mentions(variables, length),
    }
}
