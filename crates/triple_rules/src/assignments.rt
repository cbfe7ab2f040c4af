// The rule for assignments.
ghost use Rattle.std.specs.Prelude.{◌≡◌};
ghost use Rattle.model_files.specs.Sizes.{IsSmall};
ghost use Rattle.model_formulas.specs.Nameless.{nameless};
ghost use Rattle.model_formulas.specs.SameFormulas as formulas;
ghost use Rattle.model_formulas.specs.Substitution.{formula_with, replacing};
ghost use Rattle.dom_terms.specs.Terms.{term_of, var_of};
ghost use Rattle.formula_syntax.specs.Formulas.{formula_of};
ghost use Rattle.triple_rules.specs.Tests as test;
ghost use Rattle.row_patterns.specs.Verdicts.{verdict_in};
ghost use Rattle.triple_rules.specs.Tested.{tested};
ghost use Rattle.triple_rules.specs.Written.{IsReady};

use crate::same::is_nothing;
use crate::simple::{cites_nothing, staged};
use crate::written::Written;
use dom_terms::{ProgVar, Term, Verdict, evaluates};
use formula_syntax::{Formula, is_replacement};
use theory_syntax::Command;

// Whether the second formula is the first with the term for the variable.
#[tactic(auto, using(crate::proofs::Sameness::put_rules))]
fn is_put(from: &Formula, variable: &ProgVar, term: &Term, to: &Formula) -> bool
    requires from { IsSmall (formula_of from.now) }
    requires to { IsSmall (formula_of to.now) }
    ensures { result ≡ formulas.same_formula
        (formula_with (replacing (var_of variable.now) (term_of term.now))
        (nameless (formula_of from.now))) (nameless (formula_of to.now)) }
{
    is_replacement(from, variable, term, to)
}

/// The rule assign.
pub(crate) fn assign(written: &Written) -> Verdict
    requires { IsReady written.now }
    ensures { verdict_in result ≡ tested test.assign_test written.now }
{
    let triple = written.triple;
    let Command::Assign(variable, term) = &triple.command else {
        return Verdict::Shape;
    };
    let concludes = is_nothing(written.arguments)
        && evaluates(term, variable.sort)
        && is_put(&triple.post, variable, term, &triple.pre);
    staged(concludes, cites_nothing(written))
}
