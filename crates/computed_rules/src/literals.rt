// The rule that two different literals are not equal.
ghost use Rattle.std.specs.Prelude.{◌≡◌, codes, map};
ghost use Rattle.rule_table.specs.Entailments.{different_literals};
ghost use Rattle.rule_table.specs.Table.{entailments};
ghost use Rattle.rule_table.specs.Verdicts.{IsVerdict, readings_in};
ghost use Rattle.dom_terms.specs.Terms.{term_of};
ghost use Rattle.computed_rules.specs.Equations as tests;
ghost use Rattle.computed_rules.specs.Steps.{judged, step};
ghost use Rattle.row_patterns.specs.Verdicts.{verdict_in};

use dom_terms::{SideName, Term, Verdict, same_text};
use formula_syntax::{Entailment, Formula};

/// The verdict on a step by `distinct` that cites no step. No memory is taken.
pub fn distinct(arguments: &[Term], conclusion: &Entailment) -> Verdict
    ensures { IsVerdict (readings_in entailments (codes "distinct"))
        (step (map term_of arguments.now) conclusion.now) (verdict_in result) }
{
    by_distinct(arguments, conclusion)
}

// the same, as it is computed
fn by_distinct(arguments: &[Term], conclusion: &Entailment) -> Verdict
    ensures { verdict_in result
        ≡ tests.distinct_verdict (map term_of arguments.now) (judged conclusion.now) }
{
    match (arguments, &conclusion.left, &conclusion.right) {
        ([], Formula::Eq(left, right), Formula::False) => {
            if are_different_literals(left, right) {
                Verdict::Instance
            } else {
                Verdict::Side(SideName::Literal)
            }
        }
        _ => Verdict::Shape,
    }
}

// whether the terms are two literals that are not the same
fn are_different_literals(left: &Term, right: &Term) -> bool
    ensures { result ≡ different_literals (term_of left.now) (term_of right.now) }
{
    match (left, right) {
        (Term::NullNode, Term::NullNode) | (Term::NullList, Term::NullList) => false,
        (Term::Int(a), Term::Int(b)) => a != b,
        (Term::Str(a), Term::Str(b)) => !same_text(a, b),
        (Term::Bool(a), Term::Bool(b)) => a != b,
        _ => is_literal(left) && is_literal(right),
    }
}

// whether the term is a literal
fn is_literal(term: &Term) -> bool
    ensures { result ≡ tests.is_literal (term_of term.now) }
{
    match term {
        Term::Prog(_) | Term::Logic(_) => false,
        Term::Add(_, _) | Term::Sub(_, _) | Term::Cat(_, _) => false,
        _ => true,
    }
}
