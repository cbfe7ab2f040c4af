// The rule that one of two equal terms may take the place of the other.
ghost use Rattle.std.specs.Prelude.{◌≡◌, ◌+◌, ◌<◌, ◌^◌, ◌&&◌, codes, length, map};
ghost use Rattle.model_terms.specs.Terms.{term_with};
ghost use Rattle.model_formulas.specs.Nameless.{nameless, naming, walked};
ghost use Rattle.model_formulas.specs.Parts.{parts};
ghost use Rattle.model_formulas.specs.SameFormulas as sides;
ghost use Rattle.rule_table.specs.Table.{entailments};
ghost use Rattle.rule_table.specs.Verdicts.{IsVerdict, readings_in};
ghost use Rattle.rule_table.proofs.Replaced.{replaced, replaced_term, same_or};
ghost use Rattle.dom_terms.specs.Terms.{term_of};
ghost use Rattle.formula_syntax.specs.Binders.{bound_by};
ghost use Rattle.formula_syntax.specs.Formulas.{formula_of, side_of};
ghost use Rattle.formula_syntax.specs.Structural.{is_structural};
ghost use Rattle.computed_rules.specs.Changes.{plainly};
ghost use Rattle.computed_rules.specs.Equations as tests;
ghost use Rattle.computed_rules.specs.Steps.{judged, step};
ghost use Rattle.row_patterns.specs.Verdicts.{verdict_in};

use dom_terms::{Term, Verdict, same_data_sort, same_sort};
use formula_syntax::{Binders, Entailment, Formula, Side, same_term, same_variable};

// a term, and the one that may take its place
#[derive(Clone, Copy)]
struct Change<'a> {
    from: &'a Term,
    to: &'a Term,
}

/// The verdict on a step by `eq_subst` that cites no step. No memory is taken.
pub fn eq_subst(arguments: &[Term], conclusion: &Entailment) -> Verdict
    requires left { parts (formula_of conclusion.now.left) < 4294967295 }
    requires right { parts (formula_of conclusion.now.right) < 4294967295 }
    ensures { IsVerdict (readings_in entailments (codes "eq_subst"))
        (step (map term_of arguments.now) conclusion.now) (verdict_in result) }
{
    by_subst(arguments, conclusion)
}

// the same, as it is computed
fn by_subst(arguments: &[Term], conclusion: &Entailment) -> Verdict
    requires left { parts (formula_of conclusion.now.left) < 4294967295 }
    requires right { parts (formula_of conclusion.now.right) < 4294967295 }
    ensures { verdict_in result
        ≡ tests.subst_verdict (map term_of arguments.now) (judged conclusion.now) }
{
    match (arguments, &conclusion.left) {
        ([], Formula::And(equation, from)) => by_equation(equation, from, &conclusion.right),
        _ => Verdict::Shape,
    }
}

// the verdict where the first part of what is given is to be the equation
fn by_equation(equation: &Formula, from: &Formula, to: &Formula) -> Verdict
    requires from { parts (formula_of from.now) < 4294967295 }
    requires to { parts (formula_of to.now) < 4294967295 }
    ensures { verdict_in result ≡ tests.by_equation (nameless (formula_of equation.now))
        (nameless (formula_of from.now)) (nameless (formula_of to.now)) }
{
    match equation {
        Formula::Eq(left, right) => {
            let change = Change {
                from: left,
                to: right,
            };
            if is_replaced(from, to, change, &Binders::Empty, &Binders::Empty) {
                Verdict::Instance
            } else {
                Verdict::Shape
            }
        }
        _ => Verdict::Shape,
    }
}

// whether the right formula is the left one with the change at some places, each below its binders
#[cycle(is_replaced)]
#[tactic(auto, using(crate::proofs::ChangedTerms::below_rules))]
fn is_replaced(
    left: &Formula,
    right: &Formula,
    change: Change,
    over: &Binders,
    other: &Binders,
) -> bool
    requires left { length (bound_by over.now) + parts (formula_of left.now) < 2 ^ 32 }
    requires right { length (bound_by other.now) + parts (formula_of right.now) < 2 ^ 32 }
    ensures { result ≡ replaced (plainly change.entry.from.now) (plainly change.entry.to.now)
        (walked (bound_by over.now) (formula_of left.now))
        (walked (bound_by other.now) (formula_of right.now)) }
{
    match (left, right) {
        (Formula::True, Formula::True) | (Formula::False, Formula::False) => true,
        (Formula::And(p, q), Formula::And(r, s))
        | (Formula::Or(p, q), Formula::Or(r, s))
        | (Formula::Imp(p, q), Formula::Imp(r, s)) => {
            is_replaced(p, r, change, over, other) && is_replaced(q, s, change, over, other)
        }
        (Formula::Not(p), Formula::Not(q)) => is_replaced(p, q, change, over, other),
        (Formula::Exists(x, p), Formula::Exists(y, q))
        | (Formula::Forall(x, p), Formula::Forall(y, q)) => {
            let over = Binders::More(&*x, &*over);
            let other = Binders::More(&*y, &*other);
            same_sort(x.sort, y.sort) && is_replaced(p, q, change, &over, &other)
        }
        (Formula::Eq(a, b), Formula::Eq(c, d)) | (Formula::Le(a, b), Formula::Le(c, d)) => {
            is_replaced_term(a, c, change, over, other)
                && is_replaced_term(b, d, change, over, other)
        }
        (Formula::Is(x, p), Formula::Is(y, q)) => {
            same_sort(x.sort, y.sort)
                && same_variable(x, y, over, other)
                && is_replaced(p, q, change, over, other)
        }
        _ => is_replaced_structural(left, right, change, over, other),
    }
}

// whether the left formula is structural and the right one the same but for the change
#[cycle(is_replaced)]
fn is_replaced_structural(
    left: &Formula,
    right: &Formula,
    change: Change,
    over: &Binders,
    other: &Binders,
) -> bool
    requires left { length (bound_by over.now) + parts (formula_of left.now) < 2 ^ 32 }
    requires right { length (bound_by other.now) + parts (formula_of right.now) < 2 ^ 32 }
    ensures { result ≡ (is_structural (formula_of left.now)
        && replaced (plainly change.entry.from.now) (plainly change.entry.to.now)
        (walked (bound_by over.now) (formula_of left.now))
        (walked (bound_by other.now) (formula_of right.now))) }
{
    match (left, right) {
        (Formula::EmptyForest, Formula::EmptyForest) | (Formula::EmptyGrove, Formula::EmptyGrove) =>
            true,
        (Formula::Hole(h), Formula::Hole(k)) => same_data_sort(*h, *k),
        (Formula::Node(a, b, p, c), Formula::Node(d, e, q, f)) => {
            is_replaced_term(a, d, change, over, other)
                && is_replaced_term(b, e, change, over, other)
                && is_replaced(p, q, change, over, other)
                && is_replaced_term(c, f, change, over, other)
        }
        (Formula::One(p), Formula::One(q)) | (Formula::Root(p), Formula::Root(q)) => {
            is_replaced(p, q, change, over, other)
        }
        (Formula::Join(d, p, q), Formula::Join(e, r, s)) => {
            same_side(*d, *e)
                && is_replaced(p, r, change, over, other)
                && is_replaced(q, s, change, over, other)
        }
        (Formula::Plus(p, q), Formula::Plus(r, s))
        | (Formula::PlusHole(p, q), Formula::PlusHole(r, s))
        | (Formula::HoleAdj(p, q), Formula::HoleAdj(r, s)) => {
            is_replaced(p, r, change, over, other) && is_replaced(q, s, change, over, other)
        }
        (Formula::App(h, p, q), Formula::App(k, r, s))
        | (Formula::CtxAdj(h, p, q), Formula::CtxAdj(k, r, s)) => {
            same_data_sort(*h, *k)
                && is_replaced(p, r, change, over, other)
                && is_replaced(q, s, change, over, other)
        }
        (Formula::Var(x), Formula::Var(y)) => same_variable(x, y, over, other),
        (Formula::Len(a), Formula::Len(b)) => is_replaced_term(a, b, change, over, other),
        _ => false,
    }
}

// whether the right term is the left one with the change at some places, each below its binders
fn is_replaced_term(
    left: &Term,
    right: &Term,
    change: Change,
    over: &Binders,
    other: &Binders,
) -> bool
    requires left { length (bound_by over.now) < 2 ^ 32 }
    requires right { length (bound_by other.now) < 2 ^ 32 }
    ensures { result ≡ replaced_term (plainly change.entry.from.now) (plainly change.entry.to.now)
        (term_with (naming (bound_by over.now)) (term_of left.now))
        (term_with (naming (bound_by other.now)) (term_of right.now)) }
{
    match (left, right) {
        (Term::Add(a, b), Term::Add(c, d))
        | (Term::Sub(a, b), Term::Sub(c, d))
        | (Term::Cat(a, b), Term::Cat(c, d)) => {
            is_same_or_changed(left, right, change, over, other)
                || (is_replaced_term(a, c, change, over, other)
                    && is_replaced_term(b, d, change, over, other))
        }
        _ => is_same_or_changed(left, right, change, over, other),
    }
}

// whether the right term is the left one, or the whole of it is changed
fn is_same_or_changed(
    left: &Term,
    right: &Term,
    change: Change,
    over: &Binders,
    other: &Binders,
) -> bool
    requires left { length (bound_by over.now) < 2 ^ 32 }
    requires right { length (bound_by other.now) < 2 ^ 32 }
    ensures { result ≡ same_or (plainly change.entry.from.now) (plainly change.entry.to.now)
        (term_with (naming (bound_by over.now)) (term_of left.now))
        (term_with (naming (bound_by other.now)) (term_of right.now)) }
{
    same_term(left, right, over, other)
        || (same_term(left, change.from, over, &Binders::Empty)
            && same_term(right, change.to, other, &Binders::Empty))
}

// whether the hole is at the same side
fn same_side(left: Side, right: Side) -> bool
    ensures { result ≡ sides.same_side (side_of left) (side_of right) }
{
    left == right
}
