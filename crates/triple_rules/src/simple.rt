// Rules without conditions, whose premises speak of the written formulas themselves.
ghost use Rattle.std.specs.Prelude.{◌≡◌, [], ◌∷◌};
ghost use Rattle.model_commands.specs.Theories.{triple};
ghost use Rattle.model_formulas.specs.Nameless.{nameless};
ghost use Rattle.dom_terms.specs.Sorts.{data_sort_of};
ghost use Rattle.formula_syntax.specs.Formulas.{formula_of};
ghost use Rattle.theory_syntax.specs.Commands.{command_of};
ghost use Rattle.model_files.specs.Sizes.{IsSmall};
ghost use Rattle.rule_table.specs.Accepted.{judgement_numbered};
ghost use Rattle.cited_steps.specs.Earlier.{steps_in};
ghost use Rattle.rule_table.specs.Verdicts.{instance_verdict};
ghost use Rattle.triple_rules.specs.Tests as test;
ghost use Rattle.row_patterns.specs.Verdicts.{side_in, verdict_in};
ghost use Rattle.triple_rules.specs.Tested.{tested};
ghost use Rattle.triple_rules.specs.Written.{IsReady};

use crate::same::{are_equal, is_entailment, is_nothing, is_triple, same};
use crate::written::Written;
use cited_steps::cited;
use dom_terms::{SideName, Verdict, same_data_sort};
use formula_syntax::Formula;
use std::alloc::Global;
use theory_syntax::{Command, Judgement};

/// The verdict from the tests of the conclusion and of the premises, where there are no conditions.
pub(crate) fn staged(concludes: bool, follows: bool) -> Verdict
    ensures { verdict_in result ≡ test.staged concludes follows instance_verdict }
{
    if !concludes {
        Verdict::Shape
    } else if !follows {
        Verdict::Premises
    } else {
        Verdict::Instance
    }
}

/// The verdict on one condition, where it is reached.
pub(crate) fn last(holds: bool, name: SideName) -> Verdict
    ensures { verdict_in result ≡ test.last_of holds (side_in name) }
{
    if holds {
        Verdict::Instance
    } else {
        Verdict::Side(name)
    }
}

fn is_skip(command: &Command) -> bool
    ensures { result ≡ test.is_skip (command_of command.now) }
{
    match command {
        Command::Skip => true,
        _ => false,
    }
}

fn is_false(formula: &Formula) -> bool
    ensures { result ≡ test.is_falsity (nameless (formula_of formula.now)) }
{
    match formula {
        Formula::False => true,
        _ => false,
    }
}

/// Whether nothing is cited.
pub(crate) fn cites_nothing(written: &Written) -> bool
    ensures { result ≡ test.cites_by (steps_in written.now.earlier.now) written.now.citations.now
        [] }
{
    match written.citations {
        [] => true,
        _ => false,
    }
}

/// The rule skip.
pub(crate) fn skip(alloc: Global, written: &Written) -> Verdict
    requires { IsReady written.now }
    ensures { verdict_in result ≡ tested test.skip_test written.now }
{
    let triple = written.triple;
    let concludes = is_nothing(written.arguments)
        && is_skip(&triple.command)
        && same(alloc, &triple.pre, &triple.post);
    staged(concludes, cites_nothing(written))
}

/// The rule absurd.
pub(crate) fn absurd(written: &Written) -> Verdict
    ensures { verdict_in result ≡ tested test.absurd_test written.now }
{
    let concludes = is_nothing(written.arguments) && is_false(&written.triple.pre);
    staged(concludes, cites_nothing(written))
}

// Whether the premises are those of consequence.
fn is_weakened(alloc: Global, written: &Written) -> bool
    requires { IsReady written.now }
    ensures { result ≡ test.weaken_by (steps_in written.now.earlier.now) written.now.citations.now
        (nameless (formula_of written.now.triple.now.pre))
        (command_of written.now.triple.now.command)
        (nameless (formula_of written.now.triple.now.post))
        (data_sort_of written.now.triple.now.sort) }
{
    let [first, second, third] = written.citations else {
        return false;
    };
    let Some(first) = cited(*first, written.earlier) else {
        return false;
    };
    let Some(Judgement::Triple(middle)) = cited(*second, written.earlier) else {
        return false;
    };
    let Some(third) = cited(*third, written.earlier) else {
        return false;
    };
    let triple = written.triple;
    are_equal(&middle.command, &triple.command)
        && same_data_sort(middle.sort, triple.sort)
        && is_entailment(alloc, first, &triple.pre, &middle.pre, triple.sort)
        && is_entailment(alloc, third, &middle.post, &triple.post, triple.sort)
}

/// The rule consequence.
pub(crate) fn consequence(alloc: Global, written: &Written) -> Verdict
    requires { IsReady written.now }
    ensures { verdict_in result ≡ tested (λ arguments are_cited p c q k. test.staged
        (test.no_items arguments) (test.weaken_by (steps_in written.now.earlier.now)
        written.now.citations.now p c q k) instance_verdict) written.now }
{
    let follows = is_weakened(alloc, written);
    staged(is_nothing(written.arguments), follows)
}

// Whether the step of the number says that the triple holds from this formula.
fn holds_from(alloc: Global, number: u32, formula: &Formula, written: &Written) -> bool
    requires written { IsReady written.now }
    requires formula { IsSmall (formula_of formula.now) }
    ensures { result ≡ test.says (judgement_numbered number (steps_in written.now.earlier.now))
        (triple (nameless (formula_of formula.now)) (command_of written.now.triple.now.command)
        (nameless (formula_of written.now.triple.now.post))
        (data_sort_of written.now.triple.now.sort)) }
{
    let triple = written.triple;
    match cited(number, written.earlier) {
        Some(premise) => {
            is_triple(
                alloc,
                premise,
                formula,
                &triple.command,
                &triple.post,
                triple.sort,
            )
        }
        None => false,
    }
}

// Whether the premises are the triples from the one formula and from the other.
fn are_both(alloc: Global, left: &Formula, right: &Formula, written: &Written) -> bool
    requires written { IsReady written.now }
    requires left { IsSmall (formula_of left.now) }
    requires right { IsSmall (formula_of right.now) }
    ensures { result ≡ test.cites_by (steps_in written.now.earlier.now) written.now.citations.now
        (triple (nameless (formula_of left.now)) (command_of written.now.triple.now.command)
        (nameless (formula_of written.now.triple.now.post))
        (data_sort_of written.now.triple.now.sort)
        ∷ triple (nameless (formula_of right.now)) (command_of written.now.triple.now.command)
        (nameless (formula_of written.now.triple.now.post))
        (data_sort_of written.now.triple.now.sort) ∷ []) }
{
    match written.citations {
        [first, second] => {
            holds_from(alloc, *first, left, written) && holds_from(alloc, *second, right, written)
        }
        _ => false,
    }
}

/// The rule disjunction.
pub(crate) fn disjunction(alloc: Global, written: &Written) -> Verdict
    requires { IsReady written.now }
    ensures { verdict_in result ≡ tested test.disjunction_test written.now }
{
    let Formula::Or(left, right) = &written.triple.pre else {
        return Verdict::Shape;
    };
    let follows = are_both(alloc, left, right, written);
    staged(is_nothing(written.arguments), follows)
}
