// The rule for blocks: one triple for each command, each from where the last one ends.
ghost use Rattle.std.specs.Prelude.{◌≡◌, MatchOption, Some, None, map};
ghost use Rattle.model_files.specs.Sizes.{IsSmall, JudgementIsSmall};
ghost use Rattle.model_formulas.specs.Nameless.{nameless};
ghost use Rattle.model_commands.specs.Theories.{nameless_judgement};
ghost use Rattle.row_patterns.specs.Verdicts.{verdict_in};
ghost use Rattle.dom_terms.specs.Sorts.{data_sort_of};
ghost use Rattle.dom_terms.specs.Terms.{term_of};
ghost use Rattle.formula_syntax.specs.Formulas.{formula_of};
ghost use Rattle.theory_syntax.specs.Commands.{block_of, command_of};
ghost use Rattle.theory_syntax.specs.Judgements.{judgement_of};
ghost use Rattle.cited_steps.specs.Earlier.{steps_in};
ghost use Rattle.triple_rules.specs.SequenceTests as test;
ghost use Rattle.triple_rules.specs.Written.{IsReady};

use crate::same::{are_equal, is_nothing, same};
use crate::simple::staged;
use crate::written::Written;
use cited_steps::cited;
use dom_terms::{DataSort, Verdict, same_data_sort};
use formula_syntax::Formula;
use std::alloc::Global;
use theory_syntax::{Command, Judgement};

// The formula after the command, where the judgement is its triple from the formula before.
fn after<'a>(
    alloc: Global,
    judgement: &'a Judgement,
    before: &Formula,
    command: &Command,
    sort: DataSort,
) -> Option<&'a Formula>
    requires judgement { JudgementIsSmall (judgement_of judgement.now) }
    requires before { IsSmall (formula_of before.now) }
    ensures { MatchOption result
        (test.after (Some (nameless_judgement (judgement_of judgement.now)))
        (nameless (formula_of before.now)) (command_of command.now) (data_sort_of sort) ≡ None)
        (λ q. (test.after (Some (nameless_judgement (judgement_of judgement.now)))
        (nameless (formula_of before.now)) (command_of command.now) (data_sort_of sort)
        ≡ Some (nameless (formula_of q.now))) × IsSmall (formula_of q.now)) }
{
    let Judgement::Triple(triple) = judgement else {
        return None;
    };
    if same(alloc, &triple.pre, before)
        && are_equal(&triple.command, command)
        && same_data_sort(triple.sort, sort)
    {
        Some(&triple.post)
    } else {
        None
    }
}

// Whether the cited judgements are the triples of the commands of the block, in order, the first
// from the triple's requires, each from where the one before it ends, and the last to its ensures.
fn is_chain(alloc: Global, written: &Written, block: &[Command]) -> bool
    requires { IsReady written.now }
    ensures { result ≡ test.ends (test.reached (steps_in written.now.earlier.now)
        written.now.citations.now (nameless (formula_of written.now.triple.now.pre))
        (block_of block.now) (data_sort_of written.now.triple.now.sort))
        (nameless (formula_of written.now.triple.now.post)) }
{
    let triple = written.triple;
    let mut at = &triple.pre;
    let mut commands = block;
    for number in written.citations {
        let [command, others @ ..] = commands else {
            return false;
        };
        let Some(judgement) = cited(*number, written.earlier) else {
            return false;
        };
        let Some(reached) = after(alloc, judgement, at, command, triple.sort) else {
            return false;
        };
        at = reached;
        commands = others;
    }
    match commands {
        [] => same(alloc, at, &triple.post),
        _ => false,
    }
}

/// The rule seq.
pub(crate) fn seq(alloc: Global, written: &Written) -> Verdict
    requires { IsReady written.now }
    ensures { verdict_in result ≡ test.seq_test (map term_of written.now.arguments.now)
        (test.ends (test.reached (steps_in written.now.earlier.now) written.now.citations.now
        (nameless (formula_of written.now.triple.now.pre))
        (test.block_in (command_of written.now.triple.now.command))
        (data_sort_of written.now.triple.now.sort))
        (nameless (formula_of written.now.triple.now.post)))
        (command_of written.now.triple.now.command) }
{
    let Command::Block(block) = &written.triple.command else {
        return Verdict::Shape;
    };
    let concludes = !is_nothing(block.as_slice()) && is_nothing(written.arguments);
    let follows = is_chain(alloc, written, block.as_slice());
    staged(concludes, follows)
}
