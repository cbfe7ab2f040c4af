// The rules for choice and loops: one premise for each block, after the test of the condition.
ghost use Rattle.std.specs.Prelude.{◌≡◌, [], ◌∷◌, true, false};
ghost use Rattle.model_files.specs.Sizes.{IsSmall};
ghost use Rattle.model_formulas.specs.Nameless.{nameless};
ghost use Rattle.rule_table.specs.Accepted.{judgement_numbered};
ghost use Rattle.row_patterns.specs.Verdicts.{verdict_in};
ghost use Rattle.dom_terms.specs.Conditions.{cond_of};
ghost use Rattle.dom_terms.specs.Sorts.{data_sort_of};
ghost use Rattle.formula_syntax.specs.Formulas.{formula_of};
ghost use Rattle.theory_syntax.specs.Commands.{block_of};
ghost use Rattle.cited_steps.specs.Earlier.{steps_in};
ghost use Rattle.triple_rules.specs.BlockTests as test;
ghost use Rattle.triple_rules.specs.Tested.{tested};
ghost use Rattle.triple_rules.specs.Tests.{cites_by, says};
ghost use Rattle.triple_rules.specs.Written.{IsReady};

use crate::conditions::is_guarded;
use crate::same::{is_block, is_nothing, same};
use crate::simple::staged;
use crate::written::Written;
use cited_steps::cited;
use dom_terms::{Cond, Verdict, same_data_sort};
use formula_syntax::Formula;
use std::alloc::Global;
use theory_syntax::{Block, Command, Judgement};

// Whether the step of the number says that the block leads from the requires, and that the
// condition holds or that it doesn't, to this formula.
fn leads(
    alloc: Global,
    number: u32,
    written: &Written,
    condition: &Cond,
    holds: bool,
    block: &Block,
    post: &Formula,
) -> bool
    requires written { IsReady written.now }
    requires post { IsSmall (formula_of post.now) }
    ensures { result ≡ says (judgement_numbered number (steps_in written.now.earlier.now))
        (test.branch (nameless (formula_of written.now.triple.now.pre)) holds
        (cond_of condition.now) (block_of block.now) (nameless (formula_of post.now))
        (data_sort_of written.now.triple.now.sort)) }
{
    let triple = written.triple;
    let Some(Judgement::Triple(premise)) = cited(number, written.earlier) else {
        return false;
    };
    is_guarded(alloc, &premise.pre, &triple.pre, condition, holds)
        && same(alloc, &premise.post, post)
        && is_block(&premise.command, block)
        && same_data_sort(premise.sort, triple.sort)
}

// Whether the one premise is that the block keeps the requires where the condition holds.
fn is_kept(alloc: Global, written: &Written, condition: &Cond, block: &Block) -> bool
    requires { IsReady written.now }
    ensures { result ≡ cites_by (steps_in written.now.earlier.now) written.now.citations.now
        (test.branch (nameless (formula_of written.now.triple.now.pre)) true
        (cond_of condition.now) (block_of block.now)
        (nameless (formula_of written.now.triple.now.pre))
        (data_sort_of written.now.triple.now.sort) ∷ []) }
{
    match written.citations {
        [number] => {
            leads(
                alloc,
                *number,
                written,
                condition,
                true,
                block,
                &written.triple.pre,
            )
        }
        _ => false,
    }
}

/// The rule while.
pub(crate) fn while_do(alloc: Global, written: &Written) -> Verdict
    requires { IsReady written.now }
    ensures { verdict_in result ≡ tested test.while_test written.now }
{
    let triple = written.triple;
    let Command::While(condition, block) = &triple.command else {
        return Verdict::Shape;
    };
    let concludes = is_nothing(written.arguments)
        && is_guarded(alloc, &triple.post, &triple.pre, condition, false);
    let follows = is_kept(alloc, written, condition, block);
    staged(concludes, follows)
}

// Whether the premises are that each block leads to the ensures, the first where the condition
// holds and the second where it doesn't.
fn both_lead(
    alloc: Global,
    written: &Written,
    condition: &Cond,
    block: &Block,
    other: &Block,
) -> bool
    requires { IsReady written.now }
    ensures { result ≡ cites_by (steps_in written.now.earlier.now) written.now.citations.now
        (test.branch (nameless (formula_of written.now.triple.now.pre)) true
        (cond_of condition.now) (block_of block.now)
        (nameless (formula_of written.now.triple.now.post))
        (data_sort_of written.now.triple.now.sort)
        ∷ test.branch (nameless (formula_of written.now.triple.now.pre)) false
        (cond_of condition.now) (block_of other.now)
        (nameless (formula_of written.now.triple.now.post))
        (data_sort_of written.now.triple.now.sort) ∷ []) }
{
    let post = &written.triple.post;
    match written.citations {
        [first, second] => {
            leads(alloc, *first, written, condition, true, block, post)
                && leads(alloc, *second, written, condition, false, other, post)
        }
        _ => false,
    }
}

/// The rule if.
pub(crate) fn if_else(alloc: Global, written: &Written) -> Verdict
    requires { IsReady written.now }
    ensures { verdict_in result ≡ tested test.if_test written.now }
{
    let Command::If(condition, block, other) = &written.triple.command else {
        return Verdict::Shape;
    };
    let follows = both_lead(alloc, written, condition, block, other);
    staged(is_nothing(written.arguments), follows)
}
