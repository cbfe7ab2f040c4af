// When formulas and judgements are the same.
ghost use Rattle.std.specs.Prelude.{◌≡◌, map};
ghost use Rattle.model_shapes.specs.Sorts.{shape};
ghost use Rattle.model_formulas.specs.Nameless.{nameless};
ghost use Rattle.model_formulas.specs.SameFormulas as formulas;
ghost use Rattle.model_formulas.specs.Substitution.{formula_with};
ghost use Rattle.model_commands.specs.Commands as model;
ghost use Rattle.model_commands.specs.Theories.{entails, triple, nameless_judgement};
ghost use Rattle.model_files.specs.Sizes.{IsSmall, JudgementIsSmall};
ghost use Rattle.dom_terms.specs.Sorts.{data_sort_of};
ghost use Rattle.formula_syntax.specs.Formulas.{formula_of, pair_of};
ghost use Rattle.formula_syntax.specs.Substitution.{replacing_each};
ghost use Rattle.theory_syntax.specs.Commands.{block_of, command_of};
ghost use Rattle.theory_syntax.specs.Judgements.{judgement_of};
ghost use Rattle.theory_syntax.specs.SameCommands as commands;
ghost use Rattle.triple_rules.specs.Tests as test;

use dom_terms::{DataSort, Sort, same_data_sort, same_sort};
use formula_syntax::{Formula, Pair, is_substitution, same_formula};
use std::alloc::Global;
use theory_syntax::{Block, Command, Judgement, same_command};

/// Whether the formulas are the same up to the names of bound variables.
#[tactic(auto, using(crate::proofs::Sameness::same_rules))]
pub(crate) fn same(alloc: Global, left: &Formula, right: &Formula) -> bool
    requires left { IsSmall (formula_of left.now) }
    requires right { IsSmall (formula_of right.now) }
    ensures { result ≡ formulas.same_formula (nameless (formula_of left.now))
        (nameless (formula_of right.now)) }
{
    match same_formula(alloc, left, right) {
        Ok(same) => same,
        Err(_) => unreachable!(),
    }
}

/// Whether the second formula is the first with the terms of the pairs for their variables.
#[tactic(auto, using(crate::proofs::Sameness::put_rules))]
pub(crate) fn is_put(alloc: Global, from: &Formula, pairs: &[Pair], to: &Formula) -> bool
    requires from { IsSmall (formula_of from.now) }
    requires to { IsSmall (formula_of to.now) }
    ensures { result ≡ formulas.same_formula
        (formula_with (replacing_each (map pair_of pairs.now)) (nameless (formula_of from.now)))
        (nameless (formula_of to.now)) }
{
    match is_substitution(alloc, from, pairs, to) {
        Ok(put) => put,
        Err(_) => unreachable!(),
    }
}

/// Whether the commands are equal.
#[tactic(auto, using(crate::proofs::Sameness::same_rules))]
pub(crate) fn are_equal(left: &Command, right: &Command) -> bool
    ensures { result ≡ commands.same_command (command_of left.now) (command_of right.now) }
{
    same_command(left, right)
}

// Whether the blocks are equal.
fn are_same_blocks(left: &Block, right: &Block) -> bool
    ensures { result ≡ commands.same_block (block_of left.now) (block_of right.now) }
{
    let mut others = right.as_slice();
    for command in left.as_slice() {
        let [other, further @ ..] = others else {
            return false;
        };
        if !are_equal(command, other) {
            return false;
        }
        others = further;
    }
    is_nothing(others)
}

/// Whether the command is the block.
pub(crate) fn is_block(command: &Command, block: &Block) -> bool
    ensures { result ≡ commands.same_command (command_of command.now)
        (model.block (block_of block.now)) }
{
    match command {
        Command::Block(commands) => are_same_blocks(commands, block),
        _ => false,
    }
}

/// Whether the judgement is the triple of these.
pub(crate) fn is_triple(
    alloc: Global,
    judgement: &Judgement,
    pre: &Formula,
    command: &Command,
    post: &Formula,
    sort: DataSort,
) -> bool
    requires judgement { JudgementIsSmall (judgement_of judgement.now) }
    requires pre { IsSmall (formula_of pre.now) }
    requires post { IsSmall (formula_of post.now) }
    ensures { result ≡ test.same_judgement (nameless_judgement (judgement_of judgement.now))
        (triple (nameless (formula_of pre.now)) (command_of command.now)
        (nameless (formula_of post.now)) (data_sort_of sort)) }
{
    match judgement {
        Judgement::Triple(triple) => {
            same(alloc, &triple.pre, pre)
                && same(alloc, &triple.post, post)
                && are_equal(&triple.command, command)
                && same_data_sort(triple.sort, sort)
        }
        Judgement::Entails(_) => false,
    }
}

/// Whether the judgement is the entailment of these.
pub(crate) fn is_entailment(
    alloc: Global,
    judgement: &Judgement,
    left: &Formula,
    right: &Formula,
    sort: DataSort,
) -> bool
    requires judgement { JudgementIsSmall (judgement_of judgement.now) }
    requires left { IsSmall (formula_of left.now) }
    requires right { IsSmall (formula_of right.now) }
    ensures { result ≡ test.same_judgement (nameless_judgement (judgement_of judgement.now))
        (entails (nameless (formula_of left.now)) (nameless (formula_of right.now))
        (shape (data_sort_of sort))) }
{
    match judgement {
        Judgement::Entails(entailment) => {
            same(alloc, &entailment.left, left)
                && same(alloc, &entailment.right, right)
                && same_sort(entailment.sort, Sort::Shape(sort))
        }
        Judgement::Triple(_) => false,
    }
}

/// Whether there are no items.
pub(crate) fn is_nothing<T>(items: &[T]) -> bool
    ensures { result ≡ test.no_items items.now }
{
    items.is_empty()
}
