// The rule for local variables.
ghost use Rattle.std.specs.Prelude.{◌≡◌, [], ◌∷◌, not, ◌&&◌};
ghost use Rattle.model_files.specs.Sizes.{IsSmall};
ghost use Rattle.model_formulas.specs.Formulas.{conjunction};
ghost use Rattle.model_formulas.specs.Nameless.{nameless};
ghost use Rattle.model_formulas.specs.SameFormulas.{same_formula};
ghost use Rattle.model_commands.specs.Commands as model;
ghost use Rattle.model_commands.specs.Theories.{triple};
ghost use Rattle.rule_table.specs.Accepted.{judgement_numbered};
ghost use Rattle.row_patterns.specs.Verdicts.{verdict_in};
ghost use Rattle.dom_terms.specs.Sorts.{data_sort_of};
ghost use Rattle.dom_terms.specs.Terms.{prog_var_of};
ghost use Rattle.formula_syntax.specs.Formulas.{formula_of};
ghost use Rattle.theory_syntax.specs.Commands.{block_of};
ghost use Rattle.cited_steps.specs.Earlier.{steps_in};
ghost use Rattle.triple_rules.specs.BlockTests as test;
ghost use Rattle.triple_rules.specs.Occurring.{mentions as occur};
ghost use Rattle.triple_rules.specs.Tested.{tested};
ghost use Rattle.triple_rules.specs.Tests.{cites_by, says};
ghost use Rattle.triple_rules.specs.Written.{IsReady};

use crate::conditions::is_default;
use crate::occurrences::mentions;
use crate::same::{is_block, is_nothing, same};
use crate::simple::last;
use crate::written::Written;
use cited_steps::cited;
use dom_terms::{ProgVar, SideName, Verdict, same_data_sort};
use formula_syntax::Formula;
use std::alloc::Global;
use std::slice;
use theory_syntax::{Block, Command, Judgement};

// Whether the variable stands in the formula.
fn stands_in(variable: &ProgVar, formula: &Formula) -> bool
    ensures { result ≡ occur (prog_var_of variable.now ∷ []) (nameless (formula_of formula.now)) }
{
    mentions(slice::from_ref(variable), formula)
}

// Whether the formula is this other one, and that the variable has its default.
fn begins(alloc: Global, formula: &Formula, other: &Formula, variable: &ProgVar) -> bool
    requires formula { IsSmall (formula_of formula.now) }
    requires other { IsSmall (formula_of other.now) }
    ensures { result ≡ same_formula (nameless (formula_of formula.now))
        (conjunction (nameless (formula_of other.now))
        (test.is_default (prog_var_of variable.now))) }
{
    match formula {
        Formula::And(left, right) => same(alloc, left, other) && is_default(right, variable),
        _ => false,
    }
}

// Whether the step of the number says that the block leads from the requires, and that the
// variable has its default, to the ensures.
fn leads(alloc: Global, number: u32, written: &Written, variable: &ProgVar, block: &Block) -> bool
    requires { IsReady written.now }
    ensures { result ≡ says (judgement_numbered number (steps_in written.now.earlier.now))
        (triple (conjunction (nameless (formula_of written.now.triple.now.pre))
        (test.is_default (prog_var_of variable.now))) (model.block (block_of block.now))
        (nameless (formula_of written.now.triple.now.post))
        (data_sort_of written.now.triple.now.sort)) }
{
    let triple = written.triple;
    let Some(Judgement::Triple(premise)) = cited(number, written.earlier) else {
        return false;
    };
    begins(alloc, &premise.pre, &triple.pre, variable)
        && same(alloc, &premise.post, &triple.post)
        && is_block(&premise.command, block)
        && same_data_sort(premise.sort, triple.sort)
}

// Whether that is the one premise.
fn is_led(alloc: Global, written: &Written, variable: &ProgVar, block: &Block) -> bool
    requires { IsReady written.now }
    ensures { result ≡ cites_by (steps_in written.now.earlier.now) written.now.citations.now
        (triple (conjunction (nameless (formula_of written.now.triple.now.pre))
        (test.is_default (prog_var_of variable.now))) (model.block (block_of block.now))
        (nameless (formula_of written.now.triple.now.post))
        (data_sort_of written.now.triple.now.sort) ∷ []) }
{
    match written.citations {
        [number] => leads(alloc, *number, written, variable, block),
        _ => false,
    }
}

// Whether the variable stands in neither formula of the triple.
fn is_fresh(written: &Written, variable: &ProgVar) -> bool
    ensures { result
        ≡ (not (occur (prog_var_of variable.now ∷ [])
        (nameless (formula_of written.now.triple.now.pre)))
        && not (occur (prog_var_of variable.now ∷ [])
        (nameless (formula_of written.now.triple.now.post)))) }
{
    let triple = written.triple;
    !stands_in(variable, &triple.pre) && !stands_in(variable, &triple.post)
}

/// The rule local.
pub(crate) fn local(alloc: Global, written: &Written) -> Verdict
    requires { IsReady written.now }
    ensures { verdict_in result ≡ tested test.local_test written.now }
{
    let Command::Local(variable, block) = &written.triple.command else {
        return Verdict::Shape;
    };
    if !is_nothing(written.arguments) {
        Verdict::Shape
    } else if !is_led(alloc, written, variable, block) {
        Verdict::Premises
    } else {
        last(is_fresh(written, variable), SideName::Free)
    }
}
