// The frame rule.
ghost use Rattle.std.specs.Prelude.{◌≡◌, [], ◌∷◌, map, not};
ghost use Rattle.model_commands.specs.Theories.{triple};
ghost use Rattle.model_files.specs.Sizes.{IsSmall};
ghost use Rattle.model_formulas.specs.Nameless.{nameless};
ghost use Rattle.row_patterns.specs.Verdicts.{verdict_in};
ghost use Rattle.dom_terms.specs.Sorts.{data_sort_of};
ghost use Rattle.dom_terms.specs.Terms.{prog_var_of};
ghost use Rattle.formula_syntax.specs.Formulas.{formula_of};
ghost use Rattle.theory_syntax.specs.Commands.{command_of};
ghost use Rattle.cited_steps.specs.Earlier.{steps_in};
ghost use Rattle.triple_rules.specs.FrameTests as test;
ghost use Rattle.triple_rules.specs.Occurring as occurring;
ghost use Rattle.triple_rules.specs.Tested.{tested};
ghost use Rattle.triple_rules.specs.Tests.{cites_by};
ghost use Rattle.triple_rules.specs.Written.{IsReady};

use crate::occurrences::mentions;
use crate::same::{is_nothing, is_triple, same};
use crate::simple::last;
use crate::written::Written;
use cited_steps::cited;
use dom_terms::{DataSort, ProgVar, SideName, Verdict, same_data_sort};
use formula_syntax::Formula;
use std::alloc::Global;

// The context of an application, and any other formula itself.
fn context_of(formula: &Formula) -> &Formula
    ensures { formula_of result.now ≡ test.context_in (formula_of formula.now) }
{
    match formula {
        Formula::App(_, context, _) => context,
        _ => formula,
    }
}

/// Whether none of the variables stands in the context of the requires.
pub(crate) fn is_kept(written: &Written, changed: &[ProgVar]) -> bool
    ensures { result ≡ not (occurring.mentions (map prog_var_of changed.now)
        (test.context_in (formula_of written.now.triple.now.pre))) }
{
    !mentions(changed, context_of(&written.triple.pre))
}

// Whether the one premise is the triple between these formulas, at the sort of the hole.
fn is_framed(
    alloc: Global,
    written: &Written,
    pre: &Formula,
    post: &Formula,
    hole: DataSort,
) -> bool
    requires written { IsReady written.now }
    requires pre { IsSmall (formula_of pre.now) }
    requires post { IsSmall (formula_of post.now) }
    ensures { result ≡ cites_by (steps_in written.now.earlier.now) written.now.citations.now
        (triple (nameless (formula_of pre.now)) (command_of written.now.triple.now.command)
        (nameless (formula_of post.now)) (data_sort_of hole) ∷ []) }
{
    let [number] = written.citations else {
        return false;
    };
    match cited(*number, written.earlier) {
        Some(premise) => is_triple(alloc, premise, pre, &written.triple.command, post, hole),
        None => false,
    }
}

/// The rule frame, with the answer whether the command changes nothing of the context.
pub(crate) fn frame(alloc: Global, written: &Written, kept: bool) -> Verdict
    requires { IsReady written.now }
    ensures { verdict_in result
        ≡ tested (λ arguments are_cited. test.frame_test arguments are_cited kept) written.now }
{
    let triple = written.triple;
    let Formula::App(hole, context, pre) = &triple.pre else {
        return Verdict::Shape;
    };
    let Formula::App(other_hole, other_context, post) = &triple.post else {
        return Verdict::Shape;
    };
    let concludes = is_nothing(written.arguments)
        && same_data_sort(*other_hole, *hole)
        && same(alloc, other_context, context);
    if !concludes {
        Verdict::Shape
    } else if !is_framed(alloc, written, pre, post, *hole) {
        Verdict::Premises
    } else {
        last(kept, SideName::Modified)
    }
}
