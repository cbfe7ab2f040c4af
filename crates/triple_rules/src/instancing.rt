// The rule instance.
ghost use Rattle.std.specs.Prelude.{◌≡◌, ◌&&◌, IfOk, map, not};
ghost use Rattle.model_shapes.specs.Sorts as sorts;
ghost use Rattle.model_formulas.specs.Nameless.{nameless};
ghost use Rattle.model_formulas.specs.Substitution.{replacing};
ghost use Rattle.model_files.specs.Sizes.{JudgementIsSmall};
ghost use Rattle.row_patterns.specs.Verdicts.{verdict_in};
ghost use Rattle.dom_terms.specs.Sorts.{data_sort_of, sort_of};
ghost use Rattle.dom_terms.specs.Terms.{logic_var_of, prog_var_of, term_of};
ghost use Rattle.formula_syntax.specs.Formulas.{formula_of, pair_of};
ghost use Rattle.formula_syntax.specs.Substitution.{replacing_each};
ghost use Rattle.theory_syntax.specs.Commands.{command_of};
ghost use Rattle.theory_syntax.specs.Judgements.{triple_of};
ghost use Rattle.cited_steps.specs.Earlier.{steps_in};
ghost use Rattle.triple_rules.specs.Covered as covered;
ghost use Rattle.triple_rules.specs.InstanceTests as test;
ghost use Rattle.triple_rules.specs.Occurring as occurring;
ghost use Rattle.triple_rules.specs.Written.{IsReady};

use crate::coverage::covers;
use crate::occurrences::term_mentions;
use crate::same::{are_equal, is_put};
use crate::simple::last;
use crate::written::Written;
use cited_steps::cited;
use dom_terms::{
    DataSort, LogicVar, OutOfMemory, ProgVar, SideName, Sort, Term, Verdict, copies, has_sort,
    same_data_sort, same_sort,
};
use formula_syntax::{AnyVar, Binders, Pair};
use std::alloc::Global;
use theory_syntax::{Judgement, Triple};

// Whether a context of the sort can be: no tree and no forest has a hole for a grove.
fn is_sort(sort: Sort) -> bool
    ensures { result ≡ sorts.is_sort (sort_of sort) }
{
    !matches!(
        sort,
        Sort::Context(DataSort::Grove, DataSort::Tree | DataSort::Forest)
    )
}

// Whether the term has the sort, as an argument of a step has it.
fn is_at(sort: Sort, term: &Term) -> bool
    ensures { result ≡ test.is_at (sort_of sort) (term_of term.now) }
{
    match (sort, term) {
        (Sort::Value(sort), _) => has_sort(term, sort),
        (_, Term::Logic(variable)) => same_sort(sort, variable.sort) && is_sort(sort),
        _ => false,
    }
}

// Whether both formulas of the triple can come of putting the term for the variable.
fn are_covered(triple: &Triple, variable: &LogicVar, term: &Term) -> bool
    requires { JudgementIsSmall (triple_of triple.now) }
    ensures { result
        ≡ (covered.covers (logic_var_of variable.now) (term_of term.now)
        (nameless (formula_of triple.now.pre))
        && covered.covers (logic_var_of variable.now) (term_of term.now)
        (nameless (formula_of triple.now.post))) }
{
    covers(&triple.pre, &Binders::Empty, variable, term)
        && covers(&triple.post, &Binders::Empty, variable, term)
}

// Whether the one premise is a triple that becomes this one with the terms of the pairs for their
// variables.
fn is_given(alloc: Global, written: &Written, pairs: &[Pair]) -> bool
    requires { IsReady written.now }
    ensures { result ≡ test.gives_by (steps_in written.now.earlier.now) written.now.citations.now
        (nameless (formula_of written.now.triple.now.pre))
        (command_of written.now.triple.now.command)
        (nameless (formula_of written.now.triple.now.post))
        (data_sort_of written.now.triple.now.sort) (replacing_each (map pair_of pairs.now)) }
{
    let [number] = written.citations else {
        return false;
    };
    let Some(Judgement::Triple(premise)) = cited(*number, written.earlier) else {
        return false;
    };
    let triple = written.triple;
    is_put(alloc, &premise.pre, pairs, &triple.pre)
        && is_put(alloc, &premise.post, pairs, &triple.post)
        && are_equal(&premise.command, &triple.command)
        && same_data_sort(premise.sort, triple.sort)
}

// Whether the one premise becomes the triple with the term for the variable.
fn becomes(
    alloc: Global,
    written: &Written,
    variable: &LogicVar,
    term: &Term,
) -> Result<bool, OutOfMemory>
    requires { IsReady written.now }
    ensures { IfOk result (λ becomes. becomes ≡ test.gives_by (steps_in written.now.earlier.now)
        written.now.citations.now (nameless (formula_of written.now.triple.now.pre))
        (command_of written.now.triple.now.command)
        (nameless (formula_of written.now.triple.now.post))
        (data_sort_of written.now.triple.now.sort)
        (replacing (logic_var_of variable.now) (term_of term.now))) }
{
    let (variable, term) = copies(alloc, variable, term)?;
    let var = AnyVar::Logic(variable);
    let pairs = [Pair { var, term }];
    let is_given = is_given(alloc, written, &pairs);
    drop(pairs);
    Ok(is_given)
}

/// The rule instance, with the program variables that the command changes. OutOfMemory comes only
/// where memory is refused.
pub(crate) fn instance(
    alloc: Global,
    written: &Written,
    changed: &[ProgVar],
) -> Result<Verdict, OutOfMemory>
    requires { IsReady written.now }
    ensures { IfOk result (λ v. verdict_in v ≡ test.instance_test
        (test.gives_by (steps_in written.now.earlier.now) written.now.citations.now
        (nameless (formula_of written.now.triple.now.pre))
        (command_of written.now.triple.now.command)
        (nameless (formula_of written.now.triple.now.post))
        (data_sort_of written.now.triple.now.sort))
        (λ t. not (occurring.term_mentions (map prog_var_of changed.now) t))
        (map term_of written.now.arguments.now) (nameless (formula_of written.now.triple.now.pre))
        (nameless (formula_of written.now.triple.now.post))) }
{
    let [first, term] = written.arguments else {
        return Ok(Verdict::Shape);
    };
    let Term::Logic(variable) = first else {
        return Ok(Verdict::Shape);
    };
    let concludes = is_at(variable.sort, first)
        && is_at(variable.sort, term)
        && are_covered(written.triple, variable, term);
    if !concludes {
        return Ok(Verdict::Shape);
    }
    if !becomes(alloc, written, variable, term)? {
        return Ok(Verdict::Premises);
    }
    Ok(last(!term_mentions(changed, term), SideName::Modified))
}
