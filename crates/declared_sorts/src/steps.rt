// Judgements and steps of proofs.
ghost use Rattle.std.specs.Prelude.{◌≡◌, ◌&&◌, ◌++◌, true};
ghost use Rattle.std.specs.Bool.{OnTrue};
ghost use Rattle.std.specs.List.{list_all, flat_map};
ghost use Rattle.model_commands.specs.CommandParts.{arguments_of, variables_of};
ghost use Rattle.model_commands.specs.CommandParts.{variables_of_judgement, variables_of_term};
ghost use Rattle.model_files.specs.FileFaults.{is_judged_at, judgement_sorted};
ghost use Rattle.model_files.specs.Sizes.{IsSmall, JudgementIsSmall};
ghost use Rattle.model_grammar.specs.Sorts.{sorted_formula, sorted_reason};
ghost use Rattle.model_grammar.specs.Sorts.{sorted_judgement, sorted_step};
ghost use Rattle.dom_terms.specs.Sorts.{sort_of};
ghost use Rattle.formula_syntax.specs.Formulas.{formula_of};
ghost use Rattle.theory_syntax.specs.Judgements.{reason_of, judgement_of, step_of};
ghost use Rattle.declared_sorts.specs.Declarations.{declared_of, scope_in};
ghost use Rattle.declared_sorts.specs.Known.{Knows};
ghost use Rattle.declared_sorts.specs.Settled.{is_settled, step_settled};

use crate::declared::Declared;
use crate::formulas::set_formula;
use crate::sorted::{Sorted, set_all};
use dom_terms::Sort;
use formula_syntax::Formula;
use theory_syntax::{Judgement, Reason, Step};

/// What is told of two formulas, or of what they stand in, whose variables got their sorts.
#[derive(Clone, Copy)]
pub struct Told {
    /// Each variable is declared, first with the sort that it has.
    pub is_settled: bool,
    /// The formulas are small and may be judged at their sort; where false, that isn't known.
    pub is_judged: bool,
}

/// Gives each variable of two formulas the sort of its declaration, and tells whether each of them
/// is declared, first with the sort that it then has, and whether both formulas may be judged at
/// the sort.
pub fn set_formulas(
    left: &mut Formula,
    right: &mut Formula,
    sort: Sort,
    declared: &Declared,
) -> Told
    requires { Knows declared.now }
    ensures left { formula_of left.new
        ≡ sorted_formula (declared_of declared.now) (formula_of left.old) }
    ensures right { formula_of right.new
        ≡ sorted_formula (declared_of declared.now) (formula_of right.old) }
    ensures settled { result.is_settled ≡ list_all (is_settled (scope_in declared.now))
        (variables_of (formula_of left.new) ++ variables_of (formula_of right.new)) }
    ensures judged { OnTrue result.is_judged ((is_judged_at (sort_of sort) (formula_of left.new)
        && is_judged_at (sort_of sort) (formula_of right.new)) ≡ true) }
    ensures small { OnTrue result.is_judged
        (IsSmall (formula_of left.new) × IsSmall (formula_of right.new)) }
{
    let first = set_formula(left, sort, u32::MAX, declared);
    let second = set_formula(right, sort, u32::MAX, declared);
    Told {
        is_settled: first.is_settled & second.is_settled,
        is_judged: first.left > 0 && second.left > 0,
    }
}

// The same of a judgement.
#[tactic(auto, using(crate::proofs::Loops::last_behind))]
fn set_judgement(judgement: &mut Judgement, declared: &Declared) -> Told
    requires { Knows declared.now }
    ensures sorted { judgement_of judgement.new
        ≡ sorted_judgement (declared_of declared.now) (judgement_of judgement.old) }
    ensures settled { result.is_settled ≡ list_all (is_settled (scope_in declared.now))
        (variables_of_judgement (judgement_of judgement.new)) }
    ensures judged { OnTrue result.is_judged
        (judgement_sorted (judgement_of judgement.new) ≡ true) }
    ensures small { OnTrue result.is_judged (JudgementIsSmall (judgement_of judgement.new)) }
{
    match judgement {
        Judgement::Entails(entailment) => {
            let sort = entailment.sort;
            set_formulas(&mut entailment.left, &mut entailment.right, sort, declared)
        }
        Judgement::Triple(triple) => {
            let sort = Sort::Shape(triple.sort);
            let told = set_formulas(&mut triple.pre, &mut triple.post, sort, declared);
            let is_command_settled = triple.command.set_sorts(declared);
            Told {
                is_settled: told.is_settled & is_command_settled,
                is_judged: told.is_judged,
            }
        }
    }
}

// Gives each variable of the arguments of a reason the sort of its declaration, and tells whether
// each of them is declared, first with the sort that it then has.
fn set_reason(reason: &mut Reason, declared: &Declared) -> bool
    requires { Knows declared.now }
    ensures sorted { reason_of reason.new
        ≡ sorted_reason (declared_of declared.now) (reason_of reason.old) }
    ensures settled { result ≡ list_all (is_settled (scope_in declared.now))
        (flat_map variables_of_term (arguments_of (reason_of reason.new))) }
{
    match reason {
        Reason::Auto => true,
        Reason::Rule { arguments, .. } => set_all(arguments.as_mut_slice(), declared),
    }
}

/// Gives each variable of a step the sort of its declaration, and tells whether each of them is
/// declared, first with the sort that it then has, and whether the formulas of its judgement may be
/// judged at its sort.
pub fn set_step(step: &mut Step, declared: &Declared) -> Told
    requires { Knows declared.now }
    ensures sorted { step_of step.new ≡ sorted_step (declared_of declared.now) (step_of step.old) }
    ensures settled { result.is_settled ≡ step_settled (scope_in declared.now) (step_of step.new) }
    ensures judged { OnTrue result.is_judged
        (judgement_sorted (step_of step.new).judgement ≡ true) }
    ensures small { OnTrue result.is_judged (JudgementIsSmall (step_of step.new).judgement) }
{
    let is_reason_settled = set_reason(&mut step.reason, declared);
    let told = set_judgement(&mut step.judgement, declared);
    Told {
        is_settled: told.is_settled & is_reason_settled,
        is_judged: told.is_judged,
    }
}
