// The proof of a procedure.
ghost use Rattle.std.specs.Prelude.{◌≡◌, IfOk, [], ◌∷◌, ◌++◌, map, take, codes};
ghost use Rattle.model_shapes.specs.Sorts.{grove};
ghost use Rattle.model_formulas.specs.Formulas.{empty};
ghost use Rattle.model_commands.specs.Commands.{block, stop, ◌then◌};
ghost use Rattle.model_commands.specs.Theories.{by_rule};
ghost use Rattle.dom_terms.specs.Terms.{term_of};
ghost use Rattle.theory_syntax.specs.Judgements.{judgement_of, reason_of, step_of};
ghost use Rattle.model_generator.specs.Generated.{x_term, new_root, some_root};
ghost use Rattle.model_generator.specs.Generated.{same_tag, nothing_yet, beginning};
ghost use Rattle.model_generator.specs.Generated.{creation, body};
ghost use Rattle.model_generator.specs.Generated.{about, hoare, step_by, proof};

use crate::commands::{body, creation, creation_block};
use crate::formulas::{beginning, nothing_yet, root_of_x, same_tag, some_root};
use crate::judgements::{about, hoare};
use crate::variables::x_term;
use dom_terms::{Numbers, OutOfMemory, Terms, Text, with};
use formula_syntax::Formula;
use std::alloc::Global;
use theory_syntax::{Command, Judgement, Reason, Step, Steps};

// The numbers as a list.
fn cited(alloc: Global, citations: &[u32]) -> Result<Numbers, OutOfMemory>
    ensures { IfOk result (λ numbers. numbers ≡ citations.now) }
{
    let mut numbers = Numbers::new(alloc);
    for number in citations {
        numbers.push(*number)?;
    }
    Ok(numbers)
}

// The reason that a step gives: its rule, what it cites and its arguments.
fn reason(
    alloc: Global,
    rule: &str,
    citations: &[u32],
    arguments: Terms,
) -> Result<Reason, OutOfMemory>
    ensures { IfOk result (λ reason.
        reason_of reason ≡ by_rule rule.now citations.now (map term_of arguments)) }
{
    let (arguments, name) = with(arguments, Text::from_str(alloc, rule))?;
    let ((arguments, name), premises) = with((arguments, name), cited(alloc, citations))?;
    Ok(Reason::Rule {
        name,
        premises,
        arguments,
    })
}

// A step: its number, its rule, what it cites, its arguments and what it says.
fn step_by(
    alloc: Global,
    number: u32,
    rule: &str,
    citations: &[u32],
    arguments: Terms,
    judgement: Judgement,
) -> Result<Step, OutOfMemory>
    ensures { IfOk result (λ step. step_of step ≡ record {
      number = number;
      line = 0;
      reason = by_rule rule.now citations.now (map term_of arguments);
      judgement = judgement_of judgement;
    }) }
{
    let reason = reason(alloc, rule, citations, arguments);
    let (judgement, reason) = with(judgement, reason)?;
    Ok(Step {
        number,
        line: 0,
        reason,
        judgement,
    })
}

// The axiom.
fn axiom(alloc: Global, k: u32) -> Result<Step, OutOfMemory>
    ensures { IfOk result (λ step. step_of step
        ≡ step_by 1 (codes "create") [] []
        (hoare (nothing_yet k) (creation k) (new_root k x_term))) }
{
    let ends = with(nothing_yet(alloc, k)?, root_of_x(alloc, k))?;
    let (ends, command) = with(ends, creation(alloc, k))?;
    let says = hoare(ends, command);
    step_by(alloc, 1, "create", &[], Terms::new(alloc), says)
}

// The grove is empty where the body begins.
fn begins_empty(alloc: Global, k: u32) -> Result<Step, OutOfMemory>
    ensures { IfOk result (λ step. step_of step
        ≡ step_by 2 (codes "and_left") [] [] (about beginning (empty grove))) }
{
    let says = about((beginning(alloc)?, Formula::EmptyGrove));
    step_by(alloc, 2, "and_left", &[], Terms::new(alloc), says)
}

// The tag is itself.
fn tag_is_itself(alloc: Global, k: u32) -> Result<Step, OutOfMemory>
    ensures { IfOk result (λ step. step_of step
        ≡ step_by 3 (codes "eq_refl") [] [] (about beginning (same_tag k))) }
{
    let says = about(with(beginning(alloc)?, same_tag(alloc, k))?);
    step_by(alloc, 3, "eq_refl", &[], Terms::new(alloc), says)
}

// So what the axiom requires is there.
fn requires_met(alloc: Global, k: u32) -> Result<Step, OutOfMemory>
    ensures { IfOk result (λ step. step_of step
        ≡ step_by 4 (codes "and_in") (2 ∷ 3 ∷ []) [] (about beginning (nothing_yet k))) }
{
    let says = about(with(beginning(alloc)?, nothing_yet(alloc, k))?);
    step_by(alloc, 4, "and_in", &[2, 3], Terms::new(alloc), says)
}

// `x` as the one argument.
fn x_alone(alloc: Global) -> Result<Terms, OutOfMemory>
    ensures { IfOk result (λ arguments. map term_of arguments ≡ x_term ∷ []) }
{
    let mut arguments = Terms::new(alloc);
    arguments.push(x_term(alloc)?)?;
    Ok(arguments)
}

// The number of the new root is hidden.
fn number_hidden(alloc: Global, k: u32) -> Result<Step, OutOfMemory>
    ensures { IfOk result (λ step. step_of step
        ≡ step_by 5 (codes "exists_in") [] (x_term ∷ [])
        (about (new_root k x_term) (some_root k))) }
{
    let says = about(with(root_of_x(alloc, k)?, some_root(alloc, k))?);
    let (says, arguments) = with(says, x_alone(alloc))?;
    step_by(alloc, 5, "exists_in", &[], arguments, says)
}

// The creation, from the beginning to some root.
fn creates(alloc: Global, k: u32) -> Result<Step, OutOfMemory>
    ensures { IfOk result (λ step. step_of step
        ≡ step_by 6 (codes "consequence") (4 ∷ 1 ∷ 5 ∷ []) []
        (hoare beginning (creation k) (some_root k))) }
{
    let ends = with(beginning(alloc)?, some_root(alloc, k))?;
    let (ends, command) = with(ends, creation(alloc, k))?;
    let says = hoare(ends, command);
    step_by(alloc, 6, "consequence", &[4, 1, 5], Terms::new(alloc), says)
}

// The same in a block.
fn block_creates(alloc: Global, k: u32) -> Result<Step, OutOfMemory>
    ensures { IfOk result (λ step. step_of step
        ≡ step_by 7 (codes "seq") (6 ∷ []) []
        (hoare beginning (block (creation k then stop)) (some_root k))) }
{
    let ends = with(beginning(alloc)?, some_root(alloc, k))?;
    let (ends, block) = with(ends, creation_block(alloc, k))?;
    let says = hoare(ends, Command::Block(block));
    step_by(alloc, 7, "seq", &[6], Terms::new(alloc), says)
}

// The body, from nothing to some root.
fn body_creates(alloc: Global, k: u32) -> Result<Step, OutOfMemory>
    ensures { IfOk result (λ step. step_of step
        ≡ step_by 8 (codes "local") (7 ∷ []) []
        (hoare (empty grove) (body k) (some_root k))) }
{
    let (body, post) = with(body(alloc, k)?, some_root(alloc, k))?;
    let says = hoare((Formula::EmptyGrove, post), body);
    step_by(alloc, 8, "local", &[7], Terms::new(alloc), says)
}

// The step at the end.
fn put(steps: &mut Steps, step: Step) -> Result<(), OutOfMemory>
    ensures { IfOk result (λ done.
        map step_of steps.new ≡ map step_of steps.old ++ step_of step ∷ []) }
{
    steps.push(step)
}

// The axiom, and its requires from the beginning.
fn first_half(alloc: Global, k: u32) -> Result<Steps, OutOfMemory>
    ensures { IfOk result (λ steps. map step_of steps ≡ take 4 (proof k)) }
{
    let mut steps = Steps::new(alloc);
    put(&mut steps, axiom(alloc, k)?)?;
    put(&mut steps, begins_empty(alloc, k)?)?;
    put(&mut steps, tag_is_itself(alloc, k)?)?;
    put(&mut steps, requires_met(alloc, k)?)?;
    Ok(steps)
}

/// The proof: the axiom, its requires from the beginning, its ensures with the number hidden.
pub fn proof(alloc: Global, k: u32) -> Result<Steps, OutOfMemory>
    ensures { IfOk result (λ steps. map step_of steps ≡ proof k) }
{
    let mut steps = first_half(alloc, k)?;
    put(&mut steps, number_hidden(alloc, k)?)?;
    put(&mut steps, creates(alloc, k)?)?;
    put(&mut steps, block_creates(alloc, k)?)?;
    put(&mut steps, body_creates(alloc, k)?)?;
    Ok(steps)
}
