// Steps of proofs.
ghost use Rattle.std.specs.Prelude.{◌≡◌, IfOk, map, true};
ghost use Rattle.std.specs.Bool.{OnTrue};
ghost use Rattle.std.specs.List.{list_all};
ghost use Rattle.model_files.specs.FileFaults.{judgement_sorted};
ghost use Rattle.dom_terms.specs.Terms.{term_of};
ghost use Rattle.theory_syntax.specs.Judgements.{reason_of, step_of};
ghost use Rattle.declared_sorts.specs.Declarations.{declared_of, scope_in};
ghost use Rattle.declared_sorts.specs.Judged.{steps_judged};
ghost use Rattle.declared_sorts.specs.Known.{Knows};
ghost use Rattle.declared_sorts.specs.Settled.{step_settled};
ghost use Rattle.token_readers.specs.Reading.{leaf};
ghost use Rattle.token_readers.specs.Giving.{Gives};
ghost use Rattle.token_readers.specs.Leaves.{lexemes_in, leaf_number};
ghost use Rattle.proof_text.specs.Lists.{bracketed_at};
ghost use Rattle.proof_text.specs.Theories.{arguments_at, reason_at, step_tail};
ghost use Rattle.proof_text.specs.SortedTheories.{sorted_step_tail, sorted_steps_at};

use crate::bracketed::{bracketed, listed_terms};
use crate::judgements::judgement;
use declared_sorts::{Declared, set_step};
use dom_terms::{Numbers, Terms, with};
use logic_text::Place;
use std::alloc::Global;
use text_tokens::Front;
use theory_syntax::{Reason, Step, Steps};
use token_readers::{ReadFault, Reader, expect, followed_by, number, skip, step_line, word};

// Reads numbers of steps.
#[derive(Clone, Copy)]
struct NumberReader;

impl Reader<u32> for NumberReader {
    ghost use Rattle.std.specs.Prelude.{ℕ};

    ghost Seen = { ℕ };

    ghost seen = { λ number. number };

    ghost reading = { λ _. leaf leaf_number };

    fn read(&self, _alloc: Global, tokens: &mut Front) -> Result<u32, ReadFault>
        ensures { Gives (λ found. (found, lexemes_in tokens.new)) result
            (leaf leaf_number (lexemes_in tokens.old)) }
    {
        number(tokens)
    }
}

// The numbers of the steps that a step cites, in brackets.
fn premises(alloc: Global, tokens: &mut Front) -> Result<Numbers, ReadFault>
    ensures { Gives (λ found. (found, lexemes_in tokens.new)) result
        (bracketed_at (leaf leaf_number) u32.MAX (lexemes_in tokens.old)) }
{
    bracketed(alloc, &NumberReader, tokens)
}

// The arguments of a rule, after the word `with`.
#[tactic(auto, unfolding(crate::specs::Theories::arguments_at))]
fn arguments(alloc: Global, depth: u32, tokens: &mut Front) -> Result<Terms, ReadFault>
    ensures { Gives (λ found. (map term_of found, lexemes_in tokens.new)) result
        (arguments_at depth u32.MAX (lexemes_in tokens.old)) }
{
    if !skip(tokens, "with") {
        return Ok(Terms::new(alloc));
    }
    expect(tokens, "(")?;
    followed_by(
        listed_terms(alloc, Place::Formula, depth, tokens)?,
        tokens,
        ")",
    )
}

// Why the step holds.
#[tactic(auto, unfolding(crate::specs::Theories::reason_at))]
#[inline(always)]
fn reason(alloc: Global, depth: u32, tokens: &mut Front) -> Result<Reason, ReadFault>
    ensures { Gives (λ found. (reason_of found, lexemes_in tokens.new)) result
        (reason_at depth u32.MAX (lexemes_in tokens.old)) }
{
    if skip(tokens, "auto") {
        return Ok(Reason::Auto);
    }
    expect(tokens, "by")?;
    let cited = with(word(alloc, tokens)?, premises(alloc, tokens))?;
    let ((name, premises), arguments) = with(cited, arguments(alloc, depth, tokens))?;
    let reason = Reason::Rule {
        name,
        premises,
        arguments,
    };
    Ok(reason)
}

// What stands after the word `step`, which is on the line.
#[tactic(auto, unfolding(crate::specs::Theories::step_tail))]
fn step(alloc: Global, depth: u32, line: u32, tokens: &mut Front) -> Result<Step, ReadFault>
    ensures { Gives (λ found. (step_of found, lexemes_in tokens.new)) result
        (step_tail depth u32.MAX line (lexemes_in tokens.old)) }
{
    let number = number(tokens)?;
    let reason = followed_by(reason(alloc, depth, tokens)?, tokens, ":")?;
    let both = with(reason, judgement(alloc, depth, tokens))?;
    let (reason, judgement) = followed_by(both, tokens, ";")?;
    let step = Step {
        number,
        line,
        reason,
        judgement,
    };
    Ok(step)
}

// A step that was read.
#[derive(Drop)]
struct ReadStep {
    // each variable in it with the sort of its declaration
    step: Step,
    // each of them is declared, first with the sort that it has
    is_settled: bool,
    // the formulas of its judgement may be judged at its sort; where false, that isn't known
    is_judged: bool,
}

// A step, whose variables get their sorts while it is at hand.
#[tactic(auto, unfolding(crate::specs::SortedTheories::sorted_step_tail))]
fn sorted_step(
    alloc: Global,
    depth: u32,
    line: u32,
    declared: &Declared,
    tokens: &mut Front,
) -> Result<ReadStep, ReadFault>
    requires { Knows declared.now }
    ensures read { Gives (λ found. (step_of found.step, lexemes_in tokens.new)) result
        (sorted_step_tail (declared_of declared.now) depth u32.MAX line
        (lexemes_in tokens.old)) }
    ensures settled { IfOk result (λ found.
        found.is_settled ≡ step_settled (scope_in declared.now) (step_of found.step)) }
    ensures judged { IfOk result (λ found.
        OnTrue found.is_judged (judgement_sorted (step_of found.step).judgement ≡ true)) }
{
    let mut step = step(alloc, depth, line, tokens)?;
    let told = set_step(&mut step, declared);
    Ok(ReadStep {
        step,
        is_settled: told.is_settled,
        is_judged: told.is_judged,
    })
}

/// The steps of a proof that were read, and what is told of their variables and of their formulas.
#[derive(Drop)]
pub struct ReadSteps {
    /// The steps, each variable with the sort of its declaration.
    pub steps: Steps,
    /// Each variable in them is declared, first with the sort that it has.
    pub are_settled: bool,
    /// The formulas of each step may be judged at its sort; where false, that isn't known.
    pub are_judged: bool,
}

/// The steps of a proof, as long as one begins, with the sorts of what is declared; moves past
/// them.
pub fn steps(
    alloc: Global,
    depth: u32,
    declared: &Declared,
    tokens: &mut Front,
) -> Result<ReadSteps, ReadFault>
    requires { Knows declared.now }
    ensures read { Gives (λ found. (map step_of found.steps, lexemes_in tokens.new)) result
        (sorted_steps_at (declared_of declared.now) depth u32.MAX (lexemes_in tokens.old)) }
    ensures settled { IfOk result (λ found. found.are_settled
        ≡ list_all (step_settled (scope_in declared.now)) (map step_of found.steps)) }
    ensures judged { IfOk result (λ found.
        OnTrue found.are_judged (steps_judged (map step_of found.steps) ≡ true)) }
{
    let mut steps = Steps::new(alloc);
    let mut are_settled = true;
    let mut are_judged = true;
    for _ in 0..u32::MAX {
        let Some(line) = step_line(tokens) else {
            return Ok(ReadSteps {
                steps,
                are_settled,
                are_judged,
            });
        };
        let item = sorted_step(alloc, depth, line, declared, tokens)?;
        are_settled = are_settled && item.is_settled;
        are_judged = are_judged && item.is_judged;
        steps.push(item.step)?;
    }
    Err(ReadFault::Memory)
}
