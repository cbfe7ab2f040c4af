// Conditions.
ghost use Rattle.std.specs.Prelude.{◌≡◌};
ghost use Rattle.model_grammar.specs.Terms.{in_command};
ghost use Rattle.dom_terms.specs.Terms.{term_of};
ghost use Rattle.dom_terms.specs.Conditions.{cond_of};
ghost use Rattle.token_readers.specs.Giving.{Gives};
ghost use Rattle.token_readers.specs.Leaves.{lexemes_in};
ghost use Rattle.logic_text.specs.TermReaders.{term_at};
ghost use Rattle.proof_text.specs.Commands.{cond_joined_at, cond_bracket_at, lone_name, cond_compared_at, cond_at};

use dom_terms::{Cond, Term, with};
use logic_text::{Place, term};
use std::alloc::Global;
use std::mem;
use text_tokens::Front;
use token_readers::{ReadFault, followed_by, skip};

// A term of a command that is a variable, as a condition.
fn lone(left: Term, tokens: &Front) -> Result<Cond, ReadFault>
    ensures { Gives (λ found. (cond_of found, lexemes_in tokens.now)) result
        (lone_name (term_of left) (lexemes_in tokens.now)) }
{
    match left {
        Term::Prog(variable) => Ok(Cond::Holds(variable)),
        _ => Err(ReadFault::Text(tokens.count())),
    }
}

// What stands after the first term of a condition.
#[tactic(auto, unfolding(crate::specs::Commands::cond_compared_at))]
fn compared(alloc: Global, depth: u32, left: Term, tokens: &mut Front) -> Result<Cond, ReadFault>
    ensures { Gives (λ found. (cond_of found, lexemes_in tokens.new)) result
        (cond_compared_at (term_at in_command depth) (term_of left) (lexemes_in tokens.old)) }
{
    if skip(tokens, "=") {
        let (left, right) = with(left, term(alloc, Place::Command, depth, tokens))?;
        return Ok(Cond::Eq(left, right));
    }
    if skip(tokens, "<=") {
        let (left, right) = with(left, term(alloc, Place::Command, depth, tokens))?;
        return Ok(Cond::Le(left, right));
    }
    lone(left, tokens)
}

// A condition in a box of its own, which is taken before those of its parts are.
#[cycle(condition)]
fn boxed(alloc: Global, depth: u32, tokens: &mut Front) -> Result<Box<Cond>, ReadFault>
    ensures { Gives (λ found. (cond_of found.value, lexemes_in tokens.new)) result
        (cond_at depth (lexemes_in tokens.old)) }
{
    let found = Box::new(alloc, Cond::True)?;
    let (mut found, read) = with(found, condition(alloc, depth, tokens))?;
    drop(mem::replace(&mut *found, read));
    Ok(found)
}

// What stands after an open bracket and a condition.
#[cycle(condition)]
#[tactic(auto, unfolding(crate::specs::Commands::cond_joined_at))]
fn connected(
    alloc: Global,
    depth: u32,
    left: Box<Cond>,
    tokens: &mut Front,
) -> Result<Cond, ReadFault>
    ensures { Gives (λ found. (cond_of found, lexemes_in tokens.new)) result
        (cond_joined_at (cond_at depth) (cond_of left.value) (lexemes_in tokens.old)) }
{
    if skip(tokens, "and") {
        let both = with(left, boxed(alloc, depth, tokens))?;
        let (left, right) = followed_by(both, tokens, ")")?;
        return Ok(Cond::And(left, right));
    }
    if skip(tokens, "or") {
        let both = with(left, boxed(alloc, depth, tokens))?;
        let (left, right) = followed_by(both, tokens, ")")?;
        return Ok(Cond::Or(left, right));
    }
    drop(left);
    Err(ReadFault::Text(tokens.count()))
}

// What stands after an open bracket.
#[cycle(condition)]
#[tactic(auto, unfolding(crate::specs::Commands::cond_bracket_at))]
fn bracket(alloc: Global, depth: u32, tokens: &mut Front) -> Result<Cond, ReadFault>
    ensures { Gives (λ found. (cond_of found, lexemes_in tokens.new)) result
        (cond_bracket_at (cond_at depth) (lexemes_in tokens.old)) }
{
    if skip(tokens, "not") {
        let inner = followed_by(boxed(alloc, depth, tokens)?, tokens, ")")?;
        return Ok(Cond::Not(inner));
    }
    let left = boxed(alloc, depth, tokens)?;
    connected(alloc, depth, left, tokens)
}

/// A condition, nested at most so deep; moves past it.
#[cycle(condition)]
#[tactic(auto, unfolding(crate::specs::Commands::cond_at))]
pub fn condition(alloc: Global, depth: u32, tokens: &mut Front) -> Result<Cond, ReadFault>
    ensures { Gives (λ found. (cond_of found, lexemes_in tokens.new)) result
        (cond_at depth (lexemes_in tokens.old)) }
{
    if depth == 0 {
        return Err(ReadFault::Memory);
    }
    if skip(tokens, "(") {
        return bracket(alloc, depth - 1, tokens);
    }
    if skip(tokens, "true") {
        return Ok(Cond::True);
    }
    if skip(tokens, "false") {
        return Ok(Cond::False);
    }
    let left = term(alloc, Place::Command, depth, tokens)?;
    compared(alloc, depth - 1, left, tokens)
}
