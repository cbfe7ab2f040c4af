// Commands.
ghost use Rattle.std.specs.Prelude.{◌≡◌, map};
ghost use Rattle.model_commands.specs.Commands.{insert_before};
ghost use Rattle.model_grammar.specs.Terms.{in_command};
ghost use Rattle.dom_terms.specs.Terms.{prog_var_of, term_of};
ghost use Rattle.theory_syntax.specs.Commands.{block_of, command_of};
ghost use Rattle.token_readers.specs.Reading.{sep_list};
ghost use Rattle.token_readers.specs.Giving.{Gives};
ghost use Rattle.token_readers.specs.Leaves.{lexemes_in};
ghost use Rattle.logic_text.specs.TermReaders.{term_at};
ghost use Rattle.proof_text.specs.Queries.{query_of, change_of};
ghost use Rattle.proof_text.specs.Commands.{cond_at, semicolon, block_rest, block_at, one_at, two_at, three_at, setting_at, choice_at, loop_at, local_at, call_at, change_at, command_at};

use crate::bracketed::{terms, variables};
use crate::conditions::condition;
use crate::sorts::{value_sort, variable};
use dom_terms::{ProgVar, Term, with};
use logic_text::{Place, term};
use std::alloc::Global;
use text_tokens::Front;
use theory_syntax::{Block, Command};
use token_readers::{ReadFault, expect, followed_by, name, skip};

/// What is asked of the document.
#[derive(Clone, Copy)]
pub enum Query {
    Create,
    Name,
    Parent,
    Children,
}

fn asked(query: Query, x: ProgVar, argument: Term) -> Command
    ensures { command_of result ≡ query_of query (prog_var_of x) (term_of argument) }
{
    match query {
        Query::Create => Command::Create(x, argument),
        Query::Name => Command::Name(x, argument),
        Query::Parent => Command::Parent(x, argument),
        Query::Children => Command::Children(x, argument),
    }
}

// A query, after its word.
#[tactic(auto, unfolding(crate::specs::Commands::one_at))]
#[inline(always)]
fn one(
    alloc: Global,
    depth: u32,
    query: Query,
    x: ProgVar,
    tokens: &mut Front,
) -> Result<Command, ReadFault>
    ensures { Gives (λ found. (command_of found, lexemes_in tokens.new)) result
        (one_at (term_at in_command depth) (query_of query (prog_var_of x))
        (lexemes_in tokens.old)) }
{
    let x = followed_by(x, tokens, "(")?;
    let both = with(x, term(alloc, Place::Command, depth, tokens))?;
    let (x, argument) = followed_by(both, tokens, ")")?;
    Ok(asked(query, x, argument))
}

/// What two terms are asked for: a change of the document, or an item of a list of children.
#[derive(Drop)]
pub enum Change {
    Append,
    Remove,
    Item(ProgVar),
}

fn changed(change: Change, first: Term, second: Term) -> Command
    ensures { command_of result ≡ change_of change (term_of first) (term_of second) }
{
    match change {
        Change::Append => Command::Append(first, second),
        Change::Remove => Command::Remove(first, second),
        Change::Item(x) => Command::Item(x, first, second),
    }
}

// Two terms in brackets.
#[tactic(auto, unfolding(crate::specs::Commands::two_at))]
#[inline(always)]
fn two(alloc: Global, depth: u32, change: Change, tokens: &mut Front) -> Result<Command, ReadFault>
    ensures { Gives (λ found. (command_of found, lexemes_in tokens.new)) result
        (two_at (term_at in_command depth) (change_of change) (lexemes_in tokens.old)) }
{
    let change = followed_by(change, tokens, "(")?;
    let begun = with(change, term(alloc, Place::Command, depth, tokens))?;
    let begun = followed_by(begun, tokens, ",")?;
    let whole = with(begun, term(alloc, Place::Command, depth, tokens))?;
    let ((change, first), second) = followed_by(whole, tokens, ")")?;
    Ok(changed(change, first, second))
}

// Three terms in brackets: a parent, a child and the child before which it goes.
#[tactic(auto, unfolding(crate::specs::Commands::three_at))]
#[inline(always)]
fn three(alloc: Global, depth: u32, tokens: &mut Front) -> Result<Command, ReadFault>
    ensures { Gives (λ found. (command_of found, lexemes_in tokens.new)) result
        (three_at (term_at in_command depth) insert_before (lexemes_in tokens.old)) }
{
    expect(tokens, "(")?;
    let parent = term(alloc, Place::Command, depth, tokens)?;
    let parent = followed_by(parent, tokens, ",")?;
    let begun = with(parent, term(alloc, Place::Command, depth, tokens))?;
    let begun = followed_by(begun, tokens, ",")?;
    let whole = with(begun, term(alloc, Place::Command, depth, tokens))?;
    let ((parent, child), next) = followed_by(whole, tokens, ")")?;
    Ok(Command::InsertBefore(parent, child, next))
}

// What the variable is set to.
#[tactic(auto, unfolding(crate::specs::Commands::setting_at))]
fn setting(alloc: Global, depth: u32, x: ProgVar, tokens: &mut Front) -> Result<Command, ReadFault>
    ensures { Gives (λ found. (command_of found, lexemes_in tokens.new)) result
        (setting_at (term_at in_command depth) (prog_var_of x) (lexemes_in tokens.old)) }
{
    if skip(tokens, "createNode") {
        return one(alloc, depth, Query::Create, x, tokens);
    }
    if skip(tokens, "nodeName") {
        return one(alloc, depth, Query::Name, x, tokens);
    }
    if skip(tokens, "parentNode") {
        return one(alloc, depth, Query::Parent, x, tokens);
    }
    if skip(tokens, "childNodes") {
        return one(alloc, depth, Query::Children, x, tokens);
    }
    if skip(tokens, "item") {
        return two(alloc, depth, Change::Item(x), tokens);
    }
    let (x, value) = with(x, term(alloc, Place::Command, depth, tokens))?;
    Ok(Command::Assign(x, value))
}

// A command that begins with a name or with the word for a change of the document.
#[tactic(auto, unfolding(crate::specs::Commands::change_at))]
fn other_command(alloc: Global, depth: u32, tokens: &mut Front) -> Result<Command, ReadFault>
    ensures { Gives (λ found. (command_of found, lexemes_in tokens.new)) result
        (change_at (term_at in_command depth) (lexemes_in tokens.old)) }
{
    if skip(tokens, "appendChild") {
        return two(alloc, depth, Change::Append, tokens);
    }
    if skip(tokens, "removeChild") {
        return two(alloc, depth, Change::Remove, tokens);
    }
    // the tokens have the word as a symbol in a file of version 2 alone
    if skip(tokens, "insertBefore") {
        return three(alloc, depth, tokens);
    }
    let x = followed_by(variable(alloc, tokens)?, tokens, ":=")?;
    setting(alloc, depth, x, tokens)
}

// What stands after the word `call`.
#[tactic(auto, unfolding(crate::specs::Commands::call_at))]
fn called(alloc: Global, depth: u32, tokens: &mut Front) -> Result<Command, ReadFault>
    ensures { Gives (λ found. (command_of found, lexemes_in tokens.new)) result
        (call_at u32.MAX (term_at in_command depth) (lexemes_in tokens.old)) }
{
    let results = followed_by(variables(alloc, tokens)?, tokens, ":=")?;
    let named = with(results, name(alloc, tokens))?;
    let ((results, procedure), arguments) = with(
        named,
        terms(alloc, Place::Command, depth, tokens),
    )?;
    Ok(Command::Call(results, procedure, arguments))
}

// One or more commands with semicolons between them.
#[cycle(command)]
fn commands(alloc: Global, depth: u32, tokens: &mut Front) -> Result<Block, ReadFault>
    ensures { Gives (λ found. (map command_of found, lexemes_in tokens.new)) result
        (sep_list semicolon (command_at u32.MAX depth) u32.MAX (lexemes_in tokens.old)) }
{
    let mut found = Block::new(alloc);
    for _ in 0..u32::MAX {
        let item = command(alloc, depth, tokens)?;
        found.push(item)?;
        if !skip(tokens, ";") {
            return Ok(found);
        }
    }
    Err(ReadFault::Memory)
}

// What stands after the brace of a block.
#[cycle(command)]
#[tactic(auto, unfolding(crate::specs::Commands::block_rest))]
fn rest_of_block(alloc: Global, depth: u32, tokens: &mut Front) -> Result<Block, ReadFault>
    ensures { Gives (λ found. (block_of found, lexemes_in tokens.new)) result
        (block_rest u32.MAX (command_at u32.MAX depth) (lexemes_in tokens.old)) }
{
    followed_by(commands(alloc, depth, tokens)?, tokens, "}")
}

// A block.
#[cycle(command)]
#[tactic(auto, unfolding(crate::specs::Commands::block_at))]
fn block(alloc: Global, depth: u32, tokens: &mut Front) -> Result<Block, ReadFault>
    ensures { Gives (λ found. (block_of found, lexemes_in tokens.new)) result
        (block_at u32.MAX (command_at u32.MAX depth) (lexemes_in tokens.old)) }
{
    expect(tokens, "{")?;
    rest_of_block(alloc, depth, tokens)
}

// What stands after the word `if`.
#[cycle(command)]
#[tactic(auto, unfolding(crate::specs::Commands::choice_at))]
fn choice(alloc: Global, depth: u32, tokens: &mut Front) -> Result<Command, ReadFault>
    ensures { Gives (λ found. (command_of found, lexemes_in tokens.new)) result
        (choice_at (cond_at depth) (block_at u32.MAX (command_at u32.MAX depth))
        (lexemes_in tokens.old)) }
{
    let begun = with(
        condition(alloc, depth, tokens)?,
        block(alloc, depth, tokens),
    )?;
    let begun = followed_by(begun, tokens, "else")?;
    let ((test, first), second) = with(begun, block(alloc, depth, tokens))?;
    Ok(Command::If(test, first, second))
}

// What stands after the word `while`.
#[cycle(command)]
#[tactic(auto, unfolding(crate::specs::Commands::loop_at))]
fn repeated(alloc: Global, depth: u32, tokens: &mut Front) -> Result<Command, ReadFault>
    ensures { Gives (λ found. (command_of found, lexemes_in tokens.new)) result
        (loop_at (cond_at depth) (block_at u32.MAX (command_at u32.MAX depth))
        (lexemes_in tokens.old)) }
{
    let (test, body) = with(
        condition(alloc, depth, tokens)?,
        block(alloc, depth, tokens),
    )?;
    Ok(Command::While(test, body))
}

// What stands after the word `local`.
#[cycle(command)]
#[tactic(auto, unfolding(crate::specs::Commands::local_at))]
fn with_local(alloc: Global, depth: u32, tokens: &mut Front) -> Result<Command, ReadFault>
    ensures { Gives (λ found. (command_of found, lexemes_in tokens.new)) result
        (local_at (block_at u32.MAX (command_at u32.MAX depth)) (lexemes_in tokens.old)) }
{
    let name = name(alloc, tokens)?;
    expect(tokens, ":")?;
    let sort = value_sort(tokens)?;
    let body = block(alloc, depth, tokens)?;
    Ok(Command::Local(ProgVar { name, sort }, body))
}

/// A command, nested at most so deep; moves past it.
#[cycle(command)]
#[tactic(auto, unfolding(crate::specs::Commands::command_at))]
pub fn command(alloc: Global, depth: u32, tokens: &mut Front) -> Result<Command, ReadFault>
    ensures { Gives (λ found. (command_of found, lexemes_in tokens.new)) result
        (command_at u32.MAX depth (lexemes_in tokens.old)) }
{
    if depth == 0 {
        return Err(ReadFault::Memory);
    }
    if skip(tokens, "skip") {
        return Ok(Command::Skip);
    }
    if skip(tokens, "{") {
        let block = rest_of_block(alloc, depth - 1, tokens)?;
        return Ok(Command::Block(block));
    }
    if skip(tokens, "if") {
        return choice(alloc, depth - 1, tokens);
    }
    if skip(tokens, "while") {
        return repeated(alloc, depth - 1, tokens);
    }
    if skip(tokens, "local") {
        return with_local(alloc, depth - 1, tokens);
    }
    if skip(tokens, "call") {
        return called(alloc, depth - 1, tokens);
    }
    other_command(alloc, depth - 1, tokens)
}
