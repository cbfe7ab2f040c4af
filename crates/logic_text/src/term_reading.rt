// Terms from tokens.
ghost use Rattle.std.specs.Prelude.{◌≡◌, ℕ, suc, List, ◌∷◌, drop, false, IfOk};
ghost use Rattle.std.specs.Option.{option_map};
ghost use Rattle.model_shapes.specs.Values.{int};
ghost use Rattle.model_terms.specs.Terms.{literal};
ghost use Rattle.dom_terms.specs.Terms.{term_of};
ghost use Rattle.token_readers.specs.Reading.{is_terminal, leaf};
ghost use Rattle.token_readers.specs.Giving.{Gives};
ghost use Rattle.token_readers.specs.Leaves.{lexeme_seen, lexemes_in};
ghost use Rattle.logic_text.specs.TermReaders.{leaf_term, negated, leaf_negative, operator_at, operation_at, word_at, term_at};
ghost use Rattle.logic_text.specs.Operators.{operator_of};
ghost use Rattle.logic_text.specs.Places.{place_of};

use dom_terms::{LogicVar, OutOfMemory, ProgVar, Sort, Term, Text, ValueSort};
use std::alloc::Global;
use text_tokens::{Front, Lexeme, TokenKind};
use token_readers::{ReadFault, expect, is_this, skip};

/// Where a term stands.
#[derive(Clone, Copy, Debug, PartialEq, Eq)]
pub enum Place {
    /// In a formula, where it may have variables of the logic.
    Formula,
    /// In a command, where it may not.
    Command,
}

// The term that a token is which is no reserved word and no symbol.
#[inline(always)]
fn leaf_of(alloc: Global, place: Place, first: Lexeme) -> Result<Option<Term>, OutOfMemory>
    ensures { IfOk result
        (λ found. option_map term_of found ≡ leaf_term (place_of place) (lexeme_seen first.entry)) }
{
    if let Some(name) = first.name() {
        let name = Text::from_str(alloc, name)?;
        let sort = ValueSort::Node;
        return Ok(Some(Term::Prog(ProgVar { name, sort })));
    }
    if let Some(name) = first.logic_name() {
        return match place {
            Place::Formula => {
                let name = Text::from_str(alloc, name)?;
                let sort = Sort::Value(ValueSort::Node);
                Ok(Some(Term::Logic(LogicVar { name, sort })))
            }
            Place::Command => Ok(None),
        };
    }
    if let Some(text) = first.literal(alloc)? {
        return Ok(Some(Term::Str(text)));
    }
    match first.number() {
        Some(number) if number <= 9_223_372_036_854_775_807 => {
            Ok(Some(Term::Int(number as i64)))
        }
        _ => Ok(None),
    }
}

/// A term of one token that is no reserved word and no symbol; moves past it. The token is
/// handed over too.
#[inline(always)]
pub fn leaf_term<'a>(
    alloc: Global,
    place: Place,
    first: Lexeme<'a>,
    tokens: &mut Front<'a>,
) -> Result<Term, ReadFault>
    requires { lexemes_in tokens.old ≡ lexeme_seen first ∷ drop 1 (lexemes_in tokens.old) }
    ensures { Gives (λ found. (term_of found, lexemes_in tokens.new)) result
        (leaf (leaf_term (place_of place)) (lexemes_in tokens.old)) }
{
    match leaf_of(alloc, place, first)? {
        Some(term) => {
            tokens.advance();
            Ok(term)
        }
        None => Err(ReadFault::Text(tokens.count())),
    }
}

// The number after a sign, which isn't 0.
fn negative(number: u64) -> Option<i64>
    ensures { option_map (λ i. literal (int i)) result ≡ negated number }
{
    if number == 0 || number > 9_223_372_036_854_775_807 {
        return None;
    }
    Some(-(number as i64))
}

// What stands after the sign of a negative literal.
fn leaf_negative(tokens: &mut Front) -> Result<Term, ReadFault>
    ensures { Gives (λ found. (term_of found, lexemes_in tokens.new)) result
        (leaf leaf_negative (lexemes_in tokens.old)) }
{
    let Some(first) = tokens.first() else {
        return Err(ReadFault::Text(0));
    };
    if let Some(number) = first.number() {
        if let Some(integer) = negative(number) {
            tokens.advance();
            return Ok(Term::Int(integer));
        }
    }
    Err(ReadFault::Text(tokens.count()))
}

// How two terms are put together.
#[derive(Clone, Copy)]
enum Operator {
    Add,
    Sub,
    Cat,
}

// The sign of an operation.
#[tactic(auto, unfolding(crate::specs::TermReaders::operator_at))]
fn sign(tokens: &mut Front) -> Result<Operator, ReadFault>
    ensures { Gives (λ found. (operator_of found, lexemes_in tokens.new)) result
        (operator_at (lexemes_in tokens.old)) }
{
    if skip(tokens, "+") {
        return Ok(Operator::Add);
    }
    if skip(tokens, "-") {
        return Ok(Operator::Sub);
    }
    if skip(tokens, "++") {
        return Ok(Operator::Cat);
    }
    Err(ReadFault::Text(tokens.count()))
}

fn operated(operator: Operator, left: Box<Term>, right: Box<Term>) -> Term
    ensures { term_of result ≡ operator_of operator (term_of left.value) (term_of right.value) }
{
    match operator {
        Operator::Add => Term::Add(left, right),
        Operator::Sub => Term::Sub(left, right),
        Operator::Cat => Term::Cat(left, right),
    }
}

// A term that doesn't begin with a brace. The first token is handed over too.
#[tactic(auto, unfolding(crate::specs::TermReaders::word_at))]
fn word<'a>(
    alloc: Global,
    place: Place,
    first: Lexeme<'a>,
    tokens: &mut Front<'a>,
) -> Result<Term, ReadFault>
    requires { lexemes_in tokens.old ≡ lexeme_seen first ∷ drop 1 (lexemes_in tokens.old) }
    ensures { Gives (λ found. (term_of found, lexemes_in tokens.new)) result
        (word_at (leaf (leaf_term (place_of place))) (lexemes_in tokens.old)) }
{
    if is_this(first, "-") {
        tokens.advance();
        return leaf_negative(tokens);
    }
    if is_this(first, "null") {
        tokens.advance();
        return Ok(Term::NullNode);
    }
    if is_this(first, "nolist") {
        tokens.advance();
        return Ok(Term::NullList);
    }
    if is_this(first, "yes") {
        tokens.advance();
        return Ok(Term::Bool(true));
    }
    if is_this(first, "no") {
        tokens.advance();
        return Ok(Term::Bool(false));
    }
    leaf_term(alloc, place, first, tokens)
}

// A term in a box of its own, which is taken before those of its parts are.
#[cycle(term)]
fn boxed<'a>(
    alloc: Global,
    place: Place,
    depth: u32,
    tokens: &mut Front<'a>,
) -> Result<Box<Term>, ReadFault>
    ensures { Gives (λ found. (term_of found.value, lexemes_in tokens.new)) result
        (term_at (place_of place) depth (lexemes_in tokens.old)) }
{
    let mut found = Box::new(alloc, Term::NullNode)?;
    *found = term(alloc, place, depth, tokens)?;
    Ok(found)
}

// What stands after an open brace.
#[cycle(term)]
#[tactic(auto, unfolding(crate::specs::TermReaders::operation_at))]
fn operation<'a>(
    alloc: Global,
    place: Place,
    depth: u32,
    tokens: &mut Front<'a>,
) -> Result<Term, ReadFault>
    ensures { Gives (λ found. (term_of found, lexemes_in tokens.new)) result
        (operation_at (term_at (place_of place) depth) (lexemes_in tokens.old)) }
{
    let left = boxed(alloc, place, depth, tokens)?;
    let operator = sign(tokens)?;
    let right = boxed(alloc, place, depth, tokens)?;
    expect(tokens, "}")?;
    Ok(operated(operator, left, right))
}

/// A term at the place, below which is nested at most so deep; moves past it. The first token is
/// handed over too.
#[cycle(term)]
#[tactic(auto, unfolding(crate::specs::TermReaders::term_at))]
pub fn term_from<'a>(
    alloc: Global,
    place: Place,
    depth: u32,
    first: Lexeme<'a>,
    tokens: &mut Front<'a>,
) -> Result<Term, ReadFault>
    requires { lexemes_in tokens.old ≡ lexeme_seen first ∷ drop 1 (lexemes_in tokens.old) }
    ensures { Gives (λ found. (term_of found, lexemes_in tokens.new)) result
        (term_at (place_of place) (suc depth) (lexemes_in tokens.old)) }
{
    if is_this(first, "{") {
        tokens.advance();
        return operation(alloc, place, depth, tokens);
    }
    word(alloc, place, first, tokens)
}

/// Whether the token is of a kind that reserved words and symbols have.
#[tactic(auto, using(token_readers::proofs::TerminalTests::is_no_terminal))]
pub fn is_word_or_symbol(token: Lexeme) -> bool
    ensures { result ≡ false → (text : List ℕ)
        → is_terminal text (lexeme_seen token.entry) ≡ false }
{
    token.kind == TokenKind::Symbol || token.kind == TokenKind::Word
}

/// A term at the place, nested at most so deep; moves past it.
#[cycle(term)]
#[tactic(auto, unfolding(crate::specs::TermReaders::term_at, crate::specs::TermReaders::word_at))]
pub fn term<'a>(
    alloc: Global,
    place: Place,
    depth: u32,
    tokens: &mut Front<'a>,
) -> Result<Term, ReadFault>
    ensures { Gives (λ found. (term_of found, lexemes_in tokens.new)) result
        (term_at (place_of place) depth (lexemes_in tokens.old)) }
{
    if depth == 0 {
        return Err(ReadFault::Memory);
    }
    let Some(first) = tokens.first() else {
        return Err(ReadFault::Text(0));
    };
    if is_word_or_symbol(first) {
        return term_from(alloc, place, depth - 1, first, tokens);
    }
    leaf_term(alloc, place, first, tokens)
}
