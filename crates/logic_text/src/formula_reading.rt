// Formulas from tokens.
ghost use Rattle.std.specs.Prelude.{◌≡◌, suc, ◌∷◌, drop, codes};
ghost use Rattle.model_formulas.specs.Formulas.{negation, existential, universal, one_tree, one_root};
ghost use Rattle.model_formulas.specs.Formulas.{length_is, value_meets};
ghost use Rattle.model_terms.specs.Variables.{var_sort};
ghost use Rattle.model_terms.specs.Terms.{variable as as_term};
ghost use Rattle.model_grammar.specs.Terms.{used_logic, in_formula};
ghost use Rattle.dom_terms.specs.Terms.{logic_var_of, term_of};
ghost use Rattle.formula_syntax.specs.Formulas.{formula_of};
ghost use Rattle.token_readers.specs.Reading.{ret, begins, then, expect, leaf};
ghost use Rattle.token_readers.specs.Giving.{Gives};
ghost use Rattle.token_readers.specs.Leaves.{lexeme_seen, lexemes_in};
ghost use Rattle.logic_text.specs.TermReaders.{leaf_term, term_at};
ghost use Rattle.logic_text.specs.Operators.{quantifier_of};
ghost use Rattle.logic_text.specs.FormulaReaders.{leaf_word, quantified_at, joined_at, joined_or_is, bracket_at, lone_variable, node_at, compared_at, formula_at};

use crate::connectives::{joined, joint, word_of};
use crate::logic_names::logic_name;
use crate::term_reading::{Place, is_word_or_symbol, leaf_term, term, term_from};
use dom_terms::{Copied, LogicVar, Sort, Term, Text, ValueSort, with};
use formula_syntax::Formula;
use std::alloc::Global;
use std::mem;
use text_tokens::{Front, Lexeme};
use token_readers::{ReadFault, expect, followed_by, is_this, skip};

/// A quantifier.
#[derive(Clone, Copy)]
pub enum Quantifier {
    Exists,
    Forall,
}

// The formula that the quantifier makes.
fn bound(quantifier: Quantifier, name: Text, inner: Box<Formula>) -> Formula
    ensures { formula_of result ≡ quantifier_of quantifier (used_logic name)
        (formula_of inner.value) }
{
    let sort = Sort::Value(ValueSort::Node);
    match quantifier {
        Quantifier::Exists => Formula::Exists(LogicVar { name, sort }, inner),
        Quantifier::Forall => Formula::Forall(LogicVar { name, sort }, inner),
    }
}

// Puts what was read in place of that with which the target was made. That owns nothing, so it
// isn't let go.
#[inline(always)]
fn put(target: &mut Formula, found: Formula)
    ensures { target.new ≡ found }
{
    mem::forget(mem::replace(target, found));
}

// A term of a formula that is a logic variable, as a formula.
fn lone(alloc: Global, left: Term, tokens: &Front, target: &mut Formula) -> Result<(), ReadFault>
    ensures { Gives (λ _. (formula_of target.new, lexemes_in tokens.now)) result
        (lone_variable (term_of left) (lexemes_in tokens.now)) }
{
    match left {
        Term::Logic(variable) => {
            put(target, Formula::Var(variable));
            Ok(())
        }
        _ => Err(ReadFault::Text(tokens.count())),
    }
}

// What stands after a quantifier.
#[cycle(part)]
#[tactic(auto, unfolding(crate::specs::FormulaReaders::quantified_at))]
fn quantified(
    alloc: Global,
    depth: u32,
    quantifier: Quantifier,
    tokens: &mut Front,
    target: &mut Formula,
) -> Result<(), ReadFault>
    ensures { Gives (λ _. (formula_of target.new, lexemes_in tokens.new)) result
        (quantified_at (formula_at depth) (quantifier_of quantifier) (lexemes_in tokens.old)) }
{
    let name = logic_name(alloc, tokens)?;
    expect(tokens, ".")?;
    let inner = followed_by(part(alloc, depth, tokens)?, tokens, ")")?;
    put(target, bound(quantifier, name, inner));
    Ok(())
}

// What stands after an open bracket and a formula, with a connective.
#[cycle(part)]
#[tactic(auto, unfolding(crate::specs::FormulaReaders::joined_at))]
fn connected(
    alloc: Global,
    depth: u32,
    left: Box<Formula>,
    tokens: &mut Front,
    target: &mut Formula,
) -> Result<(), ReadFault>
    ensures { Gives (λ _. (formula_of target.new, lexemes_in tokens.new)) result
        (joined_at (formula_at depth) (formula_of left.value) (lexemes_in tokens.old)) }
{
    let (left, connective) = with(left, joint(tokens))?;
    let parts = with(left, part(alloc, depth, tokens))?;
    let (left, right) = followed_by(parts, tokens, ")")?;
    put(target, joined(connective, left, right));
    Ok(())
}

// What stands after an open bracket, a logic variable and the word for what it meets.
#[cycle(part)]
fn met(
    alloc: Global,
    depth: u32,
    variable: LogicVar,
    tokens: &mut Front,
    target: &mut Formula,
) -> Result<(), ReadFault>
    ensures { Gives (λ _. (formula_of target.new, lexemes_in tokens.new)) result
        (then (formula_at depth) (λ p. expect (codes ")")
        (ret (value_meets (var_sort (logic_var_of variable)) (as_term (logic_var_of variable)) p)))
        (lexemes_in tokens.old)) }
{
    let parts = with(variable, part(alloc, depth, tokens))?;
    let (variable, inner) = followed_by(parts, tokens, ")")?;
    put(target, Formula::Is(variable, inner));
    Ok(())
}

// What stands after an open bracket and a formula.
#[cycle(part)]
fn connected_or_is(
    alloc: Global,
    depth: u32,
    left: Box<Formula>,
    tokens: &mut Front,
    target: &mut Formula,
) -> Result<(), ReadFault>
    ensures { Gives (λ _. (formula_of target.new, lexemes_in tokens.new)) result
        (joined_or_is (formula_at depth) (formula_of left.value) (lexemes_in tokens.old)) }
{
    if let Formula::Var(variable) = &*left {
        if skip(tokens, "is") {
            let variable = variable.copy(alloc);
            drop(left);
            return met(alloc, depth, variable?, tokens, target);
        }
    }
    connected(alloc, depth, left, tokens, target)
}

// What stands after an open bracket and the word for not.
#[cycle(part)]
fn negation(
    alloc: Global,
    depth: u32,
    tokens: &mut Front,
    target: &mut Formula,
) -> Result<(), ReadFault>
    ensures { Gives (λ _. (formula_of target.new, lexemes_in tokens.new)) result
        (then (formula_at depth) (λ p. expect (codes ")") (ret (negation p)))
        (lexemes_in tokens.old)) }
{
    let inner = followed_by(part(alloc, depth, tokens)?, tokens, ")")?;
    put(target, Formula::Not(inner));
    Ok(())
}

// What stands after an open bracket.
#[cycle(part)]
#[tactic(auto, unfolding(crate::specs::FormulaReaders::bracket_at))]
#[inline(always)]
fn bracket(
    alloc: Global,
    depth: u32,
    tokens: &mut Front,
    target: &mut Formula,
) -> Result<(), ReadFault>
    ensures { Gives (λ _. (formula_of target.new, lexemes_in tokens.new)) result
        (bracket_at (formula_at depth) (lexemes_in tokens.old)) }
{
    if skip(tokens, "not") {
        return negation(alloc, depth, tokens, target);
    }
    if skip(tokens, "exists") {
        return quantified(alloc, depth, Quantifier::Exists, tokens, target);
    }
    if skip(tokens, "forall") {
        return quantified(alloc, depth, Quantifier::Forall, tokens, target);
    }
    let left = part(alloc, depth, tokens)?;
    connected_or_is(alloc, depth, left, tokens, target)
}

// What stands after the name of a node and the sign.
#[cycle(part)]
#[tactic(auto, unfolding(crate::specs::FormulaReaders::node_at))]
fn node(
    alloc: Global,
    depth: u32,
    name: Term,
    tokens: &mut Front,
    target: &mut Formula,
) -> Result<(), ReadFault>
    ensures { Gives (λ _. (formula_of target.new, lexemes_in tokens.new)) result
        (node_at (term_at in_formula depth) (formula_at depth) (term_of name)
        (lexemes_in tokens.old)) }
{
    let terms = with(name, term(alloc, Place::Formula, depth, tokens))?;
    let terms = followed_by(terms, tokens, "[")?;
    let parts = with(terms, part(alloc, depth, tokens))?;
    let parts = followed_by(followed_by(parts, tokens, "]")?, tokens, "%")?;
    let (((name, number), inner), list) = with(parts, term(alloc, Place::Formula, depth, tokens))?;
    put(target, Formula::Node(name, number, inner, list));
    Ok(())
}

// What stands after the first term of a formula.
#[cycle(part)]
#[tactic(auto, unfolding(crate::specs::FormulaReaders::compared_at))]
#[inline(always)]
fn compared(
    alloc: Global,
    depth: u32,
    left: Term,
    tokens: &mut Front,
    target: &mut Formula,
) -> Result<(), ReadFault>
    ensures { Gives (λ _. (formula_of target.new, lexemes_in tokens.new)) result
        (compared_at (term_at in_formula depth) (formula_at depth) (term_of left)
        (lexemes_in tokens.old)) }
{
    if skip(tokens, "=") {
        let (left, right) = with(left, term(alloc, Place::Formula, depth, tokens))?;
        put(target, Formula::Eq(left, right));
        return Ok(());
    }
    if skip(tokens, "<=") {
        let (left, right) = with(left, term(alloc, Place::Formula, depth, tokens))?;
        put(target, Formula::Le(left, right));
        return Ok(());
    }
    if skip(tokens, "#") {
        return node(alloc, depth, left, tokens, target);
    }
    lone(alloc, left, tokens, target)
}

// A formula that begins with a term of one token that is no reserved word and no symbol.
#[cycle(part)]
#[inline(always)]
fn leaf_formula<'a>(
    alloc: Global,
    depth: u32,
    first: Lexeme<'a>,
    tokens: &mut Front<'a>,
    target: &mut Formula,
) -> Result<(), ReadFault>
    requires { lexemes_in tokens.old ≡ lexeme_seen first ∷ drop 1 (lexemes_in tokens.old) }
    ensures { Gives (λ _. (formula_of target.new, lexemes_in tokens.new)) result
        (then (leaf (leaf_term in_formula))
        (compared_at (term_at in_formula depth) (formula_at depth)) (lexemes_in tokens.old)) }
{
    let left = leaf_term(alloc, Place::Formula, first, tokens)?;
    compared(alloc, depth, left, tokens, target)
}

// What stands after an open angle.
#[cycle(part)]
fn tree(
    alloc: Global,
    depth: u32,
    tokens: &mut Front,
    target: &mut Formula,
) -> Result<(), ReadFault>
    ensures { Gives (λ _. (formula_of target.new, lexemes_in tokens.new)) result
        (then (formula_at depth) (λ p. expect (codes ">") (ret (one_tree p)))
        (lexemes_in tokens.old)) }
{
    let inner = followed_by(part(alloc, depth, tokens)?, tokens, ">")?;
    put(target, Formula::One(inner));
    Ok(())
}

// What stands after an open square bracket.
#[cycle(part)]
fn root(
    alloc: Global,
    depth: u32,
    tokens: &mut Front,
    target: &mut Formula,
) -> Result<(), ReadFault>
    ensures { Gives (λ _. (formula_of target.new, lexemes_in tokens.new)) result
        (then (formula_at depth) (λ p. expect (codes "]") (ret (one_root p)))
        (lexemes_in tokens.old)) }
{
    let inner = followed_by(part(alloc, depth, tokens)?, tokens, "]")?;
    put(target, Formula::Root(inner));
    Ok(())
}

// What stands after the word for a length.
fn length(
    alloc: Global,
    depth: u32,
    tokens: &mut Front,
    target: &mut Formula,
) -> Result<(), ReadFault>
    ensures { Gives (λ _. (formula_of target.new, lexemes_in tokens.new)) result
        (then (term_at in_formula depth) (λ a. ret (length_is a)) (lexemes_in tokens.old)) }
{
    let number = term(alloc, Place::Formula, depth, tokens)?;
    put(target, Formula::Len(number));
    Ok(())
}

// A formula that begins with a term. The first token is handed over too.
#[cycle(part)]
fn comparison<'a>(
    alloc: Global,
    depth: u32,
    first: Lexeme<'a>,
    tokens: &mut Front<'a>,
    target: &mut Formula,
) -> Result<(), ReadFault>
    requires { lexemes_in tokens.old ≡ lexeme_seen first ∷ drop 1 (lexemes_in tokens.old) }
    ensures { Gives (λ _. (formula_of target.new, lexemes_in tokens.new)) result
        (then (term_at in_formula (suc depth))
        (compared_at (term_at in_formula depth) (formula_at depth)) (lexemes_in tokens.old)) }
{
    let left = term_from(alloc, Place::Formula, depth, first, tokens)?;
    compared(alloc, depth, left, tokens, target)
}

// A formula that begins with neither a bracket nor the word for a length. The first token is
// handed over too.
#[cycle(part)]
fn word_or_comparison<'a>(
    alloc: Global,
    depth: u32,
    first: Lexeme<'a>,
    tokens: &mut Front<'a>,
    target: &mut Formula,
) -> Result<(), ReadFault>
    requires { lexemes_in tokens.old ≡ lexeme_seen first ∷ drop 1 (lexemes_in tokens.old) }
    ensures { Gives (λ _. (formula_of target.new, lexemes_in tokens.new)) result
        (begins leaf_word ret (then (term_at in_formula (suc depth))
        (compared_at (term_at in_formula depth) (formula_at depth))) (lexemes_in tokens.old)) }
{
    match word_of(first) {
        Some(found) => {
            tokens.advance();
            put(target, found);
            Ok(())
        }
        None => comparison(alloc, depth, first, tokens, target),
    }
}

// A formula, below which is nested at most so deep. The first token is handed over too.
#[cycle(part)]
#[tactic(auto, unfolding(crate::specs::FormulaReaders::formula_at))]
#[inline(always)]
fn part_from<'a>(
    alloc: Global,
    depth: u32,
    first: Lexeme<'a>,
    tokens: &mut Front<'a>,
    target: &mut Formula,
) -> Result<(), ReadFault>
    requires { lexemes_in tokens.old ≡ lexeme_seen first ∷ drop 1 (lexemes_in tokens.old) }
    ensures { Gives (λ _. (formula_of target.new, lexemes_in tokens.new)) result
        (formula_at (suc depth) (lexemes_in tokens.old)) }
{
    if is_this(first, "(") {
        tokens.advance();
        return bracket(alloc, depth, tokens, target);
    }
    if is_this(first, "[") {
        tokens.advance();
        return root(alloc, depth, tokens, target);
    }
    if is_this(first, "<") {
        tokens.advance();
        return tree(alloc, depth, tokens, target);
    }
    if is_this(first, "len") {
        tokens.advance();
        return length(alloc, depth, tokens, target);
    }
    word_or_comparison(alloc, depth, first, tokens, target)
}

// Puts a formula, nested at most so deep, into the target.
#[cycle(part)]
fn fill(
    alloc: Global,
    depth: u32,
    tokens: &mut Front,
    target: &mut Formula,
) -> Result<(), ReadFault>
    ensures { Gives (λ _. (formula_of target.new, lexemes_in tokens.new)) result
        (formula_at depth (lexemes_in tokens.old)) }
{
    if depth == 0 {
        return Err(ReadFault::Memory);
    }
    let Some(first) = tokens.first() else {
        return Err(ReadFault::Text(0));
    };
    if is_word_or_symbol(first) {
        return part_from(alloc, depth - 1, first, tokens, target);
    }
    leaf_formula(alloc, depth - 1, first, tokens, target)
}

// A formula in a box of its own, nested at most so deep. Its box is taken before those of its parts
// are, so that a walk, which comes to a formula before its parts, goes through memory in order.
#[cycle(part)]
#[inline(always)]
fn part(alloc: Global, depth: u32, tokens: &mut Front) -> Result<Box<Formula>, ReadFault>
    ensures { Gives (λ found. (formula_of found.value, lexemes_in tokens.new)) result
        (formula_at depth (lexemes_in tokens.old)) }
{
    let mut found = Box::new(alloc, Formula::True)?;
    let filled = fill(alloc, depth, tokens, &mut found);
    let (found, ()) = with(found, filled)?;
    Ok(found)
}

/// A formula, nested at most so deep; moves past it.
pub fn formula(alloc: Global, depth: u32, tokens: &mut Front) -> Result<Formula, ReadFault>
    ensures { Gives (λ found. (formula_of found, lexemes_in tokens.new)) result
        (formula_at depth (lexemes_in tokens.old)) }
{
    let mut found = Formula::True;
    let filled = fill(alloc, depth, tokens, &mut found);
    let (found, ()) = with(found, filled)?;
    Ok(found)
}
