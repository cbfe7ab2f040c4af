// Formulas of one word, and the connectives.
ghost use Rattle.std.specs.Prelude.{◌≡◌};
ghost use Rattle.std.specs.Option.{option_map};
ghost use Rattle.formula_syntax.specs.Formulas.{formula_of};
ghost use Rattle.token_readers.specs.Reading.{leaf};
ghost use Rattle.token_readers.specs.Giving.{Gives};
ghost use Rattle.token_readers.specs.Leaves.{lexeme_seen, lexemes_in};
ghost use Rattle.logic_text.specs.FormulaReaders.{leaf_word, leaf_joining, leaf_connective};
ghost use Rattle.logic_text.specs.Operators.{connective_of};

use dom_terms::DataSort;
use formula_syntax::{Formula, Side};
use text_tokens::{Front, Lexeme};
use token_readers::{ReadFault, is_this};

/// A formula of one word.
pub fn word_of(token: Lexeme) -> Option<Formula>
    ensures { option_map formula_of result ≡ leaf_word (lexeme_seen token.entry) }
{
    if is_this(token, "true") {
        return Some(Formula::True);
    }
    if is_this(token, "false") {
        return Some(Formula::False);
    }
    if is_this(token, "0f") {
        return Some(Formula::EmptyForest);
    }
    if is_this(token, "0g") {
        return Some(Formula::EmptyGrove);
    }
    if is_this(token, "?t") {
        return Some(Formula::Hole(DataSort::Tree));
    }
    if is_this(token, "?f") {
        return Some(Formula::Hole(DataSort::Forest));
    }
    if is_this(token, "?g") {
        return Some(Formula::Hole(DataSort::Grove));
    }
    None
}

/// How two formulas are put together.
#[derive(Clone, Copy)]
pub enum Connective {
    And,
    Or,
    Imp,
    Join(Side),
    Plus,
    PlusHole,
    App(DataSort),
    HoleAdj,
    CtxAdj(DataSort),
}

// A connective of shapes and contexts.
fn joining_of(token: Lexeme) -> Option<Connective>
    ensures { option_map connective_of result ≡ leaf_joining (lexeme_seen token.entry) }
{
    if is_this(token, "*") {
        return Some(Connective::Join(Side::Whole));
    }
    if is_this(token, ".*") {
        return Some(Connective::Join(Side::HoleLeft));
    }
    if is_this(token, "*.") {
        return Some(Connective::Join(Side::HoleRight));
    }
    if is_this(token, "+") {
        return Some(Connective::Plus);
    }
    if is_this(token, ".+") {
        return Some(Connective::PlusHole);
    }
    if is_this(token, "@t") {
        return Some(Connective::App(DataSort::Tree));
    }
    if is_this(token, "@f") {
        return Some(Connective::App(DataSort::Forest));
    }
    if is_this(token, "@g") {
        return Some(Connective::App(DataSort::Grove));
    }
    None
}

// A connective.
fn joint_of(token: Lexeme) -> Option<Connective>
    ensures { option_map connective_of result ≡ leaf_connective (lexeme_seen token.entry) }
{
    if is_this(token, "and") {
        return Some(Connective::And);
    }
    if is_this(token, "or") {
        return Some(Connective::Or);
    }
    if is_this(token, "->") {
        return Some(Connective::Imp);
    }
    if is_this(token, "-o") {
        return Some(Connective::HoleAdj);
    }
    if is_this(token, "o-t") {
        return Some(Connective::CtxAdj(DataSort::Tree));
    }
    if is_this(token, "o-f") {
        return Some(Connective::CtxAdj(DataSort::Forest));
    }
    if is_this(token, "o-g") {
        return Some(Connective::CtxAdj(DataSort::Grove));
    }
    joining_of(token)
}

/// A connective; moves past it.
pub fn joint(tokens: &mut Front) -> Result<Connective, ReadFault>
    ensures { Gives (λ found. (connective_of found, lexemes_in tokens.new)) result
        (leaf leaf_connective (lexemes_in tokens.old)) }
{
    let Some(first) = tokens.first() else {
        return Err(ReadFault::Text(0));
    };
    match joint_of(first) {
        Some(connective) => {
            tokens.advance();
            Ok(connective)
        }
        None => Err(ReadFault::Text(tokens.count())),
    }
}

/// The formula that the connective makes of two.
pub fn joined(connective: Connective, left: Box<Formula>, right: Box<Formula>) -> Formula
    ensures { formula_of result ≡ connective_of connective (formula_of left.value)
        (formula_of right.value) }
{
    match connective {
        Connective::And => Formula::And(left, right),
        Connective::Or => Formula::Or(left, right),
        Connective::Imp => Formula::Imp(left, right),
        Connective::Join(side) => Formula::Join(side, left, right),
        Connective::Plus => Formula::Plus(left, right),
        Connective::PlusHole => Formula::PlusHole(left, right),
        Connective::App(sort) => Formula::App(sort, left, right),
        Connective::HoleAdj => Formula::HoleAdj(left, right),
        Connective::CtxAdj(sort) => Formula::CtxAdj(sort, left, right),
    }
}
