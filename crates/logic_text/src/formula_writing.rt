// Formulas as text.
ghost use Rattle.std.specs.Prelude.{◌≡◌, [], ◌∷◌, ◌++◌, OnOk, IfOk};
ghost use Rattle.model_formulas.specs.Formulas.{node_formula};
ghost use Rattle.model_text.specs.Lexemes.{terminal};
ghost use Rattle.model_text.specs.Nesting.{lexemes_of};
ghost use Rattle.model_grammar.specs.Sorts.{Declared, sorted_formula};
ghost use Rattle.model_grammar.specs.Words.{the, ◌⌢◌};
ghost use Rattle.model_grammar.specs.Writing.{spaced, text_of, term_lexemes};
ghost use Rattle.model_grammar.specs.Writing.{bracketed, var_lexemes};
ghost use Rattle.model_grammar.specs.TheoryWriting.{quantified, formula_lexemes};
ghost use Rattle.model_grammar.specs.TheoryWriting as words;
ghost use Rattle.model_grammar.specs.Writable.{IsWritable};
ghost use Rattle.dom_terms.specs.Sorts.{data_sort_of};
ghost use Rattle.dom_terms.specs.Terms.{logic_var_of, term_of};
ghost use Rattle.formula_syntax.specs.Formulas.{side_of, formula_of};
ghost use Rattle.logic_text.specs.DeclaredFormulas.{SpellsFormulaWith};
ghost use Rattle.logic_text.specs.Signs.{sign_of};

use crate::term_writing::push_term;
use crate::tokens::{push_token, without_space};
use dom_terms::{DataSort, LogicVar, OutOfMemory, Term, Text};
use formula_syntax::{Formula, Side};
use std::alloc::Global;

// The sign of a hole of the sort.
fn hole_sign(sort: DataSort) -> &'static str
    ensures { terminal result.now ∷ [] ≡ words.hole_sign (data_sort_of sort) }
{
    match sort {
        DataSort::Tree => "?t",
        DataSort::Forest => "?f",
        DataSort::Grove => "?g",
    }
}

// Of an application at the sort.
fn at_sign(sort: DataSort) -> &'static str
    ensures { terminal result.now ∷ [] ≡ words.at_sign (data_sort_of sort) }
{
    match sort {
        DataSort::Tree => "@t",
        DataSort::Forest => "@f",
        DataSort::Grove => "@g",
    }
}

// Of an adjoint into the sort.
fn into_sign(sort: DataSort) -> &'static str
    ensures { terminal result.now ∷ [] ≡ words.into_sign (data_sort_of sort) }
{
    match sort {
        DataSort::Tree => "o-t",
        DataSort::Forest => "o-f",
        DataSort::Grove => "o-g",
    }
}

// The star of a concatenation.
fn star_sign(side: Side) -> &'static str
    ensures { terminal result.now ∷ [] ≡ words.star_sign (side_of side) }
{
    match side {
        Side::Whole => "*",
        Side::HoleLeft => ".*",
        Side::HoleRight => "*.",
    }
}

// The word or the sign of a formula, which stands alone, before a variable or between two parts.
fn sign(formula: &Formula) -> &'static str
    ensures { terminal result.now ∷ [] ≡ sign_of (formula_of formula.now) }
{
    match formula {
        Formula::True => "true",
        Formula::False => "false",
        Formula::EmptyForest => "0f",
        Formula::EmptyGrove => "0g",
        Formula::Hole(sort) => hole_sign(*sort),
        Formula::Exists(_, _) => "exists",
        Formula::Forall(_, _) => "forall",
        Formula::Eq(_, _) => "=",
        Formula::Le(_, _) => "<=",
        Formula::And(_, _) => "and",
        Formula::Or(_, _) => "or",
        Formula::Imp(_, _) => "->",
        Formula::Join(side, _, _) => star_sign(*side),
        Formula::Plus(_, _) => "+",
        Formula::PlusHole(_, _) => ".+",
        Formula::App(sort, _, _) => at_sign(*sort),
        Formula::HoleAdj(_, _) => "-o",
        Formula::CtxAdj(sort, _, _) => into_sign(*sort),
        _ => "",
    }
}

/// Puts two terms at the end with a sign between them, each token after a space.
#[tactic(auto, using(model_grammar::proofs::Spaced::spaced_rules))]
pub fn push_compared(
    alloc: Global,
    text: &mut Text,
    left: &Term,
    sign: &str,
    right: &Term,
) -> Result<(), OutOfMemory>
    ensures { OnOk result (text.new ≡ text.old ++ spaced (term_lexemes (term_of left.now)
        ⌢ terminal sign.now ∷ [] ⌢ term_lexemes (term_of right.now))) }
{
    push_term(alloc, text, left)?;
    push_token(alloc, text, sign)?;
    push_term(alloc, text, right)?;
    Ok(())
}

// Puts the formula of a length at the end.
#[tactic(auto, using(model_grammar::proofs::Spaced::spaced_rules))]
fn push_length(alloc: Global, text: &mut Text, length: &Term) -> Result<(), OutOfMemory>
    ensures { OnOk result
        (text.new ≡ text.old ++ spaced (the "len" ⌢ term_lexemes (term_of length.now))) }
{
    push_token(alloc, text, "len")?;
    push_term(alloc, text, length)?;
    Ok(())
}

// Puts a formula at the end between two other tokens.
#[cycle(formula_writing)]
#[tactic(auto, using(model_grammar::proofs::Spaced::spaced_rules))]
fn push_between(
    alloc: Global,
    text: &mut Text,
    left: &str,
    inner: &Formula,
    right: &str,
) -> Result<(), OutOfMemory>
    ensures { OnOk result (text.new ≡ text.old ++ spaced (terminal left.now ∷ []
        ⌢ formula_lexemes (formula_of inner.now) ⌢ terminal right.now ∷ [])) }
{
    push_token(alloc, text, left)?;
    push_formula(alloc, text, inner)?;
    push_token(alloc, text, right)?;
    Ok(())
}

// Puts two formulas at the end, in brackets and with a sign between them.
#[cycle(formula_writing)]
#[tactic(auto, using(model_grammar::proofs::Spaced::spaced_rules))]
fn push_joined(
    alloc: Global,
    text: &mut Text,
    left: &Formula,
    sign: &str,
    right: &Formula,
) -> Result<(), OutOfMemory>
    ensures { OnOk result (text.new ≡ text.old ++ spaced (bracketed
        (formula_lexemes (formula_of left.now)) (terminal sign.now ∷ [])
        (formula_lexemes (formula_of right.now)))) }
{
    push_between(alloc, text, "(", left, sign)?;
    push_formula(alloc, text, right)?;
    push_token(alloc, text, ")")?;
    Ok(())
}

// Puts a formula at the end in brackets, after the variable that is bound in it.
#[cycle(formula_writing)]
#[tactic(auto, using(model_grammar::proofs::Spaced::spaced_rules))]
fn push_quantified(
    alloc: Global,
    text: &mut Text,
    kind: &str,
    variable: &LogicVar,
    inner: &Formula,
) -> Result<(), OutOfMemory>
    ensures { OnOk result (text.new ≡ text.old ++ spaced (quantified (terminal kind.now ∷ [])
        (var_lexemes (logic_var_of variable.now)) (formula_lexemes (formula_of inner.now)))) }
{
    push_token(alloc, text, "(")?;
    push_token(alloc, text, kind)?;
    push_token(alloc, text, variable.name.as_str())?;
    push_between(alloc, text, ".", inner, ")")?;
    Ok(())
}

// Puts at the end what a variable is said to meet.
#[cycle(formula_writing)]
#[tactic(auto, using(model_grammar::proofs::Spaced::spaced_rules))]
fn push_met(
    alloc: Global,
    text: &mut Text,
    variable: &LogicVar,
    inner: &Formula,
) -> Result<(), OutOfMemory>
    ensures { OnOk result (text.new ≡ text.old ++ spaced (bracketed
        (var_lexemes (logic_var_of variable.now)) (the "is")
        (formula_lexemes (formula_of inner.now)))) }
{
    push_token(alloc, text, "(")?;
    push_token(alloc, text, variable.name.as_str())?;
    push_between(alloc, text, "is", inner, ")")?;
    Ok(())
}

// Puts the negation of a formula at the end.
#[cycle(formula_writing)]
#[tactic(auto, using(model_grammar::proofs::Spaced::spaced_rules))]
fn push_negated(alloc: Global, text: &mut Text, inner: &Formula) -> Result<(), OutOfMemory>
    ensures { OnOk result (text.new ≡ text.old ++ spaced (the "(" ⌢ the "not"
        ⌢ formula_lexemes (formula_of inner.now) ⌢ the ")")) }
{
    push_token(alloc, text, "(")?;
    push_between(alloc, text, "not", inner, ")")?;
    Ok(())
}

// Puts a node formula at the end.
#[cycle(formula_writing)]
#[tactic(auto, using(model_grammar::proofs::Spaced::spaced_rules))]
fn push_node(
    alloc: Global,
    text: &mut Text,
    name: &Term,
    number: &Term,
    children: &Formula,
    list: &Term,
) -> Result<(), OutOfMemory>
    ensures { OnOk result (text.new ≡ text.old ++ spaced (formula_lexemes (node_formula
        (term_of name.now) (term_of number.now) (formula_of children.now) (term_of list.now)))) }
{
    push_compared(alloc, text, name, "#", number)?;
    push_between(alloc, text, "[", children, "]")?;
    push_token(alloc, text, "%")?;
    push_term(alloc, text, list)?;
    Ok(())
}

/// Puts the tokens of the formula at the end, each after a space.
#[cycle(formula_writing)]
pub fn push_formula(alloc: Global, text: &mut Text, formula: &Formula) -> Result<(), OutOfMemory>
    ensures { OnOk result
        (text.new ≡ text.old ++ spaced (formula_lexemes (formula_of formula.now))) }
{
    match formula {
        Formula::True
        | Formula::False
        | Formula::EmptyForest
        | Formula::EmptyGrove
        | Formula::Hole(_) => push_token(alloc, text, sign(formula)),
        Formula::And(left, right)
        | Formula::Or(left, right)
        | Formula::Imp(left, right)
        | Formula::Join(_, left, right)
        | Formula::Plus(left, right)
        | Formula::PlusHole(left, right)
        | Formula::App(_, left, right)
        | Formula::HoleAdj(left, right)
        | Formula::CtxAdj(_, left, right) => push_joined(alloc, text, left, sign(formula), right),
        Formula::Exists(variable, inner) | Formula::Forall(variable, inner) => {
            push_quantified(alloc, text, sign(formula), variable, inner)
        }
        Formula::Eq(left, right) | Formula::Le(left, right) => {
            push_compared(alloc, text, left, sign(formula), right)
        }
        Formula::Not(inner) => push_negated(alloc, text, inner),
        Formula::Node(name, number, children, list) => {
            push_node(alloc, text, name, number, children, list)
        }
        Formula::One(inner) => push_between(alloc, text, "<", inner, ">"),
        Formula::Root(inner) => push_between(alloc, text, "[", inner, "]"),
        Formula::Var(variable) => push_token(alloc, text, variable.name.as_str()),
        Formula::Len(length) => push_length(alloc, text, length),
        Formula::Is(variable, inner) => push_met(alloc, text, variable, inner),
    }
}

/// The text of the formula: its tokens with one space between each two. Where the formula can be
/// written, and its variables have the sorts that are declared, the text reads back as it.
pub fn write_formula(alloc: Global, formula: &Formula) -> Result<Text, OutOfMemory>
    ensures written { IfOk result (λ text.
        text ≡ text_of (formula_lexemes (formula_of formula.now))) }
    ensures reads_back { (declared : Declared) → IsWritable (formula_of formula.now)
        → sorted_formula declared (formula_of formula.now) ≡ formula_of formula.now
        → IfOk result (λ text.
        SpellsFormulaWith declared (formula_of formula.now) (lexemes_of text)) }
{
    let mut text = Text::new(alloc);
    push_formula(alloc, &mut text, formula)?;
    // so each literal in it is UTF-8, as the law asks that it reads back by
    text.is_utf8();
    without_space(alloc, &text)
}
