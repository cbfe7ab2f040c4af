// The room for formulas.
ghost use Rattle.std.specs.Prelude.{◌≡◌, [], ◌∷◌, ◌++◌};
ghost use Rattle.model_formulas.specs.Formulas.{node_formula};
ghost use Rattle.model_text.specs.Lexemes.{terminal};
ghost use Rattle.model_grammar.specs.Words.{the, ◌⌢◌};
ghost use Rattle.model_grammar.specs.Writing.{bracketed, term_lexemes, var_lexemes};
ghost use Rattle.model_grammar.specs.TheoryWriting.{quantified, formula_lexemes};
ghost use Rattle.model_grammar.specs.TheoryWriting as words;
ghost use Rattle.dom_terms.specs.Sorts.{data_sort_of};
ghost use Rattle.dom_terms.specs.Terms.{logic_var_of, term_of};
ghost use Rattle.formula_syntax.specs.Formulas.{side_of, formula_of};
ghost use Rattle.logic_text.specs.Signs.{sign_of};
ghost use Rattle.gap_filling.specs.Measured.{measured};

use crate::meters::Meter;
use crate::terms::{measure_compared, measure_term};
use dom_terms::{DataSort, LogicVar, Term};
use formula_syntax::{Formula, Side};

// The sign of a hole of the sort.
fn hole_sign(sort: DataSort) -> &'static str
    ensures { terminal result.now ∷ [] ≡ words.hole_sign (data_sort_of sort) }
{
    match sort {
        DataSort::Tree => "?t",
        DataSort::Forest => "?f",
        DataSort::Grove => "?g",
    }
}

// Of an application at the sort.
fn at_sign(sort: DataSort) -> &'static str
    ensures { terminal result.now ∷ [] ≡ words.at_sign (data_sort_of sort) }
{
    match sort {
        DataSort::Tree => "@t",
        DataSort::Forest => "@f",
        DataSort::Grove => "@g",
    }
}

// Of an adjoint into the sort.
fn into_sign(sort: DataSort) -> &'static str
    ensures { terminal result.now ∷ [] ≡ words.into_sign (data_sort_of sort) }
{
    match sort {
        DataSort::Tree => "o-t",
        DataSort::Forest => "o-f",
        DataSort::Grove => "o-g",
    }
}

// The star of a concatenation.
fn star_sign(side: Side) -> &'static str
    ensures { terminal result.now ∷ [] ≡ words.star_sign (side_of side) }
{
    match side {
        Side::Whole => "*",
        Side::HoleLeft => ".*",
        Side::HoleRight => "*.",
    }
}

// The word or the sign of a formula, which stands alone, before a variable or between two parts.
fn sign(formula: &Formula) -> &'static str
    ensures { terminal result.now ∷ [] ≡ sign_of (formula_of formula.now) }
{
    match formula {
        Formula::True => "true",
        Formula::False => "false",
        Formula::EmptyForest => "0f",
        Formula::EmptyGrove => "0g",
        Formula::Hole(sort) => hole_sign(*sort),
        Formula::Exists(_, _) => "exists",
        Formula::Forall(_, _) => "forall",
        Formula::Eq(_, _) => "=",
        Formula::Le(_, _) => "<=",
        Formula::And(_, _) => "and",
        Formula::Or(_, _) => "or",
        Formula::Imp(_, _) => "->",
        Formula::Join(side, _, _) => star_sign(*side),
        Formula::Plus(_, _) => "+",
        Formula::PlusHole(_, _) => ".+",
        Formula::App(sort, _, _) => at_sign(*sort),
        Formula::HoleAdj(_, _) => "-o",
        Formula::CtxAdj(sort, _, _) => into_sign(*sort),
        _ => "",
    }
}

// Takes the room for the formula of a length.
#[tactic(auto, using(crate::proofs::Measures::measured_rules))]
fn measure_length(meter: &mut Meter, length: &Term)
    ensures { meter.new ≡ measured meter.old (the "len" ⌢ term_lexemes (term_of length.now)) }
{
    meter.token("len");
    measure_term(meter, length);
}

// Takes the room for a formula between two other tokens.
#[cycle(formula_measuring)]
#[tactic(auto, using(crate::proofs::Measures::measured_rules))]
fn measure_between(meter: &mut Meter, left: &str, inner: &Formula, right: &str)
    ensures { meter.new ≡ measured meter.old (terminal left.now ∷ []
        ⌢ formula_lexemes (formula_of inner.now) ⌢ terminal right.now ∷ []) }
{
    meter.token(left);
    measure_formula(meter, inner);
    meter.token(right);
}

// Takes the room for two formulas, in brackets and with a sign between them.
#[cycle(formula_measuring)]
#[tactic(auto, using(crate::proofs::Measures::measured_rules))]
fn measure_joined(meter: &mut Meter, left: &Formula, sign: &str, right: &Formula)
    ensures { meter.new ≡ measured meter.old (bracketed
        (formula_lexemes (formula_of left.now)) (terminal sign.now ∷ [])
        (formula_lexemes (formula_of right.now))) }
{
    measure_between(meter, "(", left, sign);
    measure_formula(meter, right);
    meter.token(")");
}

// Takes the room for a formula in brackets, after the variable that is bound in it.
#[cycle(formula_measuring)]
#[tactic(auto, using(crate::proofs::Measures::measured_rules))]
fn measure_quantified(meter: &mut Meter, kind: &str, variable: &LogicVar, inner: &Formula)
    ensures { meter.new ≡ measured meter.old (quantified (terminal kind.now ∷ [])
        (var_lexemes (logic_var_of variable.now)) (formula_lexemes (formula_of inner.now))) }
{
    meter.token("(");
    meter.token(kind);
    meter.name(variable.name.as_str());
    measure_between(meter, ".", inner, ")");
}

// Takes the room for what a variable is said to meet.
#[cycle(formula_measuring)]
#[tactic(auto, using(crate::proofs::Measures::measured_rules))]
fn measure_met(meter: &mut Meter, variable: &LogicVar, inner: &Formula)
    ensures { meter.new ≡ measured meter.old (bracketed
        (var_lexemes (logic_var_of variable.now)) (the "is")
        (formula_lexemes (formula_of inner.now))) }
{
    meter.token("(");
    meter.name(variable.name.as_str());
    measure_between(meter, "is", inner, ")");
}

// Takes the room for the negation of a formula.
#[cycle(formula_measuring)]
#[tactic(auto, using(crate::proofs::Measures::measured_rules))]
fn measure_negated(meter: &mut Meter, inner: &Formula)
    ensures { meter.new ≡ measured meter.old (the "(" ⌢ the "not"
        ⌢ formula_lexemes (formula_of inner.now) ⌢ the ")") }
{
    meter.token("(");
    measure_between(meter, "not", inner, ")");
}

// Takes the room for a node formula.
#[cycle(formula_measuring)]
#[tactic(auto, using(crate::proofs::Measures::measured_rules))]
fn measure_node(meter: &mut Meter, name: &Term, number: &Term, children: &Formula, list: &Term)
    ensures { meter.new ≡ measured meter.old (formula_lexemes (node_formula
        (term_of name.now) (term_of number.now) (formula_of children.now) (term_of list.now))) }
{
    measure_compared(meter, name, "#", number);
    measure_between(meter, "[", children, "]");
    meter.token("%");
    measure_term(meter, list);
}

/// Takes the room for a formula.
#[cycle(formula_measuring)]
pub(crate) fn measure_formula(meter: &mut Meter, formula: &Formula)
    ensures { meter.new ≡ measured meter.old (formula_lexemes (formula_of formula.now)) }
{
    if !meter.fits {
        return;
    }
    match formula {
        Formula::True
        | Formula::False
        | Formula::EmptyForest
        | Formula::EmptyGrove
        | Formula::Hole(_) => meter.token(sign(formula)),
        Formula::And(left, right)
        | Formula::Or(left, right)
        | Formula::Imp(left, right)
        | Formula::Join(_, left, right)
        | Formula::Plus(left, right)
        | Formula::PlusHole(left, right)
        | Formula::App(_, left, right)
        | Formula::HoleAdj(left, right)
        | Formula::CtxAdj(_, left, right) => measure_joined(meter, left, sign(formula), right),
        Formula::Exists(variable, inner) | Formula::Forall(variable, inner) => {
            measure_quantified(meter, sign(formula), variable, inner)
        }
        Formula::Eq(left, right) | Formula::Le(left, right) => {
            measure_compared(meter, left, sign(formula), right)
        }
        Formula::Not(inner) => measure_negated(meter, inner),
        Formula::Node(name, number, children, list) => {
            measure_node(meter, name, number, children, list)
        }
        Formula::One(inner) => measure_between(meter, "<", inner, ">"),
        Formula::Root(inner) => measure_between(meter, "[", inner, "]"),
        Formula::Var(variable) => meter.name(variable.name.as_str()),
        Formula::Len(length) => measure_length(meter, length),
        Formula::Is(variable, inner) => measure_met(meter, variable, inner),
    }
}
