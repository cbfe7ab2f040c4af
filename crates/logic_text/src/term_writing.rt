// Terms as text.
ghost use Rattle.std.specs.Prelude.{◌≡◌, [], ◌∷◌, ◌++◌, OnOk};
ghost use Rattle.model_shapes.specs.Values.{int};
ghost use Rattle.model_terms.specs.Terms.{literal};
ghost use Rattle.model_text.specs.Lexemes.{terminal};
ghost use Rattle.model_grammar.specs.Writing.{spaced, braced, term_lexemes};
ghost use Rattle.dom_terms.specs.Terms.{term_of};

use crate::tokens::{push_numeral, push_quoted, push_token};
use dom_terms::{OutOfMemory, Term, Text};
use std::alloc::Global;

// Puts an integer at the end, with a space after its sign.
fn push_integer(alloc: Global, text: &mut Text, number: i64) -> Result<(), OutOfMemory>
    ensures { OnOk result (text.new ≡ text.old ++ spaced (term_lexemes (literal (int number)))) }
{
    if number < 0 {
        push_token(alloc, text, "-")?;
    }
    push_numeral(alloc, text, number.unsigned_abs())
}

// Puts two terms at the end, between braces and with a sign between them.
#[cycle(term_writing)]
#[tactic(auto, using(model_grammar::proofs::Spaced::spaced_rules))]
fn push_braced(
    alloc: Global,
    text: &mut Text,
    left: &Term,
    sign: &str,
    right: &Term,
) -> Result<(), OutOfMemory>
    ensures { OnOk result (text.new ≡ text.old ++ spaced (braced (term_lexemes (term_of left.now))
        (terminal sign.now ∷ []) (term_lexemes (term_of right.now)))) }
{
    push_token(alloc, text, "{")?;
    push_term(alloc, text, left)?;
    push_token(alloc, text, sign)?;
    push_term(alloc, text, right)?;
    push_token(alloc, text, "}")?;
    Ok(())
}

/// Puts the tokens of the term at the end, each after a space.
#[cycle(term_writing)]
pub fn push_term(alloc: Global, text: &mut Text, term: &Term) -> Result<(), OutOfMemory>
    ensures { OnOk result (text.new ≡ text.old ++ spaced (term_lexemes (term_of term.now))) }
{
    match term {
        Term::NullNode => push_token(alloc, text, "null"),
        Term::NullList => push_token(alloc, text, "nolist"),
        Term::Int(number) => push_integer(alloc, text, *number),
        Term::Str(literal) => push_quoted(alloc, text, literal),
        Term::Bool(true) => push_token(alloc, text, "yes"),
        Term::Bool(false) => push_token(alloc, text, "no"),
        Term::Prog(variable) => push_token(alloc, text, variable.name.as_str()),
        Term::Logic(variable) => push_token(alloc, text, variable.name.as_str()),
        Term::Add(left, right) => push_braced(alloc, text, left, "+", right),
        Term::Sub(left, right) => push_braced(alloc, text, left, "-", right),
        Term::Cat(left, right) => push_braced(alloc, text, left, "++", right),
    }
}
