// The room for terms.
ghost use Rattle.std.specs.Prelude.{◌≡◌, [], ◌∷◌, ◌++◌};
ghost use Rattle.model_shapes.specs.Values.{int};
ghost use Rattle.model_terms.specs.Terms.{literal};
ghost use Rattle.model_text.specs.Lexemes.{terminal};
ghost use Rattle.model_grammar.specs.Words.{◌⌢◌};
ghost use Rattle.model_grammar.specs.Writing.{braced, term_lexemes};
ghost use Rattle.dom_terms.specs.Terms.{term_of};
ghost use Rattle.gap_filling.specs.Measured.{measured};

use crate::meters::Meter;
use dom_terms::Term;

// Takes the room for an integer.
#[tactic(auto, using(crate::proofs::Measures::measured_rules))]
fn measure_integer(meter: &mut Meter, number: i64)
    ensures { meter.new ≡ measured meter.old (term_lexemes (literal (int number))) }
{
    if number < 0 {
        meter.token("-");
    }
    meter.numeral(number.unsigned_abs());
}

// Takes the room for two terms, between braces and with a sign between them.
#[cycle(term_measuring)]
#[tactic(auto, using(crate::proofs::Measures::measured_rules))]
fn measure_braced(meter: &mut Meter, left: &Term, sign: &str, right: &Term)
    ensures { meter.new ≡ measured meter.old (braced (term_lexemes (term_of left.now))
        (terminal sign.now ∷ []) (term_lexemes (term_of right.now))) }
{
    meter.token("{");
    measure_term(meter, left);
    meter.token(sign);
    measure_term(meter, right);
    meter.token("}");
}

/// Takes the room for a term.
#[cycle(term_measuring)]
pub(crate) fn measure_term(meter: &mut Meter, term: &Term)
    ensures { meter.new ≡ measured meter.old (term_lexemes (term_of term.now)) }
{
    if !meter.fits {
        return;
    }
    match term {
        Term::NullNode => meter.token("null"),
        Term::NullList => meter.token("nolist"),
        Term::Int(number) => measure_integer(meter, *number),
        Term::Str(literal) => meter.literal(literal),
        Term::Bool(true) => meter.token("yes"),
        Term::Bool(false) => meter.token("no"),
        Term::Prog(variable) => meter.name(variable.name.as_str()),
        Term::Logic(variable) => meter.name(variable.name.as_str()),
        Term::Add(left, right) => measure_braced(meter, left, "+", right),
        Term::Sub(left, right) => measure_braced(meter, left, "-", right),
        Term::Cat(left, right) => measure_braced(meter, left, "++", right),
    }
}

/// Takes the room for two terms with a sign between them.
#[tactic(auto, using(crate::proofs::Measures::measured_rules))]
pub(crate) fn measure_compared(meter: &mut Meter, left: &Term, sign: &str, right: &Term)
    ensures { meter.new ≡ measured meter.old (term_lexemes (term_of left.now)
        ⌢ terminal sign.now ∷ [] ⌢ term_lexemes (term_of right.now)) }
{
    measure_term(meter, left);
    meter.token(sign);
    measure_term(meter, right);
}
