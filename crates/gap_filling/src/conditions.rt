// The room for conditions.
ghost use Rattle.std.specs.Prelude.{◌≡◌, [], ◌∷◌, ◌++◌};
ghost use Rattle.model_terms.specs.Conditions as conditions;
ghost use Rattle.model_text.specs.Lexemes.{terminal};
ghost use Rattle.model_grammar.specs.Writing.{bracketed, cond_lexemes};
ghost use Rattle.dom_terms.specs.Conditions.{cond_of};
ghost use Rattle.gap_filling.specs.Measured.{measured};

use crate::meters::Meter;
use crate::terms::measure_compared;
use dom_terms::Cond;

// Takes the room for the negation of a condition.
#[cycle(condition_measuring)]
#[tactic(auto, using(crate::proofs::Measures::measured_rules))]
fn measure_denied(meter: &mut Meter, inner: &Cond)
    ensures { meter.new ≡ measured meter.old
        (cond_lexemes (conditions.cond_not (cond_of inner.now))) }
{
    meter.token("(");
    meter.token("not");
    measure_condition(meter, inner);
    meter.token(")");
}

// Takes the room for two conditions, in brackets and with a word between them.
#[cycle(condition_measuring)]
#[tactic(auto, using(crate::proofs::Measures::measured_rules))]
fn measure_both(meter: &mut Meter, left: &Cond, word: &str, right: &Cond)
    ensures { meter.new ≡ measured meter.old (bracketed
        (cond_lexemes (cond_of left.now)) (terminal word.now ∷ [])
        (cond_lexemes (cond_of right.now))) }
{
    meter.token("(");
    measure_condition(meter, left);
    meter.token(word);
    measure_condition(meter, right);
    meter.token(")");
}

/// Takes the room for the condition.
#[cycle(condition_measuring)]
pub(crate) fn measure_condition(meter: &mut Meter, cond: &Cond)
    ensures { meter.new ≡ measured meter.old (cond_lexemes (cond_of cond.now)) }
{
    if !meter.fits {
        return;
    }
    match cond {
        Cond::True => meter.token("true"),
        Cond::False => meter.token("false"),
        Cond::Holds(variable) => meter.name(variable.name.as_str()),
        Cond::Eq(left, right) => measure_compared(meter, left, "=", right),
        Cond::Le(left, right) => measure_compared(meter, left, "<=", right),
        Cond::Not(inner) => measure_denied(meter, inner),
        Cond::And(left, right) => measure_both(meter, left, "and", right),
        Cond::Or(left, right) => measure_both(meter, left, "or", right),
    }
}
