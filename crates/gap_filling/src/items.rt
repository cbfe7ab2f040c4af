// The room for lists in brackets.
ghost use Rattle.std.specs.Prelude.{◌≡◌, ◌++◌, codes, map};
ghost use Rattle.model_grammar.specs.Writing.{name_lexemes, term_lexemes, in_brackets};
ghost use Rattle.dom_terms.specs.Terms.{prog_var_of, term_of};
ghost use Rattle.theory_writing.specs.Marked.{marked};
ghost use Rattle.gap_filling.specs.Measured.{measured};

use crate::meters::Meter;
use crate::terms::measure_term;
use dom_terms::{ProgVar, Term};

/// What stands in a list in brackets.
pub(crate) trait Item: Sized {
    ghost use Rattle.std.specs.Prelude.{List};
    ghost use Rattle.model_text.specs.Lexemes.{Lexeme};

    // what is written for an item
    ghost lexemes: { Self → List Lexeme };

    /// Takes the room for the item.
    fn measure(&self, meter: &mut Meter)
        ensures { meter.new ≡ measured meter.old (lexemes self.now) };
}

impl Item for ProgVar {
    ghost lexemes = { λ variable. name_lexemes (prog_var_of variable) };

    fn measure(&self, meter: &mut Meter)
        ensures { meter.new ≡ measured meter.old (name_lexemes (prog_var_of self.now)) }
    {
        meter.name(self.name.as_str());
    }
}

impl Item for Term {
    ghost lexemes = { λ term. term_lexemes (term_of term) };

    fn measure(&self, meter: &mut Meter)
        ensures { meter.new ≡ measured meter.old (term_lexemes (term_of self.now)) }
    {
        measure_term(meter, self);
    }
}

// Takes the room for the items, each after a mark, from the second on after a comma.
fn measure_marked<T: Item>(meter: &mut Meter, first_mark: &str, items: &[T])
    ensures { meter.new ≡ measured meter.old
        (marked first_mark.now (codes ",") (map T.lexemes items.now)) }
{
    let mut mark = first_mark;
    for item in items {
        meter.token(mark);
        item.measure(meter);
        mark = ",";
    }
}

/// Takes the room for the items, in brackets and with commas between them.
pub(crate) fn measure_bracketed<T: Item>(meter: &mut Meter, items: &[T])
    ensures { meter.new ≡ measured meter.old (in_brackets (map T.lexemes items.now)) }
{
    if items.is_empty() {
        meter.token("(");
        meter.token(")");
        return;
    }
    measure_marked(meter, "(", items);
    meter.token(")");
}
