// Preconditions as text.
ghost use Rattle.std.specs.Prelude.{◌≡◌, [], ◌∷◌, ◌++◌, map, IfOk};
ghost use Rattle.model_grammar.specs.TheoryWriting.{formula_lexemes, logic_line, text_of_lines};
ghost use Rattle.dom_terms.specs.Terms.{logic_var_of};
ghost use Rattle.formula_syntax.specs.Formulas.{formula_of};

use crate::lines::push_each;
use dom_terms::{LogicVars, OutOfMemory, Text};
use formula_syntax::Formula;
use logic_text::{push_str, write_formula};
use std::alloc::Global;

/// The text of a precondition: a line that declares each of its new variables, and the line of the
/// formula.
pub fn write_precondition(
    alloc: Global,
    variables: &LogicVars,
    formula: &Formula,
) -> Result<Text, OutOfMemory>
    ensures { IfOk result (λ text. text ≡ text_of_lines
        (map logic_line (map logic_var_of variables.now)
        ++ formula_lexemes (formula_of formula.now) ∷ [])) }
{
    let mut text = Text::new(alloc);
    push_each(alloc, &mut text, variables.as_slice())?;
    let written = write_formula(alloc, formula)?;
    text.append(&written)?;
    push_str(alloc, &mut text, "\n")?;
    Ok(text)
}
