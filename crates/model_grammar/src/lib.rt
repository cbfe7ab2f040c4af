//! The definitions of the grammar of theory files and of what is printed, with no Rust data; they
//! stand in `specs/`. Promises that what is spelled is no larger than its text, and that the
//! lexemes of a printed formula or command spell it, but for the sorts of its variables. Stands on
//! the other definitions.
#![tactic(auto)]

ghost use Rattle.std.specs.Prelude.{◌<◌, List, length};
ghost use Rattle.model_formulas.specs.Formulas.{Named};
ghost use Rattle.model_commands.specs.Commands.{Command};
ghost use Rattle.model_commands.specs.Theories.{Theory};
ghost use Rattle.model_files.specs.Sizes.{TheoryIsSmall};
ghost use Rattle.model_text.specs.Lexemes.{Lexeme};
ghost use Rattle.model_grammar.specs.Formulas.{SpellsFormula};
ghost use Rattle.model_grammar.specs.Commands.{SpellsCommand};
ghost use Rattle.model_grammar.specs.Theories.{SpellsTheory};
ghost use Rattle.model_grammar.specs.Sorts.{sorted_formula, sorted_command};
ghost use Rattle.model_grammar.specs.Writing.{command_lexemes};
ghost use Rattle.model_grammar.specs.TheoryWriting.{formula_lexemes};
ghost use Rattle.model_grammar.specs.Writable.{undeclared, IsWritable, IsWritableCommand};

/// A theory that few lexemes spell is small: each part of a formula, each procedure and each step
/// has a lexeme of its own.
pub fn spelled_theories_are_small()
    ensures { (t : Theory) (lexemes : List Lexeme) → SpellsTheory t lexemes
        → length lexemes < 4294967295 → TheoryIsSmall t }
{}

/// The lexemes of a formula that can be written spell it, each variable with sort node.
pub fn written_formulas_are_spelled()
    ensures { (p : Named) → IsWritable p
        → SpellsFormula (sorted_formula undeclared p) (formula_lexemes p) }
{}

/// The lexemes of a command that can be written spell it, each used variable with sort node.
pub fn written_commands_are_spelled()
    ensures { (c : Command) → IsWritableCommand c
        → SpellsCommand (sorted_command undeclared c) (command_lexemes c) }
{}
