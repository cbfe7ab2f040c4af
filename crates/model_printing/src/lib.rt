//! Laws of printed text, with no Rust data: its tokens are those that were printed.
//! Promises that lexemes with a space between each two, lines of them and groves read back as what
//! they are, and that each lexeme of a text can be printed. Stands on the definitions of tokens, of
//! documents and of what is printed.
#![tactic(auto)]

ghost use Rattle.std.specs.Prelude.{◌≡◌, ◌⊎◌, ℕ, true, List, map, bytes_eq};
ghost use Rattle.std.specs.List.{list_any};
ghost use Rattle.model_shapes.specs.Trees.{Trees};
ghost use Rattle.model_text.specs.Lexemes.{Lexeme, terminal, bad_lexeme};
ghost use Rattle.model_text.specs.Nesting.{lexemes_of};
ghost use Rattle.model_text.specs.FaultTokens.{IsOfToken};
ghost use Rattle.model_documents.specs.Grammar.{SpellsGrove};
ghost use Rattle.model_documents.specs.Printed.{grove_text};
ghost use Rattle.model_grammar.specs.Writing.{text_of};
ghost use Rattle.model_grammar.specs.TheoryWriting.{text_of_lines, all_lexemes};
ghost use Rattle.model_grammar.specs.Writable.{Each};
ghost use Rattle.model_printing.specs.Printable.{IsPrintable, ArePrintable, HasNoLine};
ghost use Rattle.model_printing.specs.Printable.{without_line, terminal_texts, ArePrintableTrees};

/// Each symbol and each reserved word but `step` can be printed.
pub fn terminals_are_printable()
    ensures { (text : List ℕ) → list_any (bytes_eq text) terminal_texts ≡ true
        → IsPrintable (terminal text) }
{}

/// Each lexeme of a text can be printed, but a bad one.
pub fn lexemes_of_texts_are_printable()
    ensures { (lexeme : Lexeme) → IsOfToken lexeme
        → (lexeme ≡ bad_lexeme) ⊎ IsPrintable lexeme }
{}

/// Lexemes with a space between each two read back as they are, but for the lines of `step`.
pub fn printed_lexemes_read_back()
    ensures same { (lexemes : List Lexeme) → ArePrintable lexemes → Each HasNoLine lexemes
        → lexemes_of (text_of lexemes) ≡ lexemes }
    ensures same_but_for_lines { (lexemes : List Lexeme) → ArePrintable lexemes
        → map without_line (lexemes_of (text_of lexemes)) ≡ map without_line lexemes }
{}

/// So do lines of them.
pub fn printed_lines_read_back()
    ensures { (lines : List (List Lexeme)) → Each ArePrintable lines
        → map without_line (lexemes_of (text_of_lines lines))
        ≡ map without_line (all_lexemes lines) }
{}

/// The lexemes of the text of a grove spell it.
pub fn printed_groves_read_back()
    ensures { (grove : Trees) → ArePrintableTrees grove
        → SpellsGrove grove (lexemes_of (grove_text grove)) }
{}
