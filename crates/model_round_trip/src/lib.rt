//! The laws that printed text reads back, with no Rust data. Promises that what a reader gives can
//! be written, and that the text of what can be written, with literals of UTF-8, reads as what it
//! was made from, but for the lines of steps; and that no token of what is spelled is bad. Stands
//! on the grammar and on what is printed.
#![tactic(auto)]

ghost use Rattle.std.specs.Prelude.{◌≡◌, ℕ, List, Some, slice_get};
ghost use Rattle.model_shapes.specs.Trees.{Trees};
ghost use Rattle.model_formulas.specs.Formulas.{Named};
ghost use Rattle.model_commands.specs.Commands.{Command};
ghost use Rattle.model_commands.specs.Theories.{Theory};
ghost use Rattle.model_text.specs.Lexemes.{Lexeme, bad_lexeme};
ghost use Rattle.model_text.specs.Versions.{seen_in, IsOfVersion};
ghost use Rattle.model_text.specs.Nesting.{lexemes_of};
ghost use Rattle.model_text.specs.FaultTokens.{AreOfTokens};
ghost use Rattle.model_documents.specs.Grammar.{SpellsGrove};
ghost use Rattle.model_grammar.specs.Formulas.{SpellsFormula};
ghost use Rattle.model_grammar.specs.Commands.{SpellsCommand};
ghost use Rattle.model_grammar.specs.Theories.{SpellsTheory};
ghost use Rattle.model_grammar.specs.Sorts.{Declared, sorted_formula, sorted_command, with_sorts};
ghost use Rattle.model_grammar.specs.Writing.{text_of, command_lexemes};
ghost use Rattle.model_grammar.specs.TheoryWriting.{formula_lexemes, theory_lines, all_lexemes};
ghost use Rattle.model_grammar.specs.TheoryWriting.{theory_text};
ghost use Rattle.model_grammar.specs.Writable.{undeclared, Each, IsWritable, IsWritableCommand};
ghost use Rattle.model_round_trip.specs.Writable.{IsWritableTheory};
ghost use Rattle.model_round_trip.specs.Literals.{LiteralsAreUtf8};
ghost use Rattle.model_round_trip.specs.ReadBack.{SpellsFormulaAt, SpellsCommandAt, ReadsAs};
ghost use Rattle.model_round_trip.specs.ReadBack.{without_lines};

/// What lexemes of tokens spell can be written, and its literals are UTF-8.
pub fn read_formulas_are_writable()
    ensures writable { (p : Named) (lexemes : List Lexeme) → SpellsFormula p lexemes
        → AreOfTokens lexemes → IsWritable p }
    ensures literals { (p : Named) (lexemes : List Lexeme) → SpellsFormula p lexemes
        → AreOfTokens lexemes → LiteralsAreUtf8 (formula_lexemes p) }
{}

/// So it is with commands, as they are seen in a version; and their words are those of the version.
pub fn read_commands_are_writable()
    ensures writable { (version : ℕ) (c : Command) (lexemes : List Lexeme)
        → SpellsCommand c (seen_in version lexemes) → AreOfTokens lexemes → IsWritableCommand c }
    ensures literals { (version : ℕ) (c : Command) (lexemes : List Lexeme)
        → SpellsCommand c (seen_in version lexemes) → AreOfTokens lexemes
        → LiteralsAreUtf8 (command_lexemes c) }
    ensures words { (version : ℕ) (c : Command) (lexemes : List Lexeme)
        → SpellsCommand c (seen_in version lexemes) → AreOfTokens lexemes
        → Each (IsOfVersion version) (command_lexemes c) }
{}

/// So it is with theories, which have the sorts of their declarations.
pub fn read_theories_are_writable()
    ensures writable { (t : Theory) (lexemes : List Lexeme) → SpellsTheory t lexemes
        → AreOfTokens lexemes → IsWritableTheory t }
    ensures literals { (t : Theory) (lexemes : List Lexeme) → SpellsTheory t lexemes
        → AreOfTokens lexemes → Each LiteralsAreUtf8 (theory_lines t) }
    ensures sorted { (t : Theory) (lexemes : List Lexeme) → SpellsTheory t lexemes
        → with_sorts t ≡ t }
{}

/// A formula or command has one spelling: the lexemes that are written for it.
pub fn spellings_are_unique()
    ensures formulas { (p : Named) (lexemes : List Lexeme) → SpellsFormula p lexemes
        → lexemes ≡ formula_lexemes p }
    ensures commands { (c : Command) (lexemes : List Lexeme) → SpellsCommand c lexemes
        → lexemes ≡ command_lexemes c }
{}

/// The lexemes of what can be written spell it, where its variables have the declared sorts.
pub fn written_text_is_spelled()
    ensures formulas { (d : Declared) (p : Named) → IsWritable p → sorted_formula d p ≡ p
        → SpellsFormulaAt d p (formula_lexemes p) }
    ensures commands { (d : Declared) (c : Command) → IsWritableCommand c
        → sorted_command d c ≡ c → SpellsCommandAt d c (command_lexemes c) }
    ensures theories { (t : Theory) → IsWritableTheory t → with_sorts t ≡ t
        → SpellsTheory t (all_lexemes (theory_lines t)) }
{}

/// The bytes that are printed for a formula spell it, each variable with sort node.
pub fn printed_formulas_read_back()
    ensures raw { (p : Named) → IsWritable p → LiteralsAreUtf8 (formula_lexemes p)
        → SpellsFormula (sorted_formula undeclared p) (lexemes_of (text_of (formula_lexemes p))) }
    ensures declared { (d : Declared) (p : Named) → IsWritable p
        → LiteralsAreUtf8 (formula_lexemes p) → sorted_formula d p ≡ p
        → SpellsFormulaAt d p (lexemes_of (text_of (formula_lexemes p))) }
    ensures again { (p : Named) (bytes : List ℕ) → SpellsFormula p (lexemes_of bytes)
        → SpellsFormula p (lexemes_of (text_of (formula_lexemes p))) }
{}

/// Those for a command spell it in a version that has its words, each used variable with sort node.
pub fn printed_commands_read_back()
    ensures raw { (version : ℕ) (c : Command) → IsWritableCommand c
        → Each (IsOfVersion version) (command_lexemes c) → LiteralsAreUtf8 (command_lexemes c)
        → SpellsCommand (sorted_command undeclared c)
        (seen_in version (lexemes_of (text_of (command_lexemes c)))) }
    ensures declared { (version : ℕ) (d : Declared) (c : Command) → IsWritableCommand c
        → Each (IsOfVersion version) (command_lexemes c) → LiteralsAreUtf8 (command_lexemes c)
        → sorted_command d c ≡ c
        → SpellsCommandAt d c (seen_in version (lexemes_of (text_of (command_lexemes c)))) }
    ensures again { (version : ℕ) (c : Command) (bytes : List ℕ)
        → SpellsCommand c (seen_in version (lexemes_of bytes))
        → SpellsCommand c (seen_in version (lexemes_of (text_of (command_lexemes c)))) }
{}

/// Those for a theory read as it, but for the lines of its steps.
pub fn printed_theories_read_back()
    ensures written { (t : Theory) → IsWritableTheory t → with_sorts t ≡ t
        → Each LiteralsAreUtf8 (theory_lines t) → ReadsAs t (theory_text t) }
    ensures again { (t : Theory) (bytes : List ℕ) → SpellsTheory t (lexemes_of bytes)
        → ReadsAs t (theory_text t) }
{}

/// The text of a theory has nothing of the lines of its steps: what is read of it has the same.
pub fn lines_are_not_printed()
    ensures { (t u : Theory) → without_lines t ≡ without_lines u → theory_text t ≡ theory_text u }
{}

/// Where a theory or a grove is spelled, no token is bad.
pub fn spelled_text_has_no_bad_token()
    ensures theories { (t : Theory) (lexemes : List Lexeme) → SpellsTheory t lexemes
        → (place : ℕ) → slice_get lexemes place ≡ Some bad_lexeme → ⊥ }
    ensures groves { (g : Trees) (lexemes : List Lexeme) → SpellsGrove g lexemes
        → (place : ℕ) → slice_get lexemes place ≡ Some bad_lexeme → ⊥ }
{}
