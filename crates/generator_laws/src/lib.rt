//! The text that `make` prints is what is printed for the generated theory, and is a file; that
//! theory is accepted. With no Rust data. Promises that, for every number of procedures that may be
//! asked for. Stands on model_generator, rule_table and the definitions of texts.
#![tactic(auto)]

ghost use Rattle.std.specs.Prelude.{◌≡◌, ◌≤◌, ◌*◌, ℕ};
ghost use Rattle.model_commands.specs.Theories.{Theory};
ghost use Rattle.model_generator.specs.Made.{most_makers, made_text};
ghost use Rattle.model_generator.specs.Generated.{generated_theory};
ghost use Rattle.model_grammar.specs.TheoryWriting.{theory_text};
ghost use Rattle.model_round_trip.specs.ReadBack.{without_lines};
ghost use Rattle.model_answers.specs.Texts.{IsFile};
ghost use Rattle.model_answers.specs.Output.{line, accepted_text, accepted_line};
ghost use Rattle.rule_table.specs.Accepted.{IsAccepted};

/// Each step of the theory is an instance of its rule, and each proof ends in its procedure's
/// triple.
pub fn the_generated_theory_is_accepted()
    ensures { (n : ℕ) → IsAccepted (generated_theory n) }
{}

/// Whether a theory is accepted has nothing to do with the lines on which its steps stand.
pub fn lines_do_not_count()
    ensures { (t u : Theory) → without_lines t ≡ without_lines u → IsAccepted t → IsAccepted u }
{}

/// What is printed for it is the text of `make`.
pub fn what_is_printed_is_the_text_of_make()
    ensures { (n : ℕ) → theory_text (generated_theory n) ≡ made_text n }
{}

/// That text is a file: it passes no limit and spells a theory that is well formed, and the same
/// but for the lines of its steps.
pub fn what_is_printed_is_a_file()
    ensures { (n : ℕ) → 1 ≤ n → n ≤ most_makers
        → (read : Theory) × IsFile (made_text n) read
        × (without_lines read ≡ without_lines (generated_theory n)) }
{}

/// The theory of that file is accepted, and its line is the one of `trial`.
pub fn what_is_printed_is_accepted()
    ensures { (n : ℕ) → 1 ≤ n → n ≤ most_makers
        → (read : Theory) × IsFile (made_text n) read × IsAccepted read
        × (accepted_line read ≡ line (accepted_text n (8 * n))) }
{}
