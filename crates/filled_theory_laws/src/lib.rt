//! The texts of filled theories, with no Rust data. Promises that a filled theory can be written
//! where the theory handed in could be, and that its text is a file, which reads back and is
//! accepted. Stands on model_filling, model_round_trip and generator_laws.
#![tactic(auto)]

ghost use Rattle.std.specs.Prelude.{◌≡◌, ◌≤◌, ℕ, List, None};
ghost use Rattle.model_limits.specs.Limits.{standard_limits};
ghost use Rattle.model_commands.specs.Each.{Each};
ghost use Rattle.model_commands.specs.Theories.{Theory};
ghost use Rattle.model_files.specs.FileFaults.{IsWellFormedTheory};
ghost use Rattle.model_files.specs.FileLimits.{step_count};
ghost use Rattle.model_grammar.specs.Sorts.{with_sorts};
ghost use Rattle.model_grammar.specs.TheoryWriting.{theory_lines, theory_text};
ghost use Rattle.model_round_trip.specs.Writable.{IsWritableTheory};
ghost use Rattle.model_round_trip.specs.Literals.{LiteralsAreUtf8};
ghost use Rattle.model_round_trip.specs.ReadBack.{without_lines, ReadsAs};
ghost use Rattle.model_answers.specs.Texts.{theory_limit, IsFile};
ghost use Rattle.rule_table.specs.Accepted.{IsAccepted};
ghost use Rattle.model_filling.specs.Offers.{Voice};
ghost use Rattle.model_filling.specs.Filled.{IsFilled, filled_limit};

/// A well-formed theory has the sorts of its declarations.
pub fn well_formed_theories_have_their_sorts()
    ensures { (theory : Theory) → IsWellFormedTheory theory → with_sorts theory ≡ theory }
{}

/// A filled theory can be written where the theory handed in could be, if a number can count its
/// steps.
pub fn filled_theories_can_be_written()
    ensures { (theory : Theory) (voices : List Voice) (t : Theory) → IsFilled theory voices t
        → IsWellFormedTheory theory → IsWritableTheory theory
        → step_count t.procedures ≤ standard_limits.numeral → IsWritableTheory t }
{}

/// So its text reads as it, but for the lines of its steps, if its literals are UTF-8.
pub fn filled_theories_read_back()
    ensures { (theory : Theory) (voices : List Voice) (t : Theory) → IsFilled theory voices t
        → IsWellFormedTheory theory → IsWritableTheory theory
        → step_count t.procedures ≤ standard_limits.numeral
        → Each LiteralsAreUtf8 (theory_lines t) → ReadsAs t (theory_text t) }
{}

/// What reads as a filled theory, but for the lines of its steps, is well formed and accepted; and
/// it passes no limit of theories, where the theory handed in and the filled one pass none.
pub fn what_reads_as_a_filled_theory_is_accepted()
    ensures formed { (theory : Theory) (voices : List Voice) (t read : Theory)
        → IsFilled theory voices t → IsWellFormedTheory theory
        → without_lines read ≡ without_lines t → IsWellFormedTheory read }
    ensures accepted { (theory : Theory) (voices : List Voice) (t read : Theory)
        → IsFilled theory voices t → without_lines read ≡ without_lines t → IsAccepted read }
    ensures within { (theory : Theory) (voices : List Voice) (t read : Theory)
        → IsFilled theory voices t → theory_limit theory ≡ None → filled_limit t ≡ None
        → without_lines read ≡ without_lines t → theory_limit read ≡ None }
{}

/// The text of a filled theory is a file, where the theory handed in was read from one, the filled
/// one passes no limit, and its literals are UTF-8: the text spells a theory that is the filled one
/// but for the lines of its steps, and that is accepted.
pub fn the_text_of_a_filled_theory_is_an_accepted_file()
    ensures { (bytes : List ℕ) (theory : Theory) (voices : List Voice) (t : Theory)
        → IsFile bytes theory → IsFilled theory voices t → filled_limit t ≡ None
        → Each LiteralsAreUtf8 (theory_lines t)
        → (read : Theory) × IsFile (theory_text t) read
        × (without_lines read ≡ without_lines t) × IsAccepted read }
{}
