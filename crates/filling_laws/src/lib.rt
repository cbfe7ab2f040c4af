//! What the assistants offer is usable wherever it isn't too large, with no Rust data. Stands on
//! assistant_laws and model_filling.
#![tactic(auto)]

ghost use Rattle.std.specs.Prelude.{◌≡◌, ◌<◌, ◌≤◌, ◌+◌, ◌*◌, ℕ, Bool, true, List, None, IfSome};
ghost use Rattle.std.specs.List.{list_all};
ghost use Rattle.model_terms.specs.Terms.{Term};
ghost use Rattle.model_formulas.specs.Formulas.{Named};
ghost use Rattle.model_files.specs.FileFaults.{step_kind, judgement_sorted};
ghost use Rattle.model_commands.specs.Each.{Each};
ghost use Rattle.model_commands.specs.Theories.{JudgementOf, StepOf, ProcedureOf, Theory};
ghost use Rattle.assistant_laws.specs.Bounds.{parts_of};
ghost use Rattle.assistant_laws.specs.Plans.{steps_of};
ghost use Rattle.assistant_laws.specs.ConjunctPlans.{plan_by_conjuncts};
ghost use Rattle.assistant_laws.specs.FormPlans.{plan_by_form};
ghost use Rattle.assistant_laws.specs.FillingPlans.{plan_by_filling};
ghost use Rattle.model_filling.specs.Sizes.{IsSized};
ghost use Rattle.model_filling.specs.Usable.{IsUsable};
ghost use Rattle.model_round_trip.specs.Writable.{IsWritableJudgement};
ghost use Rattle.filling_laws.specs.TextBounds.{judgement_bytes};
ghost use Rattle.model_filling.specs.Nested.{Nests};
ghost use Rattle.filling_laws.specs.TermsIn.{terms_of_sides};

/// What an assistant gives for a gap that is well formed in its file is usable, if it is sized.
pub fn what_is_given_is_usable()
    ensures conjuncts { (theory : Theory) (f : ProcedureOf Named) (place number : ℕ)
        (earlier : List (StepOf Named)) (asked : StepOf Named)
        → Each (λ step. step.number < number) earlier → step_kind theory f place asked ≡ None
        → IfSome (plan_by_conjuncts asked.judgement)
        (λ plan. IsSized theory.version (steps_of number plan)
        → IsUsable theory f earlier number asked.judgement (steps_of number plan)) }
    ensures form { (theory : Theory) (f : ProcedureOf Named) (place number : ℕ)
        (earlier : List (StepOf Named)) (asked : StepOf Named)
        → Each (λ step. step.number < number) earlier → step_kind theory f place asked ≡ None
        → IfSome (plan_by_form asked.judgement)
        (λ plan. IsSized theory.version (steps_of number plan)
        → IsUsable theory f earlier number asked.judgement (steps_of number plan)) }
    ensures filling { (theory : Theory) (f : ProcedureOf Named) (place number : ℕ)
        (earlier : List (StepOf Named)) (asked : StepOf Named)
        → Each (λ step. step.number < number) earlier → step_kind theory f place asked ≡ None
        → IfSome (plan_by_filling asked.judgement)
        (λ plan. IsSized theory.version (steps_of number plan)
        → IsUsable theory f earlier number asked.judgement (steps_of number plan)) }
{}

/// It has no term that the asked judgement hasn't, and so no literal and no variable: what all
/// terms of the asked judgement pass, all terms of each step pass.
pub fn what_is_given_has_no_new_term()
    ensures conjuncts { (test : Term → Bool) (number : ℕ) (j : JudgementOf Named)
        → judgement_sorted j ≡ true → list_all test (terms_of_sides j) ≡ true
        → IfSome (plan_by_conjuncts j) (λ plan. Each (λ step.
        list_all test (terms_of_sides step.judgement) ≡ true) (steps_of number plan)) }
    ensures form { (test : Term → Bool) (number : ℕ) (j : JudgementOf Named)
        → judgement_sorted j ≡ true → list_all test (terms_of_sides j) ≡ true
        → IfSome (plan_by_form j) (λ plan. Each (λ step.
        list_all test (terms_of_sides step.judgement) ≡ true) (steps_of number plan)) }
    ensures filling { (test : Term → Bool) (number : ℕ) (j : JudgementOf Named)
        → judgement_sorted j ≡ true → list_all test (terms_of_sides j) ≡ true
        → IfSome (plan_by_filling j) (λ plan. Each (λ step.
        list_all test (terms_of_sides step.judgement) ≡ true) (steps_of number plan)) }
{}

/// The text of each of its judgements is at most three times as long as the asked one's and 256
/// bytes; by form, if the asked one can be written.
pub fn what_is_given_is_short()
    ensures conjuncts { (number : ℕ) (j : JudgementOf Named) → IfSome (plan_by_conjuncts j)
        (λ plan. Each (λ step. judgement_bytes step.judgement ≤ 3 * judgement_bytes j + 256)
        (steps_of number plan)) }
    ensures form { (number : ℕ) (j : JudgementOf Named) → IsWritableJudgement j
        → IfSome (plan_by_form j)
        (λ plan. Each (λ step. judgement_bytes step.judgement ≤ 3 * judgement_bytes j + 256)
        (steps_of number plan)) }
    ensures filling { (number : ℕ) (j : JudgementOf Named) → IfSome (plan_by_filling j)
        (λ plan. Each (λ step. judgement_bytes step.judgement ≤ 3 * judgement_bytes j + 256)
        (steps_of number plan)) }
{}

/// Where at most so many brackets are open at each token of the asked one, at most that many, one
/// more for each formula part of its sides, and 8 are open in each of its judgements.
pub fn what_is_given_nests_little()
    ensures conjuncts { (number most : ℕ) (j : JudgementOf Named) → Nests most j
        → IfSome (plan_by_conjuncts j) (λ plan. Each (λ step.
        Nests (most + (parts_of j + 8)) step.judgement) (steps_of number plan)) }
    ensures form { (number most : ℕ) (j : JudgementOf Named) → Nests most j
        → IfSome (plan_by_form j) (λ plan. Each (λ step.
        Nests (most + (parts_of j + 8)) step.judgement) (steps_of number plan)) }
    ensures filling { (number most : ℕ) (j : JudgementOf Named) → Nests most j
        → IfSome (plan_by_filling j) (λ plan. Each (λ step.
        Nests (most + (parts_of j + 8)) step.judgement) (steps_of number plan)) }
{}
