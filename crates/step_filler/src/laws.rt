// What is known of the offers of the assistants.
ghost use Rattle.std.specs.Prelude.{◌≡◌, ◌≤◌, ◌++◌, ℕ, List, IfSome, is_some, length};
ghost use Rattle.model_formulas.specs.Formulas.{Named};
ghost use Rattle.model_commands.specs.Theories.{JudgementOf, StepOf, Procedures, nameless_judgement};
ghost use Rattle.model_filling.specs.Sizes.{IsSized};
ghost use Rattle.assistant_laws.specs.Obvious.{is_obvious_by_conjuncts};
ghost use Rattle.assistant_laws.specs.Plans.{Plan, steps_of};
ghost use Rattle.assistant_laws.specs.Proposals.{Proves};
ghost use Rattle.assistant_laws.specs.ConjunctPlans.{plan_by_conjuncts};
ghost use Rattle.step_filler.specs.Given.{given_by, offer_of};

use assistant_laws::what_is_obvious_by_conjuncts_is_proved;

/// What is given for a plan begins its steps, and ends at the 10,001st at the latest. It is all of
/// them where it has the sizes of an offer, and where all of them have.
pub fn what_has_the_sizes_is_whole()
    ensures begins { (number : ℕ) (plan : Plan)
        → (rest : List (StepOf Named)) × (given_by number plan ++ rest ≡ steps_of number plan) }
    ensures few { (number : ℕ) (plan : Plan) → length (given_by number plan) ≤ 10001 }
    ensures whole { (version number : ℕ) (plan : Plan) → IsSized version (given_by number plan)
        → given_by number plan ≡ steps_of number plan }
    ensures all { (version number : ℕ) (plan : Plan) → IsSized version (steps_of number plan)
        → given_by number plan ≡ steps_of number plan }
{}

/// By conjuncts: steps are offered exactly where the judgement is obvious, and prove it wherever
/// they have the sizes of an offer.
pub fn what_is_obvious_by_conjuncts_is_offered()
    ensures exactly { (number : ℕ) (j : JudgementOf Named)
        → is_some (offer_of (plan_by_conjuncts j) number)
        ≡ is_obvious_by_conjuncts (nameless_judgement j) }
    ensures proved { (procedures : Procedures) (version number : ℕ) (j : JudgementOf Named)
        → IfSome (offer_of (plan_by_conjuncts j) number) (λ steps. IsSized version steps
        → Proves procedures number (nameless_judgement j) steps) }
{
    what_is_obvious_by_conjuncts_is_proved();
}
