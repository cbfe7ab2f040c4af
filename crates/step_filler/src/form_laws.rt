// What is known of what is offered by form.
ghost use Rattle.std.specs.Prelude.{◌≡◌, ℕ, IfSome, is_some};
ghost use Rattle.model_formulas.specs.Formulas.{Named};
ghost use Rattle.model_commands.specs.Theories.{JudgementOf, Procedures, nameless_judgement};
ghost use Rattle.model_filling.specs.Sizes.{IsSized};
ghost use Rattle.assistant_laws.specs.Obvious.{is_obvious_by_form};
ghost use Rattle.assistant_laws.specs.Proposals.{Proves};
ghost use Rattle.assistant_laws.specs.FormPlans.{plan_by_form};
ghost use Rattle.step_filler.specs.Given.{offer_of};

use assistant_laws::what_is_obvious_by_form_is_proved;

/// By form: steps are offered exactly where the judgement is obvious, and prove it wherever they
/// have the sizes of an offer.
pub fn what_is_obvious_by_form_is_offered()
    ensures exactly { (number : ℕ) (j : JudgementOf Named)
        → is_some (offer_of (plan_by_form j) number)
        ≡ is_obvious_by_form (nameless_judgement j) }
    ensures proved { (procedures : Procedures) (version number : ℕ) (j : JudgementOf Named)
        → IfSome (offer_of (plan_by_form j) number) (λ steps. IsSized version steps
        → Proves procedures number (nameless_judgement j) steps) }
{
    what_is_obvious_by_form_is_proved();
}
