// What a step cites, by number.
ghost use Rattle.std.specs.Prelude.{◌≡◌, ◌==◌, MatchOption, Some, None, map, true};
ghost use Rattle.std.specs.List.{find};
ghost use Rattle.std.specs.Option.{option_copied};
ghost use Rattle.model_commands.specs.Theories.{nameless_judgement};
ghost use Rattle.model_files.specs.Sizes.{JudgementIsSmall};
ghost use Rattle.rule_table.specs.Accepted.{judgement_numbered};
ghost use Rattle.theory_syntax.specs.Judgements.{judgement_of, step_of};
ghost use Rattle.cited_steps.specs.Earlier as earlier_steps;

use theory_syntax::{Judgement, Step};

/// Whether the steps are numbered 1, 2, 3 .., as those of a well-formed theory are.
pub fn are_numbered(steps: &[Step]) -> bool
    ensures { result ≡ earlier_steps.are_numbered 1 steps.now }
{
    for (place, step) in steps.iter().enumerate() {
        if step.number as usize != place + 1 {
            return false;
        }
    }
    true
}

// The first step of the number: each is numbered by its place.
fn step_numbered(number: u32, steps: &[Step]) -> Option<&Step>
    requires { earlier_steps.are_numbered 1 steps.now ≡ true }
    ensures { option_copied result ≡ find (λ s. s.number == number) steps.now }
{
    let place = (number as usize).checked_sub(1)?;
    steps.get(place)
}

/// What the earlier step of the number says, and None where no step has it.
pub fn cited(number: u32, earlier: &[Step]) -> Option<&Judgement>
    requires { earlier_steps.AreCitable earlier.now }
    ensures written { MatchOption result
        (earlier_steps.written_judgement number (map step_of earlier.now) ≡ None)
        (λ j. (earlier_steps.written_judgement number (map step_of earlier.now)
        ≡ Some (judgement_of j.now)) × JudgementIsSmall (judgement_of j.now)) }
    ensures nameless { MatchOption result
        (judgement_numbered number (earlier_steps.steps_in earlier.now) ≡ None)
        (λ j. judgement_numbered number (earlier_steps.steps_in earlier.now)
        ≡ Some (nameless_judgement (judgement_of j.now))) }
{
    let step = step_numbered(number, earlier)?;
    Some(&step.judgement)
}
