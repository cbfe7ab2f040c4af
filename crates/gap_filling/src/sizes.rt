// Whether an offer has the sizes that one may have.
ghost use Rattle.std.specs.Prelude.{◌≡◌, ◌↔◌, ℕ, IsTrue, map};
ghost use Rattle.model_files.specs.Sizes.{StepsAreSmall};
ghost use Rattle.model_filling.specs.Sizes.{IsSized};
ghost use Rattle.theory_syntax.specs.Judgements.{step_of};

use crate::meters::Meter;
use crate::steps::measure_steps;
use theory_syntax::Step;

// The most steps of an offer.
const MOST_STEPS: usize = 10_000;

// The most bytes of its text.
const MOST_BYTES: usize = 1_048_576;

/// Whether the steps have the sizes of an offer, in a theory of whatever version. Where they have,
/// their formulas are small.
pub(crate) fn has_sizes(steps: &[Step]) -> bool
    ensures sized { (version : ℕ) → IsTrue result ↔ IsSized version (map step_of steps.now) }
    ensures small { IsTrue result → StepsAreSmall (map step_of steps.now) }
{
    if steps.is_empty() || steps.len() > MOST_STEPS {
        return false;
    }
    // each token is counted with one byte before it, and the first has none
    let mut meter = Meter {
        bytes: MOST_BYTES + 1,
        brackets: 0,
        fits: true,
    };
    measure_steps(&mut meter, steps);
    meter.fits
}
