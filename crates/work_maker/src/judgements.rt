// What the steps say.
ghost use Rattle.std.specs.Prelude.{◌≡◌};
ghost use Rattle.model_shapes.specs.Sorts.{shape, grove};
ghost use Rattle.model_commands.specs.Theories.{entails, triple};
ghost use Rattle.formula_syntax.specs.Formulas.{formula_of};
ghost use Rattle.theory_syntax.specs.Commands.{command_of};
ghost use Rattle.theory_syntax.specs.Judgements.{judgement_of};

use dom_terms::{DataSort, Sort};
use formula_syntax::{Entailment, Formula};
use theory_syntax::{Command, Judgement, Triple};

/// An entailment about groves, of its two sides.
pub fn about(sides: (Formula, Formula)) -> Judgement
    ensures { judgement_of result
        ≡ entails (formula_of sides.0) (formula_of sides.1) (shape grove) }
{
    let (left, right) = sides;
    let sort = Sort::Shape(DataSort::Grove);
    Judgement::Entails(Entailment { left, right, sort })
}

/// A triple about groves: what it requires and ensures, and its command.
pub fn hoare(ends: (Formula, Formula), command: Command) -> Judgement
    ensures { judgement_of result
        ≡ triple (formula_of ends.0) (command_of command) (formula_of ends.1) grove }
{
    let (pre, post) = ends;
    let sort = DataSort::Grove;
    Judgement::Triple(Triple {
        pre,
        command,
        post,
        sort,
    })
}
