// The sorts of the parts of a formula that is judged at a sort.
ghost use Rattle.std.specs.Prelude.{◌≡◌};
ghost use Rattle.dom_terms.specs.Sorts.{sort_of};
ghost use Rattle.formula_syntax.specs.Formulas.{formula_of};
ghost use Rattle.declared_sorts.specs.PartSorts.{part_sorts as sorts_below};

use dom_terms::{DataSort, Sort};
use formula_syntax::{Formula, giving, inner, left_at, outer, right_at};

// Those of two parts; of one part, the first of them.
pub(crate) fn part_sorts(formula: &Formula, sort: Sort) -> (Sort, Sort)
    ensures left { sort_of result.0
        ≡ (sorts_below (formula_of formula.now) (sort_of sort)).0 }
    ensures right { sort_of result.1
        ≡ (sorts_below (formula_of formula.now) (sort_of sort)).1 }
{
    match formula {
        Formula::One(_) | Formula::Root(_) => (giving(DataSort::Tree, sort), sort),
        Formula::Join(side, _, _) => (left_at(*side, sort), right_at(*side, sort)),
        Formula::PlusHole(_, _) => (sort, Sort::Shape(DataSort::Grove)),
        Formula::App(hole, _, _) => (Sort::Context(*hole, outer(sort)), giving(*hole, sort)),
        Formula::HoleAdj(_, _) => (Sort::Shape(inner(sort)), Sort::Shape(outer(sort))),
        Formula::CtxAdj(whole, _, _) => (Sort::Context(outer(sort), *whole), Sort::Shape(*whole)),
        _ => (sort, sort),
    }
}
