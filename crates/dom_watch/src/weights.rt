// The weight of a formula, which bounds how many parts are judged.
ghost use Rattle.std.specs.Prelude.{◌≡◌, ◌-◌, ◌^◌, min};
ghost use Rattle.model_watch.specs.Watchable as model;
ghost use Rattle.formula_syntax.specs.Formulas.{formula_of};

use formula_syntax::Formula;

/// The weight of the formula for so many nodes, or the greatest number where it is above that.
#[tactic(auto, using(crate::proofs::Saturating::weight_rules))]
pub fn weight(formula: &Formula, nodes: u64) -> u64
    ensures { result ≡ min (model.weight nodes (formula_of formula.now)) (2 ^ 64 - 1) }
{
    match formula {
        Formula::And(p, q) | Formula::Or(p, q) | Formula::Imp(p, q) => {
            let parts = weight(p, nodes).saturating_add(weight(q, nodes));
            parts.saturating_add(1)
        }
        Formula::Not(p) | Formula::Node(_, _, p, _) | Formula::One(p) | Formula::Root(p) => {
            weight(p, nodes).saturating_add(1)
        }
        Formula::Exists(_, p) => {
            let one = weight(p, nodes).saturating_add(1);
            nodes.saturating_add(1).saturating_mul(one)
        }
        Formula::Join(_, p, q) | Formula::Plus(p, q) => {
            let parts = weight(p, nodes).saturating_add(weight(q, nodes));
            nodes
                .saturating_add(1)
                .saturating_mul(parts.saturating_add(1))
        }
        _ => 1,
    }
}
