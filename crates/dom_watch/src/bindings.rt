// What the variables that are bound stand for.
ghost use Rattle.std.specs.Prelude.{◌≡◌, true, IfOk};
ghost use Rattle.std.specs.List.{list_any};
ghost use Rattle.model_shapes.specs.Things.{val};
ghost use Rattle.model_terms.specs.VariableTests.{same_var};
ghost use Rattle.model_formulas.specs.Satisfaction.{Environment};
ghost use Rattle.dom_terms.specs.Terms.{logic_var_of};
ghost use Rattle.dom_terms.specs.Values.{value_seen};
ghost use Rattle.dom_watch.specs.Bindings.{bound_in, meant};

use crate::rows::Row;
use dom_terms::{LogicVar, OutOfMemory, Value, same_logic_var};
use std::alloc::Global;

/// The variables that are bound, the nearest first, each with the node at which its value stands.
#[derive(Drop)]
pub enum Bindings<'a> {
    /// None.
    Empty,
    /// The nearest one with its node, and those outside it.
    More(&'a LogicVar, &'a Row<'a>, &'a Bindings<'a>),
}

impl Bindings<'_> {
    /// The value of a variable that is bound.
    #[tactic(auto, using(crate::proofs::Meanings::binding_rules))]
    pub fn value(&self, alloc: Global, variable: &LogicVar) -> Result<Value, OutOfMemory>
        requires { list_any (same_var (logic_var_of variable.now)) (bound_in self.now) ≡ true }
        ensures { IfOk result (λ value. (e : Environment)
            → val (value_seen value) ≡ meant self.now e (logic_var_of variable.now)) }
    {
        match self {
            Bindings::Empty => unreachable!(),
            Bindings::More(nearest, row, outer) => {
                if same_logic_var(variable, nearest) {
                    row.value(alloc, nearest.sort)
                } else {
                    outer.value(alloc, variable)
                }
            }
        }
    }
}
