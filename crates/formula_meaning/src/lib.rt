//! When a shape or a context meets a formula of the program.
//! Promises the public laws of satisfaction, each a function here with an empty body: it is closed
//! under sameness of shapes, depends on the free variables alone, commutes with substitution, and
//! respects sameness of formulas.
//! Stands on the formulas of the program and the definition of satisfaction.
#![tactic(auto)]

ghost use Rattle.std.specs.Prelude.{◌≡◌, ◌↔◌, map};
ghost use Rattle.model_shapes.specs.Sorts.{Sort};
ghost use Rattle.model_shapes.specs.Shapes.{Same};
ghost use Rattle.model_shapes.specs.Trees.{Trees};
ghost use Rattle.model_terms.specs.Variables.{Var};
ghost use Rattle.model_formulas.specs.Substitution.{formula_with, FreeIn};
ghost use Rattle.model_formulas.specs.Nameless.{SameFormula, nameless};
ghost use Rattle.model_formulas.specs.Satisfaction.{Environment, meaning_of};
ghost use Rattle.formula_syntax.specs.Formulas.{formula_of, pair_of};
ghost use Rattle.formula_syntax.specs.Substitution.{replacing_each};
ghost use Rattle.formula_meaning.specs.Satisfaction.{MeetsFormula};

use formula_syntax::{Formula, Pair};

/// What is the same as a shape or context that meets the formula meets it too.
pub fn same_shapes_meet_the_same(formula: &Formula)
    ensures { (e : Environment) (s : Sort) (a b : Trees) → Same s a b
        → MeetsFormula formula.now e s a → MeetsFormula formula.now e s b }
{}

/// Environments that agree on the free variables of the formula agree on what meets it.
pub fn only_free_variables_count(formula: &Formula)
    ensures { (e f : Environment) (s : Sort) (r : Trees)
        → ((x : Var) → FreeIn x (nameless (formula_of formula.now)) → e x ≡ f x)
        → MeetsFormula formula.now e s r → MeetsFormula formula.now f s r }
{}

/// A formula that is another one with the terms of the pairs in place of their variables is met
/// where the other one is, each variable standing for what its term stands for.
pub fn substitution_commutes_with_meaning(from: &Formula, pairs: &[Pair], to: &Formula)
    ensures { (e : Environment) (s : Sort) (r : Trees)
        → formula_with (replacing_each (map pair_of pairs.now)) (nameless (formula_of from.now))
        ≡ nameless (formula_of to.now)
        → (MeetsFormula to.now e s r ↔ MeetsFormula from.now
        (λ x. meaning_of e (replacing_each (map pair_of pairs.now) x)) s r) }
{}

/// Formulas that are equal up to the names of bound variables have one meaning.
pub fn same_formulas_have_one_meaning(left: &Formula, right: &Formula)
    ensures { (e : Environment) (s : Sort) (r : Trees)
        → SameFormula (formula_of left.now) (formula_of right.now)
        → (MeetsFormula left.now e s r ↔ MeetsFormula right.now e s r) }
{}
