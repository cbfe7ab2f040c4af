//! The definitions of commands and theories, with no Rust data. Promises that they
//! say what is meant: their laws are functions here, each with an empty body. Stands on
//! model_formulas and model_terms.
#![tactic(auto)]

ghost use Rattle.std.specs.Prelude.{◌≡◌, ◌≢◌, ◌↔◌, true};
ghost use Rattle.model_shapes.specs.Sorts.{shape, Sort, ValueSort};
ghost use Rattle.model_shapes.specs.Values.{Value};
ghost use Rattle.model_shapes.specs.Trees.{Trees};
ghost use Rattle.model_shapes.specs.Things.{val};
ghost use Rattle.model_terms.specs.Terms.{Term};
ghost use Rattle.model_formulas.specs.Satisfaction.{Environment, Meets, with_store, meaning_of};
ghost use Rattle.model_terms.specs.Stores.{ProgVar, sort_of, Store, unset, set, default, value_in, value_of, lookup, ProperStore};
ghost use Rattle.model_terms.specs.Conditions.{Cond, condition_sorted, truth_of};
ghost use Rattle.model_terms.specs.TermSorts.{evaluates};
ghost use Rattle.model_commands.specs.Commands.{Command};
ghost use Rattle.model_commands.specs.Theories.{Procedures};
ghost use Rattle.model_commands.specs.SortTests.{is_sorted};
ghost use Rattle.model_commands.specs.Sorting.{Sorted};
ghost use Rattle.model_commands.specs.ConditionFormulas.{formula_of};

/// The value of a term of a command is what formulas take the term to stand for.
pub fn terms_mean_their_values()
    ensures { (s : ValueSort) (t : Term) (store : Store) (e : Environment)
        → evaluates s t ≡ true
        → meaning_of (with_store (lookup store) e) t ≡ val (value_of store t) }
{}

/// A condition is true exactly where its formula is met, whatever shape it is judged at.
pub fn conditions_are_their_formulas()
    ensures { (c : Cond) (store : Store) (e : Environment) (s : Sort) (r : Trees)
        → condition_sorted c ≡ true → ProperStore store
        → ((truth_of store c ≡ true) ↔ Meets (formula_of c) (with_store (lookup store) e) s r) }
{}

/// What passes the test of a command has parts of the right sorts and number.
pub fn what_is_tested_is_sorted()
    ensures { (procedures : Procedures) (c : Command) → is_sorted procedures c ≡ true
        → Sorted procedures c }
{}
