//! The definitions of variables, terms, stores and conditions, and of the limits of values, with no
//! Rust data. Promises that stores are maps: its law is a function here, with an empty body. Stands
//! on model_shapes and model_limits.
#![tactic(auto)]

ghost use Rattle.std.specs.Prelude.{◌≡◌, ◌≢◌, true};
ghost use Rattle.model_shapes.specs.Sorts.{ValueSort};
ghost use Rattle.model_shapes.specs.Values.{Value};
ghost use Rattle.model_terms.specs.Stores.{ProgVar, sort_of, Store, unset, set, default, value_in};
ghost use Rattle.model_terms.specs.Terms.{Term};
ghost use Rattle.model_terms.specs.TermSorts.{evaluates};
ghost use Rattle.model_terms.specs.Conditions.{Cond, condition_sorted};
ghost use Rattle.model_terms.specs.Computing.{Computes, Tests};

/// A store gives each variable the value that it was set to last, and else its sort's default.
pub fn stores_are_maps()
    ensures empty { (x : ProgVar) → value_in unset x ≡ default (sort_of x) }
    ensures same { (x : ProgVar) (v : Value) (store : Store) → value_in (set x v store) x ≡ v }
    ensures other { (x : ProgVar) (v : Value) (store : Store) (y : ProgVar) → y ≢ x
        → value_in (set x v store) y ≡ value_in store y }
{}

/// What passes the tests of the sorts of terms and conditions of commands is so related.
pub fn what_is_tested_is_sorted()
    ensures term { (s : ValueSort) (t : Term) → evaluates s t ≡ true → Computes s t }
    ensures condition { (c : Cond) → condition_sorted c ≡ true → Tests c }
{}
