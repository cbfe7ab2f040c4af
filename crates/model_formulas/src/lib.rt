//! The definitions of variables, terms, formulas, sorts of formulas, substitution, satisfaction and
//! entailment, with no Rust data. Promises that they say what is meant: their laws are functions
//! here, each with an empty body. Stands on model_shapes.
#![tactic(auto)]

ghost use Rattle.std.specs.Prelude.{◌≡◌, ◌↔◌, ◌<◌, ℕ, true, Some, length};
ghost use Rattle.model_shapes.specs.Sorts.{Sort, value, shape, context, ValueSort, forest, grove};
ghost use Rattle.model_shapes.specs.Shapes.{Same, Shaped};
ghost use Rattle.model_shapes.specs.Trees.{Trees};
ghost use Rattle.model_shapes.specs.Things.{Fits};
ghost use Rattle.model_terms.specs.Variables.{Var, var_sort};
ghost use Rattle.model_terms.specs.VariableTests.{same_var};
ghost use Rattle.model_terms.specs.Terms.{Term, variable, Substitution};
ghost use Rattle.model_formulas.specs.Formulas.{Formula, Named, truth, falsity, conjunction, implication, existential, universal, equality, bare_hole, empty, grove_sum_hole, node_formula, one_root, value_meets, is_pure};
ghost use Rattle.model_formulas.specs.Substitution.{formula_with, FreeIn, exists, forall, replacing};
ghost use Rattle.model_formulas.specs.Nameless.{SameFormula, nameless};
ghost use Rattle.model_formulas.specs.SameFormulas.{same_formula};
ghost use Rattle.model_formulas.specs.WellSorted.{is_form, has_sort, flags, first_fault};
ghost use Rattle.model_formulas.specs.Parts.{parts};
ghost use Rattle.model_formulas.specs.Setting.{setting};
ghost use Rattle.model_formulas.specs.Satisfaction.{Environment, Meets, Entails, Proper, SomeThing, EachThing, Classically, meaning_of};

/// The same shapes and contexts meet the same formulas.
pub fn same_meet_the_same()
    ensures { (p : Formula) (e : Environment) (s : Sort) (a b : Trees) → Same s a b
        → Meets p e s a → Meets p e s b }
{}

/// What can't fail to be met is met, so the classical reading is a reading.
pub fn what_does_not_fail_is_met()
    ensures { (p : Formula) (e : Environment) (s : Sort) (r : Trees)
        → Classically (Meets p e s r) → Meets p e s r }
{}

/// Only what the free variables stand for counts.
pub fn only_free_variables_count()
    ensures { (p : Formula) (e f : Environment) (s : Sort) (r : Trees)
        → ((x : Var) → FreeIn x p → e x ≡ f x) → Meets p e s r → Meets p f s r }
{}

/// A substituted formula is met where the formula is met with each variable standing for what its
/// term stands for.
pub fn substitution_commutes_with_meaning()
    ensures { (p : Formula) (f : Substitution) (e : Environment) (s : Sort) (r : Trees)
        → (Meets (formula_with f p) e s r ↔ Meets p (λ x. meaning_of e (f x)) s r) }
{}

/// A quantifier over a variable ranges over the things of the variable's sort.
pub fn quantifiers_range_over_their_sort()
    ensures some { (x : Var) (p : Formula) (e : Environment) (s : Sort) (r : Trees)
        → (Meets (exists x p) e s r
        ↔ SomeThing (var_sort x) (λ v. Meets p (setting x v e) s r)) }
    ensures each { (x : Var) (p : Formula) (e : Environment) (s : Sort) (r : Trees)
        → (Meets (forall x p) e s r
        ↔ EachThing (var_sort x) (λ v. Meets p (setting x v e) s r)) }
{}

/// A bound variable may be renamed to one of its sort that isn't free below it.
pub fn bound_variables_may_be_renamed()
    ensures some { (x y : Var) (p : Formula) → var_sort x ≡ var_sort y → (FreeIn y p → ⊥)
        → exists x p ≡ exists y (formula_with (replacing x (variable y)) p) }
    ensures each { (x y : Var) (p : Formula) → var_sort x ≡ var_sort y → (FreeIn y p → ⊥)
        → forall x p ≡ forall y (formula_with (replacing x (variable y)) p) }
{}

/// Formulas that are the same but for the names of bound variables have one meaning.
pub fn same_formulas_have_one_meaning()
    ensures { (p q : Named) (e : Environment) (s : Sort) (r : Trees) → SameFormula p q
        → (Meets (nameless p) e s r ↔ Meets (nameless q) e s r) }
{}

/// The nameless form of a quantifier is that of its part, closed over its variable.
pub fn quantifiers_close_over_their_variable()
    ensures some { (x : Var) (p : Named) → nameless (existential x p) ≡ exists x (nameless p) }
    ensures each { (x : Var) (p : Named) → nameless (universal x p) ≡ forall x (nameless p) }
{}

/// The test decides whether two formulas are the same, with names and without; and that of
/// variables whether they are equal.
pub fn the_test_decides_sameness()
    ensures variables { (x y : Var) → ((same_var x y ≡ true) ↔ (x ≡ y)) }
    ensures nameless { (p q : Formula) → ((same_formula p q ≡ true) ↔ (p ≡ q)) }
    ensures named { (p q : Named)
        → ((same_formula (nameless p) (nameless q) ≡ true) ↔ SameFormula p q) }
{}

/// A well-sorted term stands for a thing of its sort.
pub fn terms_stand_for_their_sort()
    ensures { (t : Term) (s : ValueSort) (e : Environment) → Proper e → has_sort s t ≡ true
        → Fits (value s) (meaning_of e t) }
{}

/// There is a proper environment, so no entailment holds for want of one.
pub fn a_proper_environment_exists()
    ensures { (e : Environment) × Proper e }
{}

/// At no sort of formulas does truth entail falsity.
pub fn truth_does_not_entail_falsity()
    ensures { (s : Sort) → is_form s ≡ true → Entails truth falsity s → ⊥ }
{}

/// The hole of a context that gives a grove has no place among the roots: where two variables stand
/// for a hole beside one root with nothing below it, they stand for one thing.
pub fn a_hole_has_no_place_among_roots()
    ensures { (x y : Var) (name number list : Term) (p : Formula)
        → var_sort x ≡ context grove grove → var_sort y ≡ context grove grove
        → p ≡ grove_sum_hole (bare_hole grove)
        (one_root (node_formula name number (empty forest) list))
        → Entails truth (forall x (forall y (implication
        (conjunction (value_meets (context grove grove) (variable x) p)
        (value_meets (context grove grove) (variable y) p))
        (equality (variable x) (variable y))))) (shape grove) }
{}

/// A pure formula says the same at every sort and of every shape and context. An `is` is one,
/// whatever its part says: it speaks of its variable's value.
pub fn pure_formulas_ignore_the_shape()
    ensures { (p : Formula) → is_pure p ≡ true → (e : Environment) (s t : Sort) (r w : Trees)
        → Meets p e s r → Meets p e t w }
{}

/// The first part at fault is one of the formula's parts, which are counted from 0.
pub fn faults_are_at_parts()
    ensures counted { (p : Named) (s : Sort) → length (flags p s) ≡ parts p }
    ensures within { (p : Named) (s : Sort) (m : ℕ) → first_fault p s ≡ Some m → m < parts p }
{}
