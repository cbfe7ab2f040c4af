// The free variables of a formula.
ghost use Rattle.std.specs.Prelude.{◌≡◌, ◌↔◌, IsTrue, IfOk, ◌∷◌, [], ◌++◌, map};
ghost use Rattle.std.specs.List.{IsDistinct};
ghost use Rattle.model_terms.specs.VariableTests.{same_var};
ghost use Rattle.model_terms.specs.Variables.{Var};
ghost use Rattle.model_formulas.specs.Formulas.{Named};
ghost use Rattle.model_formulas.specs.Substitution.{FreeIn};
ghost use Rattle.model_formulas.specs.Nameless.{nameless};
ghost use Rattle.dom_terms.specs.Terms.{term_of};
ghost use Rattle.formula_syntax.specs.Formulas.{any_var_of, formula_of};
ghost use Rattle.formula_syntax.specs.Binders.{bound_by};
ghost use Rattle.formula_syntax.specs.Substitution.{var_named};
ghost use Rattle.formula_syntax.specs.FreeVariables.{free_in_order, is_among, occurrences};
ghost use Rattle.formula_syntax.specs.FreeVariables.{variables_of_term};
ghost use Rattle.formula_syntax.specs.Gathering.{outside, with_each};

use crate::binders::Binders;
use crate::formulas::Formula;
use crate::gathered::Gathered;
use crate::replaced::Name;
use crate::variables::AnyVar;
use dom_terms::{OutOfMemory, Term, same_logic_var};
use std::alloc::Global;

/// The free variables of the formula, each once, in the order of their first occurrences. A
/// variable is its name and its sort, and a quantifier binds only what is equal to its variable in
/// both. OutOfMemory comes only where memory is refused.
#[tactic(auto, using(crate::proofs::FreeVariables::order_rules))]
pub fn free_vars(alloc: Global, formula: &Formula) -> Result<Vec<AnyVar>, OutOfMemory>
    ensures { IfOk result
        (λ vars. map any_var_of vars.items ≡ free_in_order (formula_of formula.now)) }
{
    let mut found = Gathered::new(alloc);
    add_free(alloc, formula, &Binders::Empty, &mut found)?;
    Ok(found.into_variables())
}

/// A variable is in the list of the free ones exactly where it stands free in the nameless formula,
/// and none is there twice.
pub fn the_list_has_the_free_variables()
    ensures free { (p : Named) (x : Var)
        → (IsTrue (is_among x (free_in_order p)) ↔ FreeIn x (nameless p)) }
    ensures once { (p : Named) → IsDistinct same_var (free_in_order p) }
{}

// puts the free variables of the formula below the binders after those that were found
#[cycle(add_free)]
#[tactic(auto, using(crate::proofs::Gathering::step_rules))]
fn add_free<'a>(
    alloc: Global,
    formula: &'a Formula,
    over: &Binders,
    found: &mut Gathered<'a>,
) -> Result<(), OutOfMemory>
    ensures { IfOk result (λ _. found.new
        ≡ with_each found.old
        (outside (bound_by over.now) (occurrences (formula_of formula.now)))) }
{
    match formula {
        Formula::True | Formula::False => Ok(()),
        Formula::EmptyForest | Formula::EmptyGrove | Formula::Hole(_) => Ok(()),
        Formula::And(p, q) | Formula::Or(p, q) | Formula::Imp(p, q) => {
            add_both(alloc, p, q, over, found)
        }
        Formula::Join(_, p, q) | Formula::App(_, p, q) | Formula::CtxAdj(_, p, q) => {
            add_both(alloc, p, q, over, found)
        }
        Formula::Plus(p, q) | Formula::PlusHole(p, q) | Formula::HoleAdj(p, q) => {
            add_both(alloc, p, q, over, found)
        }
        Formula::Not(p) | Formula::One(p) | Formula::Root(p) => add_free(alloc, p, over, found),
        Formula::Exists(x, p) | Formula::Forall(x, p) => {
            add_free(alloc, p, &Binders::More(&*x, &*over), found)
        }
        Formula::Eq(a, b) | Formula::Le(a, b) => {
            add_term(alloc, a, over, found)?;
            add_term(alloc, b, over, found)
        }
        Formula::Node(name, number, p, list) => {
            add_term(alloc, name, over, found)?;
            add_term(alloc, number, over, found)?;
            add_free(alloc, p, over, found)?;
            add_term(alloc, list, over, found)
        }
        Formula::Var(x) => add_variable(alloc, &Name::Logic(x), over, found),
        Formula::Len(length) => add_term(alloc, length, over, found),
        Formula::Is(x, p) => {
            add_variable(alloc, &Name::Logic(x), over, found)?;
            add_free(alloc, p, over, found)
        }
    }
}

// the same for two formulas, one after the other
#[cycle(add_free)]
#[tactic(auto, using(crate::proofs::Gathering::step_rules))]
fn add_both<'a>(
    alloc: Global,
    left: &'a Formula,
    right: &'a Formula,
    over: &Binders,
    found: &mut Gathered<'a>,
) -> Result<(), OutOfMemory>
    ensures { IfOk result (λ _. found.new
        ≡ with_each found.old (outside (bound_by over.now)
        (occurrences (formula_of left.now) ++ occurrences (formula_of right.now)))) }
{
    add_free(alloc, left, over, found)?;
    add_free(alloc, right, over, found)
}

// puts the variables of the term that no binder binds after those that were found
#[tactic(auto, using(crate::proofs::Gathering::step_rules))]
fn add_term<'a>(
    alloc: Global,
    term: &'a Term,
    over: &Binders,
    found: &mut Gathered<'a>,
) -> Result<(), OutOfMemory>
    ensures { IfOk result (λ _. found.new
        ≡ with_each found.old
        (outside (bound_by over.now) (variables_of_term (term_of term.now)))) }
{
    match term {
        Term::NullNode | Term::NullList | Term::Int(_) | Term::Str(_) | Term::Bool(_) => Ok(()),
        Term::Prog(x) => add_variable(alloc, &Name::Prog(x), over, found),
        Term::Logic(x) => add_variable(alloc, &Name::Logic(x), over, found),
        Term::Add(a, b) | Term::Sub(a, b) | Term::Cat(a, b) => {
            add_term(alloc, a, over, found)?;
            add_term(alloc, b, over, found)
        }
    }
}

// puts the variable after those that were found, if no binder binds it and it isn't there yet
#[tactic(auto, using(crate::proofs::Gathering::variable_rules))]
fn add_variable<'a>(
    alloc: Global,
    name: &Name<'a>,
    over: &Binders,
    found: &mut Gathered<'a>,
) -> Result<(), OutOfMemory>
    ensures { IfOk result (λ _. found.new
        ≡ with_each found.old
        (outside (bound_by over.now) (var_named name.now ∷ []))) }
{
    if binds(over, name) || found.has(name) {
        return Ok(());
    }
    found.put(alloc, name)
}

// whether one of the binders binds the variable
fn binds(over: &Binders, name: &Name) -> bool
    ensures { result ≡ is_among (var_named name.now) (bound_by over.now) }
{
    match (over, name) {
        (Binders::Empty, _) => false,
        (Binders::More(x, outer), Name::Logic(y)) => same_logic_var(y, x) || binds(outer, name),
        (Binders::More(_, outer), Name::Prog(_)) => binds(outer, name),
    }
}
