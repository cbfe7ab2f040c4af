// A new logic variable put for a program variable, in place. No quantifier binds a program
// variable, so the walk needs not know the binders that it passes.
ghost use Rattle.std.specs.Prelude.{◌≡◌, IfOk, OnOk};
ghost use Rattle.model_terms.specs.Terms.{variable};
ghost use Rattle.model_weakest.specs.Rows.{value_for};
ghost use Rattle.model_weakest.specs.Written.{put};
ghost use Rattle.dom_terms.specs.Terms.{prog_var_of, term_of};
ghost use Rattle.formula_syntax.specs.Formulas.{formula_of};
ghost use Rattle.wp_calc.specs.PutTerm.{put_term};

use dom_terms::{Copied, LogicVar, OutOfMemory, ProgVar, Sort, Term, Text, same_prog_var};
use formula_syntax::Formula;
use std::alloc::Global;

/// What is put for a program variable: the logic variable of its sort with the name.
#[derive(Drop)]
pub(crate) struct Putting<'a> {
    pub(crate) alloc: Global,
    pub(crate) variable: &'a ProgVar,
    pub(crate) name: &'a Text,
}

// what is put, as a term
fn value(putting: &Putting) -> Result<Term, OutOfMemory>
    ensures { IfOk result (λ value. term_of value
        ≡ variable (value_for (prog_var_of putting.now.variable.now) putting.now.name.now)) }
{
    let name = putting.name.copy(putting.alloc)?;
    let sort = Sort::Value(putting.variable.sort);
    Ok(Term::Logic(LogicVar { name, sort }))
}

// puts it in a term
#[tactic(auto, using(crate::proofs::PutLaws::put_rules))]
fn put_in(term: &mut Term, putting: &Putting) -> Result<(), OutOfMemory>
    ensures { OnOk result (term_of term.new ≡ put_term (prog_var_of putting.now.variable.now)
        putting.now.name.now (term_of term.old)) }
{
    match term {
        Term::NullNode | Term::NullList | Term::Int(_) | Term::Str(_) | Term::Bool(_) => Ok(()),
        Term::Logic(_) => Ok(()),
        Term::Prog(variable) => {
            if same_prog_var(variable, putting.variable) {
                *term = value(putting)?;
            }
            Ok(())
        }
        Term::Add(left, right) => {
            put_in(left, putting)?;
            put_in(right, putting)
        }
        Term::Sub(left, right) => {
            put_in(left, putting)?;
            put_in(right, putting)
        }
        Term::Cat(left, right) => {
            put_in(left, putting)?;
            put_in(right, putting)
        }
    }
}

// puts it in two terms
fn put_in_both(left: &mut Term, right: &mut Term, putting: &Putting) -> Result<(), OutOfMemory>
    ensures left { OnOk result (term_of left.new ≡ put_term (prog_var_of putting.now.variable.now)
        putting.now.name.now (term_of left.old)) }
    ensures right { OnOk result (term_of right.new
        ≡ put_term (prog_var_of putting.now.variable.now) putting.now.name.now
        (term_of right.old)) }
{
    put_in(left, putting)?;
    put_in(right, putting)
}

/// Puts it in a formula.
#[cycle(put)]
pub(crate) fn put(formula: &mut Formula, putting: &Putting) -> Result<(), OutOfMemory>
    ensures { OnOk result (formula_of formula.new ≡ put (prog_var_of putting.now.variable.now)
        putting.now.name.now (formula_of formula.old)) }
{
    match formula {
        Formula::True | Formula::False | Formula::Hole(_) | Formula::Var(_) => Ok(()),
        Formula::EmptyForest | Formula::EmptyGrove => Ok(()),
        Formula::Len(length) => put_in(length, putting),
        Formula::Eq(left, right) => put_in_both(left, right, putting),
        Formula::Le(left, right) => put_in_both(left, right, putting),
        Formula::Node(name, number, p, list) => {
            put_in_both(name, number, putting)?;
            put_in(list, putting)?;
            put(p, putting)
        }
        Formula::Not(p) => put(p, putting),
        Formula::One(p) => put(p, putting),
        Formula::Root(p) => put(p, putting),
        Formula::Exists(_, p) => put(p, putting),
        Formula::Forall(_, p) => put(p, putting),
        Formula::Is(_, p) => put(p, putting),
        Formula::And(p, q) => put_both(p, q, putting),
        Formula::Or(p, q) => put_both(p, q, putting),
        Formula::Imp(p, q) => put_both(p, q, putting),
        Formula::Join(_, p, q) => put_both(p, q, putting),
        Formula::Plus(p, q) => put_both(p, q, putting),
        Formula::PlusHole(p, q) => put_both(p, q, putting),
        Formula::App(_, p, q) => put_both(p, q, putting),
        Formula::HoleAdj(p, q) => put_both(p, q, putting),
        Formula::CtxAdj(_, p, q) => put_both(p, q, putting),
    }
}

// puts it in two formulas
#[cycle(put)]
fn put_both(
    left: &mut Box<Formula>,
    right: &mut Box<Formula>,
    putting: &Putting,
) -> Result<(), OutOfMemory>
    ensures left { OnOk result (formula_of left.new.value
        ≡ put (prog_var_of putting.now.variable.now) putting.now.name.now
        (formula_of left.old.value)) }
    ensures right { OnOk result (formula_of right.new.value
        ≡ put (prog_var_of putting.now.variable.now) putting.now.name.now
        (formula_of right.old.value)) }
{
    put(left, putting)?;
    put(right, putting)
}
