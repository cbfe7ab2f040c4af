// Formulas: sorts, free variables, sameness and substitution.
ghost use Rattle.std.specs.Prelude.{◌≡◌, ◌<◌, [], ◌∷◌, map, true, IfOk};
ghost use Rattle.model_shapes.specs.Sorts.{value, int_sort};
ghost use Rattle.model_terms.specs.Variables as model;
ghost use Rattle.model_terms.specs.Terms.{variable};
ghost use Rattle.model_formulas.specs.Formulas.{conjunction, existential, negation, equality};
ghost use Rattle.model_formulas.specs.Parts.{parts};
ghost use Rattle.dom_terms.specs.Terms.{logic_var_of, term_of};
ghost use Rattle.formula_syntax.specs.Formulas.{formula_of, pair_of};
ghost use Rattle.formula_syntax.specs.Substitution.{names_no_value};

use dom_terms::{DataSort, LogicVar, OutOfMemory, ProgVar, Sort, Term, Text, ValueSort, with};
use formula_syntax::{
    AnyVar, Formula, IllSorted, Pair, free_vars, is_pure, is_substitution, same_formula, sorted_as,
    substitute,
};
use std::alloc::Global;
use std::test::Fail;

// an integer variable of the logic
pub(crate) fn logic(alloc: Global, name: &str) -> Result<LogicVar, OutOfMemory>
    ensures { IfOk result (λ x. logic_var_of x ≡ model.logic name.now (value int_sort)) }
{
    let name = Text::from_str(alloc, name)?;
    let sort = Sort::Value(ValueSort::Int);
    Ok(LogicVar { name, sort })
}

// an integer variable of the program, as a term
pub(crate) fn program(alloc: Global, name: &str) -> Result<Term, OutOfMemory>
    ensures { IfOk result (λ a. term_of a ≡ variable (model.prog name.now int_sort)) }
{
    let name = Text::from_str(alloc, name)?;
    let sort = ValueSort::Int;
    Ok(Term::Prog(ProgVar { name, sort }))
}

// `(exists $m . P)`, of an integer
fn some(alloc: Global, name: &str, part: Formula) -> Result<Formula, OutOfMemory>
    ensures { IfOk result (λ p. formula_of p
        ≡ existential (model.logic name.now (value int_sort)) (formula_of part)) }
{
    let (part, bound) = with(part, logic(alloc, name))?;
    let (bound, part) = with(bound, Box::new(alloc, part))?;
    Ok(Formula::Exists(bound, part))
}

// `(exists BOUND . (not LEFT = RIGHT))`, of integers
fn apart(alloc: Global, bound: &str, left: &str, right: &str) -> Result<Formula, OutOfMemory>
    ensures { IfOk result (λ p. formula_of p
        ≡ existential (model.logic bound.now (value int_sort)) (negation (equality
        (variable (model.logic left.now (value int_sort)))
        (variable (model.logic right.now (value int_sort)))))) }
{
    let (left, right) = with(logic(alloc, left)?, logic(alloc, right))?;
    let equation = Formula::Eq(Term::Logic(left), Term::Logic(right));
    some(alloc, bound, Formula::Not(Box::new(alloc, equation)?))
}

// `(exists BOUND . LEFT = RIGHT)`, of integers
fn equated(alloc: Global, bound: &str, left: Term, right: Term) -> Result<Formula, OutOfMemory>
    ensures { IfOk result (λ p. parts (formula_of p) < 4294967295) }
{
    some(alloc, bound, Formula::Eq(left, right))
}

// `(exists BOUND . a = BOUND)`
pub(crate) fn is_a(alloc: Global, bound: &str) -> Result<Formula, OutOfMemory>
    ensures { IfOk result (λ p. parts (formula_of p) < 4294967295) }
{
    let (left, right) = with(program(alloc, "a")?, logic(alloc, bound))?;
    equated(alloc, bound, left, Term::Logic(right))
}

// `(exists BOUND . BOUND = a)`
fn a_is(alloc: Global, bound: &str) -> Result<Formula, OutOfMemory>
    ensures { IfOk result (λ p. parts (formula_of p) < 4294967295) }
{
    let (left, right) = with(logic(alloc, bound)?, program(alloc, "a"))?;
    equated(alloc, bound, Term::Logic(left), right)
}

// Whether the formulas are the same, which are let go then.
fn are_same(alloc: Global, formulas: (Formula, Formula)) -> Result<bool, OutOfMemory>
    requires left { parts (formula_of formulas.0) < 4294967295 }
    requires right { parts (formula_of formulas.1) < 4294967295 }
{
    let answer = same_formula(alloc, &formulas.0, &formulas.1);
    drop(formulas);
    answer
}

#[test]
fn bound_names_do_not_matter(rt: HostRuntime) -> Result<(), Fail> {
    let alloc = rt.alloc();
    let renamed = with(is_a(alloc, "$m")?, is_a(alloc, "$n"))?;
    assert_eq!(rt; are_same(alloc, renamed)?, true);
    let turned = with(is_a(alloc, "$m")?, a_is(alloc, "$m"))?;
    assert_eq!(rt; are_same(alloc, turned)?, false);
    Ok(())
}

// the pair of two variables, of integers
fn turned(alloc: Global, from: &str, to: &str) -> Result<[Pair; 1], OutOfMemory>
    ensures { IfOk result (λ pairs. map pair_of pairs
        ≡ (
          model.logic from.now (value int_sort),
          variable (model.logic to.now (value int_sort)),
        ) ∷ []) }
{
    let (var, term) = with(logic(alloc, from)?, logic(alloc, to))?;
    let (var, term) = (AnyVar::Logic(var), Term::Logic(term));
    Ok([Pair { var, term }])
}

// Whether the formula is `(exists $m . (not $n = $m))` with `$m` for `$n`. It is let go then.
fn is_put(alloc: Global, to: Formula) -> Result<bool, OutOfMemory>
    requires { parts (formula_of to) < 4294967295 }
{
    let formulas = with(to, apart(alloc, "$m", "$n", "$m"))?;
    let (formulas, pairs) = with(formulas, turned(alloc, "$n", "$m"))?;
    let answer = is_substitution(alloc, &formulas.1, &pairs, &formulas.0);
    drop((formulas, pairs));
    answer
}

// `(exists $m . (not $n = $m))` with `$m` for `$n`
fn put(alloc: Global) -> Result<Formula, OutOfMemory>
    ensures names { IfOk result (λ to. names_no_value (formula_of to) ≡ true) }
    ensures size { IfOk result (λ to. parts (formula_of to) < 4294967295) }
{
    let (from, pairs) = with(apart(alloc, "$m", "$n", "$m")?, turned(alloc, "$n", "$m"))?;
    let answer = substitute(alloc, &from, &pairs);
    drop((from, pairs));
    answer
}

// the same with `$n` for `$m`
fn put_back(alloc: Global) -> Result<Formula, OutOfMemory>
    ensures { IfOk result (λ to. parts (formula_of to) < 4294967295) }
{
    let (from, pairs) = with(put(alloc)?, turned(alloc, "$m", "$n"))?;
    let answer = substitute(alloc, &from, &pairs);
    drop((from, pairs));
    answer
}

#[test]
fn nothing_is_captured(rt: HostRuntime) -> Result<(), Fail> {
    let alloc = rt.alloc();
    let renamed = apart(alloc, "$k", "$m", "$k")?;
    assert_eq!(rt; is_put(alloc, renamed)?, true);
    let captured = apart(alloc, "$m", "$m", "$m")?;
    assert_eq!(rt; is_put(alloc, captured)?, false);
    let answers = with(put(alloc)?, apart(alloc, "$k", "$m", "$k"))?;
    assert_eq!(rt; are_same(alloc, answers)?, true);
    Ok(())
}

#[test]
fn what_was_put_is_put_back(rt: HostRuntime) -> Result<(), Fail> {
    let alloc = rt.alloc();
    let answers = with(put_back(alloc)?, apart(alloc, "$m", "$n", "$m"))?;
    assert_eq!(rt; are_same(alloc, answers)?, true);
    Ok(())
}

#[test]
fn the_first_part_at_fault_is_told(rt: HostRuntime) -> Result<(), Fail> {
    let alloc = rt.alloc();
    let formula = both(alloc, Formula::EmptyForest, Formula::EmptyGrove)?;
    let answer = sorted_as(&formula, Sort::Shape(DataSort::Forest));
    let pure = is_pure(&formula);
    drop(formula);
    assert_eq!(rt; answer, Err(IllSorted { place: 2 }));
    assert_eq!(rt; pure, false);
    Ok(())
}

// the formula of both, in boxes of their own
fn both(alloc: Global, left: Formula, right: Formula) -> Result<Formula, OutOfMemory>
    ensures { IfOk result (λ p. formula_of p ≡ conjunction (formula_of left) (formula_of right)) }
{
    let (right, left) = with(right, Box::new(alloc, left))?;
    let (left, right) = with(left, Box::new(alloc, right))?;
    Ok(Formula::And(left, right))
}

// `a = NAME`, with a variable of the logic
fn equation(alloc: Global, name: &str) -> Result<Formula, OutOfMemory> {
    let (left, right) = with(program(alloc, "a")?, logic(alloc, name))?;
    Ok(Formula::Eq(left, Term::Logic(right)))
}

// `b = a`
fn b_is_a(alloc: Global) -> Result<Formula, OutOfMemory> {
    let (left, right) = with(program(alloc, "b")?, program(alloc, "a"))?;
    Ok(Formula::Eq(left, right))
}

// the free variables of `(exists $m . (a = $m and b = a))`
fn free_in_both(alloc: Global) -> Result<Vec<AnyVar>, OutOfMemory> {
    let (left, right) = with(equation(alloc, "$m")?, b_is_a(alloc))?;
    let formula = some(alloc, "$m", both(alloc, left, right)?)?;
    let found = free_vars(alloc, &formula);
    drop(formula);
    found
}

#[test]
fn free_variables_are_listed_in_order(rt: HostRuntime) -> Result<(), Fail> {
    let alloc = rt.alloc();
    let found = free_in_both(alloc)?;
    let want = [program(alloc, "a")?, program(alloc, "b")?];
    let want = format!(in alloc; "{want:?}")?;
    assert_eq!(rt; format!(in alloc; "{found:?}")?.as_str(), want.as_str());
    Ok(())
}
