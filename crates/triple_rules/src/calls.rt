// The rule for calls.
ghost use Rattle.std.specs.Prelude.{◌≡◌, ◌++◌, IfOk, map};
ghost use Rattle.model_files.specs.Sizes.{IsSmall, JudgementIsSmall, ProcedureIsSmall};
ghost use Rattle.model_formulas.specs.Nameless.{nameless};
ghost use Rattle.model_formulas.specs.SameFormulas.{same_formula};
ghost use Rattle.model_formulas.specs.Substitution.{formula_with};
ghost use Rattle.model_commands.specs.Theories.{nameless_procedure};
ghost use Rattle.rule_table.specs.Notation.{prog_term};
ghost use Rattle.rule_table.specs.Rules.{itself, passing};
ghost use Rattle.row_patterns.specs.Verdicts.{verdict_in};
ghost use Rattle.dom_terms.specs.Sorts.{data_sort_of};
ghost use Rattle.dom_terms.specs.Terms.{prog_var_of, term_of};
ghost use Rattle.formula_syntax.specs.Formulas.{formula_of, pair_of};
ghost use Rattle.theory_syntax.specs.Judgements.{triple_of};
ghost use Rattle.theory_syntax.specs.Theories.{procedure_of};
ghost use Rattle.triple_rules.specs.Callees.{AreReady};
ghost use Rattle.triple_rules.specs.CallTests as test;
ghost use Rattle.triple_rules.specs.Procedures.{procedures_in};
ghost use Rattle.triple_rules.specs.Tested.{tested};
ghost use Rattle.triple_rules.specs.Written.{IsReady};

use crate::callees::Callees;
use crate::same::{is_nothing, is_put};
use crate::simple::{cites_nothing, staged};
use crate::written::Written;
use dom_terms::{Copied, List, OutOfMemory, ProgVar, Term, Verdict, copies, same_data_sort};
use formula_syntax::{AnyVar, Formula, Pair};
use std::alloc::Global;
use theory_syntax::{Command, Procedure, Triple};

// The pairs, and after them the variables, each with the term at its place.
fn with_pairs(
    alloc: Global,
    mut pairs: List<Pair>,
    variables: &[ProgVar],
    terms: &[Term],
) -> Result<List<Pair>, OutOfMemory>
    ensures { IfOk result (λ all. map pair_of all ≡ map pair_of pairs
        ++ test.put (map prog_var_of variables.now) (map term_of terms.now)) }
{
    let mut others = terms;
    for variable in variables {
        let [term, further @ ..] = others else {
            return Ok(pairs);
        };
        let (variable, term) = copies(alloc, variable, term)?;
        let var = AnyVar::Prog(variable);
        pairs.push(Pair { var, term })?;
        others = further;
    }
    Ok(pairs)
}

// The variables as terms.
fn as_terms(alloc: Global, variables: &[ProgVar]) -> Result<List<Term>, OutOfMemory>
    ensures { IfOk result (λ terms. map term_of terms
        ≡ map prog_term (map prog_var_of variables.now)) }
{
    let mut terms = List::new(alloc);
    for variable in variables {
        terms.push(Term::Prog(variable.copy(alloc)?))?;
    }
    Ok(terms)
}

// Whether the formula is the requires of the procedure, with the arguments.
fn is_before(
    alloc: Global,
    procedure: &Procedure,
    arguments: &[Term],
    formula: &Formula,
) -> Result<bool, OutOfMemory>
    requires procedure { ProcedureIsSmall (procedure_of procedure.now) }
    requires formula { IsSmall (formula_of formula.now) }
    ensures { IfOk result (λ is. is ≡ same_formula
        (formula_with (passing (map prog_var_of procedure.now.params) (map term_of arguments.now)
        itself) (nameless (formula_of procedure.now.pre))) (nameless (formula_of formula.now))) }
{
    let pairs = with_pairs(
        alloc,
        List::new(alloc),
        procedure.params.as_slice(),
        arguments,
    )?;
    Ok(is_put(alloc, &procedure.pre, pairs.as_slice(), formula))
}

// Whether the formula is the ensures of the procedure, with the arguments and the results.
fn is_behind(
    alloc: Global,
    procedure: &Procedure,
    arguments: &[Term],
    results: &[ProgVar],
    formula: &Formula,
) -> Result<bool, OutOfMemory>
    requires procedure { ProcedureIsSmall (procedure_of procedure.now) }
    requires formula { IsSmall (formula_of formula.now) }
    ensures { IfOk result (λ is. is ≡ same_formula
        (formula_with (passing (map prog_var_of procedure.now.params) (map term_of arguments.now)
        (passing (map prog_var_of procedure.now.results)
        (map prog_term (map prog_var_of results.now)) itself))
        (nameless (formula_of procedure.now.post))) (nameless (formula_of formula.now))) }
{
    let pairs = with_pairs(
        alloc,
        List::new(alloc),
        procedure.params.as_slice(),
        arguments,
    )?;
    let terms = as_terms(alloc, results)?;
    let pairs = with_pairs(alloc, pairs, procedure.results.as_slice(), terms.as_slice())?;
    Ok(is_put(alloc, &procedure.post, pairs.as_slice(), formula))
}

// Whether the triple is that of the procedure, with the arguments and the results.
fn is_met(
    alloc: Global,
    procedure: &Procedure,
    arguments: &[Term],
    results: &[ProgVar],
    triple: &Triple,
) -> Result<bool, OutOfMemory>
    requires procedure { ProcedureIsSmall (procedure_of procedure.now) }
    requires triple { JudgementIsSmall (triple_of triple.now) }
    ensures { IfOk result (λ is. is ≡ test.is_met (nameless_procedure (procedure_of procedure.now))
        (map prog_var_of results.now) (map term_of arguments.now)
        (nameless (formula_of triple.now.pre)) (nameless (formula_of triple.now.post))
        (data_sort_of triple.now.sort)) }
{
    Ok(
        is_before(alloc, procedure, arguments, &triple.pre)?
            && is_behind(alloc, procedure, arguments, results, &triple.post)?
            && same_data_sort(procedure.sort, triple.sort),
    )
}

/// The rule call, in a theory with these procedures.
pub(crate) fn call(
    alloc: Global,
    written: &Written,
    callees: Callees,
) -> Result<Verdict, OutOfMemory>
    requires written { IsReady written.now }
    requires callees { AreReady callees }
    ensures { IfOk result (λ v. verdict_in v ≡ tested (λ arguments are_cited.
        test.call_test arguments are_cited (procedures_in callees.entry.procedures.now))
        written.now) }
{
    let triple = written.triple;
    let Command::Call(results, name, arguments) = &triple.command else {
        return Ok(Verdict::Shape);
    };
    let Some(procedure) = callees.meant(name) else {
        return Ok(Verdict::Shape);
    };
    let met = is_met(
        alloc,
        procedure,
        arguments.as_slice(),
        results.as_slice(),
        triple,
    )?;
    let concludes = is_nothing(written.arguments) && met;
    Ok(staged(concludes, cites_nothing(written)))
}
