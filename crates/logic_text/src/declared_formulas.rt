// Whole lists of tokens as formulas, each variable with the sort of its declaration.
ghost use Rattle.std.specs.Prelude.{◌≡◌, ◌++◌, List, map, IfOk, OnOk};
ghost use Rattle.model_formulas.specs.Formulas.{Named};
ghost use Rattle.model_text.specs.Lexemes.{Lexeme};
ghost use Rattle.model_text.specs.FaultTokens.{AreOfTokens, IsFaultToken};
ghost use Rattle.model_grammar.specs.Formulas.{SpellsFormula};
ghost use Rattle.model_grammar.specs.Sorts.{sorted_formula};
ghost use Rattle.declared_sorts.specs.Names.{of_logic, Tells};
ghost use Rattle.dom_terms.specs.Terms.{prog_var_of, logic_var_of};
ghost use Rattle.formula_syntax.specs.Formulas.{formula_of};
ghost use Rattle.token_readers.specs.Faults.{IfBadText};
ghost use Rattle.token_readers.specs.Giving.{Gives};
ghost use Rattle.token_readers.specs.Leaves.{listed, lexemes_in};
ghost use Rattle.token_readers.specs.Spelling.{whole};
ghost use Rattle.logic_text.specs.FormulaReaders.{formula_at};
ghost use Rattle.logic_text.specs.DeclaredFormulas.{declared_vars, if_prog_var, if_logic_var};
ghost use Rattle.logic_text.specs.DeclaredFormulas.{SpellsFormulaWith};

use crate::formula_reading::formula;
use crate::grove_reading::MOST_DEPTH;
use declared_sorts::{Declared, Names, names_of, set_formula};
use dom_terms::{Copied, LogicVar, LogicVars, OutOfMemory, ProgVar, Sort, ValueSort, Vars, with};
use formula_syntax::{AnyVar, Formula};
use std::alloc::Global;
use text_tokens::{Front, Tokens};
use token_readers::{ReadFault, TextFault};

// A formula that ends where the tokens do; its variables don't have their sorts yet.
fn whole_formula(alloc: Global, tokens: Front) -> Result<Formula, ReadFault>
    ensures { Gives formula_of result (whole (formula_at MOST_DEPTH) (lexemes_in tokens.entry)) }
{
    let mut rest = tokens;
    let found = formula(alloc, MOST_DEPTH, &mut rest)?;
    if rest.is_empty() {
        Ok(found)
    } else {
        drop(found);
        Err(ReadFault::Text(rest.count()))
    }
}

// Puts a copy of a program variable at the end of the first list, and of a logic variable at that
// of the second.
fn add_by_kind(
    alloc: Global,
    item: &AnyVar,
    variables: &mut Vars,
    logics: &mut LogicVars,
) -> Result<(), OutOfMemory>
    ensures variables { OnOk result (map prog_var_of variables.new
        ≡ map prog_var_of variables.old ++ if_prog_var item.now) }
    ensures logics { OnOk result (map logic_var_of logics.new
        ≡ map logic_var_of logics.old ++ if_logic_var item.now) }
{
    match item {
        AnyVar::Prog(variable) => variables.push(variable.copy(alloc)?)?,
        AnyVar::Logic(variable) => logics.push(variable.copy(alloc)?)?,
    }
    Ok(())
}

// Copies of the program variables and of the logic variables.
fn of_each_kind(alloc: Global, vars: &[AnyVar]) -> Result<(Vars, LogicVars), OutOfMemory>
    ensures { IfOk result (λ kinds. (map prog_var_of kinds.0 ≡ (declared_vars vars.now).variables)
        × (map logic_var_of kinds.1 ≡ (declared_vars vars.now).logics)) }
{
    let mut variables = Vars::new(alloc);
    let mut logics = LogicVars::new(alloc);
    for item in vars {
        add_by_kind(alloc, item, &mut variables, &mut logics)?;
    }
    Ok((variables, logics))
}

// Gives each variable of the formula the sort of its declaration, among these.
fn set_with(
    alloc: Global,
    formula: &mut Formula,
    variables: &[ProgVar],
    logics: &[LogicVar],
    logic_names: &Names<Sort>,
) -> Result<(), OutOfMemory>
    requires { Tells logic_names.now (map of_logic logics.now) }
    ensures { OnOk result (formula_of formula.new ≡ sorted_formula
        (record { variables = map prog_var_of variables.now; logics = map logic_var_of logics.now })
        (formula_of formula.old)) }
{
    let variable_names = names_of(alloc, variables)?;
    let declared = Declared::new(variables, &variable_names, logics, logic_names);
    // nothing is asked of it here, so there is no room
    let _ = set_formula(formula, Sort::Value(ValueSort::Node), 0, &declared);
    Ok(())
}

// The same without a table of the names.
fn set_among(
    alloc: Global,
    formula: &mut Formula,
    variables: &[ProgVar],
    logics: &[LogicVar],
) -> Result<(), OutOfMemory>
    ensures { OnOk result (formula_of formula.new ≡ sorted_formula
        (record { variables = map prog_var_of variables.now; logics = map logic_var_of logics.now })
        (formula_of formula.old)) }
{
    let logic_names = names_of(alloc, logics)?;
    set_with(alloc, formula, variables, logics, &logic_names)
}

// The same among the list of both kinds.
fn set_declared(alloc: Global, formula: &mut Formula, vars: &[AnyVar]) -> Result<(), OutOfMemory>
    ensures { OnOk result (formula_of formula.new
        ≡ sorted_formula (declared_vars vars.now) (formula_of formula.old)) }
{
    let (variables, logics) = of_each_kind(alloc, vars)?;
    set_among(alloc, formula, variables.as_slice(), logics.as_slice())
}

// The formula, each of whose variables has the sort of its declaration among these.
fn with_sorts(alloc: Global, formula: Formula, vars: &[AnyVar]) -> Result<Formula, OutOfMemory>
    ensures { IfOk result (λ p. formula_of p
        ≡ sorted_formula (declared_vars vars.now) (formula_of formula)) }
{
    let mut formula = formula;
    let are_set = set_declared(alloc, &mut formula, vars);
    let (formula, ()) = with(formula, are_set)?;
    Ok(formula)
}

// The formula that the tokens spell, all of them, with the sorts of the variables among these.
fn formula_from(alloc: Global, tokens: Front, vars: &[AnyVar]) -> Result<Formula, TextFault>
    ensures found { IfOk result (λ p. SpellsFormulaWith (declared_vars vars.now) (formula_of p)
        (lexemes_in tokens.entry)) }
    ensures bad_text { IfBadText result (λ token.
        (p : Named) → SpellsFormula p (lexemes_in tokens.entry) → ⊥) }
    ensures fault_token { AreOfTokens (lexemes_in tokens.entry)
        → IfBadText result (IsFaultToken SpellsFormula (lexemes_in tokens.entry)) }
{
    match whole_formula(alloc, tokens) {
        Ok(found) => Ok(with_sorts(alloc, found, vars)?),
        Err(fault) => Err(fault.of_whole(tokens.count())),
    }
}

/// The formula that the tokens spell, all of them. Each variable has the sort of the first of
/// `vars` that is of its kind and has its name, and sort node where none is. `BadText` comes
/// exactly where the tokens spell no formula, with the fault token where they are those of a text,
/// and `OutOfMemory` also where the formula nests more than `MOST_DEPTH` deep.
pub fn read_formula(alloc: Global, tokens: &Tokens, vars: &[AnyVar]) -> Result<Formula, TextFault>
    ensures found { IfOk result (λ p. SpellsFormulaWith (declared_vars vars.now) (formula_of p)
        (listed tokens.now)) }
    ensures bad_text { IfBadText result (λ token.
        (p : Named) → SpellsFormula p (listed tokens.now) → ⊥) }
    ensures fault_token { AreOfTokens (listed tokens.now)
        → IfBadText result (IsFaultToken SpellsFormula (listed tokens.now)) }
{
    formula_from(alloc, Front::of_list(tokens), vars)
}

/// A list of lexemes spells at most one formula.
pub fn one_formula()
    ensures { (s : List Lexeme) (a b : Named) → SpellsFormula a s → SpellsFormula b s → a ≡ b }
{}
