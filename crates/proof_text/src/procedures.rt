// Procedures.
ghost use Rattle.std.specs.Prelude.{◌≡◌, ◌&&◌, [], ◌∷◌, ◌++◌, IfOk, map, true};
ghost use Rattle.std.specs.Bool.{OnTrue};
ghost use Rattle.std.specs.List.{list_all};
ghost use Rattle.model_commands.specs.CommandParts.{variables_of, variables_of_command};
ghost use Rattle.model_files.specs.FileFaults.{is_judged_at};
ghost use Rattle.dom_terms.specs.Sorts.{data_sort_of, sort_of};
ghost use Rattle.dom_terms.specs.Terms.{logic_var_of, prog_var_of};
ghost use Rattle.formula_syntax.specs.Formulas.{formula_of};
ghost use Rattle.theory_syntax.specs.Commands.{command_of};
ghost use Rattle.theory_syntax.specs.Theories.{procedure_of};
ghost use Rattle.declared_sorts.specs.Declarations.{declared_of, scope_in};
ghost use Rattle.declared_sorts.specs.Judged.{procedure_judged};
ghost use Rattle.declared_sorts.specs.Known.{Knows};
ghost use Rattle.declared_sorts.specs.Names.{of_logic, Tells};
ghost use Rattle.declared_sorts.specs.Settled.{is_settled, procedure_settled};
ghost use Rattle.token_readers.specs.Giving.{Gives};
ghost use Rattle.token_readers.specs.Leaves.{lexemes_in};
ghost use Rattle.token_readers.specs.Reading.{with_front};
ghost use Rattle.proof_text.specs.SortedTheories.{command_sorted, formula_sorted, sorted_contents_at, sorted_procedure_tail, more_sorted_procedures_at, sorted_procedures_at};

use crate::commands::command;
use crate::declarations::declarations;
use crate::sorts::data_sort;
use crate::steps::{ReadSteps, steps};
use declared_sorts::{Declared, Names, Sorted, Told, declared_in, names_of, set_formulas};
use dom_terms::{DataSort, LogicVar, Sort, Text, Vars, with};
use formula_syntax::Formula;
use logic_text::formula;
use std::alloc::Global;
use text_tokens::Front;
use theory_syntax::{Command, Procedure, Procedures, Steps};
use token_readers::{ReadFault, expect, followed_by, name, skip};

// What stands before the requires of a procedure.
#[derive(Drop)]
struct Header {
    name: Text,
    params: Vars,
    results: Vars,
    sort: DataSort,
}

// A procedure that was read.
#[derive(Drop)]
struct ReadProcedure {
    // each variable in it with the sort of its declaration
    procedure: Procedure,
    // each of them is declared, first with the sort that it has
    is_settled: bool,
    // the formulas of its header and of each step may be judged at their sorts; where false, that
    // isn't known
    is_judged: bool,
}

// The procedure of these parts, before its proof is read.
fn unproved(alloc: Global, header: Header, pre: Formula, post: Formula, body: Command) -> Procedure
    ensures { result ≡ record {
      name = header.name;
      params = header.params;
      results = header.results;
      sort = header.sort;
      pre = pre;
      post = post;
      body = body;
      proof = [];
    } }
{
    let Header {
        name,
        params,
        results,
        sort,
    } = header;
    Procedure {
        name,
        params,
        results,
        sort,
        pre,
        post,
        body,
        proof: Steps::new(alloc),
    }
}

// Gives each variable of the requires, the ensures and the body of a procedure the sort of its
// declaration, and tells whether each of them is declared, first with the sort that it then has,
// and whether the requires and the ensures may be judged at the sort.
#[tactic(auto, using(declared_sorts::proofs::Loops::last_behind), unfolding(crate::specs::SortedTheories::formula_sorted, crate::specs::SortedTheories::command_sorted))]
fn set_head(
    pre: &mut Formula,
    post: &mut Formula,
    body: &mut Command,
    sort: Sort,
    declared: &Declared,
) -> Told
    requires { Knows declared.now }
    ensures pre { formula_of pre.new
        ≡ formula_sorted (declared_of declared.now) (formula_of pre.old) }
    ensures post { formula_of post.new
        ≡ formula_sorted (declared_of declared.now) (formula_of post.old) }
    ensures body { command_of body.new
        ≡ command_sorted (declared_of declared.now) (command_of body.old) }
    ensures settled { result.is_settled ≡ list_all (is_settled (scope_in declared.now))
        (variables_of (formula_of pre.new) ++ (variables_of (formula_of post.new)
        ++ variables_of_command (command_of body.new))) }
    ensures judged { OnTrue result.is_judged ((is_judged_at (sort_of sort) (formula_of pre.new)
        && is_judged_at (sort_of sort) (formula_of post.new)) ≡ true) }
{
    let formulas = set_formulas(pre, post, sort, declared);
    let is_body_settled = body.set_sorts(declared);
    Told {
        is_settled: formulas.is_settled && is_body_settled,
        is_judged: formulas.is_judged,
    }
}

// What is told of the header and of the steps after it together.
fn told_of(head: Told, proof: &ReadSteps) -> Told
    ensures settled { result.is_settled ≡ (head.is_settled && proof.now.are_settled) }
    ensures judged { result.is_judged ≡ (head.is_judged && proof.now.are_judged) }
{
    Told {
        is_settled: head.is_settled && proof.are_settled,
        is_judged: head.is_judged && proof.are_judged,
    }
}

// What stands after the header. The variables of the requires, the ensures and the body get their
// sorts once the body tells which local variables there are, and those of the proof step by step.
#[tactic(auto, unfolding(crate::specs::SortedTheories::sorted_contents_at))]
fn contents(
    alloc: Global,
    header: Header,
    depth: u32,
    logics: &[LogicVar],
    logic_names: &Names<Sort>,
    tokens: &mut Front,
) -> Result<ReadProcedure, ReadFault>
    requires { Tells logic_names.now (map of_logic logics.now) }
    ensures read { Gives (λ found. (procedure_of found.procedure, lexemes_in tokens.new)) result
        (sorted_contents_at (map logic_var_of logics.now) depth u32.MAX header.name
        (map prog_var_of header.params) (map prog_var_of header.results)
        (data_sort_of header.sort) (lexemes_in tokens.old)) }
    ensures settled { IfOk result (λ found. found.is_settled
        ≡ procedure_settled (map logic_var_of logics.now) (procedure_of found.procedure)) }
    ensures judged { IfOk result (λ found.
        OnTrue found.is_judged (procedure_judged (procedure_of found.procedure) ≡ true)) }
{
    let header = followed_by(header, tokens, "requires")?;
    let begun = with(header, formula(alloc, depth, tokens))?;
    let begun = followed_by(begun, tokens, "ensures")?;
    let begun = with(begun, formula(alloc, depth, tokens))?;
    let begun = followed_by(begun, tokens, "body")?;
    let begun = with(begun, command(alloc, depth, tokens))?;
    let (((header, pre), post), body) = followed_by(begun, tokens, "proof")?;
    let mut found = unproved(alloc, header, pre, post, body);
    let listed = declared_in(alloc, &found)?;
    let variables = listed.as_slice();
    let variable_names = names_of(alloc, variables)?;
    let declared = Declared::new(variables, &variable_names, logics, logic_names);
    let sort = Sort::Shape(found.sort);
    let head = set_head(
        &mut found.pre,
        &mut found.post,
        &mut found.body,
        sort,
        &declared,
    );
    let proof = steps(alloc, depth, &declared, tokens)?;
    expect(tokens, "end")?;
    let told = told_of(head, &proof);
    found.proof = proof.steps;
    Ok(ReadProcedure {
        procedure: found,
        is_settled: told.is_settled,
        is_judged: told.is_judged,
    })
}

// What stands after the word `proc`.
#[tactic(auto, unfolding(crate::specs::SortedTheories::sorted_procedure_tail))]
fn procedure(
    alloc: Global,
    depth: u32,
    logics: &[LogicVar],
    logic_names: &Names<Sort>,
    tokens: &mut Front,
) -> Result<ReadProcedure, ReadFault>
    requires { Tells logic_names.now (map of_logic logics.now) }
    ensures read { Gives (λ found. (procedure_of found.procedure, lexemes_in tokens.new)) result
        (sorted_procedure_tail (map logic_var_of logics.now) depth u32.MAX
        (lexemes_in tokens.old)) }
    ensures settled { IfOk result (λ found. found.is_settled
        ≡ procedure_settled (map logic_var_of logics.now) (procedure_of found.procedure)) }
    ensures judged { IfOk result (λ found.
        OnTrue found.is_judged (procedure_judged (procedure_of found.procedure) ≡ true)) }
{
    let name = name(alloc, tokens)?;
    let params = declarations(alloc, tokens)?;
    expect(tokens, "returns")?;
    let results = declarations(alloc, tokens)?;
    expect(tokens, "sort")?;
    let sort = data_sort(tokens)?;
    let header = Header {
        name,
        params,
        results,
        sort,
    };
    contents(alloc, header, depth, logics, logic_names, tokens)
}

/// The procedures that were read, and what is told of their variables and of their formulas.
#[derive(Drop)]
pub struct ReadProcedures {
    /// The procedures, each variable with the sort of its declaration.
    pub procedures: Procedures,
    /// Each variable in them is declared, first with the sort that it has.
    pub are_settled: bool,
    /// The formulas of each header and of each step may be judged at their sorts; where false, that
    /// isn't known.
    pub are_judged: bool,
}

// The procedures after the first, as long as one begins.
fn more_procedures(
    alloc: Global,
    first: ReadProcedure,
    depth: u32,
    logics: &[LogicVar],
    logic_names: &Names<Sort>,
    tokens: &mut Front,
) -> Result<ReadProcedures, ReadFault>
    requires logics { Tells logic_names.now (map of_logic logics.now) }
    requires first { first.is_settled
        ≡ procedure_settled (map logic_var_of logics.now) (procedure_of first.procedure) }
    requires judged { OnTrue first.is_judged
        (procedure_judged (procedure_of first.procedure) ≡ true) }
    ensures read { Gives (λ found. (map procedure_of found.procedures, lexemes_in tokens.new))
        result (with_front (procedure_of first.procedure ∷ [])
        (more_sorted_procedures_at (map logic_var_of logics.now) depth u32.MAX
        (lexemes_in tokens.old))) }
    ensures settled { IfOk result (λ found. found.are_settled ≡ list_all
        (procedure_settled (map logic_var_of logics.now)) (map procedure_of found.procedures)) }
    ensures judged { IfOk result (λ found. OnTrue found.are_judged
        (list_all procedure_judged (map procedure_of found.procedures) ≡ true)) }
{
    let mut procedures = Procedures::new(alloc);
    let mut are_settled = first.is_settled;
    let mut are_judged = first.is_judged;
    procedures.push(first.procedure)?;
    for _ in 0..u32::MAX {
        if !skip(tokens, "proc") {
            return Ok(ReadProcedures {
                procedures,
                are_settled,
                are_judged,
            });
        }
        let item = procedure(alloc, depth, logics, logic_names, tokens)?;
        are_settled = are_settled && item.is_settled;
        are_judged = are_judged && item.is_judged;
        procedures.push(item.procedure)?;
    }
    Err(ReadFault::Memory)
}

/// One procedure or more, with the sorts of what they and the file declare; moves past them.
#[tactic(auto, unfolding(crate::specs::SortedTheories::sorted_procedures_at))]
pub fn procedures(
    alloc: Global,
    depth: u32,
    logics: &[LogicVar],
    logic_names: &Names<Sort>,
    tokens: &mut Front,
) -> Result<ReadProcedures, ReadFault>
    requires { Tells logic_names.now (map of_logic logics.now) }
    ensures read { Gives (λ found. (map procedure_of found.procedures, lexemes_in tokens.new))
        result (sorted_procedures_at (map logic_var_of logics.now) depth u32.MAX
        (lexemes_in tokens.old)) }
    ensures settled { IfOk result (λ found. found.are_settled ≡ list_all
        (procedure_settled (map logic_var_of logics.now)) (map procedure_of found.procedures)) }
    ensures judged { IfOk result (λ found. OnTrue found.are_judged
        (list_all procedure_judged (map procedure_of found.procedures) ≡ true)) }
{
    expect(tokens, "proc")?;
    let first = procedure(alloc, depth, logics, logic_names, tokens)?;
    more_procedures(alloc, first, depth, logics, logic_names, tokens)
}
