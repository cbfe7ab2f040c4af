// The verdict of each axiom.
ghost use Rattle.std.specs.Prelude.{◌≡◌, IfOk, List, map};
ghost use Rattle.model_commands.specs.Theories.{Step, nameless_judgement};
ghost use Rattle.rule_table.specs.Accepted.{written_at};
ghost use Rattle.rule_table.specs.Axioms.{axioms};
ghost use Rattle.rule_table.specs.Verdicts.{IsVerdict, readings_in};
ghost use Rattle.dom_terms.specs.Sorts.{data_sort_of};
ghost use Rattle.dom_terms.specs.Terms.{term_of};
ghost use Rattle.formula_table.specs.Forms.{form_at};
ghost use Rattle.formula_table.specs.Interning.{KeepsAll};
ghost use Rattle.row_patterns.specs.Verdicts.{verdict_in};
ghost use Rattle.row_walks.specs.Views.{known_at};
ghost use Rattle.theory_syntax.specs.Commands.{command_of};
ghost use Rattle.theory_syntax.specs.Judgements.{triple_of};
ghost use Rattle.small_axioms.specs.Patterns.{pattern_in, patterns_in};
ghost use Rattle.small_axioms.specs.Steps.{judgement_of};
ghost use Rattle.small_axioms.specs.Tests as tests;

use crate::numbering::{Said, number_command, number_said};
use crate::parts::{held, is_new_root, name_in};
use crate::rows::{AxiomRow, Kind, rows_named};
use dom_terms::{OutOfMemory, SideName, Term, Verdict};
use formula_table::{Table, TableFault, TermRow};
use numbered_formulas::{Unbound, is_in_term, stands_free};
use row_walks::{Known, settle, walk_data, walk_formula};
use std::alloc::Global;
use theory_syntax::{Command, Triple};

// Whether the command is of the kind.
fn is_kind(kind: Kind, command: &Command) -> bool
    ensures { result ≡ tests.is_kind kind (command_of command.now) }
{
    match (kind, command) {
        (Kind::Create, Command::Create(_, _))
        | (Kind::Name, Command::Name(_, _))
        | (Kind::Children, Command::Children(_, _))
        | (Kind::Parent, Command::Parent(_, _))
        | (Kind::Item, Command::Item(_, _, _))
        | (Kind::Append, Command::Append(_, _))
        | (Kind::Remove, Command::Remove(_, _))
        | (Kind::InsertBefore, Command::InsertBefore(_, _, _)) => true,
        _ => false,
    }
}

// Whether the formulas are those of the line, where this is known of its letters.
fn walks(table: &Table, row: &AxiomRow, known: &Known, said: Said) -> bool
    ensures { result ≡ tests.walks (pattern_in row.now) (known_at table.now known.now)
        (form_at table.now said.pre) (form_at table.now said.post) (data_sort_of said.sort) }
{
    let mut known = *known;
    walk_formula(table, &row.pre, said.pre, &mut known)
        && walk_formula(table, &row.post, said.post, &mut known)
        && walk_data(row.sort, said.sort, &mut known)
        && settle(table, &known).is_some()
}

// Whether the formula after a command that creates a node says of the new node what it is to say.
fn says_new(table: &Table, kind: Kind, known: &Known, said: Said) -> bool
    ensures { result ≡ tests.says_new kind (known_at table.now known.now)
        (form_at table.now said.pre) (form_at table.now said.post) }
{
    match (kind, known.terms.n, name_in(table, said.pre)) {
        (Kind::Create, Some(x), Some(name)) => is_new_root(table, name, x, said.post),
        (Kind::Create, _, _) => false,
        _ => true,
    }
}

// Whether one of the lines is the triple.
fn fits_one(table: &Table, rows: &[AxiomRow], command: &Command, known: &Known, said: Said) -> bool
    ensures { result ≡ tests.fits_one (patterns_in rows.now) (command_of command.now)
        (known_at table.now known.now) (form_at table.now said.pre)
        (form_at table.now said.post) (data_sort_of said.sort) }
{
    match rows {
        [] => false,
        [row, rest @ ..] => {
            (is_kind(row.kind, command)
                && walks(table, row, known, said)
                && says_new(table, row.kind, known, said))
                || fits_one(table, rest, command, known, said)
        }
    }
}

// Whether the command sets a variable that stands in what it finds there: in the name of the node
// that it creates, and else in the node that stays as it is.
fn is_assigned(table: &Table, command: &Command, known: &Known, said: Said) -> bool
    ensures { result ≡ tests.is_assigned (command_of command.now) (known_at table.now known.now)
        (form_at table.now said.pre) (form_at table.now said.post) }
{
    let Some(x) = known.terms.n else {
        return false;
    };
    let TermRow::Prog(name, sort) = table.term(x) else {
        return false;
    };
    let x = Unbound::Prog(name, sort);
    match (command, name_in(table, said.pre)) {
        (Command::Create(_, _), None) => false,
        (Command::Create(_, _), Some(name)) => is_in_term(table, x, name),
        _ => stands_free(table, x, held(table, said.post)),
    }
}

// The verdict where the triple is that of a line or not, nothing is cited or something, and the
// variable stands in the letters or not.
fn verdict_where(fits: bool, cites_nothing: bool, assigned: bool) -> Verdict
    ensures { verdict_in result ≡ tests.verdict_where fits cites_nothing assigned }
{
    match (fits, cites_nothing, assigned) {
        (false, _, _) => Verdict::Shape,
        (true, false, _) => Verdict::Premises,
        (true, true, false) => Verdict::Instance,
        (true, true, true) => Verdict::Side(SideName::Assigned),
    }
}

// The verdict at a step without arguments, where the table has the formulas or room for them.
fn verdict_over(
    alloc: Global,
    table: &mut Table,
    name: &str,
    cites_nothing: bool,
    triple: &Triple,
) -> Result<Verdict, TableFault>
    ensures ok { IfOk result (λ verdict. tests.IsVerdictAt name.now cites_nothing
        (judgement_of triple.now) (verdict_in verdict)) }
    ensures kept { KeepsAll table.old table.new }
{
    let command = &triple.command;
    let said = number_said(&mut *table, triple)?;
    let known = number_command(alloc, &mut *table, command)?;
    let fits = fits_one(table, rows_named(name), command, &known, said);
    let assigned = is_assigned(table, command, &known, said);
    Ok(verdict_where(fits, cites_nothing, assigned))
}

// The same. Where the table has no room, another numbers the formulas.
fn verdict_of(
    alloc: Global,
    table: &mut Table,
    name: &str,
    cites_nothing: bool,
    triple: &Triple,
) -> Result<Verdict, OutOfMemory>
    ensures ok { IfOk result (λ verdict. tests.IsVerdictAt name.now cites_nothing
        (judgement_of triple.now) (verdict_in verdict)) }
    ensures kept { KeepsAll table.old table.new }
{
    match verdict_over(alloc, &mut *table, name, cites_nothing, triple) {
        Ok(verdict) => Ok(verdict),
        Err(TableFault::OutOfMemory) => Err(OutOfMemory),
        Err(TableFault::Full) => {
            let mut other = Table::with_most(alloc, u32::MAX);
            match verdict_over(alloc, &mut other, name, cites_nothing, triple) {
                Ok(verdict) => Ok(verdict),
                Err(_) => Err(OutOfMemory),
            }
        }
    }
}

/// The verdict on a triple by the axiom of that name, with these citations and arguments, whatever
/// steps stand before it. An axiom has neither premises nor arguments; a name of no axiom has no
/// lines: its verdict is that the conclusion doesn't fit. The formulas are numbered in the table,
/// whose numbers keep their meaning. OutOfMemory comes only where memory is refused or 32 bits
/// don't number the formulas.
pub fn axiom_verdict(
    alloc: Global,
    table: &mut Table,
    name: &str,
    citations: &[u32],
    arguments: &[Term],
    triple: &Triple,
) -> Result<Verdict, OutOfMemory>
    ensures exact { (earlier : List Step) → IfOk result (λ verdict.
        IsVerdict (readings_in axioms name.now)
        (written_at earlier citations.now (map term_of arguments.now)
        (nameless_judgement (triple_of triple.now))) (verdict_in verdict)) }
    ensures kept { KeepsAll table.old table.new }
{
    if !arguments.is_empty() {
        return Ok(Verdict::Shape);
    }
    verdict_of(alloc, table, name, citations.is_empty(), triple)
}
