// The rule that binds a variable of both formulas.
ghost use Rattle.std.specs.Prelude.{◌≡◌, IfOk, map};
ghost use Rattle.model_formulas.specs.Nameless.{nameless};
ghost use Rattle.model_commands.specs.Theories.{nameless_judgement};
ghost use Rattle.row_patterns.specs.Verdicts.{verdict_in};
ghost use Rattle.dom_terms.specs.Sorts.{sort_of};
ghost use Rattle.dom_terms.specs.Terms.{term_of};
ghost use Rattle.formula_syntax.specs.Formulas.{formula_of};
ghost use Rattle.formula_table.specs.declared.tables.Table.{Table as tables};
ghost use Rattle.formula_table.specs.Forms.{form_at};
ghost use Rattle.formula_table.specs.Interning.{KeepsAll, StandsFor};
ghost use Rattle.theory_syntax.specs.Commands.{command_of};
ghost use Rattle.theory_syntax.specs.Judgements.{judgement_of, triple_of};
ghost use Rattle.theory_syntax.specs.SameCommands as commands;
ghost use Rattle.cited_steps.specs.Earlier.{steps_in};
ghost use Rattle.triple_rules.specs.Written.{IsReady};
ghost use Rattle.row_walks.specs.Views.{known_at};
ghost use Rattle.letter_rules.specs.EliminateTests as test;
ghost use Rattle.letter_rules.specs.Numbered.{AreNumbered};

use cited_steps::cited;
use dom_terms::{OutOfMemory, Sort, Verdict, same_data_sort, same_sort};
use formula_syntax::Formula;
use formula_table::{Head, Table, TableFault};
use row_walks::{Known, settle};
use std::alloc::Global;
use theory_syntax::{Command, Judgement, Triple, same_command};
use triple_rules::Written;

// The numbers of the formulas of a triple.
#[derive(Clone, Copy)]
struct Numbered {
    // the formula before
    pre: u32,
    // the formula after
    post: u32,
}

// The numbers that the formulas of the triple have or get.
fn number_both(table: &mut Table, triple: &Triple) -> Result<Numbered, TableFault>
    ensures ok { IfOk result (λ numbers. AreNumbered table.new numbers
        (nameless (formula_of triple.now.pre)) (nameless (formula_of triple.now.post))) }
    ensures kept { KeepsAll table.old table.new }
{
    let pre = table.intern(&triple.pre)?;
    let post = table.intern(&triple.post)?;
    Ok(Numbered {
        pre: pre.place,
        post: post.place,
    })
}

// What is known of $x, P and Q where P and Q are the formulas of the premise, and the others stand
// for them below binders of $x, which has the sort.
fn known_of(sort: Sort, premise: Numbered, below: Numbered) -> Known
    ensures { (table : tables) → known_at table result ≡ test.known_of (sort_of sort)
        (form_at table premise.pre) (form_at table premise.post) (form_at table below.pre)
        (form_at table below.post) }
{
    let mut known = Known::nothing();
    known.formulas.p = Some(premise.pre);
    known.formulas.q = Some(premise.post);
    known.belows.p = Some(below.pre);
    known.belows.q = Some(below.post);
    known.x_sort = Some(sort);
    known
}

// Whether the conclusion has existentials that bind some variable of the premise.
fn binds(table: &Table, conclusion: Numbered, premise: Numbered) -> bool
    ensures { result ≡ test.eliminates (form_at table.now conclusion.pre)
        (form_at table.now conclusion.post) (form_at table.now premise.pre)
        (form_at table.now premise.post) }
{
    let pre = table.form(conclusion.pre);
    let post = table.form(conclusion.post);
    match (pre.head, post.head) {
        (Head::Exists(sort), Head::Exists(_)) => {
            let below = Numbered {
                pre: pre.left,
                post: post.left,
            };
            settle(table, &known_of(sort, premise, below)).is_some()
        }
        _ => false,
    }
}

// The same, where the table has the formulas or room for them.
fn eliminates_in(table: &mut Table, triple: &Triple, premise: &Triple) -> Result<bool, TableFault>
    ensures ok { IfOk result (λ found. found ≡ test.eliminates
        (nameless (formula_of triple.now.pre)) (nameless (formula_of triple.now.post))
        (nameless (formula_of premise.now.pre)) (nameless (formula_of premise.now.post))) }
    ensures kept { KeepsAll table.old table.new }
{
    let conclusion = number_both(&mut *table, triple)?;
    let premise = number_both(&mut *table, premise)?;
    Ok(binds(table, conclusion, premise))
}

// The same. Where the table has no room, another numbers the formulas.
fn eliminates(
    alloc: Global,
    table: &mut Table,
    triple: &Triple,
    premise: &Triple,
) -> Result<bool, OutOfMemory>
    ensures ok { IfOk result (λ found. found ≡ test.eliminates
        (nameless (formula_of triple.now.pre)) (nameless (formula_of triple.now.post))
        (nameless (formula_of premise.now.pre)) (nameless (formula_of premise.now.post))) }
    ensures kept { KeepsAll table.old table.new }
{
    match eliminates_in(&mut *table, triple, premise) {
        Ok(found) => Ok(found),
        Err(TableFault::OutOfMemory) => Err(OutOfMemory),
        Err(TableFault::Full) => {
            let mut other = Table::with_most(alloc, u32::MAX);
            match eliminates_in(&mut other, triple, premise) {
                Ok(found) => Ok(found),
                Err(_) => Err(OutOfMemory),
            }
        }
    }
}

// Whether the commands are equal.
#[tactic(auto, using(crate::proofs::Commands::command_rules))]
fn are_equal(left: &Command, right: &Command) -> bool
    ensures { result ≡ commands.same_command (command_of left.now) (command_of right.now) }
{
    same_command(left, right)
}

// Whether the triple follows from the judgement.
fn lifts(
    alloc: Global,
    table: &mut Table,
    judgement: &Judgement,
    triple: &Triple,
) -> Result<bool, OutOfMemory>
    ensures ok { IfOk result (λ found. found ≡ test.lifts
        (nameless_judgement (judgement_of judgement.now))
        (nameless_judgement (triple_of triple.now))) }
    ensures kept { KeepsAll table.old table.new }
{
    let Judgement::Triple(premise) = judgement else {
        return Ok(false);
    };
    if !are_equal(&premise.command, &triple.command) || !same_data_sort(premise.sort, triple.sort) {
        return Ok(false);
    }
    eliminates(alloc, table, triple, premise)
}

// Whether the one premise is a triple from which the triple follows.
fn follows(alloc: Global, table: &mut Table, written: &Written) -> Result<bool, OutOfMemory>
    requires { IsReady written.now }
    ensures ok { IfOk result (λ found. found ≡ test.follows (steps_in written.now.earlier.now)
        written.now.citations.now (nameless_judgement (triple_of written.now.triple.now))) }
    ensures kept { KeepsAll table.old table.new }
{
    let [number] = written.citations else {
        return Ok(false);
    };
    match cited(*number, written.earlier) {
        Some(judgement) => lifts(alloc, table, judgement, written.triple),
        None => Ok(false),
    }
}

// Whether the formulas are existentials of one sort.
fn bind_one_sort(left: &Formula, right: &Formula) -> bool
    ensures { result ≡ test.bind_one_sort (nameless (formula_of left.now))
        (nameless (formula_of right.now)) }
{
    match (left, right) {
        (Formula::Exists(x, _), Formula::Exists(y, _)) => same_sort(x.sort, y.sort),
        _ => false,
    }
}

/// The rule eliminate.
pub(crate) fn eliminate(
    alloc: Global,
    table: &mut Table,
    written: &Written,
) -> Result<Verdict, OutOfMemory>
    requires { IsReady written.now }
    ensures ok { IfOk result (λ verdict. verdict_in verdict
        ≡ test.eliminate_test (steps_in written.now.earlier.now) written.now.citations.now
        (map term_of written.now.arguments.now)
        (nameless_judgement (triple_of written.now.triple.now))) }
    ensures kept { KeepsAll table.old table.new }
{
    let triple = written.triple;
    if !written.arguments.is_empty() || !bind_one_sort(&triple.pre, &triple.post) {
        return Ok(Verdict::Shape);
    }
    if follows(alloc, table, written)? {
        Ok(Verdict::Instance)
    } else {
        Ok(Verdict::Premises)
    }
}
