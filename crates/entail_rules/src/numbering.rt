// The numbers of what is written at a step.
ghost use Rattle.std.specs.Prelude.{◌≡◌, Err, IfOk, map};
ghost use Rattle.dom_terms.specs.Terms.{term_of};
ghost use Rattle.formula_table.specs.Interning.{KeepsAll};
ghost use Rattle.formula_table.specs.declared.faults.TableFault.TheVariants as f;
ghost use Rattle.entail_rules.specs.Judged.{judged};
ghost use Rattle.entail_rules.specs.Numbers.{AllStandFor, AreNumbers, CitedKnown, CitedStand};
ghost use Rattle.entail_rules.specs.Numbers.{EntailmentStands, IsFull, IsKnown};

use crate::cited::{Cited, Premise};
use dom_terms::{OutOfMemory, Term};
use formula_syntax::Entailment;
use formula_table::{Table, TableFault};
use row_walks::{Cited as CitedNumbers, Numbered};
use std::alloc::Global;

/// The numbers of what is written at a step.
#[derive(Drop)]
pub(crate) struct Numbers {
    /// Those of the arguments.
    pub(crate) arguments: Vec<u32>,
    /// Those of what is cited.
    pub(crate) cited: CitedNumbers,
    /// Those of the conclusion.
    pub(crate) conclusion: Numbered,
}

// The numbers of the terms.
fn number_terms(alloc: Global, table: &mut Table, terms: &[Term]) -> Result<Vec<u32>, OutOfMemory>
    ensures kept { KeepsAll table.old table.new }
    ensures numbers { IfOk result (λ numbers. AllStandFor table.new numbers.items
        (map term_of terms.now)) }
{
    let mut numbers = Vec::new(alloc);
    for term in terms {
        let number = table.intern_term(term)?;
        numbers.push(number)?;
    }
    Ok(numbers)
}

// Those of the formulas of the entailment.
fn number_entailment(table: &mut Table, entailment: &Entailment) -> Result<Numbered, TableFault>
    ensures kept { KeepsAll table.old table.new }
    ensures numbers { IfOk result (λ n. EntailmentStands table.new n entailment.now) }
    ensures full { result ≡ Err f.Full → IsFull table.new }
{
    let left = table.intern(&entailment.left)?;
    let right = table.intern(&entailment.right)?;
    Ok(Numbered {
        left: left.place,
        right: right.place,
        sort: entailment.sort,
    })
}

// Those of an entailment that is cited, whose formulas are walked only where they aren't known.
fn number_premise(table: &mut Table, premise: Premise) -> Result<Numbered, TableFault>
    requires { IsKnown table.old premise.numbers (judged premise.entailment.now) }
    ensures kept { KeepsAll table.old table.new }
    ensures numbers { IfOk result
        (λ n. EntailmentStands table.new n premise.entry.entailment.now) }
    ensures full { result ≡ Err f.Full → IsFull table.new }
{
    match premise.numbers {
        Some(numbers) => Ok(numbers),
        None => number_entailment(table, premise.entailment),
    }
}

// Those of the entailments that are cited.
fn number_cited(table: &mut Table, cited: Cited) -> Result<CitedNumbers, TableFault>
    requires { CitedKnown table.old cited }
    ensures kept { KeepsAll table.old table.new }
    ensures numbers { IfOk result (λ numbers. CitedStand table.new numbers cited.entry) }
    ensures full { result ≡ Err f.Full → IsFull table.new }
{
    match cited {
        Cited::Nothing => Ok(CitedNumbers::Nothing),
        Cited::One(a) => Ok(CitedNumbers::One(number_premise(table, a)?)),
        Cited::Two(a, b) => {
            let first = number_premise(table, a)?;
            let second = number_premise(table, b)?;
            Ok(CitedNumbers::Two(first, second))
        }
    }
}

/// The numbers of what is written. Full comes only where the table has all the rows that it may
/// have.
pub(crate) fn number_step(
    alloc: Global,
    table: &mut Table,
    arguments: &[Term],
    cited: Cited,
    conclusion: &Entailment,
) -> Result<Numbers, TableFault>
    requires { CitedKnown table.old cited }
    ensures kept { KeepsAll table.old table.new }
    ensures numbers { IfOk result (λ numbers. AreNumbers table.new numbers
        (map term_of arguments.now) cited.entry conclusion.now) }
    ensures full { result ≡ Err f.Full → IsFull table.new }
{
    let conclusion = number_entailment(table, conclusion)?;
    let cited = number_cited(table, cited)?;
    let arguments = number_terms(alloc, table, arguments)?;
    Ok(Numbers {
        arguments,
        cited,
        conclusion,
    })
}
