// Theories.
ghost use Rattle.std.specs.Prelude.{◌≡◌, List, IfOk, true};
ghost use Rattle.std.specs.Bool.{OnTrue};
ghost use Rattle.model_commands.specs.Theories.{Theory as Spelled};
ghost use Rattle.model_text.specs.Lexemes.{Lexeme};
ghost use Rattle.model_text.specs.FaultTokens.{AreOfTokens, IsFaultToken};
ghost use Rattle.model_grammar.specs.Theories.{SpellsTheory};
ghost use Rattle.theory_syntax.specs.Theories.{theory_of};
ghost use Rattle.declared_sorts.specs.Judged.{theory_judged};
ghost use Rattle.declared_sorts.specs.Settled.{theory_settled};
ghost use Rattle.token_readers.specs.Faults.{IfBadText};
ghost use Rattle.token_readers.specs.Giving.{Gives};
ghost use Rattle.token_readers.specs.Leaves.{listed, lexemes_in};
ghost use Rattle.token_readers.specs.Spelling.{whole};
ghost use Rattle.proof_text.specs.SortedTheories.{sorted_theory_at};

use crate::logics::{flat, lines};
use crate::procedures::procedures;
use declared_sorts::names_of;
use std::alloc::Global;
use text_tokens::{Front, Tokens};
use theory_syntax::Theory;
use token_readers::{ReadFault, TextFault, expect, number};

/// The deepest nesting of terms, formulas and commands that is read, which is more than a file may
/// have; a deeper one is answered as want of memory.
pub const MOST_DEPTH: u32 = 128;

/// A theory that was read, and what is told of its variables and of its formulas.
#[derive(Drop)]
pub struct ReadTheory {
    /// The theory, each variable with the sort of its declaration.
    pub theory: Theory,
    /// Each variable in it is declared, first with the sort that it has.
    pub are_settled: bool,
    /// The formulas of each header and of each step may be judged at their sorts; where false, that
    /// isn't known.
    pub are_judged: bool,
}

// A theory at the front of the tokens. Its logic variables stand before all that uses them, so
// each variable gets its sort as it is read.
#[tactic(auto, unfolding(crate::specs::SortedTheories::sorted_theory_at))]
fn theory(alloc: Global, tokens: &mut Front) -> Result<ReadTheory, ReadFault>
    ensures read { Gives (λ found. (theory_of found.theory, lexemes_in tokens.new)) result
        (sorted_theory_at MOST_DEPTH u32.MAX (lexemes_in tokens.old)) }
    ensures settled { IfOk result (λ found.
        found.are_settled ≡ theory_settled (theory_of found.theory)) }
    ensures judged { IfOk result (λ found.
        OnTrue found.are_judged (theory_judged (theory_of found.theory) ≡ true)) }
{
    expect(tokens, "domlogic")?;
    let version = number(tokens)?;
    let lines = lines(alloc, tokens)?;
    let logic = flat(alloc, lines.as_slice())?;
    let read = {
        let logics = logic.as_slice();
        let names = names_of(alloc, logics)?;
        procedures(alloc, MOST_DEPTH, logics, &names, tokens)?
    };
    let theory = Theory {
        version,
        logic,
        procedures: read.procedures,
    };
    Ok(ReadTheory {
        theory,
        are_settled: read.are_settled,
        are_judged: read.are_judged,
    })
}

// A theory that ends where the tokens do.
fn whole_theory(alloc: Global, tokens: Front) -> Result<ReadTheory, ReadFault>
    ensures read { Gives (λ found. theory_of found.theory) result
        (whole (sorted_theory_at MOST_DEPTH u32.MAX) (lexemes_in tokens.entry)) }
    ensures settled { IfOk result (λ found.
        found.are_settled ≡ theory_settled (theory_of found.theory)) }
    ensures judged { IfOk result (λ found.
        OnTrue found.are_judged (theory_judged (theory_of found.theory) ≡ true)) }
{
    let mut rest = tokens;
    let found = theory(alloc, &mut rest)?;
    if rest.is_empty() {
        Ok(found)
    } else {
        Err(ReadFault::Text(rest.count()))
    }
}

/// The theory that the tokens spell, all of them, each variable with the sort of its declaration.
/// `BadText` comes exactly where they spell none, with the fault token where they are those of a
/// text, and `OutOfMemory` also where the theory nests more than `MOST_DEPTH` deep.
pub fn theory_from(alloc: Global, tokens: Front) -> Result<ReadTheory, TextFault>
    ensures found { IfOk result (λ t. SpellsTheory (theory_of t.theory)
        (lexemes_in tokens.entry)) }
    ensures settled { IfOk result (λ t. t.are_settled ≡ theory_settled (theory_of t.theory)) }
    ensures judged { IfOk result (λ t.
        OnTrue t.are_judged (theory_judged (theory_of t.theory) ≡ true)) }
    ensures bad_text { IfBadText result (λ token.
        (t : Spelled) → SpellsTheory t (lexemes_in tokens.entry) → ⊥) }
    ensures fault_token { AreOfTokens (lexemes_in tokens.entry)
        → IfBadText result (IsFaultToken SpellsTheory (lexemes_in tokens.entry)) }
{
    match whole_theory(alloc, tokens.in_its_version()) {
        Ok(found) => Ok(found),
        Err(fault) => Err(fault.of_whole(tokens.count())),
    }
}

/// The theory that the tokens of a list spell, in the same way.
pub fn read_theory(alloc: Global, tokens: &Tokens) -> Result<Theory, TextFault>
    ensures found { IfOk result (λ t. SpellsTheory (theory_of t) (listed tokens.now)) }
    ensures bad_text { IfBadText result (λ token.
        (t : Spelled) → SpellsTheory t (listed tokens.now) → ⊥) }
    ensures fault_token { AreOfTokens (listed tokens.now)
        → IfBadText result (IsFaultToken SpellsTheory (listed tokens.now)) }
{
    match theory_from(alloc, Front::of_list(tokens)) {
        Ok(read) => Ok(read.theory),
        Err(fault) => Err(fault),
    }
}

/// A list of lexemes spells at most one theory.
pub fn one_theory()
    ensures { (s : List Lexeme) (a b : Spelled) → SpellsTheory a s → SpellsTheory b s → a ≡ b }
{}
