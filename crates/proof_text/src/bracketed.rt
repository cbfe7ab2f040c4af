// Lists of items with commas between each two, in brackets and without.
ghost use Rattle.std.specs.Prelude.{◌≡◌, map};
ghost use Rattle.dom_terms.specs.Terms.{prog_var_of, term_of};
ghost use Rattle.token_readers.specs.Reading.{leaf, sep_list};
ghost use Rattle.token_readers.specs.Giving.{Gives};
ghost use Rattle.token_readers.specs.Leaves.{lexemes_in};
ghost use Rattle.logic_text.specs.TermReaders.{term_at};
ghost use Rattle.logic_text.specs.Places.{place_of};
ghost use Rattle.proof_text.specs.Lists.{comma, leaf_variable, bracketed_at};

use crate::sorts::VariableReader;
use dom_terms::{Term, Terms, Vars};
use logic_text::{Place, term};
use std::alloc::Global;
use text_tokens::Front;
use token_readers::{Gathers, ReadFault, Reader, expect, separated, skip};

/// Items in brackets, with commas between each two; moves past them.
#[tactic(auto, unfolding(crate::specs::Lists::bracketed_at))]
pub fn bracketed<T: Drop, R: Reader<T>, L: Gathers<T>>(
    alloc: Global,
    reader: &R,
    tokens: &mut Front,
) -> Result<L, ReadFault>
    ensures { Gives (λ found. (map R.seen (L.items found), lexemes_in tokens.new)) result
        (bracketed_at (R.reading reader.now) u32.MAX (lexemes_in tokens.old)) }
{
    expect(tokens, "(")?;
    if skip(tokens, ")") {
        return Ok(L::empty(alloc));
    }
    let found = separated(alloc, reader, ",", tokens)?;
    expect(tokens, ")")?;
    Ok(found)
}

/// The variables in brackets; moves past them.
pub fn variables(alloc: Global, tokens: &mut Front) -> Result<Vars, ReadFault>
    ensures { Gives (λ found. (map prog_var_of found, lexemes_in tokens.new)) result
        (bracketed_at (leaf leaf_variable) u32.MAX (lexemes_in tokens.old)) }
{
    bracketed(alloc, &VariableReader, tokens)
}

// Reads terms at the place, nested at most so deep.
#[derive(Clone, Copy)]
struct TermReader {
    // where they stand
    place: Place,
    // how deep they may nest
    depth: u32,
}

impl Reader<Term> for TermReader {
    ghost use Rattle.model_terms.specs.Terms as model;

    ghost Seen = { model.Term };

    ghost seen = { term_of };

    ghost reading = { λ reader. term_at (place_of reader.place) reader.depth };

    fn read(&self, alloc: Global, tokens: &mut Front) -> Result<Term, ReadFault>
        ensures { Gives (λ found. (term_of found, lexemes_in tokens.new)) result
            (term_at (place_of self.now.place) self.now.depth (lexemes_in tokens.old)) }
    {
        term(alloc, self.place, self.depth, tokens)
    }
}

/// The terms in brackets; moves past them.
pub fn terms(
    alloc: Global,
    place: Place,
    depth: u32,
    tokens: &mut Front,
) -> Result<Terms, ReadFault>
    ensures { Gives (λ found. (map term_of found, lexemes_in tokens.new)) result
        (bracketed_at (term_at (place_of place) depth) u32.MAX (lexemes_in tokens.old)) }
{
    bracketed(alloc, &TermReader { place, depth }, tokens)
}

/// One or more terms with commas between them; moves past them.
pub fn listed_terms(
    alloc: Global,
    place: Place,
    depth: u32,
    tokens: &mut Front,
) -> Result<Terms, ReadFault>
    ensures { Gives (λ found. (map term_of found, lexemes_in tokens.new)) result
        (sep_list comma (term_at (place_of place) depth) u32.MAX (lexemes_in tokens.old)) }
{
    separated(alloc, &TermReader { place, depth }, ",", tokens)
}
