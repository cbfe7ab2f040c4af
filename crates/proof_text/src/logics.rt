// The lines that declare logic variables.
ghost use Rattle.std.specs.Prelude.{◌≡◌, ◌++◌, IfOk, OnOk, map};
ghost use Rattle.model_terms.specs.Variables.{logic};
ghost use Rattle.dom_terms.specs.Sorts.{sort_of};
ghost use Rattle.dom_terms.specs.Terms.{logic_var_of};
ghost use Rattle.token_readers.specs.Reading.{leaf, sep_list};
ghost use Rattle.token_readers.specs.Giving.{Gives};
ghost use Rattle.token_readers.specs.Leaves.{lexemes_in};
ghost use Rattle.logic_text.specs.FormulaReaders.{leaf_logic};
ghost use Rattle.proof_text.specs.Lists.{comma};
ghost use Rattle.proof_text.specs.Theories.{logic_tail, joined_lines, logic_lines_at};

use crate::declarations::any_sort;
use dom_terms::{Copied, List, LogicVar, LogicVars, OutOfMemory, Sort, Text};
use logic_text::LogicNameReader;
use std::alloc::Global;
use text_tokens::Front;
use token_readers::{ReadFault, Reader, expect, repeated, separated};

// One or more logic names with commas between them.
fn names(alloc: Global, tokens: &mut Front) -> Result<List<Text>, ReadFault>
    ensures { Gives (λ found. (found, lexemes_in tokens.new)) result
        (sep_list comma (leaf leaf_logic) u32.MAX (lexemes_in tokens.old)) }
{
    separated(alloc, &LogicNameReader, ",", tokens)
}

// The variables of these names, all of one sort.
fn of_sort(alloc: Global, names: &[Text], sort: Sort) -> Result<LogicVars, OutOfMemory>
    ensures { IfOk result (λ all. map logic_var_of all ≡ map
        (λ name. logic name (sort_of sort)) names.now) }
{
    let mut all = LogicVars::new(alloc);
    for item in names {
        let name = item.copy(alloc)?;
        all.push(LogicVar { name, sort })?;
    }
    Ok(all)
}

// What stands after the word `logic`.
#[tactic(auto, unfolding(crate::specs::Theories::logic_tail))]
fn line(alloc: Global, tokens: &mut Front) -> Result<LogicVars, ReadFault>
    ensures { Gives (λ found. (map logic_var_of found, lexemes_in tokens.new)) result
        (logic_tail u32.MAX (lexemes_in tokens.old)) }
{
    let sort = any_sort(tokens)?;
    let names = names(alloc, tokens)?;
    expect(tokens, ";")?;
    let all = of_sort(alloc, names.as_slice(), sort)?;
    Ok(all)
}

// Reads what stands after the word `logic`.
#[derive(Clone, Copy)]
struct LineReader;

impl Reader<LogicVars> for LineReader {
    ghost use Rattle.std.specs.Prelude as plain;
    ghost use Rattle.model_terms.specs.Variables as model;

    ghost Seen = { plain.List model.Var };

    ghost seen = { map logic_var_of };

    ghost reading = { λ _. logic_tail 4294967295 };

    fn read(&self, alloc: Global, tokens: &mut Front) -> Result<LogicVars, ReadFault>
        ensures { Gives (λ found. (map logic_var_of found, lexemes_in tokens.new)) result
            (logic_tail 4294967295 (lexemes_in tokens.old)) }
    {
        line(alloc, tokens)
    }
}

/// The lines, as long as one begins; moves past them.
#[tactic(auto, unfolding(crate::specs::Theories::logic_lines_at))]
pub fn lines(alloc: Global, tokens: &mut Front) -> Result<List<LogicVars>, ReadFault>
    ensures { Gives (λ found. (map (map logic_var_of) found, lexemes_in tokens.new)) result
        (logic_lines_at u32.MAX (lexemes_in tokens.old)) }
{
    repeated(alloc, &LineReader, "logic", List::new(alloc), tokens)
}

// Puts copies of the variables at the end.
fn add_all(alloc: Global, found: &mut LogicVars, more: &[LogicVar]) -> Result<(), OutOfMemory>
    ensures { OnOk result (map logic_var_of found.new ≡ map logic_var_of found.old ++ map
        logic_var_of more.now) }
{
    for item in more {
        found.push(item.copy(alloc)?)?;
    }
    Ok(())
}

/// The variables of all lines.
pub fn flat(alloc: Global, lines: &[LogicVars]) -> Result<LogicVars, OutOfMemory>
    ensures { IfOk result (λ all. map logic_var_of all ≡ joined_lines
        (map (map logic_var_of) lines.now)) }
{
    let mut all = LogicVars::new(alloc);
    let mut rest = lines;
    'lines: while let [first, others @ ..] = rest {
        add_all(alloc, &mut all, first.as_slice())?;
        rest = others;
    }
    Ok(all)
}
