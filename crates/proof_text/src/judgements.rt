// Judgements.
ghost use Rattle.std.specs.Prelude.{◌≡◌};
ghost use Rattle.theory_syntax.specs.Judgements.{judgement_of};
ghost use Rattle.token_readers.specs.Giving.{Gives};
ghost use Rattle.token_readers.specs.Leaves.{lexemes_in};
ghost use Rattle.proof_text.specs.Theories.{triple_at, entailment_at, judgement_at};

use crate::commands::command;
use crate::declarations::shape_sort;
use crate::sorts::data_sort;
use dom_terms::with;
use formula_syntax::Entailment;
use logic_text::formula;
use std::alloc::Global;
use text_tokens::Front;
use theory_syntax::{Judgement, Triple};
use token_readers::{ReadFault, followed_by, skip};

// What stands after the word `pre`.
#[tactic(auto, unfolding(crate::specs::Theories::triple_at))]
fn triple(alloc: Global, depth: u32, tokens: &mut Front) -> Result<Judgement, ReadFault>
    ensures { Gives (λ found. (judgement_of found, lexemes_in tokens.new)) result
        (triple_at depth u32.MAX (lexemes_in tokens.old)) }
{
    let pre = followed_by(formula(alloc, depth, tokens)?, tokens, "do")?;
    let before = with(pre, command(alloc, depth, tokens))?;
    let before = followed_by(before, tokens, "post")?;
    let whole = with(before, formula(alloc, depth, tokens))?;
    let whole = followed_by(whole, tokens, "at")?;
    let (((pre, command), post), sort) = with(whole, data_sort(tokens))?;
    let triple = Triple {
        pre,
        command,
        post,
        sort,
    };
    Ok(Judgement::Triple(triple))
}

#[tactic(auto, unfolding(crate::specs::Theories::entailment_at))]
fn entailment(alloc: Global, depth: u32, tokens: &mut Front) -> Result<Judgement, ReadFault>
    ensures { Gives (λ found. (judgement_of found, lexemes_in tokens.new)) result
        (entailment_at depth (lexemes_in tokens.old)) }
{
    let left = followed_by(formula(alloc, depth, tokens)?, tokens, "entails")?;
    let formulas = with(left, formula(alloc, depth, tokens))?;
    let formulas = followed_by(formulas, tokens, "at")?;
    let ((left, right), sort) = with(formulas, shape_sort(tokens))?;
    let entailment = Entailment { left, right, sort };
    Ok(Judgement::Entails(entailment))
}

/// A judgement; moves past it.
#[tactic(auto, unfolding(crate::specs::Theories::judgement_at))]
pub fn judgement(alloc: Global, depth: u32, tokens: &mut Front) -> Result<Judgement, ReadFault>
    ensures { Gives (λ found. (judgement_of found, lexemes_in tokens.new)) result
        (judgement_at depth u32.MAX (lexemes_in tokens.old)) }
{
    if skip(tokens, "pre") {
        return triple(alloc, depth, tokens);
    }
    entailment(alloc, depth, tokens)
}
