// The rule that texts with the same pieces are equal.
ghost use Rattle.std.specs.Prelude.{◌≡◌, [], ◌∷◌, ◌++◌, codes, map, length, IfOk, OnOk, MatchOption};
ghost use Rattle.std.specs.List.{flat_map};
ghost use Rattle.rule_table.specs.Table.{entailments};
ghost use Rattle.rule_table.specs.Verdicts.{IsVerdict, readings_in};
ghost use Rattle.dom_terms.specs.Terms.{term_of};
ghost use Rattle.computed_rules.specs.Pieces.{leaf_pieces, piece_of, pieces_of, pieces_left};
ghost use Rattle.computed_rules.specs.Steps.{judged, step};
ghost use Rattle.computed_rules.specs.Texts as tests;
ghost use Rattle.row_patterns.specs.Verdicts.{verdict_in};

use dom_terms::{
    LogicVar, OutOfMemory, ProgVar, SideName, Term, ValueSort, Verdict, both_have, same_logic_var,
    same_prog_var,
};
use formula_syntax::{Entailment, Formula};
use std::alloc::Global;

// a literal or a variable of a text
#[derive(Clone, Copy)]
enum Leaf<'a> {
    Text(&'a [u8]),
    Prog(&'a ProgVar),
    Logic(&'a LogicVar),
}

// a piece of a text
#[derive(Clone, Copy)]
enum Piece<'a> {
    Byte(u8),
    Prog(&'a ProgVar),
    Logic(&'a LogicVar),
}

// what is left of a text: the bytes of a literal, and then the leaves after it
#[derive(Clone, Copy)]
struct Rest<'a> {
    text: &'a [u8],
    leaves: &'a [Leaf<'a>],
}

/// The verdict on a step by `concat` that cites no step.
pub fn concat(
    alloc: Global,
    arguments: &[Term],
    conclusion: &Entailment,
) -> Result<Verdict, OutOfMemory>
    ensures { IfOk result (λ verdict. IsVerdict (readings_in entailments (codes "concat"))
        (step (map term_of arguments.now) conclusion.now) (verdict_in verdict)) }
{
    by_concat(alloc, arguments, conclusion)
}

// the same, as it is computed
fn by_concat(
    alloc: Global,
    arguments: &[Term],
    conclusion: &Entailment,
) -> Result<Verdict, OutOfMemory>
    ensures { IfOk result (λ verdict. verdict_in verdict
        ≡ tests.concat_verdict (map term_of arguments.now) (judged conclusion.now)) }
{
    match (arguments, &conclusion.right) {
        ([], Formula::Eq(left, right)) => by_texts(alloc, left, right),
        _ => Ok(Verdict::Shape),
    }
}

// the verdict where the terms are said to be equal
fn by_texts(alloc: Global, left: &Term, right: &Term) -> Result<Verdict, OutOfMemory>
    ensures { IfOk result
        (λ verdict. verdict_in verdict ≡ tests.by_texts (term_of left.now) (term_of right.now)) }
{
    if !both_have(ValueSort::Str, left, right) {
        return Ok(Verdict::Shape);
    }
    if have_same_pieces(alloc, left, right)? {
        Ok(Verdict::Instance)
    } else {
        Ok(Verdict::Side(SideName::Texts))
    }
}

// whether the terms have the same pieces
fn have_same_pieces(alloc: Global, left: &Term, right: &Term) -> Result<bool, OutOfMemory>
    ensures { IfOk result
        (λ same. same ≡ tests.same_pieces (pieces_of left.now) (pieces_of right.now)) }
{
    let mut leaves = Vec::new(alloc);
    add_leaves(left, &mut leaves)?;
    let mut others = Vec::new(alloc);
    add_leaves(right, &mut others)?;
    Ok(same_pieces(all_of(&leaves), all_of(&others)))
}

// puts the literals and variables of a text after those that are there
fn add_leaves<'a>(term: &'a Term, leaves: &mut Vec<Leaf<'a>>) -> Result<(), OutOfMemory>
    ensures { OnOk result (flat_map leaf_pieces leaves.new.items
        ≡ flat_map leaf_pieces leaves.old.items ++ pieces_of term.now) }
{
    match term {
        Term::Str(text) => leaves.push(Leaf::Text(text.as_str().as_bytes()))?,
        Term::Prog(variable) => leaves.push(Leaf::Prog(variable))?,
        Term::Logic(variable) => leaves.push(Leaf::Logic(variable))?,
        Term::Cat(left, right) => {
            add_leaves(left, leaves)?;
            add_leaves(right, leaves)?;
        }
        _ => {}
    }
    Ok(())
}

// all of a text
fn all_of<'a>(leaves: &'a [Leaf<'a>]) -> Rest<'a>
    ensures { pieces_left result ≡ flat_map leaf_pieces leaves.now }
{
    Rest { text: &[], leaves }
}

// whether the same pieces are left
fn same_pieces(mut left: Rest, mut right: Rest) -> bool
    ensures { result ≡ tests.same_pieces (pieces_left left.entry) (pieces_left right.entry) }
{
    'pieces: while let Some((piece, rest)) = next(left) {
        match next(right) {
            Some((other, more)) if same_piece(&piece, &other) => {
                left = rest;
                right = more;
            }
            _ => return false,
        }
    }
    next(right).is_none()
}

// the next piece, and what is left after it
fn next<'a>(rest: Rest<'a>) -> Option<(Piece<'a>, Rest<'a>)>
    ensures { MatchOption result (pieces_left rest.entry ≡ [])
        (λ found. pieces_left rest.entry ≡ piece_of found.0 ∷ pieces_left found.1) }
{
    let mut text = rest.text;
    let mut leaves = rest.leaves;
    'empty: while let ([], [leaf, others @ ..]) = (text, leaves) {
        leaves = others;
        match *leaf {
            Leaf::Text(bytes) => text = bytes,
            Leaf::Prog(variable) => return Some((Piece::Prog(variable), Rest { text, leaves })),
            Leaf::Logic(variable) => return Some((Piece::Logic(variable), Rest { text, leaves })),
        }
    }
    match text {
        [byte, others @ ..] => Some((
            Piece::Byte(*byte),
            Rest {
                text: others,
                leaves,
            },
        )),
        [] => None,
    }
}

// whether the pieces are the same
fn same_piece(left: &Piece, right: &Piece) -> bool
    ensures { result ≡ tests.same_piece (piece_of left.now) (piece_of right.now) }
{
    match (left, right) {
        (Piece::Byte(a), Piece::Byte(b)) => a == b,
        (Piece::Prog(x), Piece::Prog(y)) => same_prog_var(x, y),
        (Piece::Logic(x), Piece::Logic(y)) => same_logic_var(x, y),
        _ => false,
    }
}
