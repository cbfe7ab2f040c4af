// The forms of formulas, as the plans by form write them.
ghost use Rattle.std.specs.Prelude.{◌≡◌, IfOk};
ghost use Rattle.model_formulas.specs.Formulas as model;
ghost use Rattle.assistant_laws.specs.FormPlans as plans;
ghost use Rattle.formula_syntax.specs.Formulas.{formula_of};

use dom_terms::{Copied, OutOfMemory, copies, with};
use formula_syntax::{Formula, Side};
use std::alloc::Global;

/// In a box.
pub(crate) fn boxed(alloc: Global, formula: Formula) -> Result<Box<Formula>, OutOfMemory>
    ensures { IfOk result (λ boxed. boxed.value ≡ formula) }
{
    Ok(Box::new(alloc, formula)?)
}

// Both in boxes.
fn both_boxed(
    alloc: Global,
    first: Formula,
    rest: Formula,
) -> Result<(Box<Formula>, Box<Formula>), OutOfMemory>
    ensures first { IfOk result (λ both. both.0.value ≡ first) }
    ensures rest { IfOk result (λ both. both.1.value ≡ rest) }
{
    let (rest, first) = with(rest, boxed(alloc, first))?;
    with(first, boxed(alloc, rest))
}

/// One forest followed by another.
pub(crate) fn followed(alloc: Global, first: Formula, rest: Formula) -> Result<Formula, OutOfMemory>
    ensures { IfOk result (λ row. formula_of row
        ≡ model.concatenation model.whole (formula_of first) (formula_of rest)) }
{
    let (first, rest) = both_boxed(alloc, first, rest)?;
    Ok(Formula::Join(Side::Whole, first, rest))
}

/// One grove beside another.
pub(crate) fn summed(alloc: Global, first: Formula, rest: Formula) -> Result<Formula, OutOfMemory>
    ensures { IfOk result
        (λ row. formula_of row ≡ model.grove_sum (formula_of first) (formula_of rest)) }
{
    let (first, rest) = both_boxed(alloc, first, rest)?;
    Ok(Formula::Plus(first, rest))
}

/// The form of a tree.
#[cycle(forms)]
pub(crate) fn tidied(alloc: Global, tree: &Formula) -> Result<Formula, OutOfMemory>
    ensures { IfOk result (λ form. formula_of form ≡ plans.tidied (formula_of tree.now)) }
{
    let Formula::Node(name, number, children, list) = tree else {
        return tree.copy(alloc);
    };
    let children = boxed(alloc, absorbed(alloc, children, Formula::EmptyForest)?)?;
    let (children, (name, number)) = with(children, copies(alloc, name, number))?;
    let ((name, number, children), list) = with((name, number, children), list.copy(alloc))?;
    Ok(Formula::Node(name, number, children, list))
}

/// The forest with the form of a tree.
#[cycle(forms)]
pub(crate) fn tidied_alone(alloc: Global, tree: &Formula) -> Result<Formula, OutOfMemory>
    ensures { IfOk result
        (λ forest. formula_of forest ≡ model.one_tree (plans.tidied (formula_of tree.now))) }
{
    Ok(Formula::One(boxed(alloc, tidied(alloc, tree)?)?))
}

/// The row with the parts of a forest in front.
#[cycle(forms)]
pub(crate) fn absorbed(
    alloc: Global,
    forest: &Formula,
    rest: Formula,
) -> Result<Formula, OutOfMemory>
    ensures { IfOk result
        (λ row. formula_of row ≡ plans.absorbed (formula_of forest.now) (formula_of rest)) }
{
    match forest {
        Formula::EmptyForest => Ok(rest),
        Formula::Join(Side::Whole, first, second) => {
            let rest = absorbed(alloc, second, rest)?;
            absorbed(alloc, first, rest)
        }
        Formula::One(tree) => {
            let (rest, first) = with(rest, tidied_alone(alloc, tree))?;
            followed(alloc, first, rest)
        }
        _ => {
            let (rest, first) = with(rest, forest.copy(alloc))?;
            followed(alloc, first, rest)
        }
    }
}

/// The root with the form of a tree.
pub(crate) fn tidied_root(alloc: Global, tree: &Formula) -> Result<Formula, OutOfMemory>
    ensures { IfOk result
        (λ grove. formula_of grove ≡ model.one_root (plans.tidied (formula_of tree.now))) }
{
    Ok(Formula::Root(boxed(alloc, tidied(alloc, tree)?)?))
}

/// The row with the roots of a grove in front.
pub(crate) fn absorbed_roots(
    alloc: Global,
    grove: &Formula,
    rest: Formula,
) -> Result<Formula, OutOfMemory>
    ensures { IfOk result
        (λ row. formula_of row ≡ plans.absorbed_roots (formula_of grove.now) (formula_of rest)) }
{
    match grove {
        Formula::EmptyGrove => Ok(rest),
        Formula::Plus(first, second) => {
            let rest = absorbed_roots(alloc, second, rest)?;
            absorbed_roots(alloc, first, rest)
        }
        Formula::Root(tree) => {
            let (rest, first) = with(rest, tidied_root(alloc, tree))?;
            summed(alloc, first, rest)
        }
        _ => {
            let (rest, first) = with(rest, grove.copy(alloc))?;
            summed(alloc, first, rest)
        }
    }
}
