// The formulas of a procedure and its proof.
ghost use Rattle.std.specs.Prelude.{◌≡◌, IfOk};
ghost use Rattle.model_shapes.specs.Sorts.{forest, grove};
ghost use Rattle.model_terms.specs.Terms.{variable};
ghost use Rattle.model_formulas.specs.Formulas.{conjunction, equality, empty, node_formula};
ghost use Rattle.dom_terms.specs.Terms.{term_of};
ghost use Rattle.formula_syntax.specs.Formulas.{formula_of};
ghost use Rattle.model_generator.specs.Generated.{some_list, tag, new_root, some_root, x_term};
ghost use Rattle.model_generator.specs.Generated.{same_tag, nothing_yet, beginning};

use crate::names::numbered;
use crate::variables::{some_list, some_node, x_term};
use dom_terms::{OutOfMemory, Term, with};
use formula_syntax::Formula;
use std::alloc::Global;

// The empty grove, and an equation.
fn empty_with(alloc: Global, left: Term, right: Term) -> Result<Formula, OutOfMemory>
    ensures { IfOk result (λ formula. formula_of formula
        ≡ conjunction (empty grove) (equality (term_of left) (term_of right))) }
{
    let equation = Box::new(alloc, Formula::Eq(left, right))?;
    let (equation, empty) = with(equation, Box::new(alloc, Formula::EmptyGrove))?;
    Ok(Formula::And(empty, equation))
}

/// `(0g and x = null)`, where the body begins.
pub fn beginning(alloc: Global) -> Result<Formula, OutOfMemory>
    ensures { IfOk result (λ formula. formula_of formula ≡ beginning) }
{
    empty_with(alloc, x_term(alloc)?, Term::NullNode)
}

/// `"tK"`, the name of the node that is made.
pub fn tag(alloc: Global, k: u32) -> Result<Term, OutOfMemory>
    ensures { IfOk result (λ term. term_of term ≡ tag k) }
{
    Ok(Term::Str(numbered(alloc, "t", k)?))
}

// `"tK"#E[0f]%$m`
fn new_node(alloc: Global, k: u32, number: Term) -> Result<Formula, OutOfMemory>
    ensures { IfOk result (λ formula. formula_of formula
        ≡ node_formula (tag k) (term_of number) (empty forest) (variable some_list)) }
{
    let (number, name) = with(number, tag(alloc, k))?;
    let (terms, list) = with((name, number), some_list(alloc))?;
    let (terms, children) = with((terms, list), Box::new(alloc, Formula::EmptyForest))?;
    let ((name, number), list) = terms;
    Ok(Formula::Node(name, number, children, Term::Logic(list)))
}

// `(exists $m . ["tK"#E[0f]%$m])`
fn new_root(alloc: Global, k: u32, number: Term) -> Result<Formula, OutOfMemory>
    ensures { IfOk result (λ formula. formula_of formula ≡ new_root k (term_of number)) }
{
    let node = Box::new(alloc, new_node(alloc, k, number)?)?;
    let (list, root) = with(some_list(alloc)?, Box::new(alloc, Formula::Root(node)))?;
    Ok(Formula::Exists(list, root))
}

/// `(exists $m . ["tK"#x[0f]%$m])`
pub fn root_of_x(alloc: Global, k: u32) -> Result<Formula, OutOfMemory>
    ensures { IfOk result (λ formula. formula_of formula ≡ new_root k x_term) }
{
    new_root(alloc, k, x_term(alloc)?)
}

/// `(exists $n . (exists $m . ["tK"#$n[0f]%$m]))`
pub fn some_root(alloc: Global, k: u32) -> Result<Formula, OutOfMemory>
    ensures { IfOk result (λ formula. formula_of formula ≡ some_root k) }
{
    let number = Term::Logic(some_node(alloc)?);
    let root = Box::new(alloc, new_root(alloc, k, number)?)?;
    let (root, node) = with(root, some_node(alloc))?;
    Ok(Formula::Exists(node, root))
}

/// `"tK" = "tK"`
pub fn same_tag(alloc: Global, k: u32) -> Result<Formula, OutOfMemory>
    ensures { IfOk result (λ formula. formula_of formula ≡ same_tag k) }
{
    let (left, right) = with(tag(alloc, k)?, tag(alloc, k))?;
    Ok(Formula::Eq(left, right))
}

/// `(0g and "tK" = "tK")`
pub fn nothing_yet(alloc: Global, k: u32) -> Result<Formula, OutOfMemory>
    ensures { IfOk result (λ formula. formula_of formula ≡ nothing_yet k) }
{
    let (left, right) = with(tag(alloc, k)?, tag(alloc, k))?;
    empty_with(alloc, left, right)
}
