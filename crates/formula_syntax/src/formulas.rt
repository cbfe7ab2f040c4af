// Formulas of context logic.
ghost use Rattle.std.specs.Prelude.{◌≡◌, IfOk, true};
ghost use Rattle.formula_syntax.specs.Joining.{has_one_part, has_two_parts, joining, over};
ghost use Rattle.formula_syntax.specs.Formulas.{formula_of};
ghost use Rattle.dom_terms.specs.Terms.{logic_var_of};

use dom_terms::{Copied, DataSort, LogicVar, OutOfMemory, Term, copies, with};
use std::alloc::Global;

/// Where the hole of a concatenation is.
#[derive(Clone, Copy, Debug, PartialEq, Eq, Hash)]
pub enum Side {
    /// There is none.
    Whole,
    /// In the left part.
    HoleLeft,
    /// In the right part.
    HoleRight,
}

/// A formula, as it is written.
#[derive(Debug, Drop)]
pub enum Formula {
    /// `true`
    True,
    /// `false`
    False,
    /// `(P and Q)`
    And(Box<Formula>, Box<Formula>),
    /// `(P or Q)`
    Or(Box<Formula>, Box<Formula>),
    /// `(P -> Q)`
    Imp(Box<Formula>, Box<Formula>),
    /// `(not P)`
    Not(Box<Formula>),
    /// `(exists $x . P)`
    Exists(LogicVar, Box<Formula>),
    /// `(forall $x . P)`
    Forall(LogicVar, Box<Formula>),
    /// `E = F`
    Eq(Term, Term),
    /// `E <= F`
    Le(Term, Term),
    /// `0f`, the forest with no tree
    EmptyForest,
    /// `0g`, the grove with no tree
    EmptyGrove,
    /// `?t`, `?f` or `?g`, the context that is its own hole
    Hole(DataSort),
    /// `S#I[P]%L`: name, node number, children and list number
    Node(Term, Term, Box<Formula>, Term),
    /// `<P>`, the forest with one tree
    One(Box<Formula>),
    /// `[P]`, the grove with one root
    Root(Box<Formula>),
    /// `(P * Q)`, `(K .* Q)` or `(P *. K)`, one forest followed by another
    Join(Side, Box<Formula>, Box<Formula>),
    /// `(P + Q)`, one grove beside another
    Plus(Box<Formula>, Box<Formula>),
    /// `(K .+ Q)`, a context of groves beside a grove
    PlusHole(Box<Formula>, Box<Formula>),
    /// `(K @h P)`, a context with something of sort h in its hole
    App(DataSort, Box<Formula>, Box<Formula>),
    /// `(P -o Q)`, the contexts that give Q with whatever meets P in their hole
    HoleAdj(Box<Formula>, Box<Formula>),
    /// `(K o-k Q)`, what gives Q at sort k in the hole of whatever context meets K
    CtxAdj(DataSort, Box<Formula>, Box<Formula>),
    /// `$x`, the shape or context that the variable stands for
    Var(LogicVar),
    /// `len E`, the forests of this length
    Len(Term),
    /// `($x is P)`: what the variable stands for meets P
    Is(LogicVar, Box<Formula>),
}

impl Copied for Formula {
    ghost use Rattle.model_formulas.specs.Formulas as model;

    ghost Seen = { model.Named };

    ghost seen = { formula_of };

    #[cycle(formula_copy)]
    fn copy(&self, alloc: Global) -> Result<Formula, OutOfMemory>
        ensures { IfOk result (λ copied. formula_of copied ≡ formula_of self.now) }
    {
        match self {
            Self::True => Ok(Self::True),
            Self::False => Ok(Self::False),
            Self::EmptyForest => Ok(Self::EmptyForest),
            Self::EmptyGrove => Ok(Self::EmptyGrove),
            Self::Hole(sort) => Ok(Self::Hole(*sort)),
            Self::And(left, right)
            | Self::Or(left, right)
            | Self::Imp(left, right)
            | Self::Join(_, left, right)
            | Self::Plus(left, right)
            | Self::PlusHole(left, right)
            | Self::App(_, left, right)
            | Self::HoleAdj(left, right)
            | Self::CtxAdj(_, left, right) => {
                let (left, right) = with(boxed(alloc, left)?, boxed(alloc, right))?;
                Ok(self.joining(left, right))
            }
            Self::Not(part) | Self::One(part) | Self::Root(part) => {
                let part = boxed(alloc, part)?;
                Ok(self.over(part))
            }
            Self::Exists(var, part) => {
                let (var, part) = bound(alloc, var, part)?;
                Ok(Self::Exists(var, part))
            }
            Self::Forall(var, part) => {
                let (var, part) = bound(alloc, var, part)?;
                Ok(Self::Forall(var, part))
            }
            Self::Is(var, part) => {
                let (var, part) = bound(alloc, var, part)?;
                Ok(Self::Is(var, part))
            }
            Self::Eq(left, right) => {
                let (left, right) = copies(alloc, left, right)?;
                Ok(Self::Eq(left, right))
            }
            Self::Le(left, right) => {
                let (left, right) = copies(alloc, left, right)?;
                Ok(Self::Le(left, right))
            }
            Self::Node(name, number, part, list) => {
                let (name, number) = copies(alloc, name, number)?;
                let (list, part) = with(list.copy(alloc)?, boxed(alloc, part))?;
                Ok(Self::Node(name, number, part, list))
            }
            Self::Var(var) => Ok(Self::Var(var.copy(alloc)?)),
            Self::Len(length) => Ok(Self::Len(length.copy(alloc)?)),
        }
    }
}

impl Formula {
    // the formula with these for its two parts
    pub(crate) fn joining(&self, left: Box<Formula>, right: Box<Formula>) -> Formula
        requires { has_two_parts (formula_of self.now) ≡ true }
        ensures { formula_of result ≡ joining (formula_of self.now)
            (formula_of left.value) (formula_of right.value) }
    {
        match self {
            Self::And(_, _) => Self::And(left, right),
            Self::Or(_, _) => Self::Or(left, right),
            Self::Imp(_, _) => Self::Imp(left, right),
            Self::Join(side, _, _) => Self::Join(*side, left, right),
            Self::Plus(_, _) => Self::Plus(left, right),
            Self::PlusHole(_, _) => Self::PlusHole(left, right),
            Self::App(sort, _, _) => Self::App(*sort, left, right),
            Self::HoleAdj(_, _) => Self::HoleAdj(left, right),
            Self::CtxAdj(sort, _, _) => Self::CtxAdj(*sort, left, right),
            _ => unreachable!(),
        }
    }

    // the formula with this for its part
    pub(crate) fn over(&self, part: Box<Formula>) -> Formula
        requires { has_one_part (formula_of self.now) ≡ true }
        ensures { formula_of result ≡ over (formula_of self.now) (formula_of part.value) }
    {
        match self {
            Self::Not(_) => Self::Not(part),
            Self::One(_) => Self::One(part),
            Self::Root(_) => Self::Root(part),
            _ => unreachable!(),
        }
    }
}

// copies of a variable and of the formula that speaks of it, boxed
#[cycle(formula_copy)]
fn bound(
    alloc: Global,
    var: &LogicVar,
    part: &Formula,
) -> Result<(LogicVar, Box<Formula>), OutOfMemory>
    ensures first { IfOk result (λ copied. logic_var_of copied.0 ≡ logic_var_of var.now) }
    ensures second { IfOk result (λ copied. formula_of copied.1.value ≡ formula_of part.now) }
{
    with(var.copy(alloc)?, boxed(alloc, part))
}

// a copy of the formula, boxed
#[cycle(formula_copy)]
fn boxed(alloc: Global, formula: &Formula) -> Result<Box<Formula>, OutOfMemory>
    ensures { IfOk result (λ copied. formula_of copied.value ≡ formula_of formula.now) }
{
    Ok(Box::new(alloc, formula.copy(alloc)?)?)
}
