// Variables and terms.
ghost use Rattle.std.specs.Prelude.{◌≡◌, IfOk};
ghost use Rattle.dom_terms.specs.Terms.{prog_var_of, logic_var_of, term_of};

use crate::copied::Copied;
use crate::memory::OutOfMemory;
use crate::sorts::{Sort, ValueSort};
use crate::text::Text;
use std::alloc::Global;

/// A program variable: its name and its sort. One name at two sorts is two variables.
#[derive(Debug, Drop)]
pub struct ProgVar {
    /// The name.
    pub name: Text,
    /// The sort of the values that it holds.
    pub sort: ValueSort,
}

/// A logic variable: its name and its sort. One name at two sorts is two variables.
#[derive(Debug, Drop)]
pub struct LogicVar {
    /// The name, with its `$`.
    pub name: Text,
    /// The sort of what it stands for: values, shapes or contexts.
    pub sort: Sort,
}

/// A term of a formula or a command.
#[derive(Debug, Drop)]
pub enum Term {
    /// The null node.
    NullNode,
    /// The null list.
    NullList,
    /// An integer.
    Int(i64),
    /// A text.
    Str(Text),
    /// A truth value.
    Bool(bool),
    /// A program variable.
    Prog(ProgVar),
    /// A logic variable.
    Logic(LogicVar),
    /// A sum of integers.
    Add(Box<Term>, Box<Term>),
    /// A difference of integers.
    Sub(Box<Term>, Box<Term>),
    /// One text behind another.
    Cat(Box<Term>, Box<Term>),
}

// what stands where a list of few terms has none
impl Default for Term {
    fn default() -> Term {
        Term::NullNode
    }
}

impl Copied for ProgVar {
    ghost use Rattle.model_terms.specs.Stores as model;

    ghost Seen = { model.ProgVar };

    ghost seen = { prog_var_of };

    fn copy(&self, alloc: Global) -> Result<ProgVar, OutOfMemory>
        ensures { IfOk result (λ copied. prog_var_of copied ≡ prog_var_of self.now) }
    {
        Ok(ProgVar {
            name: self.name.copy(alloc)?,
            sort: self.sort,
        })
    }
}

impl Copied for LogicVar {
    ghost use Rattle.model_terms.specs.Variables as model;

    ghost Seen = { model.Var };

    ghost seen = { logic_var_of };

    fn copy(&self, alloc: Global) -> Result<LogicVar, OutOfMemory>
        ensures { IfOk result (λ copied. logic_var_of copied ≡ logic_var_of self.now) }
    {
        Ok(LogicVar {
            name: self.name.copy(alloc)?,
            sort: self.sort,
        })
    }
}

impl Copied for Term {
    ghost use Rattle.model_terms.specs.Terms as model;

    ghost Seen = { model.Term };

    ghost seen = { term_of };

    #[cycle(term_copy)]
    fn copy(&self, alloc: Global) -> Result<Term, OutOfMemory>
        ensures { IfOk result (λ copied. term_of copied ≡ term_of self.now) }
    {
        Ok(match self {
            Term::NullNode => Term::NullNode,
            Term::NullList => Term::NullList,
            Term::Int(number) => Term::Int(*number),
            Term::Str(text) => Term::Str(text.copy(alloc)?),
            Term::Bool(truth) => Term::Bool(*truth),
            Term::Prog(variable) => Term::Prog(variable.copy(alloc)?),
            Term::Logic(variable) => Term::Logic(variable.copy(alloc)?),
            Term::Add(left, right) => Term::Add(boxed(alloc, left)?, boxed(alloc, right)?),
            Term::Sub(left, right) => Term::Sub(boxed(alloc, left)?, boxed(alloc, right)?),
            Term::Cat(left, right) => Term::Cat(boxed(alloc, left)?, boxed(alloc, right)?),
        })
    }
}

// a copy of the term, boxed
#[cycle(term_copy)]
fn boxed(alloc: Global, term: &Term) -> Result<Box<Term>, OutOfMemory>
    ensures { IfOk result (λ copied. term_of copied.value ≡ term_of term.now) }
{
    Ok(Box::new(alloc, term.copy(alloc)?)?)
}
