// Linear forms: how often each variable counts, and what is left without them.
ghost use Rattle.std.specs.Prelude.{◌≡◌, ◌+ℤ◌, ◌*ℤ◌, neg_ℤ, pos, [], ◌∷◌, ℕ, List, cond, bytes_eq, IfOk, OnOk};
ghost use Rattle.model_terms.specs.Terms.{difference};
ghost use Rattle.rule_table.specs.Linear.{multiple, plain};
ghost use Rattle.dom_terms.specs.Terms.{term_of};
ghost use Rattle.computed_rules.specs.Forms.{Adds, StandsFor, cancels_in, count_in};

use dom_terms::{OutOfMemory, Sort, Term, ValueSort};
use indexmap::IndexMap;
use std::alloc::Global;

// how often each of the variables with these names counts
#[derive(Drop)]
pub(crate) struct Counts<'a> {
    counts: IndexMap<&'a str, i128>,
}

// A linear form over integer variables. Numbers past 128 bits have no room in it.
#[derive(Drop)]
pub(crate) struct LinearForm<'a> {
    progs: Counts<'a>,
    logics: Counts<'a>,
    pub(crate) constant: i128,
}

impl<'a> Counts<'a> {
    // no variable counts
    fn new(alloc: Global) -> Counts<'a>
        ensures { (name : List ℕ) → count_in result name ≡ pos 0 }
    {
        Counts {
            counts: IndexMap::new(alloc),
        }
    }

    // how often the variable counts
    fn get(&self, name: &str) -> i128
        ensures { result ≡ count_in self.now name.now }
    {
        self.counts.get(name).copied().unwrap_or(0)
    }

    // lets the variable count so often more
    fn add(&mut self, name: &'a str, number: i128) -> Result<(), OutOfMemory>
        ensures { OnOk result ((other : List ℕ) → count_in self.new other
            ≡ count_in self.old other +ℤ cond (bytes_eq other name.now) number (pos 0)) }
    {
        let count = sum(self.get(name), number)?;
        self.counts.insert(name, count)?;
        Ok(())
    }
}

impl<'a> LinearForm<'a> {
    // the form 0
    pub(crate) fn new(alloc: Global) -> LinearForm<'a>
        ensures { StandsFor result [] }
    {
        LinearForm {
            progs: Counts::new(alloc),
            logics: Counts::new(alloc),
            constant: 0,
        }
    }

    // adds so many times the integer term
    pub(crate) fn add(&mut self, number: i128, term: &'a Term) -> Result<(), OutOfMemory>
        ensures { OnOk result (Adds self.old self.new (multiple number (term_of term.now))) }
    {
        match term {
            Term::Int(value) => self.add_number(product(number, i128::from(*value))?),
            Term::Prog(x) if x.sort == ValueSort::Int => self.progs.add(x.name.as_str(), number),
            Term::Logic(x) if x.sort == Sort::Value(ValueSort::Int) => {
                self.logics.add(x.name.as_str(), number)
            }
            Term::Add(left, right) => {
                self.add(number, left)?;
                self.add(number, right)
            }
            Term::Sub(left, right) => {
                self.add(number, left)?;
                self.add(negative(number)?, right)
            }
            _ => Ok(()),
        }
    }

    // adds so many times the difference of the integer terms
    pub(crate) fn add_difference(
        &mut self,
        number: i128,
        left: &'a Term,
        right: &'a Term,
    ) -> Result<(), OutOfMemory>
        ensures { OnOk result (Adds self.old self.new
            (multiple number (difference (term_of left.now) (term_of right.now)))) }
    {
        self.add(number, left)?;
        self.add(negative(number)?, right)
    }

    // adds a number
    fn add_number(&mut self, number: i128) -> Result<(), OutOfMemory>
        ensures { OnOk result (Adds self.old self.new (plain number ∷ [])) }
    {
        self.constant = sum(self.constant, number)?;
        Ok(())
    }

    // whether no variable of the term counts
    pub(crate) fn cancels(&self, term: &Term) -> bool
        ensures { result ≡ cancels_in self.now (term_of term.now) }
    {
        match term {
            Term::Prog(x) => self.progs.get(x.name.as_str()) == 0,
            Term::Logic(x) => self.logics.get(x.name.as_str()) == 0,
            Term::Add(left, right) | Term::Sub(left, right) => {
                self.cancels(left) && self.cancels(right)
            }
            _ => true,
        }
    }
}

// the sum, if it has room
fn sum(left: i128, right: i128) -> Result<i128, OutOfMemory>
    ensures { IfOk result (λ sum. sum ≡ left +ℤ right) }
{
    left.checked_add(right).ok_or(OutOfMemory)
}

// the product, if it has room
fn product(left: i128, right: i128) -> Result<i128, OutOfMemory>
    ensures { IfOk result (λ product. product ≡ left *ℤ right) }
{
    left.checked_mul(right).ok_or(OutOfMemory)
}

// minus the number, if it has room
fn negative(number: i128) -> Result<i128, OutOfMemory>
    ensures { IfOk result (λ negative. negative ≡ neg_ℤ number) }
{
    number.checked_neg().ok_or(OutOfMemory)
}
