// The rows of a table. A name, a term, a formula is a place among the rows before.
ghost use Rattle.std.specs.Prelude.{◌≡◌};

use crate::heads::Head;
use dom_terms::{Sort, ValueSort};

/// A term, over names and the terms of the rows before it.
#[derive(Clone, Copy, PartialEq, Eq, Hash)]
pub enum TermRow {
    /// `null`
    NullNode,
    /// `nolist`
    NullList,
    /// An integer.
    Int(i64),
    /// A text.
    Str(u32),
    /// A truth value.
    Bool(bool),
    /// A program variable.
    Prog(u32, ValueSort),
    /// A logic variable that stands free.
    Logic(u32, Sort),
    /// A bound variable: how many binders stand between it and its own.
    Bound(u32, Sort),
    /// `E + F`
    Add(u32, u32),
    /// `E - F`
    Sub(u32, u32),
    /// `E . F`
    Cat(u32, u32),
}

impl TermRow {
    // a sum over the row
    #[inline(always)]
    pub(crate) fn sum(&self) -> u32 {
        match self {
            TermRow::NullNode => 1,
            TermRow::NullList => 2,
            TermRow::Bool(_) => 3,
            TermRow::Int(number) => (number.unsigned_abs() % 1_048_576) as u32 + 64,
            TermRow::Str(name) => name.wrapping_mul(8).wrapping_add(4),
            TermRow::Prog(name, _) => name.wrapping_mul(8).wrapping_add(5),
            TermRow::Logic(name, _) => name.wrapping_mul(8).wrapping_add(6),
            TermRow::Bound(place, _) => place.wrapping_mul(8).wrapping_add(7),
            TermRow::Add(left, right) | TermRow::Sub(left, right) | TermRow::Cat(left, right) => {
                left.wrapping_mul(31).wrapping_add(*right)
            }
        }
    }
}

/// A formula, over terms and the formulas of the rows before it. What its form doesn't use is 0.
#[derive(Clone, Copy, PartialEq, Eq, Hash)]
pub struct FormRow {
    /// Its form.
    pub head: Head,
    /// Its terms, from left to right.
    pub first: u32,
    /// The second.
    pub second: u32,
    /// The third.
    pub third: u32,
    /// Its parts.
    pub left: u32,
    /// The second part.
    pub right: u32,
}

impl FormRow {
    // a sum over the row
    #[inline(always)]
    pub(crate) fn sum(&self) -> u32 {
        let terms = self
            .first
            .wrapping_mul(5)
            .wrapping_add(self.second.wrapping_mul(3));
        let parts = self
            .left
            .wrapping_mul(31)
            .wrapping_add(self.right.wrapping_mul(1_021));
        terms.wrapping_add(parts).wrapping_add(self.third)
    }

    // the row of a form with no term and no part
    pub(crate) fn of(head: Head) -> FormRow
        ensures { result ≡ record {
          head = head;
          first = 0;
          second = 0;
          third = 0;
          left = 0;
          right = 0;
        } }
    {
        FormRow {
            head,
            first: 0,
            second: 0,
            third: 0,
            left: 0,
            right: 0,
        }
    }
}
