// The judgement of a formula, by going over its parts and over the nodes that are there.
ghost use Rattle.std.specs.Prelude.{◌≡◌, ◌<◌, ◌≤◌, ◌&&◌, IfOk, OnOk, pos, int_le, length};
ghost use Rattle.model_shapes.specs.Values.{int, str, node_number, list_number};
ghost use Rattle.model_shapes.specs.Tests as tests;
ghost use Rattle.model_shapes.specs.Trees.{Trees};
ghost use Rattle.model_shapes.specs.Things.{val};
ghost use Rattle.model_formulas.specs.Formulas.{whole, existential, concatenation};
ghost use Rattle.model_formulas.specs.Satisfaction.{meaning_of, number_of};
ghost use Rattle.model_watch.specs.Watching.{same_thing};
ghost use Rattle.dom_terms.specs.Terms.{logic_var_of, term_of};
ghost use Rattle.dom_terms.specs.Values.{value_seen};
ghost use Rattle.dom_terms.specs.Stores.{store_of};
ghost use Rattle.formula_syntax.specs.Formulas.{formula_of};
ghost use Rattle.dom_watch.specs.Rows.{Shows};
ghost use Rattle.dom_watch.specs.Bindings.{bound_in};
ghost use Rattle.dom_watch.specs.Judged.{IsTold, IsReady, environment, Tells, TellsRoot, others_at, IsRest};

use crate::bindings::Bindings;
use crate::flags::is_root;
use crate::rows::Row;
use dom_terms::{
    EvalFault, LogicVar, OutOfMemory, Store, Term, Text, Value, eval, same_text, same_value,
};
use formula_syntax::{Formula, Side};
use std::alloc::Global;

/// What formulas are judged on.
#[derive(Drop)]
pub struct Judge<'a> {
    /// Where memory comes from.
    pub alloc: Global,
    /// All nodes of the grove.
    pub rows: &'a [Row<'a>],
    /// The values of the program variables.
    pub store: &'a Store,
}

impl<'a> Judge<'a> {
    /// Whether these siblings meet the formula.
    #[cycle(judges)]
    pub fn judges(
        &self,
        formula: &Formula,
        bindings: &Bindings,
        trees: &[Row<'a>],
    ) -> Result<bool, OutOfMemory>
        requires ready { IsReady (bound_in bindings.now) (store_of self.now.store.now)
            (formula_of formula.now) }
        requires shown { (f : Trees) × Shows self.now.rows.now trees.now f }
        ensures { Tells self.now.rows.now (store_of self.now.store.now) bindings.now
            (formula_of formula.now) trees.now result }
    {
        match formula {
            Formula::True => Ok(true),
            Formula::And(p, q) => match self.judges(p, bindings, trees)? {
                true => self.judges(q, bindings, trees),
                false => Ok(false),
            },
            Formula::Or(p, q) => match self.judges(p, bindings, trees)? {
                true => Ok(true),
                false => self.judges(q, bindings, trees),
            },
            Formula::Imp(p, q) => match self.judges(p, bindings, trees)? {
                true => self.judges(q, bindings, trees),
                false => Ok(true),
            },
            Formula::Not(p) => Ok(!self.judges(p, bindings, trees)?),
            Formula::Exists(x, p) => self.judges_some(x, p, bindings, trees),
            Formula::Eq(a, b) => self.are_equal(a, b, bindings),
            Formula::Le(a, b) => self.is_at_most(a, b, bindings),
            Formula::EmptyForest | Formula::EmptyGrove => Ok(trees.is_empty()),
            Formula::Node(name, number, p, list) => match trees {
                [row] => match self.is_called(row, name, number, list, bindings)? {
                    true => self.judges(p, bindings, &self.rows[row.first..row.end]),
                    false => Ok(false),
                },
                _ => Ok(false),
            },
            Formula::One(p) | Formula::Root(p) => match trees {
                [_] => self.judges(p, bindings, trees),
                _ => Ok(false),
            },
            Formula::Join(Side::Whole, p, q) => self.judges_cut(p, q, bindings, trees),
            Formula::Plus(p, q) if is_root(p) => self.judges_root(p, q, bindings, trees),
            Formula::Plus(p, q) => self.judges_root(q, p, bindings, trees),
            Formula::Len(length) => self.is_length(length, bindings, trees.len()),
            _ => Ok(false),
        }
    }

    // whether they meet it with some value for the variable
    #[cycle(judges)]
    fn judges_some(
        &self,
        variable: &LogicVar,
        formula: &Formula,
        bindings: &Bindings,
        trees: &[Row<'a>],
    ) -> Result<bool, OutOfMemory>
        requires ready { IsReady (bound_in bindings.now) (store_of self.now.store.now)
            (existential (logic_var_of variable.now) (formula_of formula.now)) }
        requires shown { (f : Trees) × Shows self.now.rows.now trees.now f }
        ensures { Tells self.now.rows.now (store_of self.now.store.now) bindings.now
            (existential (logic_var_of variable.now) (formula_of formula.now)) trees.now result }
    {
        for row in self.rows {
            if self.judges(
                formula,
                &Bindings::More(&*variable, &*row, &*bindings),
                trees,
            )? {
                return Ok(true);
            }
        }
        Ok(false)
    }

    // whether some cut of them gives two parts that meet the formulas
    #[cycle(judges)]
    fn judges_cut(
        &self,
        left: &Formula,
        right: &Formula,
        bindings: &Bindings,
        trees: &[Row<'a>],
    ) -> Result<bool, OutOfMemory>
        requires ready { IsReady (bound_in bindings.now) (store_of self.now.store.now)
            (concatenation whole (formula_of left.now) (formula_of right.now)) }
        requires shown { (f : Trees) × Shows self.now.rows.now trees.now f }
        ensures { Tells self.now.rows.now (store_of self.now.store.now) bindings.now
            (concatenation whole (formula_of left.now) (formula_of right.now)) trees.now result }
    {
        for cut in 0..trees.len() + 1 {
            let (before, after) = trees.split_at(cut);
            if !self.judges(left, bindings, before)? {
                continue;
            }
            if self.judges(right, bindings, after)? {
                return Ok(true);
            }
        }
        Ok(false)
    }

    // whether one of them meets the first formula, and the others the second
    #[cycle(judges)]
    fn judges_root(
        &self,
        root: &Formula,
        others: &Formula,
        bindings: &Bindings,
        trees: &[Row<'a>],
    ) -> Result<bool, OutOfMemory>
        requires root { IsReady (bound_in bindings.now) (store_of self.now.store.now)
            (formula_of root.now) }
        requires others { IsReady (bound_in bindings.now) (store_of self.now.store.now)
            (formula_of others.now) }
        requires shown { (f : Trees) × Shows self.now.rows.now trees.now f }
        ensures { TellsRoot self.now.rows.now (store_of self.now.store.now) bindings.now
            (formula_of root.now) (formula_of others.now) trees.now result }
    {
        // all but the one at a place, once one of them meets the first formula
        let mut rest = Vec::new(self.alloc);
        let mut gone = 0;
        for place in 0..trees.len() {
            let one = &trees[place..place + 1];
            if self.judges(root, bindings, one)? {
                leave_out(trees, gone, place, &mut rest)?;
                gone = place;
                if self.judges(others, bindings, &rest)? {
                    return Ok(true);
                }
            }
        }
        Ok(false)
    }

    // whether the terms are the name, the number and the list number of the node
    fn is_called(
        &self,
        row: &Row,
        name: &Term,
        number: &Term,
        list: &Term,
        bindings: &Bindings,
    ) -> Result<bool, OutOfMemory>
        requires name { IsTold (bound_in bindings.now) (store_of self.now.store.now)
            (term_of name.now) }
        requires number { IsTold (bound_in bindings.now) (store_of self.now.store.now)
            (term_of number.now) }
        requires list { IsTold (bound_in bindings.now) (store_of self.now.store.now)
            (term_of list.now) }
        ensures { let e = environment bindings.now (store_of self.now.store.now) in
            IfOk result (λ yes. yes
            ≡ (same_thing (val (str row.now.name.now)) (meaning_of e (term_of name.now))
            && (same_thing (val (node_number row.now.number)) (meaning_of e (term_of number.now))
            && same_thing (val (list_number row.now.list)) (meaning_of e (term_of list.now))))) }
    {
        let called = self.value(name, bindings)?;
        if !is_text(row.name, &called) {
            return Ok(false);
        }
        let numbered = self.value(number, bindings)?;
        if !same_value(&Value::Node(row.number), &numbered) {
            return Ok(false);
        }
        let listed = self.value(list, bindings)?;
        Ok(same_value(&Value::List(row.list), &listed))
    }

    // whether the terms stand for the same
    fn are_equal(&self, left: &Term, right: &Term, bindings: &Bindings) -> Result<bool, OutOfMemory>
        requires left { IsTold (bound_in bindings.now) (store_of self.now.store.now)
            (term_of left.now) }
        requires right { IsTold (bound_in bindings.now) (store_of self.now.store.now)
            (term_of right.now) }
        ensures { let e = environment bindings.now (store_of self.now.store.now) in
            IfOk result (λ yes. yes ≡ same_thing (meaning_of e (term_of left.now))
            (meaning_of e (term_of right.now))) }
    {
        let left = self.value(left, bindings)?;
        let right = self.value(right, bindings)?;
        Ok(same_value(&left, &right))
    }

    // whether the first stands for no greater integer than the second
    fn is_at_most(
        &self,
        left: &Term,
        right: &Term,
        bindings: &Bindings,
    ) -> Result<bool, OutOfMemory>
        requires left { IsTold (bound_in bindings.now) (store_of self.now.store.now)
            (term_of left.now) }
        requires right { IsTold (bound_in bindings.now) (store_of self.now.store.now)
            (term_of right.now) }
        ensures { let e = environment bindings.now (store_of self.now.store.now) in
            IfOk result (λ yes. yes ≡ int_le (number_of (meaning_of e (term_of left.now)))
            (number_of (meaning_of e (term_of right.now)))) }
    {
        let left = self.value(left, bindings)?;
        let right = self.value(right, bindings)?;
        Ok(integer(&left) <= integer(&right))
    }

    // whether the term stands for the length
    fn is_length(
        &self,
        term: &Term,
        bindings: &Bindings,
        length: usize,
    ) -> Result<bool, OutOfMemory>
        requires { IsTold (bound_in bindings.now) (store_of self.now.store.now)
            (term_of term.now) }
        ensures { let e = environment bindings.now (store_of self.now.store.now) in
            IfOk result (λ yes. yes ≡ same_thing (val (int (pos length)))
            (meaning_of e (term_of term.now))) }
    {
        let value = self.value(term, bindings)?;
        Ok(is_count(&value, length))
    }

    // the value that the term stands for
    fn value(&self, term: &Term, bindings: &Bindings) -> Result<Value, OutOfMemory>
        requires { IsTold (bound_in bindings.now) (store_of self.now.store.now)
            (term_of term.now) }
        ensures { IfOk result (λ value. val (value_seen value)
            ≡ meaning_of (environment bindings.now (store_of self.now.store.now))
            (term_of term.now)) }
    {
        match term {
            Term::Logic(variable) => bindings.value(self.alloc, variable),
            _ => match eval(self.alloc, term, self.store) {
                Ok(value) => Ok(value),
                Err(EvalFault::OutOfMemory) => Err(OutOfMemory),
                Err(EvalFault::NumberRange | EvalFault::TextLimit) => unreachable!(),
            },
        }
    }
}

// makes of all siblings but one, or of none, those but the one at the place
fn leave_out<'a>(
    trees: &[Row<'a>],
    gone: usize,
    place: usize,
    rest: &mut Vec<Row<'a>>,
) -> Result<(), OutOfMemory>
    requires order { gone ≤ place }
    requires there { place < length trees.now }
    requires rest { IsRest trees.now gone rest.old.items }
    ensures { OnOk result (rest.new.items ≡ others_at trees.now place) }
{
    if rest.is_empty() {
        rest.extend_from_slice(&trees[..place])?;
        rest.extend_from_slice(&trees[place + 1..])?;
        return Ok(());
    }
    for at in gone..place {
        rest[at] = trees[at];
    }
    Ok(())
}

// whether the value is the text
fn is_text(text: &Text, value: &Value) -> bool
    ensures { result ≡ tests.same_value (str text.now) (value_seen value.now) }
{
    match value {
        Value::Str(other) => same_text(text, other),
        _ => false,
    }
}

// the integer that the value is, or 0 where it is none
fn integer(value: &Value) -> i64
    ensures { result ≡ number_of (val (value_seen value.now)) }
{
    match value {
        Value::Int(number) => *number,
        _ => 0,
    }
}

// whether the value is the count
fn is_count(value: &Value, count: usize) -> bool
    ensures { result ≡ tests.same_value (int (pos count)) (value_seen value.now) }
{
    match value {
        Value::Int(number) => 0 <= *number && *number as usize == count,
        _ => false,
    }
}
