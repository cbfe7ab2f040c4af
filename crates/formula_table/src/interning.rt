// The numbers of formulas, which are added to a table, part by part, where they aren't there.
ghost use Rattle.std.specs.Prelude.{◌≡◌, ◌<◌, [], ◌∷◌, ◌++◌, true, false, length, IfOk, OnOk, Err};
ghost use Rattle.model_terms.specs.Terms.{variable, term_with};
ghost use Rattle.model_formulas.specs.Formulas as model;
ghost use Rattle.model_formulas.specs.Nameless.{nameless, names, naming, walked};
ghost use Rattle.dom_terms.specs.Terms.{logic_var_of, term_of};
ghost use Rattle.dom_terms.specs.Sorts.{sort_of};
ghost use Rattle.formula_syntax.specs.Binders.{bound_by};
ghost use Rattle.formula_syntax.specs.Formulas.{formula_of};
ghost use Rattle.formula_table.specs.Heads.{terms_used, parts_used};
ghost use Rattle.formula_table.specs.declared.faults.TableFault.TheVariants as t;

use crate::faults::TableFault;
use crate::heads::Head;
use crate::rows::FormRow;
use crate::tables::{FormulaId, Table};
use dom_terms::{LogicVar, Term};
use formula_syntax::{Binders, Formula};

impl Table {
    ghost use Rattle.formula_table.specs.Forms.{terms_at, forms_at, term_at};
    ghost use Rattle.formula_table.specs.Interning.{parts_up, Fills};
    ghost use Rattle.formula_table.specs.Interning.{KeepsAll, StandsFor, Ends};
    ghost use Rattle.formula_table.specs.Interning.{leaf, joining, above, about, comparing};

    /// The number of the formula: the one that it has, or a new one, which it gets after its
    /// parts. Where there is no room for a part that is new, those before it stay.
    pub fn intern(&mut self, formula: &Formula) -> Result<FormulaId, TableFault>
        ensures keeps { KeepsAll self.old self.new }
        ensures stands { IfOk result (λ id. StandsFor self.new id.place
            (nameless (formula_of formula.now))) }
        ensures ok { OnOk result (Fills self.old self.new
            (parts_up (nameless (formula_of formula.now))) false) }
        ensures full { result ≡ Err t.Full → Fills self.old self.new
            (parts_up (nameless (formula_of formula.now))) true }
        ensures no_room { result ≡ Err t.Full → length (forms_at self.new) ≡ self.new.most }
    {
        let place = self.formula_below(formula, &Binders::Empty)?;
        Ok(FormulaId { place })
    }

    // the number of the formula below the binders
    #[cycle(formula_below)]
    fn formula_below(&mut self, formula: &Formula, over: &Binders) -> Result<u32, TableFault>
        ensures { Ends self.old self.new
            (parts_up (walked (bound_by over.now) (formula_of formula.now)))
            (walked (bound_by over.now) (formula_of formula.now)) result }
    {
        match formula {
            Formula::True => self.leaf(Head::True),
            Formula::False => self.leaf(Head::False),
            Formula::EmptyForest => self.leaf(Head::EmptyForest),
            Formula::EmptyGrove => self.leaf(Head::EmptyGrove),
            Formula::Hole(sort) => self.leaf(Head::Hole(*sort)),
            Formula::And(p, q) => self.joining(Head::And, p, q, over),
            Formula::Or(p, q) => self.joining(Head::Or, p, q, over),
            Formula::Imp(p, q) => self.joining(Head::Imp, p, q, over),
            Formula::Join(side, p, q) => self.joining(Head::Join(*side), p, q, over),
            Formula::Plus(p, q) => self.joining(Head::Plus, p, q, over),
            Formula::PlusHole(p, q) => self.joining(Head::PlusHole, p, q, over),
            Formula::App(sort, p, q) => self.joining(Head::App(*sort), p, q, over),
            Formula::HoleAdj(p, q) => self.joining(Head::HoleAdj, p, q, over),
            Formula::CtxAdj(sort, p, q) => self.joining(Head::CtxAdj(*sort), p, q, over),
            Formula::Not(p) => self.above(Head::Not, p, over),
            Formula::One(p) => self.above(Head::One, p, over),
            Formula::Root(p) => self.above(Head::Root, p, over),
            Formula::Exists(x, p) => {
                self.above(Head::Exists(x.sort), p, &Binders::More(&*x, &*over))
            }
            Formula::Forall(x, p) => {
                self.above(Head::Forall(x.sort), p, &Binders::More(&*x, &*over))
            }
            Formula::Eq(left, right) => self.comparing(Head::Eq, left, right, over),
            Formula::Le(left, right) => self.comparing(Head::Le, left, right, over),
            Formula::Node(name, number, p, list) => self.node(name, number, p, list, over),
            Formula::Var(x) => self.same_as(x, over),
            Formula::Len(term) => self.length_is(term, over),
            Formula::Is(x, p) => self.meeting(x, p, over),
        }
    }

    // the number of a formula with no term and no part
    fn leaf(&mut self, head: Head) -> Result<u32, TableFault>
        requires terms { terms_used head ≡ 0 }
        requires parts { parts_used head ≡ 0 }
        ensures { Ends self.old self.new (leaf head ∷ []) (leaf head) result }
    {
        self.add_form(FormRow::of(head))
    }

    // the number of a formula with two parts
    #[cycle(formula_below)]
    fn joining(
        &mut self,
        head: Head,
        left: &Formula,
        right: &Formula,
        over: &Binders,
    ) -> Result<u32, TableFault>
        requires terms { terms_used head ≡ 0 }
        requires parts { parts_used head ≡ 2 }
        ensures { Ends self.old self.new
            (parts_up (walked (bound_by over.now) (formula_of left.now))
            ++ (parts_up (walked (bound_by over.now) (formula_of right.now))
            ++ joining head (walked (bound_by over.now) (formula_of left.now))
            (walked (bound_by over.now) (formula_of right.now)) ∷ []))
            (joining head (walked (bound_by over.now) (formula_of left.now))
            (walked (bound_by over.now) (formula_of right.now))) result }
    {
        let left = self.formula_below(left, over)?;
        let right = self.formula_below(right, over)?;
        self.add_form(FormRow {
            head,
            first: 0,
            second: 0,
            third: 0,
            left,
            right,
        })
    }

    // the number of a formula with one part and no term
    #[cycle(formula_below)]
    fn above(&mut self, head: Head, part: &Formula, over: &Binders) -> Result<u32, TableFault>
        requires terms { terms_used head ≡ 0 }
        requires parts { parts_used head ≡ 1 }
        ensures { Ends self.old self.new
            (parts_up (walked (bound_by over.now) (formula_of part.now))
            ++ above head (walked (bound_by over.now) (formula_of part.now)) ∷ [])
            (above head (walked (bound_by over.now) (formula_of part.now))) result }
    {
        let left = self.formula_below(part, over)?;
        self.add_form(FormRow {
            head,
            first: 0,
            second: 0,
            third: 0,
            left,
            right: 0,
        })
    }

    // the number of a comparison of two terms
    fn comparing(
        &mut self,
        head: Head,
        left: &Term,
        right: &Term,
        over: &Binders,
    ) -> Result<u32, TableFault>
        requires terms { terms_used head ≡ 2 }
        requires parts { parts_used head ≡ 0 }
        ensures { Ends self.old self.new
            (comparing head (term_with (naming (bound_by over.now)) (term_of left.now))
            (term_with (naming (bound_by over.now)) (term_of right.now)) ∷ [])
            (comparing head (term_with (naming (bound_by over.now)) (term_of left.now))
            (term_with (naming (bound_by over.now)) (term_of right.now))) result }
    {
        let (first, second) = self.terms_below(left, right, over)?;
        self.add_form(FormRow {
            head,
            first,
            second,
            third: 0,
            left: 0,
            right: 0,
        })
    }

    // the number of a formula about one term, which has this number
    fn about(&mut self, head: Head, first: u32) -> Result<u32, TableFault>
        requires terms { terms_used head ≡ 1 }
        requires parts { parts_used head ≡ 0 }
        requires there { first < length (terms_at self.old) }
        ensures { Ends self.old self.new (about head (term_at self.old first) ∷ [])
            (about head (term_at self.old first)) result }
    {
        self.add_form(FormRow {
            head,
            first,
            second: 0,
            third: 0,
            left: 0,
            right: 0,
        })
    }

    // the number of what is the same as the variable
    fn same_as(&mut self, var: &LogicVar, over: &Binders) -> Result<u32, TableFault>
        ensures { Ends self.old self.new
            (model.same_as (variable (names (bound_by over.now) (logic_var_of var.now))) ∷ [])
            (model.same_as (variable (names (bound_by over.now) (logic_var_of var.now)))) result }
    {
        let first = self.variable_below(var, over)?;
        self.about(Head::Var, first)
    }

    // the number of what has the length
    fn length_is(&mut self, length: &Term, over: &Binders) -> Result<u32, TableFault>
        ensures { Ends self.old self.new
            (model.length_is (term_with (naming (bound_by over.now)) (term_of length.now)) ∷ [])
            (model.length_is (term_with (naming (bound_by over.now)) (term_of length.now))) result }
    {
        let first = self.term_below(length, over)?;
        self.about(Head::Len, first)
    }

    // the number of what the value of the variable meets
    #[cycle(formula_below)]
    fn meeting(&mut self, var: &LogicVar, part: &Formula, over: &Binders) -> Result<u32, TableFault>
        ensures { Ends self.old self.new
            (parts_up (walked (bound_by over.now) (formula_of part.now))
            ++ model.value_meets (sort_of var.now.sort)
            (variable (names (bound_by over.now) (logic_var_of var.now)))
            (walked (bound_by over.now) (formula_of part.now)) ∷ [])
            (model.value_meets (sort_of var.now.sort)
            (variable (names (bound_by over.now) (logic_var_of var.now)))
            (walked (bound_by over.now) (formula_of part.now))) result }
    {
        let left = self.formula_below(part, over)?;
        let first = self.variable_below(var, over)?;
        self.add_form(FormRow {
            head: Head::Is(var.sort),
            first,
            second: 0,
            third: 0,
            left,
            right: 0,
        })
    }

    // the number of a node
    #[cycle(formula_below)]
    fn node(
        &mut self,
        name: &Term,
        number: &Term,
        part: &Formula,
        list: &Term,
        over: &Binders,
    ) -> Result<u32, TableFault>
        ensures { Ends self.old self.new
            (parts_up (walked (bound_by over.now) (formula_of part.now))
            ++ model.node_formula (term_with (naming (bound_by over.now)) (term_of name.now))
            (term_with (naming (bound_by over.now)) (term_of number.now))
            (walked (bound_by over.now) (formula_of part.now))
            (term_with (naming (bound_by over.now)) (term_of list.now)) ∷ [])
            (model.node_formula (term_with (naming (bound_by over.now)) (term_of name.now))
            (term_with (naming (bound_by over.now)) (term_of number.now))
            (walked (bound_by over.now) (formula_of part.now))
            (term_with (naming (bound_by over.now)) (term_of list.now))) result }
    {
        let left = self.formula_below(part, over)?;
        let (first, second) = self.terms_below(name, number, over)?;
        let third = self.term_below(list, over)?;
        self.add_form(FormRow {
            head: Head::Node,
            first,
            second,
            third,
            left,
            right: 0,
        })
    }
}
