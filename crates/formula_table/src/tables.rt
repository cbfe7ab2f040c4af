// Tables of formulas.
ghost use Rattle.std.specs.Prelude.{◌≡◌, ◌<◌, ◌≤◌, ◌↔◌, [], ◌∷◌, length, IsTrue, bytes_eq};
ghost use Rattle.std.specs.Prelude.{IfOk, IfSome};
ghost use Rattle.std.specs.Bool.{OnTrue};
ghost use Rattle.model_shapes.specs.Values.{null};
ghost use Rattle.model_terms.specs.Terms.{Term, literal};
ghost use Rattle.model_formulas.specs.Formulas.{Formula, truth};
ghost use Rattle.model_formulas.specs.SameFormulas as tests;
ghost use Rattle.formula_table.specs.Heads.{build, parts_used};
ghost use Rattle.formula_table.specs.OverNames.{named_term};
ghost use Rattle.formula_table.specs.Rows.{bound_sort, read_term, TermWithin, FormWithin};
ghost use Rattle.formula_table.specs.Tables.{HasRows};
ghost use Rattle.formula_table.specs.OneProof.{rows-prop};

use crate::copying::{copy_names, copy_rows};
use crate::faults::TableFault;
use crate::heads::Head;
use crate::over_names::Named;
use crate::recent::Recent;
use crate::rows::{FormRow, TermRow};
use crate::same_names::{same_name, sum_of_name};
use crate::sets;
use dom_terms::OutOfMemory;
use indexmap::IndexSet;
use std::alloc::Global;

// How many formulas a table has at most, where nothing else is said.
const MOST: u32 = 4_000_000;

/// The number of a formula of a table.
#[derive(Clone, Copy, Debug, PartialEq, Eq)]
pub struct FormulaId {
    /// The place of the formula's row.
    pub place: u32,
}

/// Nameless formulas, each there once, and how many there may be. A number that the table doesn't
/// have stands for `true`, among terms for `null`, and among names for the empty one.
#[derive(Drop)]
pub struct Table {
    names: IndexSet<String>,
    terms: IndexSet<TermRow>,
    forms: IndexSet<FormRow>,
    most: u32,
    // where terms over names, other terms and formulas were found last
    recent_named: Recent,
    recent_terms: Recent,
    recent_forms: Recent,
    ghost whole: { HasRows names.keys terms.keys forms.keys } by { rows-prop _ _ _ },
    ghost few: { length forms.keys ≤ most },
}

impl Table {
    ghost use Rattle.formula_table.specs.Forms.{names_at, terms_at, forms_at, name_at, term_at, form_at};
    ghost use Rattle.formula_table.specs.Interning.{IsName, IsTerm, IsRow, TermsGrow, Ends};

    /// The table with no formula, and room for as many as a proof may speak of. It takes memory
    /// only when it grows.
    pub fn new(alloc: Global) -> Table
        ensures forms { forms_at result ≡ [] }
        ensures most { result.most ≡ 4000000 }
    {
        Table::with_most(alloc, MOST)
    }

    /// The table with no formula, and so many at most.
    #[tactic(auto, unfolding(crate::specs::Forms::forms_at))]
    pub fn with_most(alloc: Global, most: u32) -> Table
        ensures forms { forms_at result ≡ [] }
        ensures most { result.most ≡ most }
    {
        Table {
            names: IndexSet::new(alloc),
            terms: IndexSet::new(alloc),
            forms: IndexSet::new(alloc),
            most,
            recent_named: Recent::new(),
            recent_terms: Recent::new(),
            recent_forms: Recent::new(),
        }
    }

    /// An equal table, on memory of its own: each number stands for the same in both.
    pub fn copy(&self, alloc: Global) -> Result<Table, OutOfMemory>
        ensures { IfOk result (λ t. (names_at t ≡ names_at self.now)
            × (terms_at t ≡ terms_at self.now) × (forms_at t ≡ forms_at self.now)
            × (t.most ≡ self.now.most)) }
    {
        Ok(Table {
            names: copy_names(alloc, &self.names)?,
            terms: copy_rows(alloc, &self.terms)?,
            forms: copy_rows(alloc, &self.forms)?,
            most: self.most,
            recent_named: Recent::new(),
            recent_terms: Recent::new(),
            recent_forms: Recent::new(),
        })
    }

    /// How many formulas there are.
    pub fn len(&self) -> usize
        ensures { result ≡ length (forms_at self.now) }
    {
        self.forms.len()
    }

    /// The row of a number: what the number stands for is that of the row, whose parts have
    /// smaller numbers.
    pub fn form(&self, number: u32) -> FormRow
        ensures row { form_at self.now number ≡ build bound_sort result.head
            (term_at self.now result.first) (term_at self.now result.second)
            (term_at self.now result.third) (form_at self.now result.left)
            (form_at self.now result.right) }
        ensures left { 0 < parts_used result.head → result.left < number }
        ensures right { 1 < parts_used result.head → result.right < number }
    {
        match self.forms.get_index(number as usize) {
            Some(row) => *row,
            None => FormRow::of(Head::True),
        }
    }

    /// The row of the number of a term: the same.
    pub fn term(&self, number: u32) -> TermRow
        ensures row { term_at self.now number
            ≡ read_term (names_at self.now) (terms_at self.now) result }
        ensures smaller { TermWithin (length (names_at self.now)) number result }
    {
        match self.terms.get_index(number as usize) {
            Some(row) => *row,
            None => TermRow::NullNode,
        }
    }

    /// Whether the numbers stand for one formula.
    pub fn same(&self, a: FormulaId, b: FormulaId) -> bool
        ensures { IsTrue result ↔ (form_at self.now a.place ≡ form_at self.now b.place) }
    {
        self.same_forms(a.place, b.place)
    }

    /// Whether the numbers stand for one formula.
    pub fn same_forms(&self, a: u32, b: u32) -> bool
        ensures { result ≡ tests.same_formula (form_at self.now a) (form_at self.now b) }
    {
        a == b || (self.is_truth(a) && self.is_truth(b))
    }

    /// Whether the numbers stand for one term.
    pub fn same_terms(&self, a: u32, b: u32) -> bool
        ensures { result ≡ tests.same_term (term_at self.now a) (term_at self.now b) }
    {
        a == b || (self.is_null(a) && self.is_null(b))
    }

    /// Whether the numbers stand for one name.
    pub fn same_names(&self, a: u32, b: u32) -> bool
        ensures { result ≡ bytes_eq (name_at self.now a) (name_at self.now b) }
    {
        a == b || (self.is_nameless(a) && self.is_nameless(b))
    }

    // the number, where it is that of the term over the name
    #[inline(always)]
    fn named_at(&self, name: &str, kind: Named, number: u32) -> Option<u32>
        ensures { IfSome result
            (λ number. IsTerm self.now number (named_term kind name.now)) }
    {
        if let Some(known) = kind.name_in(*self.terms.get_index(number as usize)?) {
            if self.has_name(known, name) {
                return Some(number);
            }
        }
        None
    }

    // whether the number is that of the name
    #[inline(always)]
    fn has_name(&self, number: u32, name: &str) -> bool
        ensures { OnTrue result (name_at self.now number ≡ name.now) }
    {
        match self.names.get_index(number as usize) {
            Some(known) => same_name(known.as_str(), name),
            None => false,
        }
    }

    // the number of the name, which is added where it isn't there
    fn add_name(&mut self, name: &str) -> Result<u32, OutOfMemory>
        ensures grows { TermsGrow self.old self.new }
        ensures ok { IfOk result (λ number. IsName self.new number name.now) }
    {
        sets::add_name(&mut self.names, name)
    }

    /// The number of the term over the name, which is added where it isn't there. It is sought
    /// first where one with such a name was found last, and after the one found last.
    #[inline(always)]
    pub(crate) fn add_named(&mut self, name: &str, kind: Named) -> Result<u32, OutOfMemory>
        ensures grows { TermsGrow self.old self.new }
        ensures ok { IfOk result (λ number. IsTerm self.new number (named_term kind name.now)) }
    {
        let sum = sum_of_name(name);
        let (guess, next) = (self.recent_named.guess(sum), self.recent_named.next());
        let number = self.find_named(name, kind, guess, next)?;
        self.recent_named.note(sum, number);
        Ok(number)
    }

    // the same, sought at both places first
    #[inline(always)]
    fn find_named(
        &mut self,
        name: &str,
        kind: Named,
        guess: u32,
        next: u32,
    ) -> Result<u32, OutOfMemory>
        ensures grows { TermsGrow self.old self.new }
        ensures ok { IfOk result (λ number. IsTerm self.new number (named_term kind name.now)) }
    {
        if let Some(number) = self.named_at(name, kind, guess) {
            return Ok(number);
        }
        match self.named_at(name, kind, next) {
            Some(number) => Ok(number),
            None => self.insert_named(name, kind),
        }
    }

    // the same, by hashes
    #[inline(never)]
    fn insert_named(&mut self, name: &str, kind: Named) -> Result<u32, OutOfMemory>
        ensures grows { TermsGrow self.old self.new }
        ensures ok { IfOk result (λ number. IsTerm self.new number (named_term kind name.now)) }
    {
        let name = self.add_name(name)?;
        let number = self.add_term(kind.row(name))?;
        Ok(number)
    }

    /// The number of the term of a row, whose parts are in the table: the same.
    #[inline(always)]
    pub(crate) fn add_term(&mut self, row: TermRow) -> Result<u32, OutOfMemory>
        requires { TermWithin (length (names_at self.old)) (length (terms_at self.old)) row }
        ensures grows { TermsGrow self.old self.new }
        ensures ok { IfOk result (λ number. IsTerm self.new number
            (read_term (names_at self.old) (terms_at self.old) row)) }
    {
        sets::add_term(&mut self.terms, &mut self.recent_terms, row)
    }

    /// The number of the formula of a row, whose parts are in the table: the same, where there is
    /// room.
    #[inline(always)]
    pub(crate) fn add_form(&mut self, row: FormRow) -> Result<u32, TableFault>
        requires { FormWithin (length (terms_at self.old)) (length (forms_at self.old)) row }
        ensures { (a b c : Term) (p q : Formula) → IsRow self.old row a b c p q
            → Ends self.old self.new (build bound_sort row.head a b c p q ∷ [])
            (build bound_sort row.head a b c p q) result }
    {
        sets::add_form(&mut self.forms, &mut self.recent_forms, row, self.most)
    }

    // whether the number stands for `true`
    fn is_truth(&self, number: u32) -> bool
        ensures { result ≡ tests.same_formula (form_at self.now number) truth }
    {
        self.form(number).head == Head::True
    }

    // whether the number stands for `null`
    fn is_null(&self, number: u32) -> bool
        ensures { result ≡ tests.same_term (term_at self.now number) (literal null) }
    {
        self.term(number) == TermRow::NullNode
    }

    // whether the number stands for the empty name
    fn is_nameless(&self, number: u32) -> bool
        ensures { result ≡ bytes_eq (name_at self.now number) [] }
    {
        match self.names.get_index(number as usize) {
            Some(name) => name.as_str().is_empty(),
            None => true,
        }
    }
}
