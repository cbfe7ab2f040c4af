// The numbers of terms, which are added to a table where they aren't there.
ghost use Rattle.std.specs.Prelude.{◌≡◌, ◌-◌, ◌≤◌, ℕ, IfOk};
ghost use Rattle.model_terms.specs.Variables.{bound};
ghost use Rattle.model_terms.specs.Terms.{variable, term_with};
ghost use Rattle.model_formulas.specs.Nameless.{names, naming};
ghost use Rattle.dom_terms.specs.Sorts.{sort_of};
ghost use Rattle.dom_terms.specs.Terms.{logic_var_of, term_of};
ghost use Rattle.formula_syntax.specs.Binders.{bound_by};
ghost use Rattle.formula_table.specs.declared.interning_terms.Binding.TheVariants as b;

use crate::over_names::Named;
use crate::rows::TermRow;
use crate::same_names::same_variable;
use crate::tables::Table;
use dom_terms::{LogicVar, OutOfMemory, Term};
use formula_syntax::Binders;

// Where the binder of a variable stands.
enum Binding {
    // There is none.
    Free,
    // It is after so many others.
    Bound(u32),
    // It is after more than can be counted.
    Far,
}

// where the binder stands, after those that were passed
#[tactic(auto, using(crate::proofs::Named::name_rules))]
fn binding_of(variable: &LogicVar, over: &Binders, passed: u32) -> Binding
    ensures free { result ≡ b.Free
        → names (bound_by over.now) (logic_var_of variable.now) ≡ logic_var_of variable.now }
    ensures bound { (i : ℕ) → result ≡ b.Bound i → (passed ≤ i)
        × (names (bound_by over.now) (logic_var_of variable.now)
        ≡ bound (i - passed) (sort_of variable.now.sort)) }
{
    match over {
        Binders::Empty => Binding::Free,
        Binders::More(nearest, outer) => {
            if same_variable(variable, nearest) {
                return Binding::Bound(passed);
            }
            match passed.checked_add(1) {
                Some(passed) => binding_of(variable, outer, passed),
                None => Binding::Far,
            }
        }
    }
}

impl Table {
    ghost use Rattle.formula_table.specs.Interning.{IsTerm, TermsGrow};

    /// The number of the term, which stands below no binder: the one that it has, or a new one.
    #[tactic(auto, using(crate::proofs::Named::term_rules))]
    pub fn intern_term(&mut self, term: &Term) -> Result<u32, OutOfMemory>
        ensures grows { TermsGrow self.old self.new }
        ensures ok { IfOk result (λ number. IsTerm self.new number (term_of term.now)) }
    {
        self.term_below(term, &Binders::Empty)
    }

    /// The number of the term below the binders.
    #[cycle(term_below)]
    #[tactic(auto, using(crate::proofs::KeptNumbers::growing_rules))]
    pub(crate) fn term_below(&mut self, term: &Term, over: &Binders) -> Result<u32, OutOfMemory>
        ensures grows { TermsGrow self.old self.new }
        ensures ok { IfOk result (λ number. IsTerm self.new number
            (term_with (naming (bound_by over.now)) (term_of term.now))) }
    {
        match term {
            Term::NullNode => self.add_term(TermRow::NullNode),
            Term::NullList => self.add_term(TermRow::NullList),
            Term::Int(number) => self.add_term(TermRow::Int(*number)),
            Term::Bool(truth) => self.add_term(TermRow::Bool(*truth)),
            Term::Str(text) => self.add_named(text.as_str(), Named::Str),
            Term::Prog(variable) => {
                self.add_named(variable.name.as_str(), Named::Prog(variable.sort))
            }
            Term::Logic(variable) => self.variable_below(variable, over),
            Term::Add(left, right) => {
                let (left, right) = self.terms_below(left, right, over)?;
                self.add_term(TermRow::Add(left, right))
            }
            Term::Sub(left, right) => {
                let (left, right) = self.terms_below(left, right, over)?;
                self.add_term(TermRow::Sub(left, right))
            }
            Term::Cat(left, right) => {
                let (left, right) = self.terms_below(left, right, over)?;
                self.add_term(TermRow::Cat(left, right))
            }
        }
    }

    /// The number of the variable below the binders.
    #[inline(always)]
    pub(crate) fn variable_below(
        &mut self,
        var: &LogicVar,
        over: &Binders,
    ) -> Result<u32, OutOfMemory>
        ensures grows { TermsGrow self.old self.new }
        ensures ok { IfOk result (λ number. IsTerm self.new number
            (variable (names (bound_by over.now) (logic_var_of var.now)))) }
    {
        match binding_of(var, over, 0) {
            Binding::Free => self.add_named(var.name.as_str(), Named::Logic(var.sort)),
            Binding::Bound(place) => self.add_term(TermRow::Bound(place, var.sort)),
            Binding::Far => Err(OutOfMemory),
        }
    }

    /// The numbers of both terms below the binders.
    #[cycle(term_below)]
    #[tactic(auto, using(crate::proofs::KeptNumbers::growing_rules))]
    pub(crate) fn terms_below(
        &mut self,
        left: &Term,
        right: &Term,
        over: &Binders,
    ) -> Result<(u32, u32), OutOfMemory>
        ensures grows { TermsGrow self.old self.new }
        ensures left { IfOk result (λ numbers. IsTerm self.new numbers.0
            (term_with (naming (bound_by over.now)) (term_of left.now))) }
        ensures right { IfOk result (λ numbers. IsTerm self.new numbers.1
            (term_with (naming (bound_by over.now)) (term_of right.now))) }
    {
        let left = self.term_below(left, over)?;
        let right = self.term_below(right, over)?;
        Ok((left, right))
    }
}
