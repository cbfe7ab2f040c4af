// What is declared at a place, and the sorts of names there.
ghost use Rattle.std.specs.Prelude.{◌≡◌, map, is_some, unwrap_or};
ghost use Rattle.model_terms.specs.Variables.{prog, logic};
ghost use Rattle.model_grammar.specs.Sorts.{sort_among, logic_sort_among};
ghost use Rattle.dom_terms.specs.Sorts.{value_sort_of, sort_of};
ghost use Rattle.dom_terms.specs.Terms.{prog_var_of, logic_var_of, var_of};
ghost use Rattle.dom_terms.specs.declared.sorts.Sort.TheVariants.{Value};
ghost use Rattle.dom_terms.specs.declared.sorts.ValueSort.TheVariants.{Node};
ghost use Rattle.declared_sorts.specs.Settled.{is_settled};

use crate::names::Names;
use dom_terms::{LogicVar, ProgVar, Sort, ValueSort, same_value_sort};

/// What is declared at a place, with the tables of its names.
#[derive(Clone, Copy)]
pub struct Declared<'a> {
    /// The program variables of the procedure.
    pub variables: &'a [ProgVar],
    /// Their names.
    pub variable_names: &'a Names<'a, ValueSort>,
    /// The logic variables of the file.
    pub logics: &'a [LogicVar],
    /// Their names.
    pub logic_names: &'a Names<'a, Sort>,
}

impl<'a> Declared<'a> {
    ghost use Rattle.declared_sorts.specs.Declarations.{scope_in};
    ghost use Rattle.declared_sorts.specs.Known.{Knows};
    ghost use Rattle.declared_sorts.specs.Names.{of_variable, of_logic, Tells};

    /// These variables, with the tables of their names.
    pub fn new(
        variables: &'a [ProgVar],
        variable_names: &'a Names<'a, ValueSort>,
        logics: &'a [LogicVar],
        logic_names: &'a Names<'a, Sort>,
    ) -> Declared<'a>
        requires variables { Tells variable_names.now (map of_variable variables.now) }
        requires logics { Tells logic_names.now (map of_logic logics.now) }
        ensures known { Knows result }
        ensures variables { result.variables.now ≡ variables.now }
        ensures logics { result.logics.now ≡ logics.now }
    {
        Declared {
            variables,
            variable_names,
            logics,
            logic_names,
        }
    }

    /// The sort of the first of the program variables that has the name, where one has it.
    #[tactic(auto, using(crate::proofs::ScopeLaws::prog_rules))]
    pub fn sort_named(&self, name: &str) -> Option<ValueSort>
        requires { Knows self.now }
        ensures sort { value_sort_of (unwrap_or result Node)
            ≡ sort_among (map prog_var_of self.now.variables.now) name.now }
        ensures settled { is_some result ≡ is_settled (scope_in self.now)
            (prog name.now (value_sort_of (unwrap_or result Node))) }
    {
        self.variable_names.get(name)
    }

    /// The sort of the first of the logic variables that has the name, where one has it.
    #[tactic(auto, using(crate::proofs::ScopeLaws::logic_rules))]
    pub fn logic_sort_named(&self, name: &str) -> Option<Sort>
        requires { Knows self.now }
        ensures sort { sort_of (unwrap_or result (Value Node))
            ≡ logic_sort_among (map logic_var_of self.now.logics.now) name.now }
        ensures settled { is_some result ≡ is_settled (scope_in self.now)
            (logic name.now (sort_of (unwrap_or result (Value Node)))) }
    {
        self.logic_names.get(name)
    }

    /// Whether the first of the program variables that has the variable's name has its sort too.
    pub fn declares(&self, variable: &ProgVar) -> bool
        requires { Knows self.now }
        ensures { result ≡ is_settled (scope_in self.now) (var_of variable.now) }
    {
        match self.variable_names.get(variable.name.as_str()) {
            Some(sort) => same_value_sort(sort, variable.sort),
            None => false,
        }
    }
}
