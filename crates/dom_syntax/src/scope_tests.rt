// Tests of variables against the names that may be used: known, declared with their sorts, and some
// of the parameters or results.
ghost use Rattle.std.specs.Prelude.{◌++◌};
ghost use Rattle.model_terms.specs.Variables.{Var};
ghost use Rattle.model_files.specs.FileFaults.{is_known};
ghost use Rattle.dom_syntax.specs.Scopes.{IsScope, names_in};
ghost use Rattle.dom_syntax.specs.ScopeTests.{allowed_in, may_be_declared, may_stand};

use crate::scopes::Scope;
use crate::variable_tests::VariableTest;
use dom_terms::{LogicVar, ProgVar, same_sort, same_value_sort};

/// Whether the name of the variable is declared.
#[derive(Drop)]
pub(crate) struct Known<'a>(pub(crate) &'a Scope<'a>);

impl<'a> VariableTest for Known<'a> {
    ghost ready = { λ known. IsScope known.0.now };

    ghost test = { λ known x. is_known (names_in known.0.now) x };

    #[tactic(auto, using(crate::proofs::ScopeTestLaws::known_rules))]
    fn takes_prog(&self, variable: &ProgVar) -> bool {
        self.0.variables.get(variable.name.as_str()).is_some()
    }

    #[tactic(auto, using(crate::proofs::ScopeTestLaws::known_rules))]
    fn takes_logic(&self, variable: &LogicVar) -> bool {
        self.0.names.logic.get(variable.name.as_str()).is_some()
    }
}

/// Whether the variable has the sort with which its name is declared first, where it is declared.
/// One that isn't passes only where it may.
#[derive(Drop)]
pub(crate) struct AsDeclared<'a> {
    pub(crate) scope: &'a Scope<'a>,
    pub(crate) takes_unknown: bool,
}

impl<'a> VariableTest for AsDeclared<'a> {
    ghost ready = { λ declared. IsScope declared.scope.now };

    ghost test = { λ declared x. may_be_declared declared.takes_unknown
        (names_in declared.scope.now) x };

    #[tactic(auto, using(crate::proofs::ScopeTestLaws::declared_rules))]
    fn takes_prog(&self, variable: &ProgVar) -> bool {
        match self.scope.variables.get(variable.name.as_str()) {
            Some(sort) => same_value_sort(sort, variable.sort),
            None => self.takes_unknown,
        }
    }

    #[tactic(auto, using(crate::proofs::ScopeTestLaws::declared_rules))]
    fn takes_logic(&self, variable: &LogicVar) -> bool {
        match self.scope.names.logic.get(variable.name.as_str()) {
            Some(sort) => same_sort(sort, variable.sort),
            None => self.takes_unknown,
        }
    }
}

/// Whether the variable, if it is one of the program, is a parameter or, where results are allowed
/// as well, a result.
#[derive(Drop)]
pub(crate) struct OnlyAmong<'a> {
    pub(crate) scope: &'a Scope<'a>,
    pub(crate) takes_results: bool,
}

impl<'a> VariableTest for OnlyAmong<'a> {
    ghost ready = { λ only. IsScope only.scope.now };

    ghost test = { λ only x. may_stand (allowed_in only.scope.now only.takes_results) x };

    fn takes_prog(&self, variable: &ProgVar) -> bool {
        self.scope.params.has(variable) || (self.takes_results && self.scope.results.has(variable))
    }

    fn takes_logic(&self, _variable: &LogicVar) -> bool {
        true
    }
}
