// What it is to get sorts, and variables that do.
ghost use Rattle.std.specs.Prelude.{◌≡◌, map};
ghost use Rattle.std.specs.List.{list_all, flat_map};
ghost use Rattle.dom_terms.specs.Terms.{prog_var_of, logic_var_of};
ghost use Rattle.model_grammar.specs.Sorts.{sorted_name, sorted_var};
ghost use Rattle.declared_sorts.specs.Declarations.{declared_of, scope_in};
ghost use Rattle.declared_sorts.specs.Known.{Knows};
ghost use Rattle.declared_sorts.specs.Settled.{is_settled};

use crate::declared::Declared;
use dom_terms::{LogicVar, ProgVar, Sort, ValueSort};

/// Something that stands for plain data, whose variables can be given the sorts of their
/// declarations.
pub trait Sorted: Sized {
    ghost use Rattle.std.specs.Prelude as plain;
    ghost use Rattle.model_terms.specs.Variables as names;
    ghost use Rattle.model_grammar.specs.Sorts as model;

    // the type of the plain data
    ghost Seen: { Type 0 };

    // the plain data that a value stands for
    ghost seen: { Self → Seen };

    // the data with its sorts
    ghost sorted: { model.Declared → Seen → Seen };

    // the variables that stand in the data
    ghost variables: { Seen → plain.List names.Var };

    /// Gives each variable the sort of its declaration, and tells whether each of them is declared,
    /// first with the sort that it then has.
    fn set_sorts(&mut self, declared: &Declared) -> bool
        requires { Knows declared.now }
        ensures sorted { seen self.new ≡ sorted (declared_of declared.now) (seen self.old) }
        ensures settled { result ≡ list_all (is_settled (scope_in declared.now))
            (variables (seen self.new)) };
}

/// Gives each variable of the items the sort of its declaration, and tells whether each of them is
/// declared, first with the sort that it then has.
pub fn set_all<T: Sorted>(items: &mut [T], declared: &Declared) -> bool
    requires { Knows declared.now }
    ensures sorted { map T.seen items.new ≡ map (T.sorted (declared_of declared.now))
        (map T.seen items.old) }
    ensures settled { result ≡ list_all (is_settled (scope_in declared.now))
        (flat_map T.variables (map T.seen items.new)) }
{
    let mut are_settled = true;
    for i in 0..items.len() {
        // an item gets its sorts whatever the others tell
        let is_settled = items[i].set_sorts(declared);
        are_settled &= is_settled;
    }
    are_settled
}

impl Sorted for ProgVar {
    ghost use Rattle.std.specs.Prelude.{◌∷◌, []};
    ghost use Rattle.model_terms.specs.Stores as model;

    ghost Seen = { model.ProgVar };

    ghost seen = { prog_var_of };

    ghost sorted = { sorted_name };

    ghost variables = { λ x. model.as_var x ∷ [] };

    fn set_sorts(&mut self, declared: &Declared) -> bool
        requires { Knows declared.now }
        ensures sorted { prog_var_of self.new
            ≡ sorted_name (declared_of declared.now) (prog_var_of self.old) }
        ensures settled { result ≡ list_all (is_settled (scope_in declared.now))
            (model.as_var (prog_var_of self.new) ∷ []) }
    {
        let found = declared.sort_named(self.name.as_str());
        self.sort = found.unwrap_or(ValueSort::Node);
        found.is_some()
    }
}

impl Sorted for LogicVar {
    ghost use Rattle.std.specs.Prelude.{◌∷◌, []};
    ghost use Rattle.model_terms.specs.Variables as model;

    ghost Seen = { model.Var };

    ghost seen = { logic_var_of };

    ghost sorted = { sorted_var };

    ghost variables = { λ x. x ∷ [] };

    fn set_sorts(&mut self, declared: &Declared) -> bool
        requires { Knows declared.now }
        ensures sorted { logic_var_of self.new
            ≡ sorted_var (declared_of declared.now) (logic_var_of self.old) }
        ensures settled { result ≡ list_all (is_settled (scope_in declared.now))
            (logic_var_of self.new ∷ []) }
    {
        let found = declared.logic_sort_named(self.name.as_str());
        self.sort = found.unwrap_or(Sort::Value(ValueSort::Node));
        found.is_some()
    }
}
