// The local variable, and the two logic variables.
ghost use Rattle.std.specs.Prelude.{◌≡◌, IfOk};
ghost use Rattle.dom_terms.specs.Terms.{prog_var_of, logic_var_of, term_of};
ghost use Rattle.model_generator.specs.Generated.{x, x_term, some_node, some_list};

use dom_terms::{LogicVar, OutOfMemory, ProgVar, Sort, Term, Text, ValueSort};
use std::alloc::Global;

/// `x`, the local variable.
pub fn x(alloc: Global) -> Result<ProgVar, OutOfMemory>
    ensures { IfOk result (λ variable. prog_var_of variable ≡ x) }
{
    Ok(ProgVar {
        name: Text::from_str(alloc, "x")?,
        sort: ValueSort::Node,
    })
}

/// The same as a term.
pub fn x_term(alloc: Global) -> Result<Term, OutOfMemory>
    ensures { IfOk result (λ term. term_of term ≡ x_term) }
{
    Ok(Term::Prog(x(alloc)?))
}

/// `$n`, a node.
pub fn some_node(alloc: Global) -> Result<LogicVar, OutOfMemory>
    ensures { IfOk result (λ variable. logic_var_of variable ≡ some_node) }
{
    Ok(LogicVar {
        name: Text::from_str(alloc, "$n")?,
        sort: Sort::Value(ValueSort::Node),
    })
}

/// `$m`, a children list.
pub fn some_list(alloc: Global) -> Result<LogicVar, OutOfMemory>
    ensures { IfOk result (λ variable. logic_var_of variable ≡ some_list) }
{
    Ok(LogicVar {
        name: Text::from_str(alloc, "$m")?,
        sort: Sort::Value(ValueSort::List),
    })
}
