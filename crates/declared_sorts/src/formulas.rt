// Formulas: one walk gives their variables the sorts of their declarations, counts their parts and
// asks whether they may be judged.
ghost use Rattle.std.specs.Prelude.{◌≡◌, ◌+◌, ◌<◌, ◌++◌, ◌∷◌, drop, true};
ghost use Rattle.std.specs.List.{list_all};
ghost use Rattle.model_commands.specs.CommandParts.{variables_of, variables_of_term};
ghost use Rattle.model_files.specs.FileFaults.{is_judged_at};
ghost use Rattle.model_formulas.specs.Parts.{parts};
ghost use Rattle.model_formulas.specs.WellSorted.{flags};
ghost use Rattle.model_grammar.specs.Sorts.{sorted_formula, sorted_term, sorted_var};
ghost use Rattle.model_shapes.specs.Sorts.{forest, with_outer};
ghost use Rattle.dom_terms.specs.Sorts.{sort_of};
ghost use Rattle.dom_terms.specs.Terms.{logic_var_of, term_of};
ghost use Rattle.formula_syntax.specs.Formulas.{formula_of};
ghost use Rattle.declared_sorts.specs.Declarations.{declared_of, scope_in};
ghost use Rattle.declared_sorts.specs.Judged.{none_fails};
ghost use Rattle.declared_sorts.specs.Known.{Knows};
ghost use Rattle.declared_sorts.specs.Settled.{is_settled};

use crate::declared::Declared;
use crate::part_sorts::part_sorts;
use crate::sorted::Sorted;
use crate::terms::set_terms;
use dom_terms::{DataSort, LogicVar, Sort, Term};
use formula_syntax::{Formula, fits, giving};

/// What is told of a formula whose variables got their sorts.
#[derive(Clone, Copy)]
pub struct ToldFormula {
    /// Each variable in it is declared, first with the sort that it has.
    pub is_settled: bool,
    /// How much of the room is left after its parts where it may be judged at the sort; 0 where
    /// that isn't known.
    pub left: u32,
}

// What is told where this is known of the variables, and so much room is left.
fn told_of(is_settled: bool, left: u32) -> ToldFormula
    ensures settled { result.is_settled ≡ is_settled }
    ensures left { result.left ≡ left }
{
    ToldFormula { is_settled, left }
}

/// Gives each variable of a formula the sort of its declaration, and tells whether each of them is
/// declared, first with the sort that it then has, and whether the formula may be judged at the
/// sort and has fewer parts than there is room.
#[cycle(formula_sorting)]
#[tactic(auto, using(crate::proofs::JudgedLaws::judged_rules))]
pub fn set_formula(formula: &mut Formula, sort: Sort, room: u32, declared: &Declared) -> ToldFormula
    requires { Knows declared.now }
    ensures sorted { formula_of formula.new
        ≡ sorted_formula (declared_of declared.now) (formula_of formula.old) }
    ensures settled { result.is_settled ≡ list_all (is_settled (scope_in declared.now))
        (variables_of (formula_of formula.new)) }
    ensures judged { 0 < result.left
        → is_judged_at (sort_of sort) (formula_of formula.new) ≡ true }
    ensures small { 0 < result.left → parts (formula_of formula.new) + result.left ≡ room }
{
    let told = set_parts(formula, sort, room, declared);
    let left = if told.left > 0 && fits(formula, sort) {
        told.left - 1
    } else {
        0
    };
    told_of(told.is_settled, left)
}

// The same, but that its parts alone are asked and counted, and not the formula itself.
#[cycle(formula_sorting)]
fn set_parts(formula: &mut Formula, sort: Sort, room: u32, declared: &Declared) -> ToldFormula
    requires { Knows declared.now }
    ensures sorted { formula_of formula.new
        ≡ sorted_formula (declared_of declared.now) (formula_of formula.old) }
    ensures settled { result.is_settled ≡ list_all (is_settled (scope_in declared.now))
        (variables_of (formula_of formula.new)) }
    ensures judged { 0 < result.left
        → none_fails (drop 1 (flags (formula_of formula.new) (sort_of sort))) ≡ true }
    ensures small { 0 < result.left → parts (formula_of formula.new) + result.left ≡ room + 1 }
{
    let sorts = part_sorts(formula, sort);
    match formula {
        Formula::True | Formula::False | Formula::Hole(_) => told_of(true, room),
        Formula::EmptyForest | Formula::EmptyGrove => told_of(true, room),
        Formula::Var(variable) => told_of(variable.set_sorts(declared), room),
        Formula::Len(length) => told_of(length.set_sorts(declared), room),
        Formula::Eq(left, right) => told_of(set_terms(left, right, declared), room),
        Formula::Le(left, right) => told_of(set_terms(left, right, declared), room),
        Formula::Not(p) => set_formula(p, sort, room, declared),
        Formula::One(p) => set_formula(p, sorts.0, room, declared),
        Formula::Root(p) => set_formula(p, sorts.0, room, declared),
        Formula::Node(name, number, p, list) => {
            set_node(name, number, p, list, sort, room, declared)
        }
        Formula::Exists(x, p) => set_scope(x, p, sort, room, declared),
        Formula::Forall(x, p) => set_scope(x, p, sort, room, declared),
        Formula::Is(x, p) => set_met(x, p, room, declared),
        Formula::And(p, q) => set_two(p, q, sorts, room, declared),
        Formula::Or(p, q) => set_two(p, q, sorts, room, declared),
        Formula::Imp(p, q) => set_two(p, q, sorts, room, declared),
        Formula::Plus(p, q) => set_two(p, q, sorts, room, declared),
        Formula::PlusHole(p, q) => set_two(p, q, sorts, room, declared),
        Formula::Join(_, p, q) => set_two(p, q, sorts, room, declared),
        Formula::App(_, p, q) => set_two(p, q, sorts, room, declared),
        Formula::HoleAdj(p, q) => set_two(p, q, sorts, room, declared),
        Formula::CtxAdj(_, p, q) => set_two(p, q, sorts, room, declared),
    }
}

// The same of two formulas, one after the other, which are asked and counted too.
#[cycle(formula_sorting)]
#[tactic(auto, using(crate::proofs::JudgedLaws::judged_rules))]
fn set_two(
    left: &mut Box<Formula>,
    right: &mut Box<Formula>,
    sorts: (Sort, Sort),
    room: u32,
    declared: &Declared,
) -> ToldFormula
    requires { Knows declared.now }
    ensures left { formula_of left.new.value
        ≡ sorted_formula (declared_of declared.now) (formula_of left.old.value) }
    ensures right { formula_of right.new.value
        ≡ sorted_formula (declared_of declared.now) (formula_of right.old.value) }
    ensures settled { result.is_settled ≡ list_all (is_settled (scope_in declared.now))
        (variables_of (formula_of left.new.value) ++ variables_of (formula_of right.new.value)) }
    ensures judged { 0 < result.left
        → none_fails (flags (formula_of left.new.value) (sort_of sorts.0)
        ++ flags (formula_of right.new.value) (sort_of sorts.1)) ≡ true }
    ensures small { 0 < result.left → parts (formula_of left.new.value)
        + (parts (formula_of right.new.value) + result.left) ≡ room }
{
    let first = set_formula(left, sorts.0, room, declared);
    let second = set_formula(right, sorts.1, first.left, declared);
    told_of(first.is_settled & second.is_settled, second.left)
}

// The same of a variable and the formula after it.
#[cycle(formula_sorting)]
fn set_scope(
    variable: &mut LogicVar,
    inner: &mut Box<Formula>,
    sort: Sort,
    room: u32,
    declared: &Declared,
) -> ToldFormula
    requires { Knows declared.now }
    ensures variable { logic_var_of variable.new
        ≡ sorted_var (declared_of declared.now) (logic_var_of variable.old) }
    ensures inner { formula_of inner.new.value
        ≡ sorted_formula (declared_of declared.now) (formula_of inner.old.value) }
    ensures settled { result.is_settled ≡ list_all (is_settled (scope_in declared.now))
        (logic_var_of variable.new ∷ variables_of (formula_of inner.new.value)) }
    ensures judged { 0 < result.left
        → none_fails (flags (formula_of inner.new.value) (sort_of sort)) ≡ true }
    ensures small { 0 < result.left
        → parts (formula_of inner.new.value) + result.left ≡ room }
{
    let is_variable_settled = variable.set_sorts(declared);
    let told = set_formula(inner, sort, room, declared);
    told_of(is_variable_settled & told.is_settled, told.left)
}

// The same of a variable and what it is said to meet, which is judged at the sort that the variable
// then has.
#[cycle(formula_sorting)]
fn set_met(
    variable: &mut LogicVar,
    inner: &mut Box<Formula>,
    room: u32,
    declared: &Declared,
) -> ToldFormula
    requires { Knows declared.now }
    ensures variable { logic_var_of variable.new
        ≡ sorted_var (declared_of declared.now) (logic_var_of variable.old) }
    ensures inner { formula_of inner.new.value
        ≡ sorted_formula (declared_of declared.now) (formula_of inner.old.value) }
    ensures settled { result.is_settled ≡ list_all (is_settled (scope_in declared.now))
        (logic_var_of variable.new ∷ variables_of (formula_of inner.new.value)) }
    ensures judged { 0 < result.left
        → none_fails (flags (formula_of inner.new.value) (sort_of variable.new.sort)) ≡ true }
    ensures small { 0 < result.left
        → parts (formula_of inner.new.value) + result.left ≡ room }
{
    let is_variable_settled = variable.set_sorts(declared);
    let told = set_formula(inner, variable.sort, room, declared);
    told_of(is_variable_settled & told.is_settled, told.left)
}

// The same of the parts of a node, of which the children alone are a formula.
#[cycle(formula_sorting)]
fn set_node(
    name: &mut Term,
    number: &mut Term,
    children: &mut Box<Formula>,
    list: &mut Term,
    sort: Sort,
    room: u32,
    declared: &Declared,
) -> ToldFormula
    requires { Knows declared.now }
    ensures name { term_of name.new ≡ sorted_term (declared_of declared.now) (term_of name.old) }
    ensures number { term_of number.new
        ≡ sorted_term (declared_of declared.now) (term_of number.old) }
    ensures children { formula_of children.new.value
        ≡ sorted_formula (declared_of declared.now) (formula_of children.old.value) }
    ensures list { term_of list.new ≡ sorted_term (declared_of declared.now) (term_of list.old) }
    ensures settled { result.is_settled ≡ list_all (is_settled (scope_in declared.now))
        (variables_of_term (term_of name.new) ++ (variables_of_term (term_of number.new)
        ++ (variables_of (formula_of children.new.value)
        ++ variables_of_term (term_of list.new)))) }
    ensures judged { 0 < result.left → none_fails (flags (formula_of children.new.value)
        (with_outer forest (sort_of sort))) ≡ true }
    ensures small { 0 < result.left
        → parts (formula_of children.new.value) + result.left ≡ room }
{
    let are_terms_settled = set_terms(name, number, declared);
    let told = set_formula(children, giving(DataSort::Forest, sort), room, declared);
    let is_list_settled = list.set_sorts(declared);
    told_of(
        are_terms_settled & told.is_settled & is_list_settled,
        told.left,
    )
}
