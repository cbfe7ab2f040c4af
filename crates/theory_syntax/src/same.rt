// When two commands are the same.
ghost use Rattle.std.specs.Prelude.{◌≡◌, ◌↔◌, IsTrue, map};
ghost use Rattle.model_terms.specs.Stores.{same_name};
ghost use Rattle.model_formulas.specs.SameFormulas as formula_tests;
ghost use Rattle.dom_terms.specs.Terms.{prog_var_of, term_of};
ghost use Rattle.dom_terms.specs.Conditions.{cond_of};
ghost use Rattle.theory_syntax.specs.Commands.{command_of, block_of};
ghost use Rattle.theory_syntax.specs.SameCommands as tests;

use crate::commands::{Block, Command};
use dom_terms::{Cond, ProgVar, Term, Terms, Vars, same_logic_var, same_prog_var, same_text};

fn same_term(left: &Term, right: &Term) -> bool
    ensures { result ≡ formula_tests.same_term (term_of left.now) (term_of right.now) }
{
    match (left, right) {
        (Term::NullNode, Term::NullNode) | (Term::NullList, Term::NullList) => true,
        (Term::Int(a), Term::Int(b)) => a == b,
        (Term::Str(a), Term::Str(b)) => same_text(a, b),
        (Term::Bool(a), Term::Bool(b)) => a == b,
        (Term::Prog(x), Term::Prog(y)) => same_prog_var(x, y),
        (Term::Logic(x), Term::Logic(y)) => same_logic_var(x, y),
        (Term::Add(a, b), Term::Add(c, d))
        | (Term::Sub(a, b), Term::Sub(c, d))
        | (Term::Cat(a, b), Term::Cat(c, d)) => same_term(a, c) && same_term(b, d),
        _ => false,
    }
}

fn same_variable(left: &ProgVar, right: &ProgVar) -> bool
    ensures { result ≡ same_name (prog_var_of left.now) (prog_var_of right.now) }
{
    same_prog_var(left, right)
}

fn same_terms(left: &Terms, right: &Terms) -> bool
    ensures { result ≡ tests.same_terms (map term_of left.now) (map term_of right.now) }
{
    let mut others = right.as_slice();
    for term in left.as_slice() {
        let [other, further @ ..] = others else {
            return false;
        };
        if !same_term(term, other) {
            return false;
        }
        others = further;
    }
    others.is_empty()
}

fn same_variables(left: &Vars, right: &Vars) -> bool
    ensures { result ≡ tests.same_vars (map prog_var_of left.now) (map prog_var_of right.now) }
{
    let mut others = right.as_slice();
    for variable in left.as_slice() {
        let [other, further @ ..] = others else {
            return false;
        };
        if !same_variable(variable, other) {
            return false;
        }
        others = further;
    }
    others.is_empty()
}

fn same_condition(left: &Cond, right: &Cond) -> bool
    ensures { result ≡ tests.same_cond (cond_of left.now) (cond_of right.now) }
{
    match (left, right) {
        (Cond::True, Cond::True) | (Cond::False, Cond::False) => true,
        (Cond::Holds(x), Cond::Holds(y)) => same_variable(x, y),
        (Cond::Eq(a, b), Cond::Eq(c, d)) | (Cond::Le(a, b), Cond::Le(c, d)) => {
            same_term(a, c) && same_term(b, d)
        }
        (Cond::Not(a), Cond::Not(b)) => same_condition(a, b),
        (Cond::And(a, b), Cond::And(c, d)) | (Cond::Or(a, b), Cond::Or(c, d)) => {
            same_condition(a, c) && same_condition(b, d)
        }
        _ => false,
    }
}

/// Whether the commands are equal.
#[tactic(auto, using(crate::proofs::SameCommands::command_rules))]
pub fn same_command(left: &Command, right: &Command) -> bool
    ensures { IsTrue result ↔ (command_of left.now ≡ command_of right.now) }
{
    do_agree(left, right)
}

#[cycle(same_command)]
fn do_agree(left: &Command, right: &Command) -> bool
    ensures { result ≡ tests.same_command (command_of left.now) (command_of right.now) }
{
    match (left, right) {
        (Command::Skip, Command::Skip) => true,
        (Command::Block(a), Command::Block(b)) => do_blocks_agree(a, b),
        (Command::Assign(x, a), Command::Assign(y, b))
        | (Command::Create(x, a), Command::Create(y, b))
        | (Command::Name(x, a), Command::Name(y, b))
        | (Command::Parent(x, a), Command::Parent(y, b))
        | (Command::Children(x, a), Command::Children(y, b)) => {
            same_variable(x, y) && same_term(a, b)
        }
        (Command::Item(x, a, b), Command::Item(y, c, d)) => {
            same_variable(x, y) && same_term(a, c) && same_term(b, d)
        }
        (Command::Append(a, b), Command::Append(c, d))
        | (Command::Remove(a, b), Command::Remove(c, d)) => same_term(a, c) && same_term(b, d),
        (Command::InsertBefore(a, b, c), Command::InsertBefore(d, e, f)) => {
            same_term(a, d) && same_term(b, e) && same_term(c, f)
        }
        (Command::If(a, b, c), Command::If(d, e, f)) => {
            same_condition(a, d) && do_blocks_agree(b, e) && do_blocks_agree(c, f)
        }
        (Command::While(a, b), Command::While(c, d)) => {
            same_condition(a, c) && do_blocks_agree(b, d)
        }
        (Command::Local(x, a), Command::Local(y, b)) => {
            same_variable(x, y) && do_blocks_agree(a, b)
        }
        (Command::Call(xs, f, ts), Command::Call(ys, g, us)) => {
            same_variables(xs, ys) && same_text(f, g) && same_terms(ts, us)
        }
        _ => false,
    }
}

#[cycle(same_command)]
fn do_blocks_agree(left: &Block, right: &Block) -> bool
    ensures { result ≡ tests.same_block (block_of left.now) (block_of right.now) }
{
    let mut others = right.as_slice();
    for command in left.as_slice() {
        let [other, further @ ..] = others else {
            return false;
        };
        if !do_agree(command, other) {
            return false;
        }
        others = further;
    }
    matches!(others, [])
}
