// The room for commands.
ghost use Rattle.std.specs.Prelude.{◌≡◌, [], ◌∷◌, ◌++◌, map};
ghost use Rattle.model_commands.specs.Commands as commands;
ghost use Rattle.model_text.specs.Lexemes.{terminal};
ghost use Rattle.model_grammar.specs.Words.{the, ◌⌢◌};
ghost use Rattle.model_grammar.specs.Writing.{command_lexemes, block_lexemes, in_brackets};
ghost use Rattle.model_grammar.specs.Writing.{name_lexemes, set_to, term_lexemes};
ghost use Rattle.model_grammar.specs.Writing.{value_sort_lexemes};
ghost use Rattle.dom_terms.specs.Sorts.{value_sort_of};
ghost use Rattle.dom_terms.specs.Terms.{prog_var_of, term_of};
ghost use Rattle.theory_syntax.specs.Commands.{command_of, block_of};
ghost use Rattle.gap_filling.specs.Measured.{measured};

use crate::conditions::measure_condition;
use crate::items::measure_bracketed;
use crate::meters::Meter;
use crate::terms::{measure_compared, measure_term};
use dom_terms::{ProgVar, Term, Terms, Text, ValueSort, Vars};
use theory_syntax::{Block, Command};

/// Takes the room for the sort.
pub(crate) fn measure_value_sort(meter: &mut Meter, sort: ValueSort)
    ensures { meter.new ≡ measured meter.old (value_sort_lexemes (value_sort_of sort)) }
{
    match sort {
        ValueSort::Node => meter.name("node"),
        ValueSort::List => meter.name("list"),
        ValueSort::Int => meter.name("int"),
        ValueSort::Str => meter.name("str"),
        ValueSort::Bool => meter.name("bool"),
    }
}

// Takes the room for a variable and the sign after which stands what it is set to.
#[tactic(auto, using(crate::proofs::Measures::measured_rules))]
fn measure_target(meter: &mut Meter, x: &ProgVar)
    ensures { meter.new ≡ measured meter.old (name_lexemes (prog_var_of x.now) ⌢ the ":=") }
{
    meter.name(x.name.as_str());
    meter.token(":=");
}

// Takes the room for an assignment.
#[tactic(auto, using(crate::proofs::Measures::measured_rules))]
fn measure_assigned(meter: &mut Meter, x: &ProgVar, value: &Term)
    ensures { meter.new ≡ measured meter.old
        (set_to (prog_var_of x.now) (term_lexemes (term_of value.now))) }
{
    measure_target(meter, x);
    measure_term(meter, value);
}

// Takes the room for the word of an operation and its one operand.
#[tactic(auto, using(crate::proofs::Measures::measured_rules))]
fn measure_on_one(meter: &mut Meter, word: &str, operand: &Term)
    ensures { meter.new ≡ measured meter.old (terminal word.now ∷ []
        ⌢ in_brackets (term_lexemes (term_of operand.now) ∷ [])) }
{
    meter.token(word);
    meter.token("(");
    measure_term(meter, operand);
    meter.token(")");
}

// Takes the room for the word of an operation and its two operands.
#[tactic(auto, using(crate::proofs::Measures::measured_rules))]
fn measure_on_two(meter: &mut Meter, word: &str, first: &Term, second: &Term)
    ensures { meter.new ≡ measured meter.old (terminal word.now ∷ []
        ⌢ in_brackets (term_lexemes (term_of first.now)
        ∷ term_lexemes (term_of second.now) ∷ [])) }
{
    meter.token(word);
    meter.token("(");
    measure_compared(meter, first, ",", second);
    meter.token(")");
}

// Takes the room for the word of a change and its three operands.
#[tactic(auto, using(crate::proofs::Measures::measured_rules))]
fn measure_on_three(meter: &mut Meter, word: &str, first: &Term, second: &Term, third: &Term)
    ensures { meter.new ≡ measured meter.old (terminal word.now ∷ []
        ⌢ in_brackets (term_lexemes (term_of first.now) ∷ term_lexemes (term_of second.now)
        ∷ term_lexemes (term_of third.now) ∷ [])) }
{
    meter.token(word);
    meter.token("(");
    measure_compared(meter, first, ",", second);
    meter.token(",");
    measure_term(meter, third);
    meter.token(")");
}

// Takes the room for what the document is asked for a variable.
#[tactic(auto, using(crate::proofs::Measures::measured_rules))]
fn measure_asked(meter: &mut Meter, x: &ProgVar, word: &str, operand: &Term)
    ensures { meter.new ≡ measured meter.old (set_to (prog_var_of x.now)
        (terminal word.now ∷ [] ⌢ in_brackets (term_lexemes (term_of operand.now) ∷ []))) }
{
    measure_target(meter, x);
    measure_on_one(meter, word, operand);
}

// Takes the room for which item of a list is asked for a variable.
#[tactic(auto, using(crate::proofs::Measures::measured_rules))]
fn measure_item(meter: &mut Meter, x: &ProgVar, list: &Term, place: &Term)
    ensures { meter.new ≡ measured meter.old (command_lexemes
        (commands.list_item (prog_var_of x.now) (term_of list.now) (term_of place.now))) }
{
    measure_target(meter, x);
    measure_on_two(meter, "item", list, place);
}

// Takes the room for a call.
#[tactic(auto, using(crate::proofs::Measures::measured_rules))]
fn measure_call(meter: &mut Meter, results: &Vars, name: &Text, arguments: &Terms)
    ensures { meter.new ≡ measured meter.old (command_lexemes
        (commands.call (map prog_var_of results.now) name.now (map term_of arguments.now))) }
{
    meter.token("call");
    measure_bracketed(meter, results.as_slice());
    meter.token(":=");
    meter.name(name.as_str());
    measure_bracketed(meter, arguments.as_slice());
}

// Takes the room for the word, the name and the sort of a local variable.
#[tactic(auto, using(crate::proofs::Measures::measured_rules))]
fn measure_local(meter: &mut Meter, x: &ProgVar)
    ensures { meter.new ≡ measured meter.old (the "local"
        ⌢ name_lexemes (prog_var_of x.now) ⌢ the ":"
        ⌢ value_sort_lexemes (value_sort_of x.now.sort)) }
{
    meter.token("local");
    meter.name(x.name.as_str());
    meter.token(":");
    measure_value_sort(meter, x.sort);
}

// Takes the room for a block, with its braces.
#[cycle(command_measuring)]
fn measure_block(meter: &mut Meter, block: &Block)
    ensures { meter.new ≡ measured meter.old (block_lexemes (block_of block.now)) }
{
    if !meter.fits {
        return;
    }
    if block.is_empty() {
        meter.token("{");
        meter.token("}");
        return;
    }
    let mut mark = "{";
    for command in block.as_slice() {
        meter.token(mark);
        measure_command(meter, command);
        mark = ";";
    }
    meter.token("}");
}

/// Takes the room for the command.
#[cycle(command_measuring)]
pub(crate) fn measure_command(meter: &mut Meter, command: &Command)
    ensures { meter.new ≡ measured meter.old (command_lexemes (command_of command.now)) }
{
    match command {
        Command::Skip => meter.token("skip"),
        Command::Block(block) => measure_block(meter, block),
        Command::Assign(x, value) => measure_assigned(meter, x, value),
        Command::Create(x, name) => measure_asked(meter, x, "createNode", name),
        Command::Name(x, node) => measure_asked(meter, x, "nodeName", node),
        Command::Parent(x, node) => measure_asked(meter, x, "parentNode", node),
        Command::Children(x, node) => measure_asked(meter, x, "childNodes", node),
        Command::Item(x, list, place) => measure_item(meter, x, list, place),
        Command::Append(parent, child) => measure_on_two(meter, "appendChild", parent, child),
        Command::Remove(parent, child) => measure_on_two(meter, "removeChild", parent, child),
        Command::InsertBefore(parent, child, next) => {
            measure_on_three(meter, "insertBefore", parent, child, next)
        }
        Command::If(cond, first, second) => {
            meter.token("if");
            measure_condition(meter, cond);
            measure_block(meter, first);
            meter.token("else");
            measure_block(meter, second);
        }
        Command::While(cond, block) => {
            meter.token("while");
            measure_condition(meter, cond);
            measure_block(meter, block);
        }
        Command::Local(x, block) => {
            measure_local(meter, x);
            measure_block(meter, block);
        }
        Command::Call(results, name, arguments) => measure_call(meter, results, name, arguments),
    }
}
