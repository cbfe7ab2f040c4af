// Conditions and commands as text.
ghost use Rattle.std.specs.Prelude.{◌≡◌, ℕ, [], ◌∷◌, ◌++◌, codes, map, OnOk, IfOk};
ghost use Rattle.model_terms.specs.Conditions as conditions;
ghost use Rattle.model_commands.specs.Commands as commands;
ghost use Rattle.model_text.specs.Lexemes.{terminal};
ghost use Rattle.model_text.specs.Versions.{seen_in, IsOfVersion};
ghost use Rattle.model_text.specs.Nesting.{lexemes_of};
ghost use Rattle.model_grammar.specs.Sorts.{Declared, sorted_command};
ghost use Rattle.model_grammar.specs.Words.{the, ◌⌢◌};
ghost use Rattle.model_grammar.specs.Writing.{spaced, text_of, bracketed, term_lexemes};
ghost use Rattle.model_grammar.specs.Writing.{cond_lexemes, command_lexemes, block_lexemes};
ghost use Rattle.model_grammar.specs.Writing.{name_lexemes, value_sort_lexemes, set_to};
ghost use Rattle.model_grammar.specs.Writing.{in_brackets};
ghost use Rattle.model_grammar.specs.Writable.{Each, IsWritableCommand};
ghost use Rattle.model_round_trip.specs.ReadBack.{SpellsCommandAt};
ghost use Rattle.dom_terms.specs.Sorts.{value_sort_of};
ghost use Rattle.dom_terms.specs.Terms.{prog_var_of, term_of};
ghost use Rattle.dom_terms.specs.Conditions.{cond_of};
ghost use Rattle.theory_syntax.specs.Commands.{command_of, block_of};

use crate::written::{NameWriter, TermWriter, push_bracketed};
use dom_terms::{Cond, OutOfMemory, ProgVar, Term, Terms, Text, ValueSort, Vars};
use logic_text::{push_compared, push_term, push_token, without_space};
use std::alloc::Global;
use theory_syntax::{Block, Command};

// Puts the negation of a condition at the end.
#[cycle(condition_writing)]
#[tactic(auto, using(model_grammar::proofs::Spaced::spaced_rules))]
fn push_denied(alloc: Global, text: &mut Text, inner: &Cond) -> Result<(), OutOfMemory>
    ensures { OnOk result
        (text.new ≡ text.old ++ spaced (cond_lexemes (conditions.cond_not (cond_of inner.now)))) }
{
    push_token(alloc, text, "(")?;
    push_token(alloc, text, "not")?;
    push_condition(alloc, text, inner)?;
    push_token(alloc, text, ")")?;
    Ok(())
}

// Puts two conditions at the end, in brackets and with a word between them.
#[cycle(condition_writing)]
#[tactic(auto, using(model_grammar::proofs::Spaced::spaced_rules))]
fn push_both(
    alloc: Global,
    text: &mut Text,
    left: &Cond,
    word: &str,
    right: &Cond,
) -> Result<(), OutOfMemory>
    ensures { OnOk result (text.new ≡ text.old ++ spaced (bracketed
        (cond_lexemes (cond_of left.now)) (terminal word.now ∷ [])
        (cond_lexemes (cond_of right.now)))) }
{
    push_token(alloc, text, "(")?;
    push_condition(alloc, text, left)?;
    push_token(alloc, text, word)?;
    push_condition(alloc, text, right)?;
    push_token(alloc, text, ")")?;
    Ok(())
}

// Puts the tokens of the condition at the end.
#[cycle(condition_writing)]
fn push_condition(alloc: Global, text: &mut Text, cond: &Cond) -> Result<(), OutOfMemory>
    ensures { OnOk result (text.new ≡ text.old ++ spaced (cond_lexemes (cond_of cond.now))) }
{
    match cond {
        Cond::True => push_token(alloc, text, "true"),
        Cond::False => push_token(alloc, text, "false"),
        Cond::Holds(variable) => push_token(alloc, text, variable.name.as_str()),
        Cond::Eq(left, right) => push_compared(alloc, text, left, "=", right),
        Cond::Le(left, right) => push_compared(alloc, text, left, "<=", right),
        Cond::Not(inner) => push_denied(alloc, text, inner),
        Cond::And(left, right) => push_both(alloc, text, left, "and", right),
        Cond::Or(left, right) => push_both(alloc, text, left, "or", right),
    }
}

/// Puts the word for the sort at the end.
pub fn push_value_sort(alloc: Global, text: &mut Text, sort: ValueSort) -> Result<(), OutOfMemory>
    ensures { OnOk result
        (text.new ≡ text.old ++ spaced (value_sort_lexemes (value_sort_of sort))) }
{
    match sort {
        ValueSort::Node => push_token(alloc, text, "node"),
        ValueSort::List => push_token(alloc, text, "list"),
        ValueSort::Int => push_token(alloc, text, "int"),
        ValueSort::Str => push_token(alloc, text, "str"),
        ValueSort::Bool => push_token(alloc, text, "bool"),
    }
}

// Puts a variable and the sign after which stands what it is set to at the end.
#[tactic(auto, using(model_grammar::proofs::Spaced::spaced_rules))]
fn push_target(alloc: Global, text: &mut Text, x: &ProgVar) -> Result<(), OutOfMemory>
    ensures { OnOk result
        (text.new ≡ text.old ++ spaced (name_lexemes (prog_var_of x.now) ⌢ the ":=")) }
{
    push_token(alloc, text, x.name.as_str())?;
    push_token(alloc, text, ":=")?;
    Ok(())
}

// Puts an assignment at the end.
#[tactic(auto, using(model_grammar::proofs::Spaced::spaced_rules))]
fn push_assigned(
    alloc: Global,
    text: &mut Text,
    x: &ProgVar,
    value: &Term,
) -> Result<(), OutOfMemory>
    ensures { OnOk result (text.new ≡ text.old
        ++ spaced (set_to (prog_var_of x.now) (term_lexemes (term_of value.now)))) }
{
    push_target(alloc, text, x)?;
    push_term(alloc, text, value)?;
    Ok(())
}

// Puts the word of an operation and its one operand at the end.
#[tactic(auto, using(model_grammar::proofs::Spaced::spaced_rules))]
fn push_on_one(
    alloc: Global,
    text: &mut Text,
    word: &str,
    operand: &Term,
) -> Result<(), OutOfMemory>
    ensures { OnOk result (text.new ≡ text.old ++ spaced (terminal word.now ∷ []
        ⌢ in_brackets (term_lexemes (term_of operand.now) ∷ []))) }
{
    push_token(alloc, text, word)?;
    push_token(alloc, text, "(")?;
    push_term(alloc, text, operand)?;
    push_token(alloc, text, ")")?;
    Ok(())
}

// Puts the word of an operation and its two operands at the end.
#[tactic(auto, using(model_grammar::proofs::Spaced::spaced_rules))]
fn push_on_two(
    alloc: Global,
    text: &mut Text,
    word: &str,
    first: &Term,
    second: &Term,
) -> Result<(), OutOfMemory>
    ensures { OnOk result (text.new ≡ text.old ++ spaced (terminal word.now ∷ []
        ⌢ in_brackets (term_lexemes (term_of first.now)
        ∷ term_lexemes (term_of second.now) ∷ []))) }
{
    push_token(alloc, text, word)?;
    push_token(alloc, text, "(")?;
    push_compared(alloc, text, first, ",", second)?;
    push_token(alloc, text, ")")?;
    Ok(())
}

// Puts the word of a change and its three operands at the end.
#[tactic(auto, using(model_grammar::proofs::Spaced::spaced_rules))]
fn push_on_three(
    alloc: Global,
    text: &mut Text,
    word: &str,
    first: &Term,
    second: &Term,
    third: &Term,
) -> Result<(), OutOfMemory>
    ensures { OnOk result (text.new ≡ text.old ++ spaced (terminal word.now ∷ []
        ⌢ in_brackets (term_lexemes (term_of first.now) ∷ term_lexemes (term_of second.now)
        ∷ term_lexemes (term_of third.now) ∷ []))) }
{
    push_token(alloc, text, word)?;
    push_token(alloc, text, "(")?;
    push_compared(alloc, text, first, ",", second)?;
    push_token(alloc, text, ",")?;
    push_term(alloc, text, third)?;
    push_token(alloc, text, ")")?;
    Ok(())
}

// Puts at the end what the document is asked for a variable.
#[tactic(auto, using(model_grammar::proofs::Spaced::spaced_rules))]
fn push_asked(
    alloc: Global,
    text: &mut Text,
    x: &ProgVar,
    word: &str,
    operand: &Term,
) -> Result<(), OutOfMemory>
    ensures { OnOk result (text.new ≡ text.old ++ spaced (set_to (prog_var_of x.now)
        (terminal word.now ∷ [] ⌢ in_brackets (term_lexemes (term_of operand.now) ∷ [])))) }
{
    push_target(alloc, text, x)?;
    push_on_one(alloc, text, word, operand)?;
    Ok(())
}

// Puts at the end which item of a list is asked for a variable.
#[tactic(auto, using(model_grammar::proofs::Spaced::spaced_rules))]
fn push_item(
    alloc: Global,
    text: &mut Text,
    x: &ProgVar,
    list: &Term,
    place: &Term,
) -> Result<(), OutOfMemory>
    ensures { OnOk result (text.new ≡ text.old ++ spaced (command_lexemes
        (commands.list_item (prog_var_of x.now) (term_of list.now) (term_of place.now)))) }
{
    push_target(alloc, text, x)?;
    push_on_two(alloc, text, "item", list, place)?;
    Ok(())
}

// Puts a call at the end.
#[tactic(auto, using(model_grammar::proofs::Spaced::spaced_rules))]
fn push_call(
    alloc: Global,
    text: &mut Text,
    results: &Vars,
    name: &Text,
    arguments: &Terms,
) -> Result<(), OutOfMemory>
    ensures { OnOk result (text.new ≡ text.old ++ spaced (command_lexemes
        (commands.call (map prog_var_of results.now) name.now (map term_of arguments.now)))) }
{
    push_token(alloc, text, "call")?;
    push_bracketed(alloc, text, &NameWriter, results.as_slice())?;
    push_token(alloc, text, ":=")?;
    push_token(alloc, text, name.as_str())?;
    push_bracketed(alloc, text, &TermWriter, arguments.as_slice())?;
    Ok(())
}

// Puts the word, the name and the sort of a local variable at the end.
#[tactic(auto, using(model_grammar::proofs::Spaced::spaced_rules))]
fn push_local(alloc: Global, text: &mut Text, x: &ProgVar) -> Result<(), OutOfMemory>
    ensures { OnOk result (text.new ≡ text.old ++ spaced (the "local"
        ⌢ name_lexemes (prog_var_of x.now) ⌢ the ":"
        ⌢ value_sort_lexemes (value_sort_of x.now.sort))) }
{
    push_token(alloc, text, "local")?;
    push_token(alloc, text, x.name.as_str())?;
    push_token(alloc, text, ":")?;
    push_value_sort(alloc, text, x.sort)?;
    Ok(())
}

// Puts a block at the end, with its braces.
#[cycle(command_writing)]
fn push_block(alloc: Global, text: &mut Text, block: &Block) -> Result<(), OutOfMemory>
    ensures { OnOk result (text.new ≡ text.old ++ spaced (block_lexemes (block_of block.now))) }
{
    if block.is_empty() {
        push_token(alloc, text, "{")?;
        push_token(alloc, text, "}")?;
        return Ok(());
    }
    let mut mark = "{";
    for command in block.as_slice() {
        push_token(alloc, text, mark)?;
        push_command(alloc, text, command)?;
        mark = ";";
    }
    push_token(alloc, text, "}")?;
    Ok(())
}

/// Puts the tokens of the command at the end, each after a space.
#[cycle(command_writing)]
pub fn push_command(alloc: Global, text: &mut Text, command: &Command) -> Result<(), OutOfMemory>
    ensures { OnOk result
        (text.new ≡ text.old ++ spaced (command_lexemes (command_of command.now))) }
{
    match command {
        Command::Skip => push_token(alloc, text, "skip"),
        Command::Block(block) => push_block(alloc, text, block),
        Command::Assign(x, value) => push_assigned(alloc, text, x, value),
        Command::Create(x, name) => push_asked(alloc, text, x, "createNode", name),
        Command::Name(x, node) => push_asked(alloc, text, x, "nodeName", node),
        Command::Parent(x, node) => push_asked(alloc, text, x, "parentNode", node),
        Command::Children(x, node) => push_asked(alloc, text, x, "childNodes", node),
        Command::Item(x, list, place) => push_item(alloc, text, x, list, place),
        Command::Append(parent, child) => push_on_two(alloc, text, "appendChild", parent, child),
        Command::Remove(parent, child) => push_on_two(alloc, text, "removeChild", parent, child),
        Command::InsertBefore(parent, child, next) => {
            push_on_three(alloc, text, "insertBefore", parent, child, next)
        }
        Command::If(cond, first, second) => {
            push_token(alloc, text, "if")?;
            push_condition(alloc, text, cond)?;
            push_block(alloc, text, first)?;
            push_token(alloc, text, "else")?;
            push_block(alloc, text, second)?;
            Ok(())
        }
        Command::While(cond, block) => {
            push_token(alloc, text, "while")?;
            push_condition(alloc, text, cond)?;
            push_block(alloc, text, block)?;
            Ok(())
        }
        Command::Local(x, block) => {
            push_local(alloc, text, x)?;
            push_block(alloc, text, block)?;
            Ok(())
        }
        Command::Call(results, name, arguments) => {
            push_call(alloc, text, results, name, arguments)
        }
    }
}

/// The text of the command: its tokens with one space between each two. Where the command can be
/// written, its words are those of the version and its variables have the sorts that are declared,
/// the text reads back as it in a file of the version.
pub fn write_command(alloc: Global, command: &Command) -> Result<Text, OutOfMemory>
    ensures written { IfOk result (λ text.
        text ≡ text_of (command_lexemes (command_of command.now))) }
    ensures reads_back { (version : ℕ) (declared : Declared)
        → IsWritableCommand (command_of command.now)
        → Each (IsOfVersion version) (command_lexemes (command_of command.now))
        → sorted_command declared (command_of command.now) ≡ command_of command.now
        → IfOk result (λ text. SpellsCommandAt declared (command_of command.now)
        (seen_in version (lexemes_of text))) }
{
    let mut text = Text::new(alloc);
    push_command(alloc, &mut text, command)?;
    // so each literal in it is UTF-8, as the law asks that it reads back by
    text.is_utf8();
    without_space(alloc, &text)
}
