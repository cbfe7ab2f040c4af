// Theories as text, line by line.
ghost use Rattle.std.specs.Prelude.{◌≡◌, [], ◌∷◌, ◌++◌, codes, map, OnOk, IfOk};
ghost use Rattle.model_text.specs.Lexemes.{terminal};
ghost use Rattle.model_text.specs.Tokens.{newline};
ghost use Rattle.model_grammar.specs.Words.{the, ◌⌢◌};
ghost use Rattle.model_grammar.specs.Writing.{spaced, text_of, in_brackets, command_lexemes};
ghost use Rattle.model_grammar.specs.TheoryWriting.{data_sort_lexemes, sort_lexemes};
ghost use Rattle.model_grammar.specs.TheoryWriting.{declaration_lexemes, reason_lexemes};
ghost use Rattle.model_grammar.specs.TheoryWriting.{argument_lexemes, judgement_lexemes};
ghost use Rattle.model_grammar.specs.TheoryWriting.{logic_line, step_line, text_of_lines};
ghost use Rattle.dom_terms.specs.Sorts.{data_sort_of, sort_of};
ghost use Rattle.dom_terms.specs.Terms.{prog_var_of, logic_var_of, term_of};
ghost use Rattle.model_commands.specs.Theories.{entails};
ghost use Rattle.model_grammar.specs.TheoryWriting.{formula_lexemes, procedure_lines, theory_text};
ghost use Rattle.model_grammar.specs.Sorts.{with_sorts};
ghost use Rattle.model_round_trip.specs.Writable.{IsWritableTheory};
ghost use Rattle.model_round_trip.specs.ReadBack.{ReadsAs};
ghost use Rattle.formula_syntax.specs.Formulas.{formula_of};
ghost use Rattle.formula_syntax.specs.Entailments.{entailment_of};
ghost use Rattle.theory_syntax.specs.Commands.{command_of};
ghost use Rattle.theory_syntax.specs.Judgements.{entails_of, triple_of, judgement_of, reason_of};
ghost use Rattle.theory_syntax.specs.Judgements.{step_of};
ghost use Rattle.theory_syntax.specs.Theories.{procedure_of, theory_of};
ghost use Rattle.theory_writing.specs.Marked.{line_text, joined_texts, header_line};

use crate::writing::{push_command, push_value_sort};
use crate::written::{TermWriter, Writer, push_bracketed};
use dom_terms::{DataSort, LogicVar, OutOfMemory, ProgVar, Sort, Terms, Text, Vars};
use formula_syntax::{Entailment, Formula};
use logic_text::{push_formula, push_numeral, push_str, push_token};
use std::alloc::Global;
use theory_syntax::{Command, Judgement, Procedure, Reason, Step, Theory, Triple};

// Puts the word for the sort at the end.
fn push_data_sort(alloc: Global, text: &mut Text, sort: DataSort) -> Result<(), OutOfMemory>
    ensures { OnOk result (text.new ≡ text.old ++ spaced (data_sort_lexemes (data_sort_of sort))) }
{
    match sort {
        DataSort::Tree => push_token(alloc, text, "t"),
        DataSort::Forest => push_token(alloc, text, "f"),
        DataSort::Grove => push_token(alloc, text, "g"),
    }
}

// Puts the word for the sort at the end, if there is one.
fn push_sort(alloc: Global, text: &mut Text, sort: Sort) -> Result<(), OutOfMemory>
    ensures { OnOk result (text.new ≡ text.old ++ spaced (sort_lexemes (sort_of sort))) }
{
    match sort {
        Sort::Value(sort) => push_value_sort(alloc, text, sort),
        Sort::Shape(sort) => push_data_sort(alloc, text, sort),
        Sort::Context(DataSort::Tree, DataSort::Tree) => push_token(alloc, text, "tt"),
        Sort::Context(DataSort::Tree, DataSort::Forest) => push_token(alloc, text, "tf"),
        Sort::Context(DataSort::Tree, DataSort::Grove) => push_token(alloc, text, "tg"),
        Sort::Context(DataSort::Forest, DataSort::Tree) => push_token(alloc, text, "ft"),
        Sort::Context(DataSort::Forest, DataSort::Forest) => push_token(alloc, text, "ff"),
        Sort::Context(DataSort::Forest, DataSort::Grove) => push_token(alloc, text, "fg"),
        Sort::Context(DataSort::Grove, DataSort::Grove) => push_token(alloc, text, "gg"),
        Sort::Context(DataSort::Grove, DataSort::Tree) => Ok(()),
        Sort::Context(DataSort::Grove, DataSort::Forest) => Ok(()),
    }
}

// Writes numbers of steps.
#[derive(Clone, Copy)]
struct NumberWriter;

impl Writer<u32> for NumberWriter {
    ghost use Rattle.model_grammar.specs.TheoryWriting.{number_lexemes};

    ghost lexemes = { number_lexemes };

    fn push(&self, alloc: Global, text: &mut Text, item: &u32) -> Result<(), OutOfMemory>
        ensures { OnOk result (text.new ≡ text.old ++ spaced (number_lexemes item.now)) }
    {
        push_numeral(alloc, text, u64::from(*item))
    }
}

// Puts the arguments of a rule at the end.
fn push_arguments(alloc: Global, text: &mut Text, arguments: &Terms) -> Result<(), OutOfMemory>
    ensures { OnOk result
        (text.new ≡ text.old ++ spaced (argument_lexemes (map term_of arguments.now))) }
{
    if arguments.is_empty() {
        return Ok(());
    }
    push_token(alloc, text, "with")?;
    push_bracketed(alloc, text, &TermWriter, arguments.as_slice())?;
    Ok(())
}

// Puts at the end why a step holds.
fn push_reason(alloc: Global, text: &mut Text, reason: &Reason) -> Result<(), OutOfMemory>
    ensures { OnOk result (text.new ≡ text.old
        ++ spaced (reason_lexemes 1 (reason_of reason.now))) }
{
    match reason {
        Reason::Auto => push_token(alloc, text, "auto"),
        Reason::Rule {
            name,
            premises,
            arguments,
        } => {
            push_token(alloc, text, "by")?;
            push_token(alloc, text, name.as_str())?;
            push_bracketed(alloc, text, &NumberWriter, premises.as_slice())?;
            push_arguments(alloc, text, arguments)?;
            Ok(())
        }
    }
}

// Puts what an entailment says at the end.
#[tactic(auto, using(model_grammar::proofs::Spaced::spaced_rules))]
fn push_entailment(
    alloc: Global,
    text: &mut Text,
    entailment: &Entailment,
) -> Result<(), OutOfMemory>
    ensures { OnOk result (text.new ≡ text.old
        ++ spaced (judgement_lexemes (entails_of (entailment_of entailment.now)))) }
{
    push_formula(alloc, text, &entailment.left)?;
    push_token(alloc, text, "entails")?;
    push_formula(alloc, text, &entailment.right)?;
    push_token(alloc, text, "at")?;
    push_sort(alloc, text, entailment.sort)?;
    Ok(())
}

// Puts what a triple says at the end.
#[tactic(auto, using(model_grammar::proofs::Spaced::spaced_rules))]
fn push_triple(alloc: Global, text: &mut Text, triple: &Triple) -> Result<(), OutOfMemory>
    ensures { OnOk result
        (text.new ≡ text.old ++ spaced (judgement_lexemes (triple_of triple.now))) }
{
    push_token(alloc, text, "pre")?;
    push_formula(alloc, text, &triple.pre)?;
    push_token(alloc, text, "do")?;
    push_command(alloc, text, &triple.command)?;
    push_token(alloc, text, "post")?;
    push_formula(alloc, text, &triple.post)?;
    push_token(alloc, text, "at")?;
    push_data_sort(alloc, text, triple.sort)?;
    Ok(())
}

// Puts what a step says at the end.
fn push_judgement(alloc: Global, text: &mut Text, judgement: &Judgement) -> Result<(), OutOfMemory>
    ensures { OnOk result
        (text.new ≡ text.old ++ spaced (judgement_lexemes (judgement_of judgement.now))) }
{
    match judgement {
        Judgement::Entails(entailment) => push_entailment(alloc, text, entailment),
        Judgement::Triple(triple) => push_triple(alloc, text, triple),
    }
}

/// What is written as whole lines.
pub trait Lines: Sized {
    ghost use Rattle.std.specs.Prelude.{List, ℕ};

    // the text of the lines
    ghost own_text: { Self → List ℕ };

    /// Puts the lines at the end.
    fn push_lines(&self, alloc: Global, text: &mut Text) -> Result<(), OutOfMemory>
        ensures { OnOk result (text.new ≡ text.old ++ own_text self.now) };
}

impl Lines for Step {
    ghost own_text = { λ step. line_text (step_line 1 (step_of step)) };

    #[tactic(auto, using(model_grammar::proofs::Spaced::spaced_rules))]
    fn push_lines(&self, alloc: Global, text: &mut Text) -> Result<(), OutOfMemory>
        ensures { OnOk result (text.new ≡ text.old ++ line_text (step_line 1 (step_of self.now))) }
    {
        push_str(alloc, text, "step")?;
        push_numeral(alloc, text, u64::from(self.number))?;
        push_reason(alloc, text, &self.reason)?;
        push_token(alloc, text, ":")?;
        push_judgement(alloc, text, &self.judgement)?;
        push_token(alloc, text, ";")?;
        push_str(alloc, text, "\n")?;
        Ok(())
    }
}

impl Lines for LogicVar {
    ghost own_text = { λ variable. line_text (logic_line (logic_var_of variable)) };

    #[tactic(auto, using(model_grammar::proofs::Spaced::spaced_rules))]
    fn push_lines(&self, alloc: Global, text: &mut Text) -> Result<(), OutOfMemory>
        ensures { OnOk result
            (text.new ≡ text.old ++ line_text (logic_line (logic_var_of self.now))) }
    {
        push_str(alloc, text, "logic")?;
        push_sort(alloc, text, self.sort)?;
        push_token(alloc, text, self.name.as_str())?;
        push_token(alloc, text, ";")?;
        push_str(alloc, text, "\n")?;
        Ok(())
    }
}

/// Puts the lines of each item at the end.
pub fn push_each<T: Lines>(alloc: Global, text: &mut Text, items: &[T]) -> Result<(), OutOfMemory>
    ensures { OnOk result (text.new ≡ text.old ++ joined_texts (map T.own_text items.now)) }
{
    for item in items {
        item.push_lines(alloc, text)?;
    }
    Ok(())
}

// Puts the line of a formula after a word at the end.
#[tactic(auto, using(model_grammar::proofs::Spaced::spaced_rules))]
fn push_condition_line(
    alloc: Global,
    text: &mut Text,
    word: &str,
    formula: &Formula,
) -> Result<(), OutOfMemory>
    ensures { OnOk result (text.new ≡ text.old
        ++ line_text (terminal word.now ∷ formula_lexemes (formula_of formula.now))) }
{
    push_str(alloc, text, word)?;
    push_formula(alloc, text, formula)?;
    push_str(alloc, text, "\n")?;
    Ok(())
}

// Puts the line of a body at the end.
#[tactic(auto, using(model_grammar::proofs::Spaced::spaced_rules))]
fn push_body(alloc: Global, text: &mut Text, body: &Command) -> Result<(), OutOfMemory>
    ensures { OnOk result (text.new ≡ text.old
        ++ line_text (the "body" ⌢ command_lexemes (command_of body.now))) }
{
    push_str(alloc, text, "body")?;
    push_command(alloc, text, body)?;
    push_str(alloc, text, "\n")?;
    Ok(())
}

// Writes variables as they are declared.
#[derive(Clone, Copy)]
struct DeclarationWriter;

impl Writer<ProgVar> for DeclarationWriter {
    ghost lexemes = { λ variable. declaration_lexemes (prog_var_of variable) };

    #[tactic(auto, using(model_grammar::proofs::Spaced::spaced_rules))]
    fn push(&self, alloc: Global, text: &mut Text, item: &ProgVar) -> Result<(), OutOfMemory>
        ensures { OnOk result
            (text.new ≡ text.old ++ spaced (declaration_lexemes (prog_var_of item.now))) }
    {
        push_token(alloc, text, item.name.as_str())?;
        push_token(alloc, text, ":")?;
        push_value_sort(alloc, text, item.sort)?;
        Ok(())
    }
}

// Puts the declarations of some variables at the end, in brackets and with commas between them.
fn push_declared(alloc: Global, text: &mut Text, variables: &Vars) -> Result<(), OutOfMemory>
    ensures { OnOk result (text.new ≡ text.old
        ++ spaced (in_brackets (map declaration_lexemes (map prog_var_of variables.now)))) }
{
    push_bracketed(alloc, text, &DeclarationWriter, variables.as_slice())?;
    Ok(())
}

// Puts the first line of a procedure at the end.
#[tactic(auto, using(model_grammar::proofs::Spaced::spaced_rules))]
fn push_header(alloc: Global, text: &mut Text, procedure: &Procedure) -> Result<(), OutOfMemory>
    ensures { OnOk result
        (text.new ≡ text.old ++ line_text (header_line (procedure_of procedure.now))) }
{
    push_str(alloc, text, "proc")?;
    push_token(alloc, text, procedure.name.as_str())?;
    push_declared(alloc, text, &procedure.params)?;
    push_token(alloc, text, "returns")?;
    push_declared(alloc, text, &procedure.results)?;
    push_token(alloc, text, "sort")?;
    push_data_sort(alloc, text, procedure.sort)?;
    push_str(alloc, text, "\n")?;
    Ok(())
}

impl Lines for Procedure {
    ghost own_text = { λ procedure. text_of_lines (procedure_lines 1 (procedure_of procedure)) };

    fn push_lines(&self, alloc: Global, text: &mut Text) -> Result<(), OutOfMemory>
        ensures { OnOk result (text.new ≡ text.old
            ++ text_of_lines (procedure_lines 1 (procedure_of self.now))) }
    {
        push_header(alloc, text, self)?;
        push_condition_line(alloc, text, "requires", &self.pre)?;
        push_condition_line(alloc, text, "ensures", &self.post)?;
        push_body(alloc, text, &self.body)?;
        push_str(alloc, text, "proof\n")?;
        push_each(alloc, text, self.proof.as_slice())?;
        push_str(alloc, text, "end\n")?;
        Ok(())
    }
}

/// The text of the theory: its tokens with one space between each two, or a newline before each of
/// the words that begin a line; and a newline at the end. Where the theory can be written and each
/// variable has the sort of its declaration, the text reads back as it, but for the lines of steps.
pub fn write_theory(alloc: Global, theory: &Theory) -> Result<Text, OutOfMemory>
    ensures written { IfOk result (λ text. text ≡ theory_text (theory_of theory.now)) }
    ensures reads_back { IsWritableTheory (theory_of theory.now)
        → with_sorts (theory_of theory.now) ≡ theory_of theory.now
        → IfOk result (λ text. ReadsAs (theory_of theory.now) text) }
{
    let mut text = Text::new(alloc);
    push_str(alloc, &mut text, "domlogic")?;
    push_numeral(alloc, &mut text, u64::from(theory.version))?;
    push_str(alloc, &mut text, "\n")?;
    push_each(alloc, &mut text, theory.logic.as_slice())?;
    push_each(alloc, &mut text, theory.procedures.as_slice())?;
    // so each literal in it is UTF-8, as the law asks that it reads back by
    text.is_utf8();
    Ok(text)
}
