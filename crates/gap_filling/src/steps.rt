// The room for steps.
ghost use Rattle.std.specs.Prelude.{◌≡◌, ℕ, true, codes, map};
ghost use Rattle.std.specs.List.{list_all};
ghost use Rattle.theory_writing.specs.Marked.{marked};
ghost use Rattle.model_grammar.specs.Writing.{in_brackets};
ghost use Rattle.model_grammar.specs.TheoryWriting.{argument_lexemes, data_sort_lexemes};
ghost use Rattle.model_grammar.specs.TheoryWriting.{judgement_lexemes, number_lexemes};
ghost use Rattle.model_grammar.specs.TheoryWriting.{reason_lexemes, sort_lexemes, step_line};
ghost use Rattle.model_filling.specs.Sizes.{offer_lexemes};
ghost use Rattle.dom_terms.specs.Sorts.{data_sort_of, sort_of};
ghost use Rattle.dom_terms.specs.Terms.{term_of};
ghost use Rattle.formula_syntax.specs.Entailments.{entailment_of};
ghost use Rattle.theory_syntax.specs.Judgements.{entails_of, triple_of, judgement_of, reason_of};
ghost use Rattle.theory_syntax.specs.Judgements.{step_of};
ghost use Rattle.gap_filling.specs.Measured.{measured};
ghost use Rattle.gap_filling.specs.Numbers.{citations_fit, citations_of, numbers_fit};

use crate::commands::{measure_command, measure_value_sort};
use crate::formulas::measure_formula;
use crate::items::measure_bracketed;
use crate::meters::Meter;
use dom_terms::{DataSort, Sort, Terms};
use formula_syntax::Entailment;
use theory_syntax::{Judgement, Reason, Step, Triple};

// Takes the room for a sort of data.
fn measure_data_sort(meter: &mut Meter, sort: DataSort)
    ensures { meter.new ≡ measured meter.old (data_sort_lexemes (data_sort_of sort)) }
{
    match sort {
        DataSort::Tree => meter.name("t"),
        DataSort::Forest => meter.name("f"),
        DataSort::Grove => meter.name("g"),
    }
}

// Takes the room for a sort, if there is a word for it.
fn measure_sort(meter: &mut Meter, sort: Sort)
    ensures { meter.new ≡ measured meter.old (sort_lexemes (sort_of sort)) }
{
    match sort {
        Sort::Value(sort) => measure_value_sort(meter, sort),
        Sort::Shape(sort) => measure_data_sort(meter, sort),
        Sort::Context(DataSort::Tree, DataSort::Tree) => meter.name("tt"),
        Sort::Context(DataSort::Tree, DataSort::Forest) => meter.name("tf"),
        Sort::Context(DataSort::Tree, DataSort::Grove) => meter.name("tg"),
        Sort::Context(DataSort::Forest, DataSort::Tree) => meter.name("ft"),
        Sort::Context(DataSort::Forest, DataSort::Forest) => meter.name("ff"),
        Sort::Context(DataSort::Forest, DataSort::Grove) => meter.name("fg"),
        Sort::Context(DataSort::Grove, DataSort::Grove) => meter.name("gg"),
        Sort::Context(DataSort::Grove, DataSort::Tree) => {}
        Sort::Context(DataSort::Grove, DataSort::Forest) => {}
    }
}

// Takes the room for numbers that are cited, each after a mark.
fn measure_marked_numbers(meter: &mut Meter, numbers: &[u32])
    ensures { meter.new ≡ measured meter.old
        (marked (codes "(") (codes ",") (map number_lexemes numbers.now)) }
{
    let mut mark = "(";
    for number in numbers {
        meter.token(mark);
        meter.numeral(u64::from(*number));
        mark = ",";
    }
}

// Takes the room for numbers that are cited, in brackets. Each has 32 bits, so it is in the range
// of a literal.
fn measure_numbers(meter: &mut Meter, numbers: &[u32])
    ensures room { meter.new ≡ measured meter.old (in_brackets (map number_lexemes numbers.now)) }
    ensures small { citations_fit numbers.now ≡ true }
{
    if numbers.is_empty() {
        meter.token("(");
        meter.token(")");
        return;
    }
    measure_marked_numbers(meter, numbers);
    meter.token(")");
}

// Takes the room for the arguments of a rule.
fn measure_arguments(meter: &mut Meter, arguments: &Terms)
    ensures { meter.new ≡ measured meter.old (argument_lexemes (map term_of arguments.now)) }
{
    if !arguments.is_empty() {
        meter.token("with");
        measure_bracketed(meter, arguments.as_slice());
    }
}

// Takes the room for why a step holds.
fn measure_reason(meter: &mut Meter, reason: &Reason)
    ensures room { (version : ℕ)
        → meter.new ≡ measured meter.old (reason_lexemes version (reason_of reason.now)) }
    ensures small { citations_fit (citations_of (reason_of reason.now)) ≡ true }
{
    match reason {
        Reason::Auto => meter.token("auto"),
        Reason::Rule {
            name,
            premises,
            arguments,
        } => {
            meter.token("by");
            meter.rule_name(name.as_str());
            measure_numbers(meter, premises.as_slice());
            measure_arguments(meter, arguments);
        }
    }
}

// Takes the room for what an entailment says.
#[tactic(auto, using(crate::proofs::Measures::measured_rules))]
fn measure_entailment(meter: &mut Meter, entailment: &Entailment)
    ensures { meter.new ≡ measured meter.old
        (judgement_lexemes (entails_of (entailment_of entailment.now))) }
{
    measure_formula(meter, &entailment.left);
    meter.token("entails");
    measure_formula(meter, &entailment.right);
    meter.token("at");
    measure_sort(meter, entailment.sort);
}

// Takes the room for what a triple says.
#[tactic(auto, using(crate::proofs::Measures::measured_rules))]
fn measure_triple(meter: &mut Meter, triple: &Triple)
    ensures { meter.new ≡ measured meter.old (judgement_lexemes (triple_of triple.now)) }
{
    meter.token("pre");
    measure_formula(meter, &triple.pre);
    meter.token("do");
    measure_command(meter, &triple.command);
    meter.token("post");
    measure_formula(meter, &triple.post);
    meter.token("at");
    measure_data_sort(meter, triple.sort);
}

// Takes the room for what a step says.
fn measure_judgement(meter: &mut Meter, judgement: &Judgement)
    ensures { meter.new ≡ measured meter.old (judgement_lexemes (judgement_of judgement.now)) }
{
    match judgement {
        Judgement::Entails(entailment) => measure_entailment(meter, entailment),
        Judgement::Triple(triple) => measure_triple(meter, triple),
    }
}

// Takes the room for a step.
fn measure_step(meter: &mut Meter, step: &Step)
    ensures room { (version : ℕ)
        → meter.new ≡ measured meter.old (step_line version (step_of step.now)) }
    ensures small { numbers_fit (step_of step.now) ≡ true }
{
    meter.step();
    meter.numeral(u64::from(step.number));
    measure_reason(meter, &step.reason);
    meter.token(":");
    measure_judgement(meter, &step.judgement);
    meter.token(";");
}

/// Takes the room for the steps.
pub(crate) fn measure_steps(meter: &mut Meter, steps: &[Step])
    ensures room { (version : ℕ)
        → meter.new ≡ measured meter.old (offer_lexemes version (map step_of steps.now)) }
    ensures small { list_all numbers_fit (map step_of steps.now) ≡ true }
{
    for step in steps {
        measure_step(meter, step);
    }
}
