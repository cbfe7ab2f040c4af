// The lines of a run that ended.
ghost use Rattle.std.specs.Prelude.{◌≡◌, ◌++◌, IfOk, OnOk, map, codes, string_bytes};
ghost use Rattle.dom_terms.specs.Terms.{prog_var_of};
ghost use Rattle.dom_terms.specs.Values.{value_seen};
ghost use Rattle.model_answers.specs.Output as output;

use crate::values::value_text;
use dom_terms::{OutOfMemory, ProgVar, Text, Value};
use std::alloc::{AllocError, Global};

// The text of one result.
fn result_text(alloc: Global, name: &str, value: &str) -> Result<String, AllocError>
    ensures { IfOk result (λ text. string_bytes text ≡ name.now ++ (codes " = " ++ value.now)) }
{
    format!(in alloc; "{name} = {value}")
}

// Puts a line at the end of the text.
fn push_line(alloc: Global, text: &mut Text, line: &str) -> Result<(), OutOfMemory>
    ensures { OnOk result (text.new ≡ text.old ++ output.line line.now) }
{
    let line = Text::from_str(alloc, line)?;
    text.append(&line)?;
    text.push('\n')
}

// Puts the lines of the results at the end of the text.
fn push_results(
    alloc: Global,
    text: &mut Text,
    results: &[ProgVar],
    values: &[Value],
) -> Result<(), OutOfMemory>
    ensures { OnOk result (text.new ≡ text.old
        ++ output.result_lines (map prog_var_of results.now) (map value_seen values.now)) }
{
    let mut left = values;
    let mut rest = results;
    'results: while let [variable, others @ ..] = rest {
        let [value, more @ ..] = left else {
            return Ok(());
        };
        let value = value_text(alloc, value)?;
        let line = result_text(alloc, variable.name.as_str(), value.as_str())?;
        push_line(alloc, text, line.as_str())?;
        rest = others;
        left = more;
    }
    Ok(())
}

// The text of the first line.
fn steps_text(alloc: Global, steps: u32) -> Result<String, AllocError>
    ensures { IfOk result (λ text. string_bytes text ≡ codes "ended" ++ output.after_text steps) }
{
    format!(in alloc; "ended after {steps} steps")
}

/// The lines of a run that ended after so many steps, with these values of its results and this
/// text of the grove.
pub fn ended_text(
    alloc: Global,
    steps: u32,
    results: &[ProgVar],
    values: &[Value],
    grove: &Text,
) -> Result<Text, OutOfMemory>
    ensures { IfOk result (λ text. text ≡ output.ended_with steps (map prog_var_of results.now)
        (map value_seen values.now) grove.now) }
{
    let mut text = Text::new(alloc);
    push_line(alloc, &mut text, steps_text(alloc, steps)?.as_str())?;
    push_results(alloc, &mut text, results, values)?;
    push_line(alloc, &mut text, grove.as_str())?;
    Ok(text)
}
