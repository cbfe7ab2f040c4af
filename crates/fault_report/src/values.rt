// Values.
ghost use Rattle.std.specs.Prelude.{◌≡◌, IfOk};
ghost use Rattle.dom_terms.specs.Values.{value_seen};
ghost use Rattle.model_answers.specs.Output as output;

use dom_terms::{OutOfMemory, Text, Value};
use logic_text::write_literal;
use std::alloc::Global;

/// The text of a value.
pub fn value_text(alloc: Global, value: &Value) -> Result<Text, OutOfMemory>
    ensures { IfOk result (λ text. text ≡ output.value_text (value_seen value.now)) }
{
    let text = match value {
        Value::NullNode => String::from_str(alloc, "null")?,
        Value::Node(number) => format!(in alloc; "#{number}")?,
        Value::NullList => String::from_str(alloc, "nolist")?,
        Value::List(number) => format!(in alloc; "%{number}")?,
        Value::Int(number) => format!(in alloc; "{number}")?,
        Value::Str(text) => return write_literal(alloc, text),
        Value::Bool(true) => String::from_str(alloc, "yes")?,
        Value::Bool(false) => String::from_str(alloc, "no")?,
    };
    Text::from_str(alloc, text.as_str())
}
