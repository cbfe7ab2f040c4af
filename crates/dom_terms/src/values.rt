// Values of terms and variables.
ghost use Rattle.std.specs.Prelude.{◌≡◌, IfOk};
ghost use Rattle.dom_terms.specs.Values.{value_seen};

use crate::copied::Copied;
use crate::memory::OutOfMemory;
use crate::text::Text;
use std::alloc::Global;

/// A value of a term or a variable.
#[derive(Debug, Drop)]
pub enum Value {
    /// The null node.
    NullNode,
    /// The number of a node.
    Node(u32),
    /// The null list.
    NullList,
    /// The number of a children list.
    List(u32),
    /// An integer.
    Int(i64),
    /// A text.
    Str(Text),
    /// A truth value.
    Bool(bool),
}

impl Copied for Value {
    ghost use Rattle.model_shapes.specs.Values as model;

    ghost Seen = { model.Value };

    ghost seen = { value_seen };

    fn copy(&self, alloc: Global) -> Result<Value, OutOfMemory>
        ensures { IfOk result (λ copied. value_seen copied ≡ value_seen self.now) }
    {
        Ok(match self {
            Value::NullNode => Value::NullNode,
            Value::Node(number) => Value::Node(*number),
            Value::NullList => Value::NullList,
            Value::List(number) => Value::List(*number),
            Value::Int(number) => Value::Int(*number),
            Value::Str(text) => Value::Str(text.copy(alloc)?),
            Value::Bool(truth) => Value::Bool(*truth),
        })
    }
}
