// What observers say.
ghost use Rattle.std.specs.Prelude.{◌≡◌, ◌++◌, map, OnOk};
ghost use Rattle.model_answers.specs.Output.{lines_of};
ghost use Rattle.run_trace.specs.Listeners.{listeners_of, said_by};

use dom_terms::{OutOfMemory, Text};
use run_trace::Observer;
use std::alloc::Global;

/// Puts the line of each observer at the end of the text, in their order.
pub fn push_lines<O: Observer>(
    alloc: Global,
    text: &mut Text,
    observers: &[O],
) -> Result<(), OutOfMemory>
    ensures { OnOk result (text.new ≡ text.old
        ++ lines_of (map said_by (listeners_of O.face O.after O.says observers.now))) }
{
    let mut rest = observers;
    'observers: while let [observer, others @ ..] = rest {
        let line = observer.line(alloc)?;
        text.append(&line)?;
        text.push('\n')?;
        rest = others;
    }
    Ok(())
}
