// Observers of what runs change.
ghost use Rattle.std.specs.Prelude.{◌≡◌, ℕ, List, IfOk, OnOk, OnErr};
ghost use Rattle.model_machine.specs.Changes as model;
ghost use Rattle.run_trace.specs.Changes.{change_of};

use crate::changes::Change;
use dom_terms::{OutOfMemory, Text};
use std::alloc::Global;

/// Is told what a run changes.
pub trait Observer: Drop {
    /// What it holds, as numbers.
    ghost face: { Self → List ℕ };

    /// What it holds when it was told a change.
    ghost after: { Self → List ℕ → model.Change → List ℕ };

    /// What it says of what it holds.
    ghost says: { Self → List ℕ → List ℕ };

    /// Tells it a change. Where memory is refused its face is as it was.
    fn tell(&mut self, alloc: Global, change: &Change) -> Result<(), OutOfMemory>
        ensures told { OnOk result (face self.new
            ≡ after self.old (face self.old) (change_of change.now)) }
        ensures as_before { OnErr result (face self.new ≡ face self.old) }
        ensures after { after self.new ≡ after self.old }
        ensures says { says self.new ≡ says self.old };

    /// Its line, without a newline.
    fn line(&self, alloc: Global) -> Result<Text, OutOfMemory>
        ensures { IfOk result (λ text. text ≡ says self.now (face self.now)) };
}

impl Observer for Box<dyn Observer> {
    ghost face = { λ observer. (Observer-box observer).face observer.value };

    ghost after = { λ observer. (Observer-box observer).after observer.value };

    ghost says = { λ observer. (Observer-box observer).says observer.value };

    fn tell(&mut self, alloc: Global, change: &Change) -> Result<(), OutOfMemory> {
        (**self).tell(alloc, change)
    }

    fn line(&self, alloc: Global) -> Result<Text, OutOfMemory> {
        (**self).line(alloc)
    }
}
