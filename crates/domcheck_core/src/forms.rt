// What is shown of a run.

/// What is shown of a run on a document.
#[derive(Clone, Copy, Debug, PartialEq, Eq)]
pub enum RunForm {
    /// How it comes out.
    OnlyOutcome,
    /// The same, and before it what each of its steps changes.
    WithChanges,
    /// How it comes out, with whether requires holds before it and ensures at its end.
    WithVerdicts,
}
