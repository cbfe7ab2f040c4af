// How a call of the program ends.
ghost use Rattle.std.specs.Prelude.{◌≡◌};
ghost use Rattle.domcheck_core.specs.Numbers.{status_number};

use dom_terms::LimitKind;

/// How a call of the program ended.
#[derive(Clone, Copy, Debug, PartialEq, Eq)]
pub enum Status {
    /// The whole output of the command was written.
    Done,
    /// The first bad place is a step that isn't an instance of its rule, or the end of a proof that
    /// doesn't end in its procedure's own triple.
    StepFails,
    /// The words have none of the forms, or they name no procedure of the file or no arguments for
    /// it.
    BadWords,
    /// The tokens of the file spell no theory, or those of the document no grove.
    BadText,
    /// The file reads and isn't well formed.
    BadFile,
    /// A number of the document is out of range, or one repeats.
    BadDocument,
    /// The run faults within the fuel.
    Faulted,
    /// The run still has a pending piece when the fuel is spent.
    FuelSpent,
    /// A counted quantity passes its limit.
    Limit(LimitKind),
    /// The first bad place of the file is a gap, a step whose reason is left open; where gaps are
    /// filled, one that nobody fills.
    GapLeft,
    /// Memory ran out, at any place; nothing was written.
    OutOfMemory,
    /// The library failed while the file or the document was read; nothing was written.
    ReadFault,
    /// The sink failed; a prefix of the output was written.
    WriteFault,
    /// The procedure whose weakest precondition is asked for doesn't speak of groves, or its body
    /// isn't straight-line.
    NotStraight,
    /// The procedure that is watched doesn't speak of groves, or its requires or its ensures can't
    /// be judged by going over the nodes that are there.
    NotWatchable,
}

impl Status {
    /// The exit status of the program, by which scripts tell how it ended.
    pub fn number(&self) -> u8
        ensures { result ≡ status_number self.now }
    {
        match self {
            Status::Done => 0,
            Status::StepFails => 1,
            Status::BadWords => 2,
            Status::BadText => 3,
            Status::BadFile => 4,
            Status::BadDocument => 5,
            Status::Faulted => 6,
            Status::FuelSpent => 7,
            Status::Limit(_) => 8,
            Status::GapLeft => 9,
            Status::OutOfMemory => 10,
            Status::ReadFault => 11,
            Status::WriteFault => 12,
            Status::NotStraight => 13,
            Status::NotWatchable => 14,
        }
    }
}
