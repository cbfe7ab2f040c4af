// The limits of the language, each number once, and the counted quantities that they bound.

/// The most open brackets at one token of a file.
pub const FILE_NESTING: u32 = 100;

/// The most open brackets at one token of a document.
pub const DOCUMENT_NESTING: u32 = 200;

/// The most bytes of a text.
pub const TEXT_BYTES: usize = 4096;

/// The most parameters, results and locals of one procedure.
pub const VARIABLES: usize = 64;

/// The most steps of the proofs of a file.
pub const PROOF_STEPS: usize = 65_535;

/// The most nodes of a document or a grove.
pub const NODES: usize = 100_000;

/// The greatest number of a node or a children list.
pub const IDENTIFIER: u32 = 4_294_967_295;

/// The greatest integer; the least is one below its negative.
pub const INTEGER: u64 = 9_223_372_036_854_775_807;

/// The most calls of a run that have not returned.
pub const DEPTH: usize = 10_000;

/// The most fuel of a run.
pub const FUEL: u32 = 1_000_000;

/// The most commands, but for skip and blocks, of one whose weakest precondition is computed.
pub const STRAIGHT: usize = 64;

/// The greatest weight of a formula that is watched.
pub const WATCH: u64 = 100_000_000;

/// A counted quantity that has a limit.
#[derive(Clone, Copy, Debug, PartialEq, Eq)]
pub enum LimitKind {
    /// The bytes of a file or a document.
    File,
    /// The open brackets at one token.
    Nesting,
    /// The bytes of a text.
    Text,
    /// The parameters, results and locals of one procedure.
    Variables,
    /// The steps of the proofs of a file.
    Steps,
    /// The nodes of a grove.
    Nodes,
    /// The number of a new node or children list.
    Identifier,
    /// A computed integer.
    Number,
    /// The calls that have not returned.
    Depth,
    /// The commands, but for skip and blocks, of one whose weakest precondition is computed.
    Straight,
    /// The weight of a formula that is watched.
    Watch,
}
