// The names of kinds.
ghost use Rattle.std.specs.Prelude.{◌≡◌, ◌++◌, codes};
ghost use Rattle.model_answers.specs.Output as output;
ghost use Rattle.dom_meaning.specs.Faults.{fault_kind_of, limit_kind_of};
ghost use Rattle.dom_syntax.specs.Faults.{kind_of};
ghost use Rattle.row_patterns.specs.Verdicts.{side_in, verdict_in};

use dom_meaning::FaultKind;
use dom_syntax::FileKind;
use dom_terms::{LimitKind, SideName, Verdict};

/// The name of a fault.
pub fn fault_name(kind: FaultKind) -> &'static str
    ensures { result.now ≡ output.fault_name (fault_kind_of kind) }
{
    match kind {
        FaultKind::NoNode => "NoNode",
        FaultKind::NoList => "NoList",
        FaultKind::Cycle => "Cycle",
        FaultKind::NotChild => "NotChild",
        FaultKind::SelfRef => "SelfRef",
    }
}

/// The name of a limit.
pub fn limit_name(kind: LimitKind) -> &'static str
    ensures { result.now ≡ output.limit_name (limit_kind_of kind) }
{
    match kind {
        LimitKind::File => "file",
        LimitKind::Nesting => "nesting",
        LimitKind::Text => "text",
        LimitKind::Variables => "variables",
        LimitKind::Steps => "steps",
        LimitKind::Nodes => "nodes",
        LimitKind::Identifier => "identifier",
        LimitKind::Number => "number",
        LimitKind::Depth => "depth",
        LimitKind::Straight => "straight",
        LimitKind::Watch => "watch",
    }
}

/// The name of a kind of fault of a file.
pub fn kind_name(kind: FileKind) -> &'static str
    ensures { result.now ≡ output.kind_name (kind_of kind) }
{
    match kind {
        FileKind::Version => "version",
        FileKind::Twice => "twice",
        FileKind::Unknown => "unknown",
        FileKind::Sort => "sort",
        FileKind::Constant => "constant",
        FileKind::Results => "results",
        FileKind::Scope => "scope",
        FileKind::Rule => "rule",
        FileKind::Number => "number",
    }
}

// The name of a side condition, after the word `side`.
fn side_text(name: SideName) -> &'static str
    ensures { result.now ≡ codes "side " ++ output.side_name (side_in name) }
{
    match name {
        SideName::Free => "side free",
        SideName::Literal => "side literal",
        SideName::Coefficient => "side coefficient",
        SideName::Sum => "side sum",
        SideName::Texts => "side texts",
        SideName::Pure => "side pure",
        SideName::Modified => "side modified",
        SideName::Assigned => "side assigned",
    }
}

/// A verdict.
pub fn verdict_name(verdict: Verdict) -> &'static str
    ensures { result.now ≡ output.verdict_text (verdict_in verdict) }
{
    match verdict {
        Verdict::Instance => "instance",
        Verdict::Shape => "shape",
        Verdict::Premises => "premises",
        Verdict::Side(name) => side_text(name),
    }
}
