// The groves that a run may start on, and their heaps.
ghost use Rattle.std.specs.Prelude.{◌≡◌, None, IfOk, IfErr};
ghost use Rattle.model_shapes.specs.Sorts.{grove, shape};
ghost use Rattle.model_shapes.specs.Shapes.{Shaped, SameAt};
ghost use Rattle.model_documents.specs.Numbers.{first_repeat};
ghost use Rattle.grove_data.specs.Trees.{forest_of};
ghost use Rattle.logic_text.specs.RawGroves.{raw_forest_of};
ghost use Rattle.model_terms.specs.TermLimits.{or_else};
ghost use Rattle.domcheck_core.specs.Answers.{repeat_refusal, size_refusal, refusal};
ghost use Rattle.domcheck_core.specs.Refusals.{IsRefusal};

use crate::replies::Refused;
use crate::status::Status;
use crate::texts::past;
use dom_terms::{LimitKind, limits};
use fault_report::Report;
use grove_data::{Grove, UniqueFault, check_unique, has_at_most};
use logic_text::{RangeFault, RawGrove, to_grove};
use node_heap::NodeHeap;
use std::alloc::Global;

// The grove, unless it has too many nodes.
fn within_nodes(grove: Grove) -> Result<Grove, Refused>
    ensures same { IfOk result (λ kept. forest_of kept ≡ forest_of grove) }
    ensures passes { IfOk result (λ kept. size_refusal (forest_of grove) ≡ None) }
    ensures told { IfErr result (λ e. IsRefusal e (size_refusal (forest_of grove))) }
{
    if has_at_most(&grove, limits::NODES) {
        return Ok(grove);
    }
    Err(past(LimitKind::Nodes))
}

// The grove, unless a number repeats or it has too many nodes.
fn without_repeats(alloc: Global, grove: Grove) -> Result<Grove, Refused>
    ensures same { IfOk result (λ kept. forest_of kept ≡ forest_of grove) }
    ensures unique { IfOk result (λ kept. first_repeat (forest_of grove) ≡ None) }
    ensures passes { let found = repeat_refusal (forest_of grove) in
        IfOk result (λ kept. or_else found (size_refusal (forest_of grove)) ≡ None) }
    ensures told { let found = repeat_refusal (forest_of grove) in
        IfErr result (λ e. IsRefusal e (or_else found (size_refusal (forest_of grove)))) }
{
    match check_unique(alloc, &grove) {
        Ok(()) => within_nodes(grove),
        Err(UniqueFault::Repeated { kind, number }) => {
            let report = Report::Repeated { kind, number };
            Err(Refused::Answer(Status::BadDocument, report))
        }
        Err(UniqueFault::OutOfMemory) => Err(Refused::OutOfMemory),
    }
}

// The grove of a document, unless a number is out of range, a number repeats or it has too many
// nodes: the first of these, in this order.
fn fit_grove(alloc: Global, raw: &RawGrove) -> Result<Grove, Refused>
    ensures same { IfOk result (λ kept. forest_of kept ≡ raw_forest_of raw.now) }
    ensures shaped { IfOk result (λ kept. Shaped (shape grove) (raw_forest_of raw.now)) }
    ensures passes { IfOk result (λ kept. refusal (raw_forest_of raw.now) ≡ None) }
    ensures told { IfErr result (λ e. IsRefusal e (refusal (raw_forest_of raw.now))) }
{
    match to_grove(alloc, raw) {
        Ok(grove) => without_repeats(alloc, grove),
        Err(RangeFault::OutOfRange { kind, number }) => {
            let report = Report::OutOfRange { kind, number };
            Err(Refused::Answer(Status::BadDocument, report))
        }
        Err(RangeFault::OutOfMemory) => Err(Refused::OutOfMemory),
    }
}

/// The heap that stands for the grove of a document, unless a number is out of range, a number
/// repeats or it has too many nodes: the first of these, in this order. No grove is kept.
pub fn fit_heap(alloc: Global, raw: &RawGrove) -> Result<NodeHeap, Refused>
    ensures same { IfOk result (λ heap. SameAt grove (raw_forest_of raw.now) heap.grove) }
    ensures passes { IfOk result (λ heap. refusal (raw_forest_of raw.now) ≡ None) }
    ensures told { IfErr result (λ e. IsRefusal e (refusal (raw_forest_of raw.now))) }
{
    let grove = fit_grove(alloc, raw)?;
    Ok(NodeHeap::from_grove(alloc, &grove)?)
}
