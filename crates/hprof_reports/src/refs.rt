//! The report `refs`: every reference to an identifier.

ghost use Rattle.std.specs.Prelude.{◌≡◌, map};
ghost use Rattle.hprof_devices.specs.declared.health.Health.TheVariants.{Well};
ghost use Rattle.hprof_lines.specs.Line.{text_of_lines};
ghost use Rattle.hprof_reports.specs.RefsText.{edge_line, via_word};
ghost use Rattle.hprof_lines.specs.Stopping.{LeavesTarget, WritesText};

use crate::entries::{Entry, write_entries};
use hprof_devices::Target;
use hprof_edges::{Edge, Via};
use hprof_engine::ProductFault;
use hprof_heap::Heap;
use std::alloc::{AllocError, Global};

/// Returns the word for a kind of reference.
pub fn via_word(via: Via) -> &'static str
    ensures { result.now ≡ via_word via }
{
    match via {
        Via::Class => "class",
        Via::Parent => "super",
        Via::Loader => "loader",
        Via::Signers => "signers",
        Via::Domain => "domain",
        Via::Constant => "constant",
        Via::Static => "static",
        Via::Field => "field",
        Via::Element => "element",
    }
}

impl Entry for Edge {
    ghost line_at = { λ naming ids place. edge_line };

    fn line(&self, alloc: Global, _heap: &Heap, _place: u64) -> Result<String, AllocError> {
        let Edge {
            from,
            via,
            position,
            ..
        } = *self;
        let word = via_word(via);
        format!(in alloc; "{from:x} {word} {position}\n")
    }
}

/// Writes a line for each of these edges of a heap. If the writer fails or memory runs out, the bytes written are the beginning
/// of the lines.
pub fn write_refs<W: Target>(
    alloc: Global,
    heap: &Heap,
    edges: &[Edge],
    target: &mut W,
) -> Result<(), ProductFault>
    requires { W.health target.old ≡ Well }
    ensures bytes { WritesText (W.written target.old) (W.written target.new) result (text_of_lines (map edge_line edges.now)) }
    ensures health { LeavesTarget result (W.health target.new) }
{
    write_entries(alloc, heap, edges.len(), edges, target)
}
