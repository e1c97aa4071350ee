//! The lines of the report `keeps`.

ghost use Rattle.std.specs.Prelude.{◌≡◌, ◌<◌, ◌++◌, IfOk, string_bytes};
ghost use Rattle.hprof_heap.specs.HeapFacts.{facts_of, size_of};
ghost use Rattle.hprof_naming.specs.ClassNames.{AreClassNames};
ghost use Rattle.hprof_describe.specs.Findings.{AreFindings, Findings};
ghost use Rattle.hprof_retained.specs.Tree.{IsTreeOf, count_of, node_at, total_of};
ghost use Rattle.hprof_keeps.specs.KeepsText.{retained_line, total_line, weakly_line};
ghost use Rattle.hprof_keeps.specs.Order.{retained_in};
ghost use Rattle.hprof_keeps.specs.WeakSum.{sum_of};

use crate::weakly::WeakSum;
use hprof_describe::node_text;
use hprof_heap::Heap;
use hprof_naming::ClassNames;
use hprof_retained::Retained;
use std::alloc::{AllocError, Global};

/// Returns the line of the total: the bytes and the number of all nodes that strong references reach. If memory runs out, the answer is
/// `AllocError`.
pub fn total_line(alloc: Global, retained: &Retained) -> Result<String, AllocError>
    ensures { IfOk result (λ line. string_bytes line ≡ total_line (total_of retained.now)) }
{
    let bytes = retained.bytes(0);
    // Place 0 counts too, and is no node.
    let objects = retained.objects(0).saturating_sub(1);
    format!(in alloc; "{bytes} {objects} roots\n")
}

/// Returns the line of the node at a place, as [`node_line`] does. The tree may be of more objects than the heap has.
pub fn place_line(
    alloc: Global,
    heap: &Heap,
    classes: &ClassNames,
    retained: &Retained,
    front: &str,
    place: usize,
) -> Result<String, AllocError>
    requires classes { AreClassNames (facts_of heap.now) classes.now }
    requires some { 0 < place }
    requires within { place < count_of retained.now }
    ensures { (found : Findings) → AreFindings (size_of heap.now) (facts_of heap.now) found → IfOk result (λ line. string_bytes line
        ≡ front.now ++ retained_line found (retained_in retained.now) (node_at retained.now place)) }
{
    let node = node_text(alloc, heap, classes, retained.node(place))?;
    let bytes = retained.bytes(place);
    let objects = retained.objects(place);
    format!(in alloc; "{front}{bytes} {objects} {node}\n")
}

/// Returns the line of the node at a place, with what it retains, behind `front`. If memory runs out, the answer is `AllocError`.
pub fn node_line(
    alloc: Global,
    heap: &Heap,
    classes: &ClassNames,
    retained: &Retained,
    front: &str,
    place: usize,
) -> Result<String, AllocError>
    requires classes { AreClassNames (facts_of heap.now) classes.now }
    requires retained { IsTreeOf (size_of heap.now) (facts_of heap.now) retained.now }
    requires some { 0 < place }
    requires within { place < count_of retained.now }
    ensures { (found : Findings) → AreFindings (size_of heap.now) (facts_of heap.now) found → IfOk result (λ line. string_bytes line
        ≡ front.now ++ retained_line found (retained_in retained.now) (node_at retained.now place)) }
{
    place_line(alloc, heap, classes, retained, front, place)
}

/// Returns the line of the nodes that only weak references reach, or an empty text if there are none. If memory runs out, the answer is
/// `AllocError`.
pub fn weakly_line(alloc: Global, sum: &WeakSum) -> Result<String, AllocError>
    ensures { IfOk result (λ line. string_bytes line ≡ weakly_line (sum_of sum.now)) }
{
    let bytes = sum.bytes;
    let objects = sum.objects;
    if objects == 0 {
        return Ok(String::new(alloc));
    }
    format!(in alloc; "{bytes} {objects} only by weak references\n")
}
