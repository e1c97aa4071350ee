//! Class dumps without an object dump.

ghost use Rattle.std.specs.Prelude.{◌≡◌, ◌<◌, ◌↔◌, List, IfOk, IsTrue, length};
ghost use Rattle.hprof_items.specs.FactValue.{FactValue};
ghost use Rattle.hprof_heap.specs.HeapFacts.{facts_of};
ghost use Rattle.hprof_retained.specs.Tree.{count_of, node_at};
ghost use Rattle.hprof_rows.specs.Conflict.{IsConsistent};
ghost use Rattle.hprof_by_label.specs.Labels.{AreNodeLabels, place_count};
ghost use Rattle.hprof_suspects.specs.Groups.{IsClassAlone};
ghost use Rattle.hprof_suspects.specs.Grounds.{AreAlone, HasClassObjects, IsClassLabelled};

use hprof_by_label::NodeLabels;
use hprof_heap::{Heap, find_object};
use hprof_retained::Retained;
use std::alloc::{AllocError, Global};

/// Returns whether a node has no object dump.
fn has_no_object(heap: &Heap, node: u64) -> bool
    ensures { IsTrue result ↔ IsClassAlone (facts_of heap.now) node }
{
    find_object(heap, node).is_none()
}

/// Returns whether the node at a place has the label of classes.
pub(crate) fn is_class_labelled(labels: &NodeLabels, place: usize) -> bool
    requires { place < place_count labels.now }
    ensures { IsTrue result ↔ IsClassLabelled labels.now place }
{
    labels.text(labels.number(place)) == "java/lang/Class"
}

/// Returns whether the node at a place has the label of classes and no object dump. Only nodes with that label are looked up.
fn is_class_alone(heap: &Heap, retained: &Retained, labels: &NodeLabels, place: usize) -> bool
    requires as_many { place_count labels.now ≡ count_of retained.now }
    requires some { 0 < place }
    requires within { place < count_of retained.now }
    ensures { IsTrue result ↔ (IsClassLabelled labels.now place × IsClassAlone (facts_of heap.now) (node_at retained.now place)) }
{
    if !is_class_labelled(labels, place) {
        return false;
    }
    has_no_object(heap, retained.node(place))
}

/// Returns for each place whether its node is a class dump without an object dump. Of the heap only the objects are asked that are nodes
/// with the label of classes. If memory runs out, the answer is `AllocError`.
pub(crate) fn alone_of(
    alloc: Global,
    heap: &Heap,
    retained: &Retained,
    labels: &NodeLabels,
) -> Result<Vec<bool>, AllocError>
    requires { place_count labels.now ≡ count_of retained.now }
    ensures as_many { IfOk result (λ alone. length alone.items ≡ count_of retained.now) }
    ensures alone { (facts : List FactValue) → IsConsistent facts → AreNodeLabels facts retained.now labels.now
        → HasClassObjects facts retained.now labels.now (facts_of heap.now)
        → IfOk result (λ alone. AreAlone facts retained.now alone.items) }
{
    let mut alone = vec![in alloc; false; retained.len()]?;
    for place in 1..retained.len() {
        let is = is_class_alone(heap, retained, labels, place);
        alone[place] = is;
    }
    Ok(alone)
}
