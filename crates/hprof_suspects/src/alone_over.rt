//! Class dumps without an object dump, by passes over objects.

ghost use Rattle.std.specs.Prelude.{◌≡◌, ◌<◌, ℕ, List, Contains, IfOk, OnOk, length};
ghost use Rattle.std.specs.List.Sorted.{IsStrictlyIncreasing};
ghost use Rattle.hprof_heap.specs.HeapFacts.{facts_of, size_of};
ghost use Rattle.hprof_passes.specs.Finding.{Finds};
ghost use Rattle.hprof_retained.specs.Tree.{count_of, node_at};
ghost use Rattle.hprof_by_label.specs.Labels.{AreNodeLabels, place_count};
ghost use Rattle.hprof_suspects.specs.Grounds.{AreAlone, IsClassLabelled};

use crate::alone::{alone_of, is_class_labelled};
use hprof_by_label::NodeLabels;
use hprof_heap::Heap;
use hprof_passes::{Objects, PassFault};
use hprof_reach::sort_once;
use hprof_retained::Retained;
use hprof_small::small_heap;
use std::alloc::{AllocError, Global};

/// Appends the nodes of a tree that have the label of classes.
fn push_class_nodes(
    retained: &Retained,
    labels: &NodeLabels,
    nodes: &mut Vec<u64>,
) -> Result<(), AllocError>
    requires { place_count labels.now ≡ count_of retained.now }
    ensures { OnOk result ((place : ℕ) → 0 < place → place < count_of retained.now → IsClassLabelled labels.now place
        → Contains nodes.new.items (node_at retained.now place)) }
{
    for place in 1..retained.len() {
        if is_class_labelled(labels, place) {
            nodes.push(retained.node(place))?;
        }
    }
    Ok(())
}

/// Returns the nodes of a tree that have the label of classes, sorted, each once. If memory runs out, the answer is `AllocError`.
fn class_nodes(
    alloc: Global,
    retained: &Retained,
    labels: &NodeLabels,
) -> Result<Vec<u64>, AllocError>
    requires { place_count labels.now ≡ count_of retained.now }
    ensures ascend { IfOk result (λ nodes. IsStrictlyIncreasing nodes.items) }
    ensures has { IfOk result (λ nodes. (place : ℕ) → 0 < place → place < count_of retained.now → IsClassLabelled labels.now place
        → Contains nodes.items (node_at retained.now place)) }
{
    let mut nodes = Vec::new(alloc);
    push_class_nodes(retained, labels, &mut nodes)?;
    sort_once(&mut nodes)?;
    Ok(nodes)
}

/// Returns for each place of a tree whether its node is a class dump without an object dump. The heap has all facts but objects, of which
/// those that have the label of classes are picked. Memory holds these.
///
/// # Errors
///
/// Those of `small_heap`.
pub(crate) fn alone_over<O: Objects>(
    alloc: Global,
    heap: &Heap,
    objects: &O,
    retained: &Retained,
    labels: &NodeLabels,
) -> Result<Vec<bool>, PassFault<AllocError, O::Fault>>
    requires { place_count labels.now ≡ count_of retained.now }
    ensures as_many { IfOk result (λ alone. length alone.items ≡ count_of retained.now) }
    ensures alone { Finds (O.make_up objects.now (size_of heap.now) (facts_of heap.now))
        (O.agree objects.now (size_of heap.now) (facts_of heap.now)) (O.tells objects.now (size_of heap.now) (facts_of heap.now))
        (λ all alone. AreNodeLabels all retained.now labels.now → AreAlone all retained.now alone.items) result }
{
    let nodes = match class_nodes(alloc, retained, labels) {
        Ok(nodes) => nodes,
        Err(fault) => return Err(PassFault::Sink(fault)),
    };
    let small = small_heap(alloc, heap, objects, &nodes)?;
    match alone_of(alloc, &small, retained, labels) {
        Ok(alone) => Ok(alone),
        Err(fault) => Err(PassFault::Sink(fault)),
    }
}
