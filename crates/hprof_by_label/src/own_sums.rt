//! The bytes and the number of the nodes of each label.

ghost use Rattle.std.specs.Prelude.{◌≡◌, IfOk, List, length};
ghost use Rattle.hprof_values.specs.declared.ids.IdSize.{IdSize};
ghost use Rattle.hprof_items.specs.FactValue.{FactValue};
ghost use Rattle.hprof_rows.specs.Conflict.{IsConsistent};
ghost use Rattle.hprof_retained.specs.Tree.{IsTreeOf, count_of};
ghost use Rattle.hprof_by_label.specs.Labels.{AreNodeLabels, HaveSizes, label_count, place_count};
ghost use Rattle.hprof_by_label.specs.Sums.{AreOwnSums};

use crate::node_labels::NodeLabels;
use hprof_retained::Retained;
use std::alloc::{AllocError, Global};

/// For each label, by its number, the sums over the nodes that have it.
#[derive(Drop)]
pub(crate) struct OwnSums {
    /// Bytes.
    pub(crate) bytes: Vec<u128>,
    /// The number of nodes.
    pub(crate) counts: Vec<usize>,
}

/// Returns the bytes and the number of the nodes of each label, in one pass over the nodes of a tree. If memory runs out, the answer is
/// `AllocError`.
pub(crate) fn own_sums(
    alloc: Global,
    retained: &Retained,
    labels: &NodeLabels,
) -> Result<OwnSums, AllocError>
    requires { place_count labels.now ≡ count_of retained.now }
    ensures bytes { IfOk result (λ sums. length sums.bytes.items ≡ label_count labels.now) }
    ensures counts { IfOk result (λ sums. length sums.counts.items ≡ label_count labels.now) }
    ensures sums { (ids : IdSize) (facts : List FactValue) → IsConsistent facts → IsTreeOf ids facts retained.now
        → AreNodeLabels facts retained.now labels.now → HaveSizes ids facts retained.now labels.now
        → IfOk result (λ sums. AreOwnSums ids facts labels.now sums.bytes.items sums.counts.items) }
{
    let nodes = retained.nodes();
    let mut bytes: Vec<u128> = vec![in alloc; 0; labels.len()]?;
    let mut counts: Vec<usize> = vec![in alloc; 0; labels.len()]?;
    for number in 0..nodes.len() {
        let place = retained.place_by_number(number);
        if place != 0 {
            let label = labels.number(place);
            bytes[label] += labels.size(place) as u128;
            counts[label] += 1;
        }
    }
    Ok(OwnSums { bytes, counts })
}
