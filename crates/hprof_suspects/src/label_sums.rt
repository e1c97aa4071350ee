//! The pieces of a part, added up by label.

ghost use Rattle.std.specs.Prelude.{◌≡◌, ◌<◌, ◌↔◌, List, IfOk, IsTrue, length};
ghost use Rattle.hprof_values.specs.declared.ids.IdSize.{IdSize};
ghost use Rattle.hprof_items.specs.FactValue.{FactValue};
ghost use Rattle.hprof_rows.specs.Conflict.{IsConsistent};
ghost use Rattle.hprof_numbers.specs.Numbers.{items_in};
ghost use Rattle.hprof_retained.specs.Tree.{IsTreeOf, count_of};
ghost use Rattle.hprof_by_label.specs.Labels.{AreNodeLabels, label_count, place_count};
ghost use Rattle.hprof_suspects.specs.Heads.{AreHeads};
ghost use Rattle.hprof_suspects.specs.LabelSums.{AreLabelSums, IsPieceAt};
ghost use Rattle.hprof_suspects.specs.PartPlaces.{AreParts};

use crate::large::over;
use hprof_by_label::NodeLabels;
use hprof_numbers::Numbers;
use hprof_retained::Retained;
use std::alloc::{AllocError, Global};

/// For each label, by its number, the sums over the pieces of a part that have it.
#[derive(Drop)]
pub(crate) struct LabelSums {
    /// The bytes that they retain.
    pub(crate) bytes: Vec<u128>,
    /// Their number.
    pub(crate) counts: Vec<usize>,
}

/// Returns whether a place is that of a head right below a part that is no part.
fn is_piece(
    retained: &Retained,
    heads: &Numbers,
    parts: &Vec<bool>,
    part: usize,
    place: usize,
) -> bool
    requires heads { length (items_in heads.now) ≡ count_of retained.now }
    requires parts { length parts.now.items ≡ count_of retained.now }
    requires within { place < count_of retained.now }
    ensures { IsTrue result ↔ IsPieceAt retained.now (items_in heads.now) parts.now.items part place }
{
    if heads.get(place) != place {
        return false;
    }
    if over(retained, heads, place) != part {
        return false;
    }
    !parts[place]
}

/// Returns what the pieces of a part retain, added up by label. If memory runs out, the answer is `AllocError`.
pub(crate) fn label_sums(
    alloc: Global,
    retained: &Retained,
    labels: &NodeLabels,
    heads: &Numbers,
    parts: &Vec<bool>,
    part: usize,
) -> Result<LabelSums, AllocError>
    requires labels { place_count labels.now ≡ count_of retained.now }
    requires heads { length (items_in heads.now) ≡ count_of retained.now }
    requires parts { length parts.now.items ≡ count_of retained.now }
    requires within { part < count_of retained.now }
    ensures bytes { IfOk result (λ sums. length sums.bytes.items ≡ label_count labels.now) }
    ensures counts { IfOk result (λ sums. length sums.counts.items ≡ label_count labels.now) }
    ensures sums { (ids : IdSize) (facts : List FactValue) → IsConsistent facts → IsTreeOf ids facts retained.now
        → AreNodeLabels facts retained.now labels.now → AreHeads ids facts retained.now (items_in heads.now)
        → AreParts ids facts retained.now parts.now.items
        → IfOk result (λ sums. AreLabelSums ids facts retained.now labels.now part sums.bytes.items sums.counts.items) }
{
    // No sum is more than what the part retains.
    let most = retained.bytes(part);
    let mut bytes: Vec<u128> = vec![in alloc; 0; labels.len()]?;
    let mut counts: Vec<usize> = vec![in alloc; 0; labels.len()]?;
    for place in 1..retained.len() {
        if is_piece(retained, heads, parts, part, place) {
            let label = labels.number(place);
            let sum = bytes[label].saturating_add(retained.bytes(place));
            bytes[label] = sum.min(most);
            counts[label] += 1;
        }
    }
    Ok(LabelSums { bytes, counts })
}
