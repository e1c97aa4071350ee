//! Parts of a heap.

ghost use Rattle.std.specs.Prelude.{◌≡◌, ◌<◌, ◌↔◌, List, IfOk, IsTrue, length};
ghost use Rattle.hprof_values.specs.declared.ids.IdSize.{IdSize};
ghost use Rattle.hprof_items.specs.FactValue.{FactValue};
ghost use Rattle.hprof_numbers.specs.Numbers.{items_in};
ghost use Rattle.hprof_retained.specs.Tree.{count_of};
ghost use Rattle.hprof_by_label.specs.Labels.{place_count};
ghost use Rattle.hprof_suspects.specs.Grounds.{AreAlone, AreGrounds};
ghost use Rattle.hprof_suspects.specs.Heads.{AreHeads, HeadsFit};
ghost use Rattle.hprof_suspects.specs.PartPlaces.{AreParts, IsPartBy, IsSingledAt};

use crate::large::{is_large_head, over};
use crate::only::{GroupLabel, is_only, key_at, only_large};
use hprof_by_label::NodeLabels;
use hprof_numbers::Numbers;
use hprof_retained::Retained;
use std::alloc::{AllocError, Global};
use std::collections::BTreeMap;

/// Returns whether a large head is singled out: right below the roots, or as the only one with its label, or as a class dump.
fn is_singled(
    retained: &Retained,
    labels: &NodeLabels,
    alone: &Vec<bool>,
    heads: &Numbers,
    only: &BTreeMap<GroupLabel, usize>,
    place: usize,
) -> bool
    requires labels { place_count labels.now ≡ count_of retained.now }
    requires alone { length alone.now.items ≡ count_of retained.now }
    requires as_many { length (items_in heads.now) ≡ count_of retained.now }
    requires some { 0 < place }
    requires within { place < count_of retained.now }
    ensures { (facts : List FactValue) → AreAlone facts retained.now alone.now.items
        → IsTrue result ↔ IsSingledAt facts retained.now labels.now (items_in heads.now) only.now place }
{
    if over(retained, heads, place) == 0 {
        return true;
    }
    if is_only(only, key_at(retained, labels, heads, place), place) {
        return true;
    }
    alone[place]
}

/// Returns whether a place is that of a part. `parts` has the marks of the places before it.
fn is_part(
    retained: &Retained,
    labels: &NodeLabels,
    alone: &Vec<bool>,
    heads: &Numbers,
    only: &BTreeMap<GroupLabel, usize>,
    parts: &Vec<bool>,
    place: usize,
) -> bool
    requires labels { place_count labels.now ≡ count_of retained.now }
    requires alone { length alone.now.items ≡ count_of retained.now }
    requires heads { HeadsFit retained.now (items_in heads.now) }
    requires as_many { length parts.now.items ≡ count_of retained.now }
    requires some { 0 < place }
    requires within { place < count_of retained.now }
    ensures { (facts : List FactValue) → AreAlone facts retained.now alone.now.items
        → IsTrue result ↔ IsPartBy facts retained.now labels.now (items_in heads.now) only.now parts.now.items place }
{
    if !is_large_head(retained, heads, place) {
        return false;
    }
    if !parts[over(retained, heads, place)] {
        return false;
    }
    is_singled(retained, labels, alone, heads, only, place)
}

/// Returns for each place whether it is that of a part. If memory runs out, the answer is `AllocError`.
pub(crate) fn parts_of(
    alloc: Global,
    retained: &Retained,
    labels: &NodeLabels,
    alone: &Vec<bool>,
    heads: &Numbers,
) -> Result<Vec<bool>, AllocError>
    requires labels { place_count labels.now ≡ count_of retained.now }
    requires alone { length alone.now.items ≡ count_of retained.now }
    requires heads { HeadsFit retained.now (items_in heads.now) }
    ensures as_many { IfOk result (λ parts. length parts.items ≡ count_of retained.now) }
    ensures parts { (ids : IdSize) (facts : List FactValue) → AreGrounds ids facts retained.now labels.now alone.now.items
        → AreHeads ids facts retained.now (items_in heads.now) → IfOk result (λ parts. AreParts ids facts retained.now parts.items) }
{
    let only = only_large(alloc, retained, labels, heads)?;
    let mut parts = vec![in alloc; false; retained.len()]?;
    parts[0] = true;
    for place in 1..retained.len() {
        let is = is_part(retained, labels, alone, heads, &only, &parts, place);
        parts[place] = is;
    }
    Ok(parts)
}
