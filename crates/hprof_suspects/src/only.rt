//! Large heads that are the only ones with their label right below a group.

ghost use Rattle.std.specs.Prelude.{◌≡◌, ◌<◌, ◌↔◌, IfOk, IsTrue, OnOk, Some, cond, length};
ghost use Rattle.std.specs.BTreeMap.{get, is_at};
ghost use Rattle.hprof_numbers.specs.Numbers.{items_in};
ghost use Rattle.hprof_retained.specs.Tree.{count_of};
ghost use Rattle.hprof_by_label.specs.Labels.{place_count};
ghost use Rattle.hprof_suspects.specs.PartPlaces.{AreOnlyTo, key_cmp, key_in, noted};

use crate::large::{is_large_head, over};
use hprof_by_label::NodeLabels;
use hprof_numbers::Numbers;
use hprof_retained::Retained;
use std::alloc::{AllocError, Global};
use std::collections::BTreeMap;

/// A group, by the place of its head, and a label, by its number.
#[derive(Clone, Copy, Debug, PartialEq, Eq, PartialOrd, Ord)]
pub(crate) struct GroupLabel {
    group: usize,
    label: usize,
}

/// Returns the group that a place is right below, and its label.
pub(crate) fn key_at(
    retained: &Retained,
    labels: &NodeLabels,
    heads: &Numbers,
    place: usize,
) -> GroupLabel
    requires labels { place_count labels.now ≡ count_of retained.now }
    requires some { 0 < place }
    requires within { place < count_of retained.now }
    requires as_many { length (items_in heads.now) ≡ count_of retained.now }
    ensures { result ≡ key_in retained.now labels.now (items_in heads.now) place }
{
    GroupLabel {
        group: over(retained, heads, place),
        label: labels.number(place),
    }
}

/// Keeps the place of a large head under its key, or 0 if another one has the key. If memory runs out, the answer is `AllocError` and the
/// places are unspecified.
fn note(
    only: &mut BTreeMap<GroupLabel, usize>,
    key: GroupLabel,
    place: usize,
) -> Result<(), AllocError>
    ensures { OnOk result ((other : GroupLabel) → get key_cmp only.new other
        ≡ cond (is_at (key_cmp key) other) (Some (noted (get key_cmp only.old key) place)) (get key_cmp only.old other)) }
{
    let kept = match only.get(&key) {
        Some(_) => 0,
        None => place,
    };
    only.insert(key, kept)?;
    Ok(())
}

/// Returns whether a place is the one kept under a key.
pub(crate) fn is_only(only: &BTreeMap<GroupLabel, usize>, key: GroupLabel, place: usize) -> bool
    ensures { IsTrue result ↔ (get key_cmp only.now key ≡ Some place) }
{
    match only.get(&key) {
        Some(kept) => *kept == place,
        None => false,
    }
}

/// Returns for each group and label the place of the only large head with the label right below the group, or 0 if there are several. If
/// memory runs out, the answer is `AllocError`.
pub(crate) fn only_large(
    alloc: Global,
    retained: &Retained,
    labels: &NodeLabels,
    heads: &Numbers,
) -> Result<BTreeMap<GroupLabel, usize>, AllocError>
    requires labels { place_count labels.now ≡ count_of retained.now }
    requires as_many { length (items_in heads.now) ≡ count_of retained.now }
    ensures { IfOk result (λ only. AreOnlyTo retained.now labels.now (items_in heads.now) only (count_of retained.now)) }
{
    let mut only = BTreeMap::new(alloc);
    for place in 1..retained.len() {
        if is_large_head(retained, heads, place) {
            let key = key_at(retained, labels, heads, place);
            note(&mut only, key, place)?;
        }
    }
    Ok(only)
}
