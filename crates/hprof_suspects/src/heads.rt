//! The heads of groups.

ghost use Rattle.std.specs.Prelude.{◌≡◌, ◌<◌, ◌↔◌, List, IfOk, IsTrue, length};
ghost use Rattle.hprof_values.specs.declared.ids.IdSize.{IdSize};
ghost use Rattle.hprof_items.specs.FactValue.{FactValue};
ghost use Rattle.hprof_numbers.specs.Numbers.{items_in};
ghost use Rattle.hprof_retained.specs.Tree.{count_of};
ghost use Rattle.hprof_by_label.specs.Labels.{place_count};
ghost use Rattle.hprof_suspects.specs.Grounds.{AreGrounds};
ghost use Rattle.hprof_suspects.specs.Heads.{AreHeads, HeadsFit, IsHeadOf, JoinsAbove};

use hprof_by_label::NodeLabels;
use hprof_numbers::Numbers;
use hprof_retained::Retained;
use std::alloc::{AllocError, Global};

/// Returns whether the node at a place is of the group of the node at the place right above it.
fn joins_above(retained: &Retained, labels: &NodeLabels, alone: &Vec<bool>, place: usize) -> bool
    requires labels { place_count labels.now ≡ count_of retained.now }
    requires alone { length alone.now.items ≡ count_of retained.now }
    requires some { 0 < place }
    requires within { place < count_of retained.now }
    ensures { (ids : IdSize) (facts : List FactValue) → AreGrounds ids facts retained.now labels.now alone.now.items
        → IsTrue result ↔ JoinsAbove ids facts retained.now place }
{
    let above = retained.above(place);
    if above == 0 {
        return false;
    }
    if labels.number(place) != labels.number(above) {
        return false;
    }
    if alone[place] {
        return false;
    }
    !alone[above]
}

/// Returns the place of the head of a place's group, by the heads of the places before it.
fn head_of(
    retained: &Retained,
    labels: &NodeLabels,
    alone: &Vec<bool>,
    heads: &Numbers,
    place: usize,
) -> usize
    requires labels { place_count labels.now ≡ count_of retained.now }
    requires alone { length alone.now.items ≡ count_of retained.now }
    requires some { 0 < place }
    requires within { place < count_of retained.now }
    requires heads { HeadsFit retained.now (items_in heads.now) }
    ensures low { result < count_of retained.now }
    ensures head { (ids : IdSize) (facts : List FactValue) → AreGrounds ids facts retained.now labels.now alone.now.items
        → IsHeadOf ids facts retained.now (items_in heads.now) place result }
{
    if joins_above(retained, labels, alone, place) {
        heads.get(retained.above(place))
    } else {
        place
    }
}

/// Returns for each place the place of the head of its group. If memory runs out, the answer is `AllocError`.
pub(crate) fn heads_of(
    alloc: Global,
    retained: &Retained,
    labels: &NodeLabels,
    alone: &Vec<bool>,
) -> Result<Numbers, AllocError>
    requires labels { place_count labels.now ≡ count_of retained.now }
    requires alone { length alone.now.items ≡ count_of retained.now }
    ensures fit { IfOk result (λ heads. HeadsFit retained.now (items_in heads)) }
    ensures heads { (ids : IdSize) (facts : List FactValue) → AreGrounds ids facts retained.now labels.now alone.now.items
        → IfOk result (λ heads. AreHeads ids facts retained.now (items_in heads)) }
{
    let mut heads = Numbers::zeros(alloc, retained.len(), retained.len())?;
    for place in 1..retained.len() {
        let head = head_of(retained, labels, alone, &heads, place);
        heads.set(place, head);
    }
    Ok(heads)
}
