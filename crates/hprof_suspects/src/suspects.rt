//! The parts that are suspects.

ghost use Rattle.std.specs.Prelude.{◌≡◌, ◌<◌, ◌≤◌, ◌+◌, List, All, IfOk, OnOk, length, map, slice_index};
ghost use Rattle.std.specs.List.Sorted.{IsPermutation, IsSorted};
ghost use Rattle.hprof_values.specs.declared.ids.IdSize.{IdSize};
ghost use Rattle.hprof_items.specs.FactValue.{FactValue};
ghost use Rattle.hprof_rows.specs.Conflict.{IsConsistent};
ghost use Rattle.hprof_keeps.specs.Order.{node_of, retained_in};
ghost use Rattle.hprof_retained.specs.Tree.{IsTreeOf, count_of, sum_at, total_of};
ghost use Rattle.hprof_suspects.specs.PartPlaces.{AreParts};
ghost use Rattle.hprof_suspects.specs.Pieces.{ArePartSums, SumsFit};
ghost use Rattle.hprof_suspects.specs.SuspectPlaces.{AreSuspectsTo, IsWithin, suspect_of, suspect_place_cmp};
ghost use Rattle.hprof_suspects.specs.SuspectsText.{AreSuspects, id_of};

use crate::large::is_tenth;
use hprof_retained::Retained;
use std::alloc::{AllocError, Global};
use std::cmp::Ordering;

/// A part whose pieces are at least a tenth of all.
#[derive(Clone, Copy, Debug)]
pub(crate) struct SuspectPlace {
    /// The place of the part; 0 of the roots together.
    pub(crate) place: usize,
    /// The identifier of the part; 0 of the roots together.
    pub(crate) node: u64,
    /// The bytes of the pieces.
    pub(crate) pieces: u128,
}

/// Returns the identifier of the node at a place, or 0 at place 0.
fn id_at(retained: &Retained, place: usize) -> u64
    requires { place < count_of retained.now }
    ensures { result ≡ id_of (node_of retained.now place) }
{
    if place == 0 { 0 } else { retained.node(place) }
}

/// Compares two suspects: the most bytes first, then by identifier.
fn compare(one: &SuspectPlace, other: &SuspectPlace) -> Ordering
    ensures { result ≡ suspect_place_cmp one.now other.now }
{
    other
        .pieces
        .cmp(&one.pieces)
        .then_with(|| one.node.cmp(&other.node))
}

/// Sorts suspects: those with the most bytes first, then by identifier. Allocates nothing.
fn sort_suspects(suspects: &mut Vec<SuspectPlace>)
    ensures sorted { IsSorted suspect_place_cmp suspects.new.items }
    ensures same { IsPermutation suspects.old.items suspects.new.items }
{
    suspects.sort_unstable_by(|one, other| compare(one, other));
}

/// Adds the part at a place, if its pieces are at least a tenth of all. If memory runs out, the answer is `AllocError`.
fn push_if_suspect(
    retained: &Retained,
    parts: &Vec<bool>,
    sums: &Vec<u128>,
    place: usize,
    suspects: &mut Vec<SuspectPlace>,
) -> Result<(), AllocError>
    requires within { place < count_of retained.now }
    requires parts { length parts.now.items ≡ count_of retained.now }
    requires sums { length sums.now.items ≡ count_of retained.now }
    requires fits { slice_index sums.now.items place ≤ (sum_at retained.now place).bytes }
    requires before { AreSuspectsTo retained.now parts.now.items sums.now.items place suspects.old.items }
    ensures { OnOk result (AreSuspectsTo retained.now parts.now.items sums.now.items (place + 1) suspects.new.items) }
{
    if !parts[place] {
        return Ok(());
    }
    let pieces = retained.bytes(place) - sums[place];
    if !is_tenth(retained.bytes(0), pieces) {
        return Ok(());
    }
    let node = id_at(retained, place);
    suspects.push(SuspectPlace {
        place,
        node,
        pieces,
    })?;
    Ok(())
}

/// Returns the suspects in the order of their places. If memory runs out, the answer is `AllocError`.
fn suspect_places(
    alloc: Global,
    retained: &Retained,
    parts: &Vec<bool>,
    sums: &Vec<u128>,
) -> Result<Vec<SuspectPlace>, AllocError>
    requires parts { length parts.now.items ≡ count_of retained.now }
    requires sums { SumsFit retained.now sums.now.items }
    ensures { IfOk result (λ suspects. AreSuspectsTo retained.now parts.now.items sums.now.items (count_of retained.now) suspects.items) }
{
    let mut suspects = Vec::new(alloc);
    for place in 0..retained.len() {
        push_if_suspect(retained, parts, sums, place, &mut suspects)?;
    }
    Ok(suspects)
}

/// Returns the suspects: those with the most bytes first, then by identifier. If memory runs out, the answer is `AllocError`.
pub(crate) fn suspects_of(
    alloc: Global,
    retained: &Retained,
    parts: &Vec<bool>,
    sums: &Vec<u128>,
) -> Result<Vec<SuspectPlace>, AllocError>
    requires parts { length parts.now.items ≡ count_of retained.now }
    requires sums { SumsFit retained.now sums.now.items }
    ensures places { IfOk result (λ suspects. All (λ suspect. suspect.place < count_of retained.now) suspects.items) }
    ensures within { (ids : IdSize) (facts : List FactValue) → IsConsistent facts → IsTreeOf ids facts retained.now
        → IfOk result (λ suspects. All (IsWithin retained.now) suspects.items) }
    ensures suspects { (ids : IdSize) (facts : List FactValue) → IsTreeOf ids facts retained.now
        → AreParts ids facts retained.now parts.now.items → ArePartSums ids facts retained.now sums.now.items
        → IfOk result (λ suspects. AreSuspects ids facts (retained_in retained.now) (total_of retained.now)
        (map (suspect_of retained.now) suspects.items)) }
{
    let mut suspects = suspect_places(alloc, retained, parts, sums)?;
    sort_suspects(&mut suspects);
    Ok(suspects)
}
