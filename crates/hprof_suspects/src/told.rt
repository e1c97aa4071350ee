//! The suspects, with all that the report tells of them.

ghost use Rattle.std.specs.Prelude.{◌≡◌, ◌≢◌, ◌<◌, List, All, IfOk, length, map};
ghost use Rattle.hprof_values.specs.declared.ids.IdSize.{IdSize};
ghost use Rattle.hprof_items.specs.FactValue.{FactValue};
ghost use Rattle.hprof_rows.specs.Conflict.{IsConsistent};
ghost use Rattle.hprof_numbers.specs.Numbers.{items_in};
ghost use Rattle.hprof_retained.specs.Tree.{IsTreeOf, count_of, node_at, total_of};
ghost use Rattle.hprof_keeps.specs.Order.{node_of};
ghost use Rattle.hprof_by_label.specs.Labels.{AreNodeLabels, place_count};
ghost use Rattle.hprof_suspects.specs.Grounds.{AreGrounds};
ghost use Rattle.hprof_suspects.specs.Heads.{AreHeads};
ghost use Rattle.hprof_suspects.specs.PartPlaces.{AreParts};
ghost use Rattle.hprof_suspects.specs.SuspectPlaces.{IsWithin, suspect_of};
ghost use Rattle.hprof_suspects.specs.SuspectsText.{IsChain};
ghost use Rattle.hprof_suspects.specs.Told.{AreTold, AreToldOf, Fits, IsTold};

use crate::heads::heads_of;
use crate::parts::parts_of;
use crate::piece_lines::{PieceLine, piece_lines};
use crate::pieces::part_sums;
use crate::suspects::{SuspectPlace, suspects_of};
use hprof_by_label::NodeLabels;
use hprof_keeps::dominators_of;
use hprof_numbers::Numbers;
use hprof_retained::Retained;
use std::alloc::{AllocError, Global};

/// A suspect, with all that the report tells of it.
#[derive(Drop)]
pub(crate) struct Told {
    /// The bytes of the pieces.
    pub(crate) pieces: u128,
    /// The places of the nodes above the part and of the part itself, from the outermost; none of the roots together.
    pub(crate) chain: Vec<usize>,
    /// The sums of the pieces by label that are listed.
    pub(crate) lines: Vec<PieceLine>,
}

/// Returns the places of the nodes above the part at a place and of the part itself, from the outermost; none of the roots together. If
/// memory runs out, the answer is `AllocError`.
fn chain_of(alloc: Global, retained: &Retained, place: usize) -> Result<Vec<usize>, AllocError>
    requires { place < count_of retained.now }
    ensures places { IfOk result (λ places. All (λ place. (0 < place) × (place < count_of retained.now)) places.items) }
    ensures chain { (ids : IdSize) (facts : List FactValue) → IsTreeOf ids facts retained.now
        → IfOk result (λ places. IsChain ids facts (node_of retained.now place) (map (node_at retained.now) places.items)) }
{
    if place == 0 {
        return Ok(Vec::new(alloc));
    }
    dominators_of(alloc, retained, place)
}

/// Returns what is told of a suspect. If memory runs out, the answer is `AllocError`.
fn told_of(
    alloc: Global,
    retained: &Retained,
    labels: &NodeLabels,
    heads: &Numbers,
    parts: &Vec<bool>,
    suspect: SuspectPlace,
) -> Result<Told, AllocError>
    requires labels { place_count labels.now ≡ count_of retained.now }
    requires heads { length (items_in heads.now) ≡ count_of retained.now }
    requires parts { length parts.now.items ≡ count_of retained.now }
    requires some { (total_of retained.now).bytes ≢ 0 }
    requires within { suspect.place < count_of retained.now }
    ensures fits { IfOk result (Fits retained.now) }
    ensures told { (ids : IdSize) (facts : List FactValue) → IsConsistent facts → IsTreeOf ids facts retained.now
        → AreNodeLabels facts retained.now labels.now → AreHeads ids facts retained.now (items_in heads.now)
        → AreParts ids facts retained.now parts.now.items → IsWithin retained.now suspect
        → IfOk result (IsTold ids facts retained.now labels.now (suspect_of retained.now suspect)) }
{
    // The pieces are never more than all.
    let pieces = suspect.pieces.min(retained.bytes(0));
    let chain = chain_of(alloc, retained, suspect.place)?;
    let lines = piece_lines(
        alloc,
        retained,
        labels,
        heads,
        parts,
        suspect.place,
        suspect.pieces,
    )?;
    Ok(Told {
        pieces,
        chain,
        lines,
    })
}

/// Returns what is told of suspects, one by one. If memory runs out, the answer is `AllocError`.
fn told_each(
    alloc: Global,
    retained: &Retained,
    labels: &NodeLabels,
    heads: &Numbers,
    parts: &Vec<bool>,
    suspects: &[SuspectPlace],
) -> Result<Vec<Told>, AllocError>
    requires labels { place_count labels.now ≡ count_of retained.now }
    requires heads { length (items_in heads.now) ≡ count_of retained.now }
    requires parts { length parts.now.items ≡ count_of retained.now }
    requires some { (total_of retained.now).bytes ≢ 0 }
    requires within { All (λ suspect. suspect.place < count_of retained.now) suspects.now }
    ensures fit { IfOk result (λ told. All (Fits retained.now) told.items) }
    ensures told { (ids : IdSize) (facts : List FactValue) → IsConsistent facts → IsTreeOf ids facts retained.now
        → AreNodeLabels facts retained.now labels.now → AreHeads ids facts retained.now (items_in heads.now)
        → AreParts ids facts retained.now parts.now.items → All (IsWithin retained.now) suspects.now
        → IfOk result (λ told. AreToldOf ids facts retained.now labels.now (map (suspect_of retained.now) suspects.now) told.items) }
{
    let mut told = Vec::new(alloc);
    for suspect in suspects {
        let own = told_of(alloc, retained, labels, heads, parts, *suspect)?;
        told.push(own)?;
    }
    Ok(told)
}

/// Returns the suspects of a tree whose nodes have these labels, with all that is told of them; none if the tree has no bytes. `alone` are
/// the marks of the class dumps without an object dump. If memory runs out, the answer is `AllocError`.
pub(crate) fn all_told(
    alloc: Global,
    retained: &Retained,
    labels: &NodeLabels,
    alone: &Vec<bool>,
) -> Result<Vec<Told>, AllocError>
    requires labels { place_count labels.now ≡ count_of retained.now }
    requires alone { length alone.now.items ≡ count_of retained.now }
    ensures fit { IfOk result (λ told. All (Fits retained.now) told.items) }
    ensures told { (ids : IdSize) (facts : List FactValue) → AreGrounds ids facts retained.now labels.now alone.now.items
        → IfOk result (λ told. AreTold ids facts retained.now labels.now told.items) }
{
    if retained.bytes(0) == 0 {
        return Ok(Vec::new(alloc));
    }
    let heads = heads_of(alloc, retained, labels, alone)?;
    let parts = parts_of(alloc, retained, labels, alone, &heads)?;
    let sums = part_sums(alloc, retained, &heads, &parts)?;
    let suspects = suspects_of(alloc, retained, &parts, &sums)?;
    told_each(alloc, retained, labels, &heads, &parts, &suspects)
}
