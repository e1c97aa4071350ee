//! The sums of the pieces of a part that the report lists.

ghost use Rattle.std.specs.Prelude.{◌≡◌, ◌<◌, ◌+◌, List, IfOk, OnOk, length, map};
ghost use Rattle.std.specs.List.Sorted.{IsPermutation, IsSorted};
ghost use Rattle.hprof_values.specs.declared.ids.IdSize.{IdSize};
ghost use Rattle.hprof_items.specs.FactValue.{FactValue};
ghost use Rattle.hprof_rows.specs.Conflict.{IsConsistent};
ghost use Rattle.hprof_keeps.specs.Order.{node_of, retained_in};
ghost use Rattle.hprof_numbers.specs.Numbers.{items_in};
ghost use Rattle.hprof_retained.specs.Tree.{IsTreeOf, count_of, total_of};
ghost use Rattle.hprof_by_label.specs.Labels.{AreNodeLabels, label_count, label_text, place_count};
ghost use Rattle.hprof_suspects.specs.Heads.{AreHeads};
ghost use Rattle.hprof_suspects.specs.LabelSums.{AreLinesTo, line_cmp, sum_of};
ghost use Rattle.hprof_suspects.specs.PartPlaces.{AreParts};
ghost use Rattle.hprof_suspects.specs.SuspectsText.{ArePieceSums};

use crate::label_sums::{LabelSums, label_sums};
use crate::large::is_tenth;
use hprof_by_label::NodeLabels;
use hprof_numbers::Numbers;
use hprof_retained::Retained;
use std::alloc::{AllocError, Global};
use std::cmp::Ordering;

/// A label, and the sums over the pieces of a part that have it.
#[derive(Clone, Copy, Debug)]
pub(crate) struct PieceLine {
    /// The number of the label.
    pub(crate) label: usize,
    /// The bytes that they retain.
    pub(crate) bytes: u128,
    /// Their number.
    pub(crate) count: usize,
}

/// Returns the label with a number, or an empty text if there is none.
pub(crate) fn text_if_any(labels: &NodeLabels, number: usize) -> &str
    ensures { result.now ≡ label_text labels.now number }
{
    if number < labels.len() {
        labels.text(number)
    } else {
        ""
    }
}

/// Compares two lines: the most bytes first, then the most nodes, then by label, byte by byte.
fn compare(labels: &NodeLabels, one: &PieceLine, other: &PieceLine) -> Ordering
    ensures { result ≡ line_cmp labels.now one.now other.now }
{
    let by_bytes = other.bytes.cmp(&one.bytes);
    by_bytes.then_with(|| other.count.cmp(&one.count)).then_with(|| text_if_any(
        labels, one.label,
    ).cmp(text_if_any(labels, other.label)))
}

/// Sorts lines: those with the most bytes first, then those with the most nodes, then by label. Allocates nothing.
fn sort_lines(labels: &NodeLabels, lines: &mut Vec<PieceLine>)
    ensures sorted { IsSorted (line_cmp labels.now) lines.new.items }
    ensures same { IsPermutation lines.old.items lines.new.items }
{
    lines.sort_unstable_by(|one, other| compare(labels, one, other));
}

/// Adds the sums of a label, if it has pieces, and they are at least a tenth of all. If memory runs out, the answer is `AllocError`.
fn push_if_tenth(
    sums: &LabelSums,
    pieces: u128,
    label: usize,
    lines: &mut Vec<PieceLine>,
) -> Result<(), AllocError>
    requires bytes { label < length sums.now.bytes.items }
    requires counts { label < length sums.now.counts.items }
    requires before { AreLinesTo sums.now.bytes.items sums.now.counts.items pieces label lines.old.items }
    ensures { OnOk result (AreLinesTo sums.now.bytes.items sums.now.counts.items pieces (label + 1) lines.new.items) }
{
    let bytes = sums.bytes[label];
    let count = sums.counts[label];
    if count == 0 {
        return Ok(());
    }
    if !is_tenth(pieces, bytes) {
        return Ok(());
    }
    lines.push(PieceLine {
        label,
        bytes,
        count,
    })?;
    Ok(())
}

/// Returns the sums that are at least a tenth of the pieces, in the order of the labels' numbers. If memory runs out, the answer is
/// `AllocError`.
fn tenth_lines(
    alloc: Global,
    labels: &NodeLabels,
    sums: &LabelSums,
    pieces: u128,
) -> Result<Vec<PieceLine>, AllocError>
    requires bytes { length sums.now.bytes.items ≡ label_count labels.now }
    requires counts { length sums.now.counts.items ≡ label_count labels.now }
    ensures { IfOk result (λ lines. AreLinesTo sums.now.bytes.items sums.now.counts.items pieces (label_count labels.now) lines.items) }
{
    let mut lines = Vec::new(alloc);
    for label in 0..labels.len() {
        push_if_tenth(sums, pieces, label, &mut lines)?;
    }
    Ok(lines)
}

/// Returns the sums by label of the pieces of a part that are at least a tenth of them: those with the most bytes first, then those with
/// the most nodes, then by label. If memory runs out, the answer is `AllocError`.
pub(crate) fn piece_lines(
    alloc: Global,
    retained: &Retained,
    labels: &NodeLabels,
    heads: &Numbers,
    parts: &Vec<bool>,
    part: usize,
    pieces: u128,
) -> Result<Vec<PieceLine>, AllocError>
    requires labels { place_count labels.now ≡ count_of retained.now }
    requires heads { length (items_in heads.now) ≡ count_of retained.now }
    requires parts { length parts.now.items ≡ count_of retained.now }
    requires within { part < count_of retained.now }
    ensures { (ids : IdSize) (facts : List FactValue) → IsConsistent facts → IsTreeOf ids facts retained.now
        → AreNodeLabels facts retained.now labels.now → AreHeads ids facts retained.now (items_in heads.now)
        → AreParts ids facts retained.now parts.now.items
        → IfOk result (λ lines. ArePieceSums ids facts (retained_in retained.now) (total_of retained.now) (node_of retained.now part) pieces
        (map (sum_of labels.now) lines.items)) }
{
    let sums = label_sums(alloc, retained, labels, heads, parts, part)?;
    let mut lines = tenth_lines(alloc, labels, &sums, pieces)?;
    sort_lines(labels, &mut lines);
    Ok(lines)
}
