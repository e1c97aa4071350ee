//! The rows of all labels, in the order of the report.

ghost use Rattle.std.specs.Prelude.{◌≡◌, IfOk, List, map};
ghost use Rattle.std.specs.List.{IsDistinct};
ghost use Rattle.std.specs.List.Sorted.{IsPermutation, IsStrictlySortedBy};
ghost use Rattle.hprof_values.specs.declared.ids.IdSize.{IdSize};
ghost use Rattle.hprof_items.specs.FactValue.{FactValue};
ghost use Rattle.hprof_rows.specs.Conflict.{IsConsistent};
ghost use Rattle.hprof_retained.specs.Tree.{IsTreeOf, count_of};
ghost use Rattle.hprof_by_label.specs.LabelRows.{AreRows, row_cmp};
ghost use Rattle.hprof_by_label.specs.Labels.{AreNodeLabels, HaveSizes, place_count};
ghost use Rattle.hprof_by_label.specs.RowValues.{row_value, same_label};

use crate::node_labels::NodeLabels;
use crate::own_sums::own_sums;
use crate::retained_sums::retained_sums;
use crate::row::{Row, rows_of};
use hprof_retained::Retained;
use std::alloc::{AllocError, Global};
use std::cmp::Ordering;

/// Compares rows: the most retained bytes first, then the most bytes of their own, then the most nodes, then by label.
fn compare(row: &Row<'_>, other: &Row<'_>) -> Ordering
    ensures { result ≡ row_cmp (row_value row.now) (row_value other.now) }
{
    let by_retained = other.retained.cmp(&row.retained);
    let by_bytes = other.bytes.cmp(&row.bytes);
    let by_count = other.count.cmp(&row.count);
    let by_label = row.label.cmp(&other.label);
    by_retained.then(by_bytes.then(by_count.then(by_label)))
}

/// Sorts rows of different labels. Allocates nothing.
fn sort_rows(rows: &mut Vec<Row<'_>>)
    requires { IsDistinct same_label (map row_value rows.old.items) }
    ensures ascend { IsStrictlySortedBy row_cmp (map row_value rows.new.items) }
    ensures same { IsPermutation (map row_value rows.old.items) (map row_value rows.new.items) }
{
    rows.sort_unstable_by(|row, other| compare(row, other));
}

/// Returns the rows of all labels that some node of a tree has, in the order of the report. If memory runs out, the answer is
/// `AllocError`.
pub(crate) fn rows_in<'a>(
    alloc: Global,
    retained: &Retained,
    labels: &'a NodeLabels,
) -> Result<Vec<Row<'a>>, AllocError>
    requires { place_count labels.now ≡ count_of retained.now }
    ensures { (ids : IdSize) (facts : List FactValue) → IsConsistent facts → IsTreeOf ids facts retained.now
        → AreNodeLabels facts retained.now labels.now → HaveSizes ids facts retained.now labels.now
        → IfOk result (λ rows. AreRows ids facts (map row_value rows.items)) }
{
    let own = own_sums(alloc, retained, labels)?;
    let sums = retained_sums(alloc, retained, labels)?;
    let mut rows = rows_of(alloc, labels, &own, &sums)?;
    sort_rows(&mut rows);
    Ok(rows)
}
