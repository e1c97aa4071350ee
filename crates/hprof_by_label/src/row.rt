//! The rows of the report `retained`.

ghost use Rattle.std.specs.Prelude.{◌≡◌, ◌<◌, IfOk, length, map};
ghost use Rattle.hprof_by_label.specs.Labels.{label_count};
ghost use Rattle.hprof_by_label.specs.RowValues.{AreRowsTo, row_at, row_value};

use crate::node_labels::NodeLabels;
use crate::own_sums::OwnSums;
use std::alloc::{AllocError, Global};

/// A label with its sums.
#[derive(Clone, Copy, Debug, PartialEq, Eq)]
pub(crate) struct Row<'a> {
    /// The label.
    pub(crate) label: &'a str,
    /// The bytes that the nodes with the label retain.
    pub(crate) retained: u128,
    /// Their own bytes.
    pub(crate) bytes: u128,
    /// Their number.
    pub(crate) count: usize,
}

/// Returns the row of a label.
fn row_of<'a>(labels: &'a NodeLabels, own: &OwnSums, retained: &[u128], number: usize) -> Row<'a>
    requires within { number < label_count labels.now }
    requires bytes { length own.now.bytes.items ≡ label_count labels.now }
    requires counts { length own.now.counts.items ≡ label_count labels.now }
    requires retained { length retained.now ≡ label_count labels.now }
    ensures { row_value result ≡ row_at labels.now own.now.bytes.items own.now.counts.items retained.now number }
{
    Row {
        label: labels.text(number),
        retained: retained[number],
        bytes: own.bytes[number],
        count: own.counts[number],
    }
}

/// Returns the rows of the labels that some node has, by the numbers of the labels. If memory runs out, the answer is `AllocError`.
pub(crate) fn rows_of<'a>(
    alloc: Global,
    labels: &'a NodeLabels,
    own: &OwnSums,
    retained: &[u128],
) -> Result<Vec<Row<'a>>, AllocError>
    requires bytes { length own.now.bytes.items ≡ label_count labels.now }
    requires counts { length own.now.counts.items ≡ label_count labels.now }
    requires retained { length retained.now ≡ label_count labels.now }
    ensures { IfOk result (λ rows. AreRowsTo labels.now own.now.bytes.items own.now.counts.items retained.now (label_count labels.now)
        (map row_value rows.items)) }
{
    let mut rows = Vec::new(alloc);
    for number in 0..labels.len() {
        if own.counts[number] > 0 {
            rows.push(row_of(labels, own, retained, number))?;
        }
    }
    Ok(rows)
}
