//! The difference between two heaps.

ghost use Rattle.std.specs.Prelude.{◌≡◌, ◌++◌, ◌∷◌, [], IfOk, OnOk, IsTrue, ◌↔◌, bytes_eq, map, not};
ghost use Rattle.std.specs.List.{IsDistinct, filter};
ghost use Rattle.hprof_diff.specs.Changes.{change_value, changes_among, differs};
ghost use Rattle.hprof_diff.specs.Difference.{IsDifference, change_of};
ghost use Rattle.hprof_diff.specs.Kept.{has_label, labels_in, totals_in};

use crate::change::{Change, Delta};
use crate::comparing::sort_changes;
use crate::label_counts::LabelCounts;
use std::alloc::{AllocError, Global};

/// Returns the change of a label.
fn change_of<'a>(old: &LabelCounts, new: &LabelCounts, label: &'a str) -> Change<'a>
    ensures { change_value result ≡ change_of (totals_in old.now) (totals_in new.now) label.now }
{
    let before = old.counted(label);
    let after = new.counted(label);
    Change {
        label,
        bytes: Delta {
            old: before.bytes,
            new: after.bytes,
        },
        count: Delta {
            old: before.count,
            new: after.count,
        },
    }
}

/// Appends a change, if the bytes or the number of objects differ.
fn push_change<'a>(changes: &mut Vec<Change<'a>>, change: Change<'a>) -> Result<(), AllocError>
    ensures { OnOk result (map change_value changes.new.items
        ≡ map change_value changes.old.items ++ filter differs (change_value change.entry ∷ [])) }
{
    if change.bytes.old != change.bytes.new || change.count.old != change.count.new {
        changes.push(change)?;
    }
    Ok(())
}

/// Appends the changes of the older heap's labels.
fn push_old<'a>(
    changes: &mut Vec<Change<'a>>,
    old: &'a LabelCounts,
    new: &'a LabelCounts,
) -> Result<(), AllocError>
    ensures changes { OnOk result (map change_value changes.new.items
        ≡ map change_value changes.old.items ++ changes_among (totals_in old.now) (totals_in new.now) (labels_in old.now)) }
    ensures apart { OnOk result (IsDistinct bytes_eq (labels_in old.now)) }
{
    for label in old.labels.keys() {
        push_change(changes, change_of(old, new, label.as_str()))?;
    }
    Ok(())
}

/// Appends the changes of the labels that only the newer heap has.
fn push_new<'a>(
    changes: &mut Vec<Change<'a>>,
    old: &'a LabelCounts,
    new: &'a LabelCounts,
) -> Result<(), AllocError>
    ensures changes { OnOk result (map change_value changes.new.items ≡ map change_value changes.old.items
        ++ changes_among (totals_in old.now) (totals_in new.now) (filter (λ label. not (has_label old.now label)) (labels_in new.now))) }
    ensures apart { OnOk result (IsDistinct bytes_eq (labels_in new.now)) }
{
    for label in new.labels.keys() {
        if !old.has_label(label.as_str()) {
            push_change(changes, change_of(old, new, label.as_str()))?;
        }
    }
    Ok(())
}

/// Returns the changes of the labels whose bytes or number of objects differ between two heaps.
///
/// The label that grew by the most bytes comes first, then the one that grew by the most objects, then labels byte by byte. If memory runs
/// out, the answer is `AllocError`.
pub fn difference<'a>(
    alloc: Global,
    old: &'a LabelCounts,
    new: &'a LabelCounts,
) -> Result<Vec<Change<'a>>, AllocError>
    ensures { IfOk result (λ changes. IsDifference (totals_in old.now) (totals_in new.now) (map change_value changes.items)) }
{
    let mut changes = Vec::new(alloc);
    push_old(&mut changes, old, new)?;
    push_new(&mut changes, old, new)?;
    sort_changes(&mut changes);
    Ok(changes)
}
