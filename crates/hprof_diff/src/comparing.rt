//! Sorting changes.

ghost use Rattle.std.specs.Prelude.{◌≡◌, ℕ, List, bytes_eq, map};
ghost use Rattle.std.specs.List.{IsDistinct};
ghost use Rattle.std.specs.List.Sorted.{IsPermutation, IsStrictlySortedBy};
ghost use Rattle.hprof_diff.specs.Changes.{change_value, step_value};
ghost use Rattle.hprof_diff.specs.Difference.{change_cmp, step_cmp};

use crate::change::{Change, Delta};
use std::cmp::Ordering;

/// Compares steps by the number that they add, which is negative if they fall.
fn compare_steps(step: Delta, other: Delta) -> Ordering
    ensures { result ≡ step_cmp (step_value step) (step_value other) }
{
    let grew = step.old <= step.new;
    let other_grew = other.old <= other.new;
    if grew && other_grew {
        (step.new - step.old).cmp(&(other.new - other.old))
    } else if grew {
        Ordering::Greater
    } else if other_grew {
        Ordering::Less
    } else {
        (other.old - other.new).cmp(&(step.old - step.new))
    }
}

/// Compares changes: the most bytes added first, then the most objects added, then by label.
fn compare_changes(change: &Change<'_>, other: &Change<'_>) -> Ordering
    ensures { result ≡ change_cmp (change_value change.now) (change_value other.now) }
{
    let by_bytes = compare_steps(other.bytes, change.bytes);
    let by_count = compare_steps(other.count, change.count);
    let by_label = change.label.cmp(&other.label);
    by_bytes.then(by_count).then(by_label)
}

/// Sorts changes of different labels. Allocates nothing.
pub(crate) fn sort_changes(changes: &mut Vec<Change<'_>>)
    requires { IsDistinct (λ change other. bytes_eq change.label other.label) (map change_value changes.old.items) }
    ensures ascend { IsStrictlySortedBy change_cmp (map change_value changes.new.items) }
    ensures same { IsPermutation (map change_value changes.old.items) (map change_value changes.new.items) }
{
    changes.sort_unstable_by(|change, other| compare_changes(change, other));
}
