//! Sorting the rows of a histogram.

ghost use Rattle.std.specs.Prelude.{◌≡◌, ℕ};
ghost use Rattle.std.specs.List.{IsDistinct};
ghost use Rattle.std.specs.List.Sorted.{IsPermutation, IsStrictlySortedBy};
ghost use Rattle.hprof_histogram.specs.Histogram.{kind_cmp, row_cmp, same_kind};

use crate::row::{Kind, Row};
use std::cmp::Ordering;

/// Compares kinds: classes by identifier, then types by code.
fn compare_kinds(kind: Kind, other: Kind) -> Ordering
    ensures { result ≡ kind_cmp kind other }
{
    match (kind, other) {
        (Kind::Class(class), Kind::Class(next)) => class.cmp(&next),
        (Kind::Class(_), Kind::Prim(_)) => Ordering::Less,
        (Kind::Prim(_), Kind::Class(_)) => Ordering::Greater,
        (Kind::Prim(elem), Kind::Prim(next)) => elem.code().cmp(&next.code()),
    }
}

/// Compares rows: the most bytes first, then the most objects, then by kind.
fn compare_rows(row: &Row, other: &Row) -> Ordering
    ensures { result ≡ row_cmp row.now other.now }
{
    let by_bytes = other.bytes.cmp(&row.bytes);
    let by_count = other.count.cmp(&row.count);
    by_bytes
        .then(by_count)
        .then(compare_kinds(row.kind, other.kind))
}

/// Sorts rows of different kinds. Allocates nothing.
pub(crate) fn sort_rows(rows: &mut Vec<Row>)
    requires { IsDistinct (λ row other. same_kind row.kind other.kind) rows.old.items }
    ensures ascend { IsStrictlySortedBy row_cmp rows.new.items }
    ensures same { IsPermutation rows.old.items rows.new.items }
{
    rows.sort_unstable_by(|row, other| compare_rows(row, other));
}
