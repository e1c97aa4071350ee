//! The rows of a histogram, with the sources of their labels.

ghost use Rattle.std.specs.Prelude.{◌≡◌, ℕ, List, IfOk};
ghost use Rattle.hprof_heap.specs.HeapFacts.{facts_of};
ghost use Rattle.hprof_naming.specs.ClassNames.{AreClassNames};
ghost use Rattle.hprof_diff.specs.declared.label_count.LabelSource.{LabelSource};
ghost use Rattle.hprof_meaning.specs.BareLabels.{AreBareLabels};
ghost use Rattle.hprof_diff.specs.Sources.{AreSourceLabels, IsPart, parts_under, rows_under};

use crate::counted::Counted;
use crate::label_count::{LabelCount, LabelSource};
use hprof_heap::{Heap, holds_of_heap};
use hprof_histogram::{Kind, Row};
use hprof_naming::ClassNames;
use std::alloc::{AllocError, Global};

/// Returns the objects of a row, with the source of their label.
fn part_of(heap: &Heap, names: &ClassNames, row: &Row) -> LabelCount
    requires { AreClassNames (facts_of heap.now) names.now }
    ensures { IsPart (facts_of heap.now) row.now result }
{
    let Row { kind, count, bytes } = *row;
    let source = match kind {
        Kind::Class(class) => LabelSource::Class(names.name_of(class)),
        Kind::Prim(elem) => LabelSource::Prim(elem),
    };
    let count = u128::from(count);
    LabelCount {
        source,
        counted: Counted { count, bytes },
    }
}

/// Returns the rows with the sources of their labels. If memory runs out, the answer is `AllocError`.
pub(crate) fn parts_of(
    alloc: Global,
    heap: &Heap,
    names: &ClassNames,
    rows: &[Row],
) -> Result<Vec<LabelCount>, AllocError>
    requires { AreClassNames (facts_of heap.now) names.now }
    ensures labelled { IfOk result (λ parts. (label : LabelSource → List ℕ) (class_label : ℕ → List ℕ)
        → AreSourceLabels (facts_of heap.now) label
        → AreBareLabels (facts_of heap.now) class_label → (text : List ℕ)
        → parts_under label text parts.items ≡ rows_under class_label text rows.now) }
{
    holds_of_heap(heap);
    let mut parts = Vec::with_capacity(alloc, rows.len())?;
    let mut rest = rows;
    while let Some((row, after)) = rest.split_first() {
        parts.push(part_of(heap, names, row))?;
        rest = after;
    }
    Ok(parts)
}
