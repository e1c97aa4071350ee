//! The text of the report.

ghost use Rattle.std.specs.Prelude.{◌≡◌, ◌↔◌, ◌++◌, All, IfOk, IfSome, OnOk, map, string_bytes};
ghost use Rattle.std.specs.List.{flat_map};
ghost use Rattle.hprof_edges.specs.Edges.{IsEdge};
ghost use Rattle.hprof_edges.specs.LeftOut.{IsLeftOut, fields_in};
ghost use Rattle.hprof_edges.specs.declared.edge.Edge.{Edge};
ghost use Rattle.hprof_heap.specs.HeapFacts.{facts_of, size_of};
ghost use Rattle.hprof_naming.specs.ClassNames.{AreClassNames};
ghost use Rattle.hprof_describe.specs.Findings.{AreFindings, Findings};
ghost use Rattle.hprof_weak.specs.Weak.{IsWeak};
ghost use Rattle.hprof_retained.specs.Tree.{IsTreeOf};
ghost use Rattle.hprof_retained.specs.Weakly.{AreWeaklyHeld};
ghost use Rattle.hprof_suspects.specs.LabelSums.{sum_of};
ghost use Rattle.hprof_suspects.specs.SuspectsText.{IsSuspectsText, piece_line};
ghost use Rattle.hprof_suspects.specs.Told.{Fits, report_text, told_text};

use crate::alone::alone_of;
use crate::chain::push_chain;
use crate::lines::{piece_line, suspect_line};
use crate::piece_lines::PieceLine;
use crate::told::{Told, all_told};
use hprof_by_label::{NodeLabels, labels_of};
use hprof_edges::LeftOut;
use hprof_heap::{Heap, holds_of_heap};
use hprof_keeps::{WeakSum, total_line, weak_sum, weakly_line};
use hprof_naming::ClassNames;
use hprof_retained::{Retained, WeaklyHeld};
use std::alloc::{AllocError, Global};

/// Appends the lines of sums. If memory runs out, the answer is `AllocError` and the text is unspecified.
fn push_sums(
    alloc: Global,
    labels: &NodeLabels,
    lines: &[PieceLine],
    text: &mut String,
) -> Result<(), AllocError>
    ensures { OnOk result (string_bytes text.new ≡ string_bytes text.old ++ flat_map piece_line (map (sum_of labels.now) lines.now)) }
{
    for line in lines {
        let own = piece_line(alloc, labels, line)?;
        text.push_str(&own)?;
    }
    Ok(())
}

/// Appends the lines of a suspect. If memory runs out, the answer is `AllocError` and the text is unspecified.
fn push_told(
    alloc: Global,
    heap: &Heap,
    classes: &ClassNames,
    retained: &Retained,
    labels: &NodeLabels,
    told: &Told,
    text: &mut String,
) -> Result<(), AllocError>
    requires classes { AreClassNames (facts_of heap.now) classes.now }
    requires fits { Fits retained.now told.now }
    ensures { (found : Findings) → AreFindings (size_of heap.now) (facts_of heap.now) found
        → OnOk result (string_bytes text.new ≡ string_bytes text.old ++ told_text found retained.now labels.now told.now) }
{
    let first = suspect_line(alloc, retained, told.pieces)?;
    text.push_str(&first)?;
    push_chain(alloc, heap, classes, retained, &told.chain, text)?;
    push_sums(alloc, labels, &told.lines, text)
}

/// Appends the lines of suspects. If memory runs out, the answer is `AllocError` and the text is unspecified.
fn push_all(
    alloc: Global,
    heap: &Heap,
    classes: &ClassNames,
    retained: &Retained,
    labels: &NodeLabels,
    told: &[Told],
    text: &mut String,
) -> Result<(), AllocError>
    requires classes { AreClassNames (facts_of heap.now) classes.now }
    requires fit { All (Fits retained.now) told.now }
    ensures { (found : Findings) → AreFindings (size_of heap.now) (facts_of heap.now) found
        → OnOk result (string_bytes text.new ≡ string_bytes text.old ++ flat_map (told_text found retained.now labels.now) told.now) }
{
    for suspect in told {
        push_told(alloc, heap, classes, retained, labels, suspect, text)?;
    }
    Ok(())
}

/// Returns the text of the report on suspects of which all is known but the words for nodes, which are read from the heap. If memory runs
/// out, the answer is `AllocError`.
pub(crate) fn report_text(
    alloc: Global,
    heap: &Heap,
    classes: &ClassNames,
    retained: &Retained,
    labels: &NodeLabels,
    weakly: &WeakSum,
    told: &[Told],
) -> Result<String, AllocError>
    requires classes { AreClassNames (facts_of heap.now) classes.now }
    requires fit { All (Fits retained.now) told.now }
    ensures { (found : Findings) → AreFindings (size_of heap.now) (facts_of heap.now) found
        → IfOk result (λ text. string_bytes text ≡ report_text found retained.now labels.now weakly.now told.now) }
{
    let mut text = total_line(alloc, retained)?;
    let line = weakly_line(alloc, weakly)?;
    text.push_str(&line)?;
    push_all(alloc, heap, classes, retained, labels, told, &mut text)?;
    Ok(text)
}

/// Returns the text of the report on a heap with its objects in memory. If memory runs out, the answer is `AllocError`.
pub(crate) fn suspects_text(
    alloc: Global,
    heap: &Heap,
    classes: &ClassNames,
    weak: &LeftOut,
    retained: &Retained,
    weakly: &mut Option<WeaklyHeld>,
) -> Result<String, AllocError>
    requires classes { AreClassNames (facts_of heap.now) classes.now }
    requires weak { (edge : Edge) → IsEdge (size_of heap.now) (facts_of heap.now) edge
        → IsLeftOut (fields_in weak.now) (facts_of heap.now) edge ↔ IsWeak (facts_of heap.now) edge }
    requires retained { IsTreeOf (size_of heap.now) (facts_of heap.now) retained.now }
    requires weakly { IfSome weakly.old (AreWeaklyHeld (size_of heap.now) (facts_of heap.now)) }
    ensures text { IfOk result (λ text. IsSuspectsText (size_of heap.now) (facts_of heap.now) (string_bytes text)) }
    ensures weakly { IfSome weakly.new (AreWeaklyHeld (size_of heap.now) (facts_of heap.now)) }
{
    holds_of_heap(heap);
    let sum = weak_sum(alloc, heap, weak, retained, weakly)?;
    let labels = labels_of(alloc, heap, classes, retained)?;
    let alone = alone_of(alloc, heap, retained, &labels)?;
    let told = all_told(alloc, retained, &labels, &alone)?;
    report_text(alloc, heap, classes, retained, &labels, &sum, &told)
}
