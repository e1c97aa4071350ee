//! The nodes above a part.

ghost use Rattle.std.specs.Prelude.{◌≡◌, ◌<◌, ◌++◌, All, OnOk, map, string_bytes};
ghost use Rattle.hprof_heap.specs.HeapFacts.{facts_of, size_of};
ghost use Rattle.hprof_naming.specs.ClassNames.{AreClassNames};
ghost use Rattle.hprof_describe.specs.Findings.{AreFindings, Findings};
ghost use Rattle.hprof_retained.specs.Tree.{count_of, node_at};
ghost use Rattle.hprof_keeps.specs.KeepsText.{above_lines};
ghost use Rattle.hprof_keeps.specs.Order.{retained_in};
ghost use Rattle.hprof_suspects.specs.SuspectsText.{chain_lines};

use crate::lines::more_line;
use hprof_heap::Heap;
use hprof_keeps::place_line;
use hprof_naming::ClassNames;
use hprof_retained::Retained;
use std::alloc::{AllocError, Global};

/// Appends the lines of the nodes at places. If memory runs out, the answer is `AllocError` and the text is unspecified.
fn push_nodes(
    alloc: Global,
    heap: &Heap,
    classes: &ClassNames,
    retained: &Retained,
    places: &[usize],
    text: &mut String,
) -> Result<(), AllocError>
    requires classes { AreClassNames (facts_of heap.now) classes.now }
    requires places { All (λ place. (0 < place) × (place < count_of retained.now)) places.now }
    ensures { (found : Findings) → AreFindings (size_of heap.now) (facts_of heap.now) found
        → OnOk result (string_bytes text.new
        ≡ string_bytes text.old ++ above_lines found (retained_in retained.now) (map (node_at retained.now) places.now)) }
{
    for place in places {
        let line = place_line(alloc, heap, classes, retained, "", *place)?;
        text.push_str(&line)?;
    }
    Ok(())
}

/// Appends the lines of the nodes at places; of more than 20 the first 10, the number of those left out, and the last 10. Of the heap only
/// the words for the nodes are asked. If memory runs out, the answer is `AllocError` and the text is unspecified.
pub(crate) fn push_chain(
    alloc: Global,
    heap: &Heap,
    classes: &ClassNames,
    retained: &Retained,
    places: &[usize],
    text: &mut String,
) -> Result<(), AllocError>
    requires classes { AreClassNames (facts_of heap.now) classes.now }
    requires places { All (λ place. (0 < place) × (place < count_of retained.now)) places.now }
    ensures { (found : Findings) → AreFindings (size_of heap.now) (facts_of heap.now) found
        → OnOk result (string_bytes text.new
        ≡ string_bytes text.old ++ chain_lines found (retained_in retained.now) (map (node_at retained.now) places.now)) }
{
    if places.len() <= 20 {
        return push_nodes(alloc, heap, classes, retained, places, text);
    }
    push_nodes(alloc, heap, classes, retained, &places[..10], text)?;
    let more = more_line(alloc, places.len() - 20)?;
    text.push_str(&more)?;
    push_nodes(
        alloc,
        heap,
        classes,
        retained,
        &places[places.len() - 10..],
        text,
    )
}
