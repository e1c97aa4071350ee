//! The labels of classes and types.

ghost use Rattle.std.specs.Prelude.{◌≡◌, ◌++◌, IfOk, codes, string_bytes};
ghost use Rattle.hprof_naming.specs.TypeWord.{type_word};
ghost use Rattle.hprof_heap.specs.HeapFacts.{facts_of};
ghost use Rattle.hprof_diff.specs.Sources.{IsSourceLabel};

use crate::label_count::LabelSource;
use hprof_heap::Heap;
use hprof_meaning::{array_label, bare_label};
use std::alloc::{AllocError, Global};

/// Returns the label from a source. If memory runs out, the answer is `AllocError`.
pub(crate) fn source_label(
    alloc: Global,
    heap: &Heap,
    source: LabelSource,
) -> Result<String, AllocError>
    ensures { IfOk result (λ text. IsSourceLabel (facts_of heap.now) source (string_bytes text)) }
{
    match source {
        LabelSource::Class(name) => bare_label(alloc, heap, name),
        LabelSource::Prim(elem) => array_label(alloc, elem),
    }
}
