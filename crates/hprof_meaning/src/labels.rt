//! The labels of classes and of arrays, and whether a label is the one meant.

ghost use Rattle.std.specs.Prelude.{◌≡◌, ◌++◌, IfOk, List, ℕ, codes, string_bytes};
ghost use Rattle.hprof_heap.specs.HeapFacts.{facts_of};
ghost use Rattle.hprof_naming.specs.MeantLabel.{IsMeantBy};
ghost use Rattle.hprof_naming.specs.TypeWord.{type_word};
ghost use Rattle.hprof_meaning.specs.BareLabels.{IsBareLabelOf};
ghost use Rattle.hprof_meaning.specs.Judgements.{IsJudged};

use hprof_heap::{Heap, find_name, holds_of_heap};
use hprof_naming::{MeantLabel, type_word};
use hprof_text::printed;
use hprof_values::Basic;
use std::alloc::{AllocError, Global};

/// Returns the label of a class that has no name.
fn missing_label(alloc: Global) -> Result<String, AllocError>
    ensures { IfOk result (λ text. string_bytes text ≡ codes "\\?") }
{
    String::from_str(alloc, "\\?")
}

/// Returns the label of classes with this name: its printed form, or `\?` if there is no name or the heap does not have it. If memory runs
/// out, the answer is `AllocError`.
pub fn bare_label(alloc: Global, heap: &Heap, name: Option<u64>) -> Result<String, AllocError>
    ensures { IfOk result (λ text. IsBareLabelOf (facts_of heap.now) name (string_bytes text)) }
{
    let Some(name) = name else {
        return missing_label(alloc);
    };
    match find_name(heap, name) {
        Some(bytes) => printed(alloc, bytes),
        None => missing_label(alloc),
    }
}

/// Returns the label of arrays of a type. If memory runs out, the answer is `AllocError`.
pub fn array_label(alloc: Global, elem: Basic) -> Result<String, AllocError>
    ensures { IfOk result (λ text. string_bytes text ≡ type_word elem ++ codes "[]") }
{
    let word = type_word(elem);
    format!(in alloc; "{word}[]")
}

/// Returns whether the label of classes with this name is the one meant. If memory runs out, the answer is `AllocError`.
pub(crate) fn judge_label(
    alloc: Global,
    heap: &Heap,
    meant: &MeantLabel<'_>,
    name: Option<u64>,
) -> Result<bool, AllocError>
    ensures { (word : List ℕ) → IsMeantBy word meant.now → IfOk result (IsJudged (facts_of heap.now) word name) }
{
    holds_of_heap(heap);
    let label = bare_label(alloc, heap, name)?;
    let is_meant = meant.matches(label.as_bytes());
    Ok(is_meant)
}
