//! Which of some classes have the label that is meant. The label of each name is printed and compared once, however many classes have it.

ghost use Rattle.std.specs.Prelude.{◌≡◌, ◌++◌, ◌∷◌, [], ℕ, IfOk, List, OnOk, Some, if◌then◌else◌};
ghost use Rattle.std.specs.BTreeMap.{get};
ghost use Rattle.std.specs.Ordering.{nat_cmp};
ghost use Rattle.hprof_heap.specs.HeapFacts.{facts_of};
ghost use Rattle.hprof_naming.specs.ClassNames.{AreClassNames};
ghost use Rattle.hprof_naming.specs.MeantLabel.{IsMeantBy};
ghost use Rattle.hprof_meaning.specs.BareLabels.{AreBareLabels};
ghost use Rattle.hprof_meaning.specs.Judgements.{AreJudged, IsClassJudged, IsJudged, meant_of};

use crate::labels::judge_label;
use hprof_heap::{Heap, holds_of_heap};
use hprof_naming::{ClassNames, MeantLabel};
use std::alloc::{AllocError, Global};
use std::collections::BTreeMap;

/// Returns the answer so far for a name, if there is one.
fn known_answer(judged: &BTreeMap<u64, bool>, name: u64) -> Option<bool>
    ensures { result ≡ get nat_cmp judged.now name }
{
    judged.get(&name).copied()
}

/// Returns whether the label of classes with this name is the one meant. `judged` has the answers so far, by name.
fn judge_name(
    alloc: Global,
    heap: &Heap,
    meant: &MeantLabel<'_>,
    judged: &mut BTreeMap<u64, bool>,
    name: u64,
) -> Result<bool, AllocError>
    ensures { (word : List ℕ) → IsMeantBy word meant.now → AreJudged (facts_of heap.now) word judged.old
        → IfOk result (λ is. IsJudged (facts_of heap.now) word (Some name) is × AreJudged (facts_of heap.now) word judged.new) }
{
    if let Some(is_meant) = known_answer(judged, name) {
        return Ok(is_meant);
    }
    let is_meant = judge_label(alloc, heap, meant, Some(name))?;
    judged.insert(name, is_meant)?;
    Ok(is_meant)
}

/// Returns whether the label of a class is the one meant. `judged` has the answers so far, by name.
fn judge_class(
    alloc: Global,
    heap: &Heap,
    names: &ClassNames,
    meant: &MeantLabel<'_>,
    judged: &mut BTreeMap<u64, bool>,
    class: u64,
) -> Result<bool, AllocError>
    requires { AreClassNames (facts_of heap.now) names.now }
    ensures { (word : List ℕ) → IsMeantBy word meant.now → AreJudged (facts_of heap.now) word judged.old
        → IfOk result (λ is. IsClassJudged (facts_of heap.now) word class is × AreJudged (facts_of heap.now) word judged.new) }
{
    holds_of_heap(heap);
    match names.name_of(class) {
        Some(name) => judge_name(alloc, heap, meant, judged, name),
        None => judge_label(alloc, heap, meant, None),
    }
}

/// Appends the class, if it is meant.
fn push_if(found: &mut Vec<u64>, class: u64, is_meant: bool) -> Result<(), AllocError>
    ensures { OnOk result (found.new.items ≡ found.old.items ++ (if is_meant then class ∷ [] else [])) }
{
    if is_meant {
        found.push(class)?;
    }
    Ok(())
}

/// Returns those of the classes whose label is the one meant, in their order. If memory runs out, the answer is `AllocError`.
pub(crate) fn meant_among(
    alloc: Global,
    heap: &Heap,
    names: &ClassNames,
    meant: &MeantLabel<'_>,
    classes: &[u64],
) -> Result<Vec<u64>, AllocError>
    requires { AreClassNames (facts_of heap.now) names.now }
    ensures { (word : List ℕ) (label : ℕ → List ℕ) → IsMeantBy word meant.now → AreBareLabels (facts_of heap.now) label
        → IfOk result (λ found. found.items ≡ meant_of word label classes.now) }
{
    let mut judged = BTreeMap::new(alloc);
    let mut found = Vec::new(alloc);
    let mut rest = classes;
    while let Some((class, after)) = rest.split_first() {
        let is_meant = judge_class(alloc, heap, names, meant, &mut judged, *class)?;
        push_if(&mut found, *class, is_meant)?;
        rest = after;
    }
    Ok(found)
}
