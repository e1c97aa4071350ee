//! Labelling nodes one after the other.

use crate::kind_numbers::KindNumbers;
use crate::kinds::{Kind, kind_label};
use crate::texts::Texts;
use hprof_heap::Heap;
use hprof_naming::ClassNames;
use std::alloc::{AllocError, Global};

/// The labels so far, and the numbers of the kinds that came up. The label of a kind is printed once.
#[derive(Drop)]
pub(crate) struct Labelling {
    /// The labels.
    pub(crate) texts: Texts,
    /// The numbers of kinds.
    pub(crate) kinds: KindNumbers,
}

impl Labelling {
    ghost use Rattle.std.specs.Prelude.{◌≡◌, ◌<◌, List, [], IfOk, OnOk, length};
    ghost use Rattle.hprof_heap.specs.HeapFacts.{facts_of};
    ghost use Rattle.hprof_items.specs.FactValue.{FactValue};
    ghost use Rattle.hprof_naming.specs.ClassNames.{AreClassNames};
    ghost use Rattle.hprof_by_label.specs.Labelling.{IsLabelling, IsNumberOfKind};
    ghost use Rattle.hprof_by_label.specs.Sound.{IsSound};
    ghost use Rattle.hprof_by_label.specs.Texts.{StaysIn};

    /// Returns no labels. Allocates nothing.
    pub(crate) fn new(alloc: Global) -> Labelling
        ensures none { result.texts.texts.items ≡ [] }
        ensures sound { IsSound result }
        ensures labelling { (facts : List FactValue) → IsLabelling facts result }
    {
        Labelling {
            texts: Texts::new(alloc),
            kinds: KindNumbers::new(alloc),
        }
    }

    /// Returns the number of a kind's label. If memory runs out, the answer is `AllocError` and the labels are unspecified.
    pub(crate) fn number_of_kind(
        &mut self,
        alloc: Global,
        heap: &Heap,
        names: &ClassNames,
        kind: Kind,
    ) -> Result<usize, AllocError>
        requires sound { IsSound self.old }
        ensures sound { OnOk result (IsSound self.new) }
        ensures labelling { AreClassNames (facts_of heap.now) names.now → IsLabelling (facts_of heap.now) self.old
            → IfOk result (λ number. IsLabelling (facts_of heap.now) self.new × IsNumberOfKind (facts_of heap.now) self.new kind number) }
        ensures within { IfOk result (λ number. number < length self.new.texts.texts.items) }
        ensures stays { OnOk result (StaysIn self.old.texts.texts.items self.new.texts.texts.items) }
    {
        if let Some(number) = self.kinds.number_of(kind) {
            return Ok(number);
        }
        let label = kind_label(alloc, heap, names, kind)?;
        let number = self.texts.number_of(label)?;
        self.kinds.put(kind, number)?;
        Ok(number)
    }

    /// Returns the number of a kind's label in 32 bits. If memory runs out, or there are more than 2^32 labels, the answer is `AllocError`
    /// and the labels are unspecified.
    pub(crate) fn label_of_kind(
        &mut self,
        alloc: Global,
        heap: &Heap,
        names: &ClassNames,
        kind: Kind,
    ) -> Result<u32, AllocError>
        requires sound { IsSound self.old }
        ensures sound { OnOk result (IsSound self.new) }
        ensures labelling { AreClassNames (facts_of heap.now) names.now → IsLabelling (facts_of heap.now) self.old
            → IfOk result (λ label. IsLabelling (facts_of heap.now) self.new × IsNumberOfKind (facts_of heap.now) self.new kind label) }
        ensures within { IfOk result (λ label. label < length self.new.texts.texts.items) }
        ensures stays { OnOk result (StaysIn self.old.texts.texts.items self.new.texts.texts.items) }
    {
        let number = self.number_of_kind(alloc, heap, names, kind)?;
        match u32::try_from(number) {
            Ok(label) => Ok(label),
            Err(_) => Err(AllocError),
        }
    }
}
