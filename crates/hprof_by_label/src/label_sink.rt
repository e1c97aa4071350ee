//! Labelling the nodes of a tree, as the objects come.

ghost use Rattle.std.specs.Prelude.{◌≡◌, ◌<◌, All, false, length, vec_len};
ghost use Rattle.hprof_retained.specs.Tree.{count_of};
ghost use Rattle.hprof_by_label.specs.Sound.{IsSound};

use crate::kinds::{Kind, kind_of};
use crate::labelling::Labelling;
use crate::node_labels::NodeLabels;
use hprof_heap::{Heap, to_object_dump};
use hprof_items::Fact;
use hprof_naming::ClassNames;
use hprof_passes::ObjectSink;
use hprof_reach::id_of;
use hprof_retained::{Retained, bytes_of_dump};
use hprof_values::IdSize;
use std::alloc::{AllocError, Global};

/// The nodes of a tree with their labels and sizes. A node whose object has not come has the label of a class dump, and no size.
#[derive(Drop)]
pub(crate) struct LabelSink<'a> {
    alloc: Global,
    heap: &'a Heap,
    names: &'a ClassNames,
    retained: &'a Retained,
    labelling: Labelling,
    /// For each place the number of a label.
    of_places: Vec<u32>,
    /// For each place the bytes of the fields or the elements.
    sizes: Vec<u64>,
    /// Whether an object was refused. The labels are unspecified then.
    failed: bool,
    ghost sound: { failed ≡ false → IsSound labelling × All (λ label. label < length labelling.texts.texts.items) of_places.items },
    ghost as_many: { vec_len of_places ≡ count_of retained.now },
    ghost sized: { vec_len sizes ≡ count_of retained.now },
}

impl<'a> LabelSink<'a> {
    ghost use Rattle.std.specs.Prelude.{List, [], IfOk, OnOk};
    ghost use Rattle.hprof_values.specs.declared.ids.IdSize.{IdSize};
    ghost use Rattle.hprof_heap.specs.HeapFacts.{facts_of};
    ghost use Rattle.hprof_naming.specs.ClassNames.{AreClassNames};
    ghost use Rattle.hprof_by_label.specs.Labelling.{IsSoFar};
    ghost use Rattle.hprof_by_label.specs.Labels.{place_count};

    /// Returns the nodes of a tree, all as class dumps. If memory runs out, the answer is `AllocError`.
    pub(crate) fn new(
        alloc: Global,
        heap: &'a Heap,
        names: &'a ClassNames,
        retained: &'a Retained,
    ) -> Result<Self, AllocError>
        ensures heap { IfOk result (λ sink. sink.heap.now ≡ heap.now) }
        ensures names { IfOk result (λ sink. sink.names.now ≡ names.now) }
        ensures retained { IfOk result (λ sink. sink.retained.now ≡ retained.now) }
        ensures so_far { IfOk result (λ sink. AreClassNames (facts_of heap.now) names.now → (ids : IdSize) → IsSoFar ids [] sink) }
    {
        let mut labelling = Labelling::new(alloc);
        let label = labelling.label_of_kind(alloc, heap, names, Kind::ClassDump)?;
        let of_places = vec![in alloc; label; retained.len()]?;
        let sizes = vec![in alloc; 0; retained.len()]?;
        Ok(LabelSink {
            alloc,
            heap,
            names,
            retained,
            labelling,
            of_places,
            sizes,
            failed: false,
        })
    }

    /// Returns the labels and sizes, after the last object. If one was refused, or there are not `places` places, the answer is
    /// `AllocError`.
    pub(crate) fn finish(self, places: usize) -> Result<NodeLabels, AllocError>
        ensures as_many { IfOk result (λ labels. place_count labels ≡ places) }
        ensures texts { IfOk result (λ labels. labels.texts ≡ self.entry.labelling.texts.texts) }
        ensures of_places { IfOk result (λ labels. labels.of_places ≡ self.entry.of_places) }
        ensures sizes { IfOk result (λ labels. labels.sizes ≡ self.entry.sizes) }
    {
        let LabelSink {
            labelling,
            of_places,
            sizes,
            failed,
            ..
        } = self;
        if failed || of_places.len() != places {
            return Err(AllocError);
        }
        Ok(NodeLabels {
            texts: labelling.texts.texts,
            of_places,
            sizes,
        })
    }
}

/// Takes the label and the size of each object that is a node of the tree. It refuses one if memory runs out, or if there are more than
/// 2^32 labels.
impl ObjectSink for LabelSink<'_> {
    ghost use Rattle.std.specs.Prelude.{⊤};
    ghost use Rattle.hprof_by_label.specs.Labelling.{TakesLabel};

    ghost takes = { λ old ids object new. TakesLabel ids object old new };

    ghost refuses = { λ old ids object fault new. ⊤ };

    type Fault = AllocError;

    #[inline(always)]
    fn take(&mut self, ids: IdSize, object: &Fact<'_>) -> Result<(), AllocError> {
        let Some(dump) = to_object_dump(object) else {
            return Ok(());
        };
        let Some(number) = self.retained.nodes().number_of(id_of(&dump)) else {
            return Ok(());
        };
        let place = self.retained.place_by_number(number);
        if place == 0 {
            return Ok(());
        }
        if self.failed {
            return Err(AllocError);
        }
        self.failed = true;
        let label = self
            .labelling
            .label_of_kind(self.alloc, self.heap, self.names, kind_of(&dump))?;
        self.of_places[place] = label;
        self.sizes[place] = bytes_of_dump(&dump, ids);
        self.failed = false;
        Ok(())
    }
}
