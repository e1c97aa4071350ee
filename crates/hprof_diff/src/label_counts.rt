//! Objects counted by label.

use crate::counted::Counted;
use crate::gathering::parts_of;
use crate::label_count::{LabelCount, first_run, sort_parts};
use crate::labels::source_label;
use hprof_heap::{Heap, holds_of_heap};
use hprof_histogram::{CountedKinds, Row, histogram_over};
use hprof_naming::ClassNames;
use hprof_passes::{InHeap, Objects, PassFault};
use std::alloc::{AllocError, Global};
use std::collections::BTreeMap;

/// The objects of a heap, counted by label.
#[derive(Drop)]
pub struct LabelCounts {
    /// The counts of each label.
    pub(crate) labels: BTreeMap<String, Counted>,
}

impl LabelCounts {
    ghost use Rattle.std.specs.Prelude.{◌≡◌, ℕ, List, IfOk, IsSome, OnOk, cond, bytes_eq, string_bytes};
    ghost use Rattle.hprof_items.specs.FactValue.{FactValue};
    ghost use Rattle.hprof_heap.specs.HeapFacts.{facts_of, size_of};
    ghost use Rattle.hprof_passes.specs.Finding.{Finds};
    ghost use Rattle.hprof_passes.specs.Passing.{IsWhole};
    ghost use Rattle.hprof_histogram.specs.Histogram.{IsHistogram};
    ghost use Rattle.hprof_histogram.specs.Known.{MadeUpWith};
    ghost use Rattle.hprof_diff.specs.Counts.{AreTotals};
    ghost use Rattle.hprof_diff.specs.Sources.{both, nothing};
    ghost use Rattle.hprof_diff.specs.Kept.{AreKept, has_label, kept_in, totals_in};

    /// Returns the counts of no objects.
    fn new(alloc: Global) -> LabelCounts
        ensures { (text : List ℕ) → kept_in result text ≡ nothing }
    {
        LabelCounts {
            labels: BTreeMap::new(alloc),
        }
    }

    /// Returns the count of a label, which is zero if no object has it.
    pub(crate) fn counted(&self, label: &str) -> Counted
        ensures { result ≡ kept_in self.now label.now }
    {
        match self.labels.get(label) {
            Some(counted) => *counted,
            None => Counted::nothing(),
        }
    }

    /// Returns whether an object has the label.
    pub(crate) fn has_label(&self, label: &str) -> bool
        ensures { result ≡ has_label self.now label.now }
    {
        self.labels.contains_key(label)
    }

    /// Adds objects to the count of a label.
    fn add(&mut self, label: String, counted: Counted) -> Result<(), AllocError>
        ensures { OnOk result ((text : List ℕ) → kept_in self.new text
            ≡ cond (bytes_eq (string_bytes label) text) (both (kept_in self.old text) counted) (kept_in self.old text)) }
    {
        let Some(sum) = self.counted(label.as_str()).with(counted) else {
            return Err(AllocError);
        };
        self.labels.insert(label, sum)?;
        Ok(())
    }

    /// Returns the counts of parts, by label. Consecutive parts with the same source are labelled once.
    fn of_parts(alloc: Global, heap: &Heap, parts: &[LabelCount]) -> Result<LabelCounts, AllocError>
        ensures { IfOk result (AreKept (facts_of heap.now) parts.now) }
    {
        holds_of_heap(heap);
        let mut counts = LabelCounts::new(alloc);
        let mut rest = parts;
        while let Some((first, after)) = rest.split_first() {
            let (part, behind) = first_run(*first, after);
            let label = source_label(alloc, heap, part.source)?;
            counts.add(label, part.counted)?;
            rest = behind;
        }
        Ok(counts)
    }

    /// Returns the counts of the rows of a histogram, by the labels of their kinds.
    fn of_rows(alloc: Global, heap: &Heap, rows: &[Row]) -> Result<LabelCounts, AllocError>
        ensures { (all : List FactValue) → IsWhole (size_of heap.now) (facts_of heap.now) all → IsHistogram (size_of heap.now) all rows.now
            → IfOk result (λ counts. AreTotals (size_of heap.now) all (totals_in counts)) }
    {
        let names = ClassNames::of(alloc, heap)?;
        let mut parts = parts_of(alloc, heap, &names, rows)?;
        sort_parts(&mut parts);
        LabelCounts::of_parts(alloc, heap, &parts)
    }

    /// Returns the counts of objects, by the labels of their kinds. The heap has all other facts.
    ///
    /// The label of a class is the printed form of its name, or `\?` if it has no load or the heap does not have its name. Classes with the
    /// same label are counted together, and so are arrays of a type and a class whose label reads the same. The objects are not gone
    /// through if their counts by kind are known.
    ///
    /// # Errors
    ///
    /// - `Sink`: memory ran out, or there are more objects than a number can count.
    /// - `Lost`: the objects cannot be gone through.
    pub fn over<O: Objects>(
        alloc: Global,
        heap: &Heap,
        objects: &O,
        known: Option<CountedKinds>,
    ) -> Result<LabelCounts, PassFault<AllocError, O::Fault>>
        requires { IsSome known → O.agree objects.now (size_of heap.now) (facts_of heap.now) }
        ensures { Finds (MadeUpWith (O.make_up objects.now (size_of heap.now) (facts_of heap.now)) (size_of heap.now) known)
            (O.agree objects.now (size_of heap.now) (facts_of heap.now)) (O.tells objects.now (size_of heap.now) (facts_of heap.now))
            (λ all counts. AreTotals (size_of heap.now) all (totals_in counts)) result }
    {
        let rows = match histogram_over(alloc, heap, objects, known) {
            Ok(rows) => rows,
            Err(stop) => return Err(stop),
        };
        match LabelCounts::of_rows(alloc, heap, &rows) {
            Ok(counts) => Ok(counts),
            Err(fault) => Err(PassFault::Sink(fault)),
        }
    }

    /// Returns the counts of a heap with its objects in memory, as `over` does. If memory runs out, the answer is `AllocError`.
    pub fn of(alloc: Global, heap: &Heap) -> Result<LabelCounts, AllocError>
        ensures { IfOk result (λ counts. AreTotals (size_of heap.now) (facts_of heap.now) (totals_in counts)) }
    {
        holds_of_heap(heap);
        match LabelCounts::over(alloc, heap, &InHeap, None) {
            Ok(counts) => Ok(counts),
            Err(stop) => Err(stop.of_sink()),
        }
    }
}
