//! What is kept between reports.

ghost use Rattle.std.specs.Prelude.{◌↔◌, List, IfOk, IfSome};
ghost use Rattle.hprof_values.specs.declared.ids.IdSize.{IdSize};
ghost use Rattle.hprof_items.specs.FactValue.{FactValue};
ghost use Rattle.hprof_edges.specs.Edges.{IsEdge};
ghost use Rattle.hprof_edges.specs.LeftOut.{IsLeftOut, fields_in};
ghost use Rattle.hprof_edges.specs.declared.edge.Edge.{Edge};
ghost use Rattle.hprof_heap.specs.HeapFacts.{facts_of, size_of};
ghost use Rattle.hprof_weak.specs.Weak.{IsWeak};
ghost use Rattle.hprof_retained.specs.Tree.{IsTreeOf};

use crate::survey::{References, Survey};
use hprof_devices::Device;
use hprof_edges::LeftOut;
use hprof_heap::Heap;
use hprof_reach::{Reach, ReferrerIndex, index_referrers, reach_of};
use hprof_reports::{write_classes, write_histogram};
use hprof_retained::{Retained, WeaklyHeld, retained_of};
use std::alloc::{AllocError, Global};

/// A value that is made of a heap, at the first report that wants it, and may be kept for others.
pub(crate) trait OfHeap: Drop {
    ghost use Rattle.hprof_values.specs.declared.ids.IdSize.{IdSize};
    ghost use Rattle.hprof_items.specs.FactValue.{FactValue};
    ghost use Rattle.hprof_heap.specs.HeapFacts.{facts_of, size_of};

    // It is of a heap of these facts.
    ghost is_of: { IdSize → List FactValue → Self → Type 0 };

    /// Makes the value of a heap. The error is that memory ran out.
    fn make(alloc: Global, heap: &Heap) -> Result<Self, AllocError>
        ensures { IfOk result (is_of (size_of heap.now) (facts_of heap.now)) };
}

/// Returns the value that is kept, or makes it. The error is that memory ran out.
pub(crate) fn cached_or_made<T: OfHeap>(
    alloc: Global,
    heap: &Heap,
    kept: Option<T>,
) -> Result<T, AllocError>
    requires { IfSome kept (T.is_of (size_of heap.now) (facts_of heap.now)) }
    ensures { IfOk result (T.is_of (size_of heap.now) (facts_of heap.now)) }
{
    match kept {
        Some(value) => Ok(value),
        None => T::make(alloc, heap),
    }
}

impl OfHeap for Reach {
    ghost use Rattle.hprof_reach.specs.Reaching.{IsReach};

    ghost is_of = { IsReach };

    fn make(alloc: Global, heap: &Heap) -> Result<Reach, AllocError> {
        reach_of(alloc, heap)
    }
}

/// Returns what each node retains, if it is kept, or makes it. `weak` are the weak fields of the heap's classes. The error is that memory
/// ran out.
pub(crate) fn retained_or_made(
    alloc: Global,
    heap: &Heap,
    weak: &LeftOut,
    kept: Option<Retained>,
) -> Result<Retained, AllocError>
    requires weak { (edge : Edge) → IsEdge (size_of heap.now) (facts_of heap.now) edge
        → IsLeftOut (fields_in weak.now) (facts_of heap.now) edge ↔ IsWeak (facts_of heap.now) edge }
    requires kept { IfSome kept (IsTreeOf (size_of heap.now) (facts_of heap.now)) }
    ensures { IfOk result (IsTreeOf (size_of heap.now) (facts_of heap.now)) }
{
    match kept {
        Some(retained) => Ok(retained),
        None => retained_of(alloc, heap, weak),
    }
}

impl OfHeap for ReferrerIndex {
    ghost use Rattle.hprof_reach.specs.Index.{IsIndexOf};

    ghost is_of = { IsIndexOf };

    fn make(alloc: Global, heap: &Heap) -> Result<ReferrerIndex, AllocError> {
        index_referrers(alloc, heap)
    }
}

/// The text of the class histogram.
#[derive(Drop)]
pub(crate) struct HistogramText {
    pub(crate) bytes: Vec<u8>,
}

impl OfHeap for HistogramText {
    ghost use Rattle.hprof_reports.specs.HistogramText.{IsHistogramText};

    ghost is_of = { λ ids facts text. IsHistogramText ids facts text.bytes.items };

    fn make(alloc: Global, heap: &Heap) -> Result<HistogramText, AllocError> {
        let mut target = Device::new(Vec::new(alloc));
        match write_histogram(alloc, heap, &mut target) {
            Ok(()) => Ok(HistogramText {
                bytes: target.into_inner(),
            }),
            // A list fails to take a byte only if memory runs out.
            Err(_) => Err(AllocError),
        }
    }
}

/// The text of the report `classes`.
#[derive(Drop)]
pub(crate) struct ClassesText {
    pub(crate) bytes: Vec<u8>,
}

impl OfHeap for ClassesText {
    ghost use Rattle.hprof_reports.specs.ClassesText.{IsClassesText};

    ghost is_of = { λ ids facts text. IsClassesText ids facts text.bytes.items };

    fn make(alloc: Global, heap: &Heap) -> Result<ClassesText, AllocError> {
        let mut target = Device::new(Vec::new(alloc));
        match write_classes(alloc, heap, &mut target) {
            Ok(()) => Ok(ClassesText {
                bytes: target.into_inner(),
            }),
            // A list fails to take a byte only if memory runs out.
            Err(_) => Err(AllocError),
        }
    }
}

/// What is kept between reports. It is no part of any answer.
#[derive(Drop)]
pub struct Cache {
    /// Whether more than one report is asked for. For one alone neither an index nor a text is made.
    pub(crate) is_for_many: bool,
    /// The search from the GC roots.
    pub(crate) reach: Option<Reach>,
    /// What is made for reports that people read.
    pub(crate) survey: Option<Survey>,
    /// What is made for reports that tell strong references from weak ones.
    pub(crate) references: Option<References>,
    /// What each node retains.
    pub(crate) retained: Option<Retained>,
    /// The nodes that only weak references reach.
    pub(crate) weakly: Option<WeaklyHeld>,
    /// The index of referrers.
    pub(crate) referrers: Option<ReferrerIndex>,
    /// The text of the class histogram.
    pub(crate) histogram: Option<HistogramText>,
    /// The text of the report `classes`.
    pub(crate) classes: Option<ClassesText>,
}

impl Cache {
    ghost use Rattle.hprof_ask.specs.Cache.{IsCacheOf};

    /// Returns what is kept before the first report: nothing.
    fn nothing(is_for_many: bool) -> Cache
        ensures { (ids : IdSize) (facts : List FactValue) → IsCacheOf ids facts result }
    {
        Cache {
            is_for_many,
            reach: None,
            survey: None,
            references: None,
            retained: None,
            weakly: None,
            referrers: None,
            histogram: None,
            classes: None,
        }
    }

    /// Returns what is kept before the first of many reports.
    pub fn for_many() -> Cache
        ensures { (ids : IdSize) (facts : List FactValue) → IsCacheOf ids facts result }
    {
        Cache::nothing(true)
    }

    /// Returns what is kept before the only report.
    pub fn for_one() -> Cache
        ensures { (ids : IdSize) (facts : List FactValue) → IsCacheOf ids facts result }
    {
        Cache::nothing(false)
    }
}
