//! A heap, and what is kept of it for reports.

ghost use Rattle.std.specs.Prelude.{◌≡◌, IfOk};
ghost use Rattle.hprof_heap.specs.HeapFacts.{facts_of, size_of};

use hprof_edges::LeftOut;
use hprof_heap::{Heap, holds_of_heap};
use hprof_layouts::{KnownLayouts, known_layouts};
use hprof_naming::ClassNames;
use hprof_threads::ThreadRoots;
use hprof_weak::weak_fields;
use std::alloc::{AllocError, Global};

/// A heap, and what was made of it before: layouts, the names of classes, the roots of threads, and the fields that hold weak references.
#[derive(Clone, Copy)]
pub struct HeapView<'a> {
    /// The heap.
    pub heap: &'a Heap,
    /// The layouts of its classes.
    pub layouts: &'a KnownLayouts,
    /// The names of its classes.
    pub classes: &'a ClassNames,
    /// The roots of its threads.
    pub threads: &'a ThreadRoots,
    /// The fields of its classes that hold weak references.
    pub weak: &'a LeftOut,
}

/// What is made of a heap with its objects in memory for a [`HeapView`].
#[derive(Drop)]
pub struct HeapTables {
    layouts: KnownLayouts,
    classes: ClassNames,
    threads: ThreadRoots,
    weak: LeftOut,
}

impl HeapTables {
    ghost use Rattle.hprof_holders.specs.Views.{AreTables, IsView};

    /// Makes the tables of a heap. If memory runs out, the answer is `AllocError`.
    pub fn of(alloc: Global, heap: &Heap) -> Result<HeapTables, AllocError>
        ensures { IfOk result (AreTables heap.now) }
    {
        holds_of_heap(heap);
        Ok(HeapTables {
            layouts: known_layouts(alloc, heap)?,
            classes: ClassNames::of(alloc, heap)?,
            threads: ThreadRoots::of(alloc, heap)?,
            weak: weak_fields(alloc, heap)?,
        })
    }

    /// Returns the heap together with its tables.
    pub fn view<'a>(&'a self, heap: &'a Heap) -> HeapView<'a>
        requires { AreTables heap.now self.now }
        ensures heap { result.heap.now ≡ heap.now }
        ensures view { IsView result }
    {
        HeapView {
            heap,
            layouts: &self.layouts,
            classes: &self.classes,
            threads: &self.threads,
            weak: &self.weak,
        }
    }
}
