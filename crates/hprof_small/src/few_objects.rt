//! A heap in the making: all facts of a heap but its objects, and the objects that it is given.

ghost use Rattle.std.specs.Prelude.{◌≡◌, IfOk};
ghost use Rattle.hprof_heap.specs.Heap.{heap_of};
ghost use Rattle.hprof_heap.specs.OtherFacts.{other_facts};

use crate::spelling::sub_bytes;
use hprof_heap::{Heap, Stated};
use hprof_items::Fact;
use hprof_passes::ObjectSink;
use hprof_values::IdSize;
use std::alloc::{AllocError, Global};

/// A heap in the making. It takes each object that it is given.
#[derive(Drop)]
pub(crate) struct FewObjects {
    alloc: Global,
    heap: Heap,
}

impl FewObjects {
    /// Returns a heap in the making that has all facts of a heap but its objects. If memory runs out, the answer is `AllocError`.
    pub(crate) fn of(alloc: Global, heap: &Heap) -> Result<Self, AllocError>
        ensures { IfOk result (λ few. heap_of few.heap ≡ record (heap_of heap.now) { facts = other_facts (heap_of heap.now).facts }) }
    {
        let heap = heap.without_objects(alloc)?;
        Ok(FewObjects { alloc, heap })
    }

    /// Returns the heap of all facts.
    pub(crate) fn finish(self) -> Heap
        ensures { result ≡ self.heap }
    {
        self.heap
    }
}

/// The fault is want of memory, or another object with the same identifier.
impl ObjectSink for FewObjects {
    ghost use Rattle.std.specs.Prelude.{⊤};
    ghost use Rattle.hprof_small.specs.FewObjects.{TakesObject};

    ghost takes = { TakesObject };

    ghost refuses = { λ old ids object fault new. ⊤ };

    type Fault = AllocError;

    #[inline(always)]
    fn take(&mut self, ids: IdSize, object: &Fact<'_>) -> Result<(), AllocError> {
        if ids != self.heap.ids() {
            return Ok(());
        }
        let bytes = sub_bytes(self.alloc, object, ids)?;
        match self.heap.state(object, &bytes)? {
            Stated::New => Ok(()),
            Stated::Same => Ok(()),
            Stated::Differs => Err(AllocError),
        }
    }
}
