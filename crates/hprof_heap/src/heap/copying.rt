//! Copying a heap.

ghost use Rattle.std.specs.Prelude.{◌≡◌, IfOk};
ghost use Rattle.hprof_heap.specs.Heap.{heap_of};
ghost use Rattle.hprof_heap.specs.OtherFacts.{other_facts};

use super::Heap;
use std::alloc::{AllocError, Global};

impl Heap {
    /// Returns a heap with the identifier size, the time and all facts of this one but its objects. Each table is copied whole.
    ///
    /// If memory runs out, the answer is `AllocError`.
    pub fn without_objects(&self, alloc: Global) -> Result<Heap, AllocError>
        ensures { IfOk result (λ others. heap_of others ≡ record (heap_of self.now) { facts = other_facts (heap_of self.now).facts }) }
    {
        let tables = self.tables.without_objects(alloc)?;
        Ok(Heap { tables })
    }
}
