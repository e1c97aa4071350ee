//! Adding facts to a heap.

ghost use Rattle.std.specs.Prelude.{◌≡◌, OnErr, IfOk};
ghost use Rattle.hprof_items.specs.FactValue.{ListsHave, value_of};
ghost use Rattle.hprof_items.specs.Spelling.{Fits};
ghost use Rattle.hprof_items.specs.SubRecord.{dump_bytes};
ghost use Rattle.hprof_rows.specs.Stating.{StatesInto, IsNewAmong};
ghost use Rattle.hprof_heap.specs.Heap.{heap_of};

use super::Heap;
use hprof_items::Fact;
use hprof_tables::Stated;
use std::alloc::AllocError;

impl Heap {
    /// Adds a fact. `bytes` is its sub-record, if a sub-record states it, and empty otherwise. If the fact is present, or another one with
    /// its key, the heap is unchanged and nothing is allocated.
    ///
    /// If memory runs out, the answer is `AllocError`, and the heap is unchanged.
    #[inline(always)]
    pub fn state(&mut self, fact: &Fact<'_>, bytes: &[u8]) -> Result<Stated, AllocError>
        requires fits { Fits (heap_of self.old).ids (value_of fact.now) }
        requires lists { ListsHave (heap_of self.old).ids fact.now }
        requires spelled { bytes.now ≡ dump_bytes (heap_of self.old).ids (value_of fact.now) }
        ensures ok { IfOk result (λ stated. StatesInto (heap_of self.old) (value_of fact.now) stated (heap_of self.new)) }
        ensures err { OnErr result (heap_of self.new ≡ heap_of self.old) }
        ensures absent { OnErr result (IsNewAmong (heap_of self.old).facts (value_of fact.now)) }
    {
        self.tables.state(fact, bytes)
    }
}
