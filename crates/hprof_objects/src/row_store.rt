//! Rows in memory, and behind them in scratch.

ghost use Rattle.std.specs.Prelude.{◌≡◌, ◌<◌, ◌^◌, ◌↔◌, [], length, take, IfOk, IsTrue, OnOk, OnErr, IsSome};
ghost use Rattle.hprof_devices.specs.declared.health.Health.TheVariants.{Well};
ghost use Rattle.hprof_runs.specs.ReadBack.{HoldsNothing};
ghost use Rattle.hprof_runs.specs.Runs.{HoldsRuns};
ghost use Rattle.hprof_runs.specs.ScratchFault.{LeavesScratch};

use hprof_runs::{Rows, Runs, Scratch, ScratchFault};
use std::alloc::{AllocError, Global};
use std::mem;

/// Rows that come in no order. They are kept in memory as long as they take no more than they may, and then go to scratch, as sorted runs.
#[derive(Drop)]
pub struct RowStore<S> {
    alloc: Global,
    pub(crate) rows: Rows,
    pub(crate) runs: Runs<S>,
    /// The most bytes that rows in memory may take.
    most: u64,
}

impl<S: Scratch + Drop> RowStore<S> {
    ghost use Rattle.hprof_objects.specs.Store.{Pushes, Spills, rows_of_store, runs_of_store, scratch_of_store};

    /// Returns a store without rows.
    pub fn new(alloc: Global, scratch: S, most: u64) -> Result<Self, AllocError>
        requires { HoldsNothing (S.written scratch) }
        ensures scratch { IfOk result (λ store. scratch_of_store store ≡ scratch) }
        ensures rows { IfOk result (λ store. rows_of_store store ≡ []) }
        ensures runs { IfOk result (λ store. IsSome (S.written scratch) → HoldsRuns S.written S.health (runs_of_store store) []) }
    {
        Ok(RowStore {
            alloc,
            rows: Rows::new(alloc),
            runs: Runs::new(alloc, scratch)?,
            most,
        })
    }

    /// Returns the number of rows in memory.
    #[inline(always)]
    pub fn len(&self) -> usize
        ensures { result ≡ length (rows_of_store self.now) }
    {
        self.rows.len()
    }

    /// Returns whether there is no row in memory.
    pub fn is_empty(&self) -> bool
        ensures { IsTrue result ↔ (rows_of_store self.now ≡ []) }
    {
        self.len() == 0
    }

    /// Keeps the first `count` rows in memory, and drops the others there.
    pub fn truncate(&mut self, count: usize)
        ensures rows { rows_of_store self.new ≡ take count (rows_of_store self.old) }
        ensures runs { runs_of_store self.new ≡ runs_of_store self.old }
    {
        self.rows.truncate(count);
    }

    /// Writes enough of the rows in memory to scratch. None is in memory then, but their memory stays.
    fn spill(&mut self) -> Result<(), ScratchFault>
        requires { S.health (scratch_of_store self.old) ≡ Well }
        ensures rows { rows_of_store self.new ≡ [] }
        ensures runs { OnOk result (Spills S.written S.health (rows_of_store self.old) (runs_of_store self.old) (runs_of_store self.new)) }
        ensures health { LeavesScratch result (S.health (scratch_of_store self.new)) }
    {
        let rows = mem::replace(&mut self.rows, Rows::new(self.alloc));
        let sorted = rows.sort();
        let outcome = self.runs.add(&sorted);
        self.rows = sorted.into_rows();
        outcome
    }

    /// Adds a row behind those in memory. Where these would take more than they may, or memory is refused, they go to scratch before.
    /// Returns whether they did.
    ///
    /// After an error no row is added.
    #[inline(always)]
    pub fn push(&mut self, key: u64, bytes: &[u8]) -> Result<bool, ScratchFault>
        requires short { length bytes.now < 2 ^ 32 }
        requires well { S.health (scratch_of_store self.old) ≡ Well }
        ensures pushed { IfOk result (λ spilled. Pushes S.written S.health spilled self.old (key, bytes.now) self.new) }
        ensures health { LeavesScratch result (S.health (scratch_of_store self.new)) }
    {
        let fits = self.rows.is_empty()
            || self.rows.size().saturating_add(bytes.len() as u64) < self.most;
        if fits && self.rows.push(key, bytes).is_ok() {
            return Ok(false);
        }
        self.push_anew(key, bytes)
    }

    /// Adds a row as the only one in memory, behind those that go to scratch.
    fn push_anew(&mut self, key: u64, bytes: &[u8]) -> Result<bool, ScratchFault>
        requires short { length bytes.now < 2 ^ 32 }
        requires well { S.health (scratch_of_store self.old) ≡ Well }
        ensures pushed { IfOk result (λ spilled. Pushes S.written S.health spilled self.old (key, bytes.now) self.new) }
        ensures health { LeavesScratch result (S.health (scratch_of_store self.new)) }
    {
        self.spill()?;
        match self.rows.push(key, bytes) {
            Ok(()) => Ok(true),
            Err(_) => Err(ScratchFault::OutOfMemory),
        }
    }
}
