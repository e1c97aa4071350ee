//! Merging stored objects into a sink.

ghost use Rattle.std.specs.Prelude.{◌≡◌, ◌↔◌, List, length, IfErr, IfSome, IsSome, IsTrue};
ghost use Rattle.hprof_merge.specs.Rows.{ByteRow};
ghost use Rattle.hprof_merge.specs.Union.{IsUnion};
ghost use Rattle.hprof_stream.specs.declared.limits.Limits.{Limits};
ghost use Rattle.hprof_objects.specs.MergedObjects.{IfScratchFails, MergesLists, TellsChange, UnlessRefused};
ghost use Rattle.hprof_objects.specs.ObjectCursors.{object_stop, part_under};
ghost use Rattle.hprof_objects.specs.PartsRead.{PartRead};
ghost use Rattle.hprof_objects.specs.StoredObjects.{AreToldAgain, HoldsObjects, IsOneStretch, objects_of, scratch_under};

use crate::object_fault::ObjectFault;
use crate::opening::{part_stop, scratch_stop};
use crate::stored_objects::StoredObjects;
use crate::stretch_fault::StretchFault;
use hprof_devices::Source;
use hprof_merge::{MergeFault, OneOf, RowSink, merge_rows};
use hprof_parts::Parts;
use hprof_runs::{RunFault, Scratch};
use hprof_stream::Limits;
use std::alloc::Global;
use std::convert::Infallible;

/// The fault of a cursor over rows in memory, over a run, or over a stretch.
type CursorFault = OneOf<OneOf<OneOf<Infallible, Infallible>, RunFault>, StretchFault>;

impl<S: Scratch + Drop> StoredObjects<S> {
    /// Returns the number of the part that the cursor at a place reads.
    fn part_at(&self, place: usize) -> usize
        ensures { result ≡ part_under self.now place }
    {
        let before = self.runs.count().saturating_add(2);
        match self.stretches.get(place.saturating_sub(before)) {
            Some(stretch) => stretch.part,
            None => 0,
        }
    }

    /// Returns the reason why the objects cannot be merged.
    fn stop_of<F>(&self, stop: MergeFault<CursorFault, F>) -> ObjectFault<F>
        ensures { result ≡ object_stop (part_under self.now) stop }
    {
        match stop {
            MergeFault::OutOfMemory => ObjectFault::OutOfMemory,
            MergeFault::TwoContents(id) => ObjectFault::TwoContents(id),
            MergeFault::Cursor(_, OneOf::First(OneOf::First(_))) => ObjectFault::OutOfMemory,
            MergeFault::Cursor(_, OneOf::First(OneOf::Second(fault))) => scratch_stop(fault),
            MergeFault::Cursor(place, OneOf::Second(fault)) => part_stop(
                self.part_at(place),
                fault,
            ),
            MergeFault::Sink(fault) => ObjectFault::Sink(fault),
        }
    }

    /// Returns whether no object is in memory or in scratch, and at most one stretch stays in its part. Then no identifier has objects with
    /// two contents.
    pub fn is_one_stretch(&self) -> bool
        ensures { IsTrue result ↔ IsOneStretch self.now }
    {
        self.rows.is_empty() && self.runs.count() == 0 && self.stretches.len() <= 1
    }

    /// Returns the number of objects if `is_one_stretch`, and else `None`. Nothing is read.
    pub fn count_in_one_stretch(&self) -> Option<u64>
        ensures one { IsSome result ↔ IsOneStretch self.now }
        ensures count { IfSome result (λ count. (limits : Limits) (reads : List PartRead) (rows : List ByteRow)
            → HoldsObjects S.written S.health limits reads self.now → IsUnion (objects_of reads) rows → count ≡ length rows) }
    {
        if !self.is_one_stretch() {
            return None;
        }
        match self.stretches.first() {
            Some(stretch) => Some(stretch.count),
            None => Some(0),
        }
    }

    /// Merges the objects into a sink, which is given each of them once, in ascending order of identifier, with the bytes of its
    /// sub-record. They can be merged again as often as is wanted.
    ///
    /// The parts are those that were read, and the limits are those of the first reading; the reads of a part are counted anew.
    ///
    /// # Errors
    ///
    /// - `OutOfMemory`: memory ran out. The sink was given the first of the objects, or none.
    /// - `TwoContents`: the least identifier of which objects have two contents. The sink was given the objects below it.
    /// - `Scratch`, `Part`: objects cannot be read again, or a part is not there. The sink was given the first of the objects, or none.
    /// - `Sink`: the sink refused an object. It was given the objects below it.
    pub fn merge<R: Source + Drop, P: Parts<Reader = R>, T: RowSink>(
        &self,
        alloc: Global,
        parts: &P,
        limits: Limits,
        sink: &mut T,
    ) -> Result<(), ObjectFault<T::Fault>>
        requires sink { T.well sink.old }
        ensures rows { (lists : List (List ByteRow)) × MergesLists T.steps T.refuses lists result sink.old sink.new }
        ensures objects { (reads : List PartRead) → AreToldAgain S.written S.health limits (P.bytes parts.now) reads self.now
            → MergesLists T.steps T.refuses (objects_of reads) result sink.old sink.new }
        ensures again { IfErr result (TellsChange S.written S.health limits (P.bytes parts.now) self.now) }
        ensures read { IfErr result (λ stop. IfScratchFails stop (S.unreadable (scratch_under self.now))) }
        ensures well { UnlessRefused (T.well sink.new) result }
    {
        let mut cursors = self.open(alloc, parts, limits)?;
        match merge_rows(alloc, &mut cursors, sink) {
            Ok(()) => Ok(()),
            Err(stop) => Err(self.stop_of(stop)),
        }
    }
}
