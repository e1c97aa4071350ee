//! Picking some of stored objects, where it is known that no identifier has two contents.

ghost use Rattle.std.specs.Prelude.{List, IfErr};
ghost use Rattle.std.specs.List.Sorted.{IsStrictlyIncreasing};
ghost use Rattle.hprof_merge.specs.Rows.{ByteRow};
ghost use Rattle.hprof_merge.specs.Union.{IsUnion};
ghost use Rattle.hprof_objects.specs.CutLists.{AreListsOf};
ghost use Rattle.hprof_objects.specs.MergedObjects.{IfScratchFails, TellsChange, UnlessRefused};
ghost use Rattle.hprof_objects.specs.PartsRead.{PartRead};
ghost use Rattle.hprof_objects.specs.Picks.{Picks};
ghost use Rattle.hprof_objects.specs.StoredObjects.{AreToldAgain, objects_of, scratch_under};

use crate::cut_lists::CutLists;
use crate::cut_reader::CutReader;
use crate::giving::give_wanted;
use crate::object_fault::ObjectFault;
use crate::stored_objects::StoredObjects;
use hprof_devices::Source;
use hprof_merge::RowSink;
use hprof_parts::Parts;
use hprof_runs::Scratch;
use hprof_stream::Limits;
use std::alloc::Global;

/// The most lists of cuts in which any number of identifiers is looked up.
const FEW_LISTS: usize = 256;

/// The most identifiers that are looked up in any number of lists of cuts.
const FEW_WANTED: usize = 4_096;

impl<S: Scratch + Drop> StoredObjects<S> {
    /// Gives a sink those of the objects whose identifiers are wanted, each once, in ascending order of identifier, with the bytes of its
    /// sub-record. The wanted identifiers ascend; one that no object has is passed over. No identifier has two contents.
    ///
    /// An identifier is looked up among the objects in memory, and then in the cuts of the stretches and of the runs, until one has it. A
    /// cut is read if a wanted identifier is in its range, and once at most. The lists are those that `cut_lists` returned. The parts are
    /// those that were read, and the limits are those of the first reading; the reads of a part are counted anew for each cut.
    ///
    /// Each identifier may be looked up in each list, by binary search. So all objects are read, as by `pick`, if there are more than 256
    /// lists and more than 4096 wanted identifiers: the work does not grow with the product of both.
    ///
    /// # Errors
    ///
    /// - `OutOfMemory`: memory ran out. The sink was given the first of the wanted objects, or none.
    /// - `Scratch`, `Part`: objects cannot be read again, or a part is not there. The sink was given the first of the wanted objects, or
    ///   none.
    /// - `Sink`: the sink refused an object. It was given the wanted objects below it.
    pub fn pick_agreed<R: Source + Drop, P: Parts<Reader = R>, T: RowSink>(
        &self,
        alloc: Global,
        lists: &CutLists,
        parts: &P,
        limits: Limits,
        wanted: &[u64],
        sink: &mut T,
    ) -> Result<(), ObjectFault<T::Fault>>
        requires lists { AreListsOf self.now lists.now }
        requires agree { (reads : List PartRead) → AreToldAgain S.written S.health limits (P.bytes parts.now) reads self.now
            → (rows : List ByteRow) × IsUnion (objects_of reads) rows }
        requires sink { T.well sink.old }
        requires ascend { IsStrictlyIncreasing wanted.now }
        ensures objects { (reads : List PartRead) → AreToldAgain S.written S.health limits (P.bytes parts.now) reads self.now
            → Picks T.steps T.refuses wanted.now (objects_of reads) result sink.old sink.new }
        ensures again { IfErr result (TellsChange S.written S.health limits (P.bytes parts.now) self.now) }
        ensures read { IfErr result (λ stop. IfScratchFails stop (S.unreadable (scratch_under self.now))) }
        ensures well { UnlessRefused (T.well sink.new) result }
    {
        if lists.len() > FEW_LISTS && wanted.len() > FEW_WANTED {
            return self.pick(alloc, parts, limits, wanted, sink);
        }
        let Ok(mut lists) = lists.searched(alloc) else {
            return Err(ObjectFault::OutOfMemory);
        };
        let reader = CutReader {
            alloc,
            runs: &self.runs,
            parts,
            limits,
        };
        give_wanted(&self.rows, &mut lists, &reader, wanted, sink)
    }
}
