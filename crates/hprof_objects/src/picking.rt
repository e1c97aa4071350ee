//! Picking some of stored objects.

ghost use Rattle.std.specs.Prelude.{◌≡◌, ◌<◌, ◌∷◌, [], ℕ, true, List, length, IfErr, OnOk};
ghost use Rattle.std.specs.List.Sorted.{IsStrictlyIncreasing};
ghost use Rattle.hprof_merge.specs.Rows.{ByteRow, IsAscending};
ghost use Rattle.hprof_merge.specs.Union.{IsUnion};
ghost use Rattle.hprof_objects.specs.Cuts.{CutInto, IsCutOf};
ghost use Rattle.hprof_objects.specs.MergedObjects.{IfScratchFails, TellsChange, UnlessRefused};
ghost use Rattle.hprof_objects.specs.PartsRead.{PartRead};
ghost use Rattle.hprof_objects.specs.PickedCuts.{TellsCursor, TellsCuts};
ghost use Rattle.hprof_objects.specs.Picks.{Picks, PicksOf};
ghost use Rattle.hprof_objects.specs.ReadAgain.{IsSameAt};
ghost use Rattle.hprof_objects.specs.StoredObjects.{AreToldAgain, objects_of, scratch_under};
ghost use Rattle.hprof_objects.specs.StretchCursor.{CanGoOn};
ghost use Rattle.hprof_objects.specs.StretchKnown.{StretchComes};
ghost use Rattle.hprof_objects.specs.Stretches.{EndsAt};
ghost use Rattle.hprof_objects.specs.Wanted.{Rises};

use crate::cut::Cut;
use crate::object_fault::ObjectFault;
use crate::opening::part_stop;
use crate::picking_sink::{PickingSink, give};
use crate::stored_objects::StoredObjects;
use crate::stretch_cursor::StretchCursor;
use crate::stretch_fault::StretchFault;
use crate::wanted::{from_key, has_up_to};
use hprof_devices::Source;
use hprof_merge::{RowCursor, RowSink};
use hprof_parts::Parts;
use hprof_runs::Scratch;
use hprof_stream::Limits;
use std::alloc::Global;

/// Gives a sink the wanted ones of the rows that a cursor shows, which are those of the cut. It does not go on behind the last wanted one.
fn pick_rows<R: Source + Drop, T: RowSink>(
    cursor: &mut StretchCursor<R>,
    cut: &Cut,
    wanted: &[u64],
    sink: &mut T,
) -> Result<(), ObjectFault<T::Fault>>
    requires cursor { CanGoOn R.health cursor.old }
    requires sink { T.well sink.old }
    requires rises { Rises wanted.now }
    ensures rows { (rows : List ByteRow) → StretchComes R.left R.health R.pulls cursor.old rows
        → cut.now.stretch.count ≡ length rows → EndsAt rows cut.now.last
        → PicksOf T.steps T.refuses wanted.now rows result sink.old sink.new }
    ensures tells { IfErr result (TellsCursor R.left R.health R.pulls cut.now.stretch.part cursor.old) }
    ensures well { UnlessRefused (T.well sink.new) result }
{
    let mut rest = wanted;
    for _ in 0..cut.stretch.count {
        let Some((key, bytes)) = cursor.current() else {
            return Ok(());
        };
        rest = from_key(rest, key);
        if !has_up_to(rest, cut.last) {
            return Ok(());
        }
        if let Err(fault) = give(rest, key, bytes, sink) {
            return Err(ObjectFault::Sink(fault));
        }
        if let Err(fault) = cursor.advance() {
            return Err(part_stop(cut.stretch.part, fault));
        }
    }
    Ok(())
}

/// Gives a sink the wanted ones of the objects of a cut. If none is wanted, the cut is not read. A part that is not there has changed.
fn pick_cut<R: Source + Drop, P: Parts<Reader = R>, T: RowSink>(
    alloc: Global,
    parts: &P,
    cut: &Cut,
    limits: Limits,
    wanted: &[u64],
    sink: &mut T,
) -> Result<(), ObjectFault<T::Fault>>
    requires sink { T.well sink.old }
    requires rises { Rises wanted.now }
    ensures rows { (reads : List PartRead) (rows : List ByteRow) → IsCutOf limits reads cut.now rows
        → IsSameAt limits (P.bytes parts.now) reads cut.now.stretch.part
        → PicksOf T.steps T.refuses wanted.now rows result sink.old sink.new }
    ensures tells { IfErr result (TellsCuts limits (P.bytes parts.now) (cut.now ∷ [])) }
    ensures well { UnlessRefused (T.well sink.new) result }
{
    if !has_up_to(wanted, cut.last) {
        return Ok(());
    }
    let stretch = cut.stretch;
    if stretch.part >= parts.count() {
        return Err(part_stop(stretch.part, StretchFault::Changed));
    }
    let mut cursor = match StretchCursor::new(alloc, parts, &stretch, limits) {
        Ok(cursor) => cursor,
        Err(fault) => return Err(part_stop(stretch.part, fault)),
    };
    pick_rows(&mut cursor, cut, wanted, sink)
}

/// Gives a sink the wanted ones of the objects of cuts, one cut after another, of which all objects ascend. A cut without a wanted object
/// is not read.
fn pick_cuts<R: Source + Drop, P: Parts<Reader = R>, T: RowSink>(
    alloc: Global,
    parts: &P,
    cuts: &[Cut],
    limits: Limits,
    wanted: &[u64],
    sink: &mut T,
) -> Result<(), ObjectFault<T::Fault>>
    requires sink { T.well sink.old }
    requires rises { Rises wanted.now }
    ensures rows { (reads : List PartRead) (rows : List ByteRow) → CutInto limits reads cuts.now rows → IsAscending rows
        → ((number : ℕ) → IsSameAt limits (P.bytes parts.now) reads number)
        → PicksOf T.steps T.refuses wanted.now rows result sink.old sink.new }
    ensures tells { IfErr result (TellsCuts limits (P.bytes parts.now) cuts.now) }
    ensures well { UnlessRefused (T.well sink.new) result }
{
    let mut left = wanted;
    let mut rest = cuts;
    while let Some((cut, after)) = rest.split_first() {
        left = from_key(left, cut.first);
        pick_cut(alloc, parts, cut, limits, left, sink)?;
        rest = after;
    }
    Ok(())
}

impl<S: Scratch + Drop> StoredObjects<S> {
    /// Gives a sink those of the objects whose identifiers are wanted, each once, in ascending order of identifier, with the bytes of its
    /// sub-record. The wanted identifiers ascend; one that no object has is passed over.
    ///
    /// If one stretch has all objects, only those of its cuts are read in whose range a wanted identifier is. Otherwise all objects are
    /// read, as for `merge`. The parts are those that were read, and the limits are those of the first reading; the reads of a part are
    /// counted anew for each cut.
    ///
    /// # Errors
    ///
    /// - `OutOfMemory`: memory ran out. The sink was given the first of the wanted objects, or none.
    /// - `TwoContents`: the least identifier of which objects have two contents, wanted or not. The sink was given the wanted objects
    ///   below it.
    /// - `Scratch`, `Part`: objects cannot be read again, or a part is not there. The sink was given the first of the wanted objects, or
    ///   none.
    /// - `Sink`: the sink refused an object. It was given the wanted objects below it.
    pub fn pick<R: Source + Drop, P: Parts<Reader = R>, T: RowSink>(
        &self,
        alloc: Global,
        parts: &P,
        limits: Limits,
        wanted: &[u64],
        sink: &mut T,
    ) -> Result<(), ObjectFault<T::Fault>>
        requires sink { T.well sink.old }
        requires ascend { IsStrictlyIncreasing wanted.now }
        ensures objects { (reads : List PartRead) → AreToldAgain S.written S.health limits (P.bytes parts.now) reads self.now
            → Picks T.steps T.refuses wanted.now (objects_of reads) result sink.old sink.new }
        ensures union { OnOk result ((reads : List PartRead)
            → AreToldAgain S.written S.health limits (P.bytes parts.now) reads self.now
            → (rows : List ByteRow) × IsUnion (objects_of reads) rows) }
        ensures again { IfErr result (TellsChange S.written S.health limits (P.bytes parts.now) self.now) }
        ensures read { IfErr result (λ stop. IfScratchFails stop (S.unreadable (scratch_under self.now))) }
        ensures well { UnlessRefused (T.well sink.new) result }
    {
        if self.is_one_stretch() {
            return pick_cuts(alloc, parts, &self.cuts, limits, wanted, sink);
        }
        let mut picking = PickingSink::new(wanted, sink);
        self.merge(alloc, parts, limits, &mut picking)
    }
}
