//! Opening stored objects, to merge them.

ghost use Rattle.std.specs.Prelude.{◌≡◌, All, IfOk, IfErr, OnOk};
ghost use Rattle.hprof_merge.specs.OneOf.{holds_either};
ghost use Rattle.hprof_runs.specs.AnyRows.{any_well};
ghost use Rattle.hprof_objects.specs.MergedObjects.{IfScratchFails, TellsChange};
ghost use Rattle.hprof_objects.specs.ObjectCursors.{AddsStretches, IsBefore, OpensObjects, part_stop, scratch_stop};
ghost use Rattle.hprof_objects.specs.StoredObjects.{scratch_under};
ghost use Rattle.hprof_objects.specs.StretchCursor.{CanGoOn, RefusesOneOf};

use crate::object_fault::ObjectFault;
use crate::stored_objects::StoredObjects;
use crate::stretch::Stretch;
use crate::stretch_cursor::StretchCursor;
use crate::stretch_fault::StretchFault;
use hprof_devices::Source;
use hprof_merge::OneOf;
use hprof_parts::Parts;
use hprof_runs::{AnyRows, RunFault, Scratch, open_all};
use hprof_stream::Limits;
use std::alloc::Global;

/// A cursor over rows in memory, over a run, or over a stretch.
pub(crate) type ObjectCursor<'a, S, R> = OneOf<AnyRows<'a, S>, StretchCursor<R>>;

/// Returns the reason why the scratch cannot be read back.
pub(crate) fn scratch_stop<F>(fault: RunFault) -> ObjectFault<F>
    ensures { result ≡ scratch_stop fault }
{
    match fault {
        RunFault::OutOfMemory => ObjectFault::OutOfMemory,
        RunFault::Read | RunFault::Damaged => ObjectFault::Scratch(fault),
    }
}

/// Returns the reason why a part cannot be read again.
pub(crate) fn part_stop<F>(part: usize, fault: StretchFault) -> ObjectFault<F>
    ensures { result ≡ part_stop part fault }
{
    match fault {
        StretchFault::OutOfMemory => ObjectFault::OutOfMemory,
        StretchFault::Read | StretchFault::Changed => ObjectFault::Part { part, fault },
    }
}

/// Adds a cursor over each stretch. A part that is not there has changed. After an error some of the cursors are missing, and it tells the
/// number of the part.
fn open_stretches<'a, S: Scratch, R: Source + Drop, P: Parts<Reader = R>>(
    alloc: Global,
    parts: &P,
    stretches: &[Stretch],
    limits: Limits,
    cursors: &mut Vec<ObjectCursor<'a, S, R>>,
) -> Result<(), (usize, StretchFault)>
    requires well { All (holds_either any_well (CanGoOn R.health)) cursors.old.items }
    ensures adds { OnOk result (AddsStretches R.left R.health R.pulls limits (P.bytes parts.now) stretches.now
        cursors.old.items cursors.new.items) }
    ensures well { OnOk result (All (holds_either any_well (CanGoOn R.health)) cursors.new.items) }
    ensures fault { IfErr result (λ stop. RefusesOneOf limits (P.bytes parts.now) stretches.now stop.0 stop.1) }
{
    for index in 0..stretches.len() {
        let stretch = stretches[index];
        if stretch.part >= parts.count() {
            return Err((stretch.part, StretchFault::Changed));
        }
        let cursor = match StretchCursor::new(alloc, parts, &stretch, limits) {
            Ok(cursor) => cursor,
            Err(fault) => return Err((stretch.part, fault)),
        };
        let Ok(()) = cursors.push(OneOf::Second(cursor)) else {
            return Err((stretch.part, StretchFault::OutOfMemory));
        };
    }
    Ok(())
}

impl<S: Scratch + Drop> StoredObjects<S> {
    /// Returns cursors over the rows in memory and the runs, and behind them one over each stretch.
    pub(crate) fn open<R: Source + Drop, P: Parts<Reader = R>, F>(
        &self,
        alloc: Global,
        parts: &P,
        limits: Limits,
    ) -> Result<Vec<ObjectCursor<'_, S, R>>, ObjectFault<F>>
        ensures opens { IfOk result (λ cursors. OpensObjects R.left R.health R.pulls limits (P.bytes parts.now) S.written S.health self.now
            cursors.items) }
        ensures well { IfOk result (λ cursors. All (holds_either any_well (CanGoOn R.health)) cursors.items) }
        ensures before { IfErr result IsBefore }
        ensures again { IfErr result (TellsChange S.written S.health limits (P.bytes parts.now) self.now) }
        ensures read { IfErr result (λ stop. IfScratchFails stop (S.unreadable (scratch_under self.now))) }
    {
        let mut cursors = match open_all(alloc, &self.rows, &self.runs) {
            Ok(cursors) => cursors,
            Err(fault) => return Err(scratch_stop(fault)),
        };
        match open_stretches(alloc, parts, &self.stretches, limits, &mut cursors) {
            Ok(()) => Ok(cursors),
            Err((part, fault)) => Err(part_stop(part, fault)),
        }
    }
}
