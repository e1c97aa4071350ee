//! Reading cuts again.

ghost use Rattle.std.specs.Prelude.{◌≡◌, List, IfOk, IfErr};
ghost use Rattle.hprof_merge.specs.Rows.{ByteRow};
ghost use Rattle.hprof_runs.specs.Runs.{scratch_of};
ghost use Rattle.hprof_objects.specs.AnyCuts.{Comes, CutCanGoOn, CutComes, IsOver, TellsCut, stop_in};
ghost use Rattle.hprof_objects.specs.StretchCursor.{CanGoOn, OpensStretch, RefusesStretch};

use crate::any_cut::AnyCut;
use crate::cut::Cut;
use crate::object_fault::ObjectFault;
use crate::opening::{part_stop, scratch_stop};
use crate::stretch_cursor::StretchCursor;
use crate::stretch_fault::StretchFault;
use hprof_devices::Source;
use hprof_merge::OneOf;
use hprof_parts::Parts;
use hprof_runs::{RunCursor, RunFault, Runs, Scratch};
use hprof_stream::Limits;
use std::alloc::Global;

/// A cursor over a cut of a run, or over a cut of a stretch.
pub(crate) type CutCursor<'a, S, R> = OneOf<RunCursor<'a, S>, StretchCursor<R>>;

/// The scratch and the parts that cuts are in.
#[derive(Drop)]
pub(crate) struct CutReader<'a, S, P> {
    pub(crate) alloc: Global,
    pub(crate) runs: &'a Runs<S>,
    pub(crate) parts: &'a P,
    /// The limits of the first reading.
    pub(crate) limits: Limits,
}

/// Returns a cursor over a cut of a stretch, which shows its first object. A part that is not there has changed.
fn open_in_part<R: Source + Drop, P: Parts<Reader = R>>(
    alloc: Global,
    parts: &P,
    limits: Limits,
    cut: &Cut,
) -> Result<StretchCursor<R>, StretchFault>
    ensures can { IfOk result (CanGoOn R.health) }
    ensures rows { IfOk result (OpensStretch R.left R.health R.pulls limits (P.bytes parts.now) cut.now.stretch) }
    ensures fault { IfErr result (RefusesStretch limits (P.bytes parts.now) cut.now.stretch) }
{
    if cut.stretch.part >= parts.count() {
        return Err(StretchFault::Changed);
    }
    StretchCursor::new(alloc, parts, &cut.stretch, limits)
}

/// Returns a cursor over a cut, which shows its first object.
pub(crate) fn open_cut<'a, S: Scratch + Drop, R: Source + Drop, P: Parts<Reader = R>, F>(
    reader: &CutReader<'a, S, P>,
    cut: &AnyCut,
) -> Result<CutCursor<'a, S, R>, ObjectFault<F>>
    ensures comes { IfOk result (λ cursor. (rows : List ByteRow)
        → Comes S.written (scratch_of reader.now.runs.now) reader.now.limits (P.bytes reader.now.parts.now) cut.now rows
        → CutComes S.written R.left R.health R.pulls cursor rows) }
    ensures can { IfOk result (CutCanGoOn R.health) }
    ensures over { IfOk result (IsOver (scratch_of reader.now.runs.now) cut.now) }
    ensures tells { IfErr result (TellsCut S.written (scratch_of reader.now.runs.now) reader.now.limits (P.bytes reader.now.parts.now)
        S.unreadable cut.now) }
{
    match cut {
        AnyCut::InPart(cut) => match open_in_part(reader.alloc, reader.parts, reader.limits, cut) {
            Ok(cursor) => Ok(OneOf::Second(cursor)),
            Err(fault) => Err(part_stop(cut.stretch.part, fault)),
        },
        AnyCut::InRun(cut) => match reader.runs.cut_cursor(reader.alloc, cut) {
            Ok(cursor) => Ok(OneOf::First(cursor)),
            Err(fault) => Err(scratch_stop(fault)),
        },
    }
}

/// Returns why a cursor over a cut failed.
pub(crate) fn cut_stop<F>(cut: &AnyCut, fault: OneOf<RunFault, StretchFault>) -> ObjectFault<F>
    ensures { result ≡ stop_in cut.now fault }
{
    match fault {
        OneOf::First(fault) => scratch_stop(fault),
        OneOf::Second(fault) => part_stop(cut.part(), fault),
    }
}
