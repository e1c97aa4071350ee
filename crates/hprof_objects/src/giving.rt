//! Giving wanted objects to a sink, one after another.

ghost use Rattle.std.specs.Prelude.{All, List, IfErr, OnOk};
ghost use Rattle.hprof_merge.specs.Rows.{ByteRow};
ghost use Rattle.hprof_runs.specs.Runs.{scratch_of};
ghost use Rattle.hprof_objects.specs.Giving.{AllLack, AreHeld, GivesIf, GivesShown, IsNowhere, IsThere, PicksHeld, UnlessOfSink};
ghost use Rattle.hprof_objects.specs.MergedObjects.{UnlessRefused};
ghost use Rattle.hprof_objects.specs.Searched.{IsReady, KeepsFrom, LiesIn, OpenCanGoOn, StopsIn, open_shown};
ghost use Rattle.hprof_objects.specs.SearchedLists.{cuts_in};
ghost use Rattle.hprof_objects.specs.Wanted.{Rises};

use crate::cut_reader::CutReader;
use crate::object_fault::ObjectFault;
use crate::searched::Searched;
use hprof_devices::Source;
use hprof_merge::RowSink;
use hprof_parts::Parts;
use hprof_runs::{Scratch, SortedRows};

/// Gives a sink the object that was found.
fn give_shown<S: Scratch + Drop, R: Source + Drop, T: RowSink>(
    list: &Searched<'_, S, R>,
    sink: &mut T,
) -> Result<(), ObjectFault<T::Fault>>
    requires can { OpenCanGoOn R.health list.now.cursor }
    requires sink { T.well sink.old }
    ensures gives { GivesShown T.steps T.refuses (open_shown list.now.cursor) result sink.old sink.new }
    ensures well { UnlessRefused (T.well sink.new) result }
{
    match list.give(sink) {
        Ok(()) => Ok(()),
        Err(fault) => Err(ObjectFault::Sink(fault)),
    }
}

/// Gives a sink the object of an identifier, if one of the cuts has it. No identifier before was above it.
fn give_from<'a, S: Scratch + Drop, R: Source + Drop, P: Parts<Reader = R>, T: RowSink>(
    lists: &mut [Searched<'a, S, R>],
    reader: &CutReader<'a, S, P>,
    id: u64,
    sink: &mut T,
) -> Result<(), ObjectFault<T::Fault>>
    requires ready { All (IsReady S.written R.left R.health R.pulls (scratch_of reader.now.runs.now) reader.now.limits
        (P.bytes reader.now.parts.now) id) lists.old }
    requires sink { T.well sink.old }
    ensures ready { OnOk result (All (IsReady S.written R.left R.health R.pulls (scratch_of reader.now.runs.now) reader.now.limits
        (P.bytes reader.now.parts.now) id) lists.new) }
    ensures keeps { KeepsFrom id (cuts_in lists.old) (cuts_in lists.new) }
    ensures gives { GivesIf T.steps T.refuses
        (LiesIn S.written (scratch_of reader.now.runs.now) reader.now.limits (P.bytes reader.now.parts.now) (cuts_in lists.old))
        (AllLack S.written (scratch_of reader.now.runs.now) reader.now.limits (P.bytes reader.now.parts.now) id (cuts_in lists.old))
        id result sink.old sink.new }
    ensures stops { IfErr result (UnlessOfSink (StopsIn S.written (scratch_of reader.now.runs.now) reader.now.limits
        (P.bytes reader.now.parts.now) S.unreadable (cuts_in lists.old))) }
    ensures well { UnlessRefused (T.well sink.new) result }
{
    for index in 0..lists.len() {
        match lists[index].seek(reader, id) {
            Ok(true) => return give_shown(&lists[index], sink),
            Ok(false) => {}
            Err(stop) => return Err(stop),
        }
    }
    Ok(())
}

/// Gives a sink the object of an identifier, if it is in memory or if one of the cuts has it. No identifier before was above it.
fn give_one<'a, S: Scratch + Drop, R: Source + Drop, P: Parts<Reader = R>, T: RowSink>(
    rows: &SortedRows,
    lists: &mut [Searched<'a, S, R>],
    reader: &CutReader<'a, S, P>,
    id: u64,
    sink: &mut T,
) -> Result<(), ObjectFault<T::Fault>>
    requires ready { All (IsReady S.written R.left R.health R.pulls (scratch_of reader.now.runs.now) reader.now.limits
        (P.bytes reader.now.parts.now) id) lists.old }
    requires sink { T.well sink.old }
    ensures ready { OnOk result (All (IsReady S.written R.left R.health R.pulls (scratch_of reader.now.runs.now) reader.now.limits
        (P.bytes reader.now.parts.now) id) lists.new) }
    ensures keeps { KeepsFrom id (cuts_in lists.old) (cuts_in lists.new) }
    ensures gives { GivesIf T.steps T.refuses
        (IsThere S.written (scratch_of reader.now.runs.now) reader.now.limits (P.bytes reader.now.parts.now) rows.now (cuts_in lists.old))
        (IsNowhere S.written (scratch_of reader.now.runs.now) reader.now.limits (P.bytes reader.now.parts.now) rows.now
        (cuts_in lists.old) id) id result sink.old sink.new }
    ensures stops { IfErr result (UnlessOfSink (StopsIn S.written (scratch_of reader.now.runs.now) reader.now.limits
        (P.bytes reader.now.parts.now) S.unreadable (cuts_in lists.old))) }
    ensures well { UnlessRefused (T.well sink.new) result }
{
    let Some(bytes) = rows.find(id) else {
        return give_from(lists, reader, id, sink);
    };
    match sink.take(id, bytes) {
        Ok(()) => Ok(()),
        Err(fault) => Err(ObjectFault::Sink(fault)),
    }
}

/// Gives a sink the objects of wanted identifiers, which ascend.
pub(crate) fn give_wanted<
    'a,
    S: Scratch + Drop,
    R: Source + Drop,
    P: Parts<Reader = R>,
    T: RowSink,
>(
    rows: &SortedRows,
    lists: &mut [Searched<'a, S, R>],
    reader: &CutReader<'a, S, P>,
    wanted: &[u64],
    sink: &mut T,
) -> Result<(), ObjectFault<T::Fault>>
    requires ready { All (IsReady S.written R.left R.health R.pulls (scratch_of reader.now.runs.now) reader.now.limits
        (P.bytes reader.now.parts.now) 0) lists.old }
    requires rises { Rises wanted.now }
    requires sink { T.well sink.old }
    ensures picks { (all : List ByteRow)
        → AreHeld S.written (scratch_of reader.now.runs.now) reader.now.limits (P.bytes reader.now.parts.now) rows.now (cuts_in lists.old)
        all → PicksHeld T.steps T.refuses wanted.now all result sink.old sink.new }
    ensures stops { IfErr result (UnlessOfSink (StopsIn S.written (scratch_of reader.now.runs.now) reader.now.limits
        (P.bytes reader.now.parts.now) S.unreadable (cuts_in lists.old))) }
    ensures well { UnlessRefused (T.well sink.new) result }
{
    let mut rest = wanted;
    while let Some((id, after)) = rest.split_first() {
        give_one(rows, lists, reader, *id, sink)?;
        rest = after;
    }
    Ok(())
}
