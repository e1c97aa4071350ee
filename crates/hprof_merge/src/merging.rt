//! Merging cursors into a sink.

ghost use Rattle.std.specs.Prelude.{◌≡◌, ◌<◌, ◌≤◌, ◌^◌, ◌↔◌, ℕ, Some, All, length, sum_by, slice_set, IsTrue, IfOk, OnOk, IfErr};
ghost use Rattle.hprof_merge.specs.Rows.{ByteRow, first_key, HaveSameFirst};
ghost use Rattle.hprof_merge.specs.Union.{rows_at, AnyHas};
ghost use Rattle.hprof_merge.specs.Contest.{heads_of, Matches, MatchesBut};
ghost use Rattle.hprof_merge.specs.Merging.{GivesFirst, AllAbove};
ghost use Rattle.hprof_merge.specs.Showing.{only, all_shown, GoesAt};
ghost use Rattle.hprof_merge.specs.Stopping.{IsFaultAt, LeavesCursors, PassesEquals, StopsPassing, room_of};
ghost use Rattle.hprof_merge.specs.Stopping.{MergesAll, StopsMerging, UnlessRefused};

use crate::contest::Contest;
use crate::merge_fault::MergeFault;
use crate::row_cursor::{AscendingCursor, RowCursor};
use crate::row_sink::RowSink;
use std::alloc::{AllocError, Global};

/// Puts the keys that the cursors show into a contest.
fn enter<C: RowCursor>(alloc: Global, cursors: &[C]) -> Result<Contest, AllocError>
    requires well { All C.well cursors.now }
    ensures count { IfOk result (λ contest. length (heads_of contest) ≡ length cursors.now) }
    ensures heads { IfOk result (λ contest. Matches (heads_of contest) (all_shown C.shown cursors.now)) }
{
    let mut contest = Contest::new(alloc, cursors.len())?;
    for (place, cursor) in cursors.iter().enumerate() {
        let head = head_of(cursor);
        contest.set(place, head);
    }
    Ok(contest)
}

/// Returns the key that a cursor shows.
#[inline(always)]
fn head_of<C: RowCursor>(cursor: &C) -> Option<u64>
    requires well { C.well cursor.now }
    ensures { result ≡ first_key (only (C.shown cursor.now)) }
{
    let (key, _) = cursor.current()?;
    Some(key)
}

/// Returns whether two cursors show the same bytes.
fn agree<C: RowCursor>(one: &C, other: &C) -> bool
    requires well { C.well one.now }
    requires other_well { C.well other.now }
    ensures { IsTrue result ↔ HaveSameFirst (only (C.shown one.now)) (only (C.shown other.now)) }
{
    let Some((_, bytes)) = one.current() else {
        return false;
    };
    let Some((_, others)) = other.current() else {
        return false;
    };
    bytes == others
}

/// Gives the row that a cursor shows to a sink.
#[inline(always)]
fn give<C: RowCursor, T: RowSink>(cursor: &C, sink: &mut T) -> Result<(), T::Fault>
    requires well { C.well cursor.now }
    requires sink { T.well sink.old }
    ensures given { GivesFirst T.steps T.refuses (only (C.shown cursor.now)) result sink.old sink.new }
    ensures sink { OnOk result (T.well sink.new) }
{
    match cursor.current() {
        Some((key, bytes)) => sink.take(key, bytes),
        None => Ok(()),
    }
}

/// Advances the cursor at a place, and puts the key that it shows then into the contest.
#[inline(always)]
fn advance<C: RowCursor, F>(
    cursors: &mut [C],
    contest: &mut Contest,
    place: usize,
) -> Result<(), MergeFault<C::Fault, F>>
    requires place { place < length cursors.old }
    requires count { length (heads_of contest.old) ≡ length cursors.old }
    requires well { All C.well cursors.old }
    ensures goes { OnOk result (GoesAt C.goes place cursors.old cursors.new) }
    ensures heads { OnOk result (heads_of contest.new
        ≡ slice_set (heads_of contest.old) place (first_key (rows_at (all_shown C.shown cursors.new) place))) }
    ensures count { OnOk result (length (heads_of contest.new) ≡ length (heads_of contest.old)) }
    ensures well { OnOk result (All C.well cursors.new) }
    ensures stop { IfErr result (λ stop. IsFaultAt place stop × LeavesCursors C.fails stop cursors.old cursors.new) }
{
    if let Err(fault) = cursors[place].advance() {
        return Err(MergeFault::Cursor(place, fault));
    }
    let head = head_of(&cursors[place]);
    contest.set(place, head);
    Ok(())
}

/// Advances each cursor that shows the same key and the same bytes as the one that is held.
#[inline(always)]
fn pass_equals<C: AscendingCursor, F>(
    cursors: &mut [C],
    contest: &mut Contest,
    key: u64,
    held: usize,
) -> Result<(), MergeFault<C::Fault, F>>
    requires held { held < length cursors.old }
    requires count { length (heads_of contest.old) ≡ length cursors.old }
    requires well { All C.well cursors.old }
    requires key { first_key (rows_at (all_shown C.shown cursors.old) held) ≡ Some key }
    requires matches { MatchesBut held (heads_of contest.old) (all_shown C.shown cursors.old) }
    requires least { (row : ByteRow) → AnyHas (all_shown C.shown cursors.old) row → key ≤ row.0 }
    ensures fits { OnOk result (key < 2 ^ 64) }
    ensures level { OnOk result (PassesEquals C.shown C.goes key held cursors.old cursors.new (heads_of contest.new)) }
    ensures above { OnOk result (AllAbove key held (all_shown C.shown cursors.new)) }
    ensures well { OnOk result (All C.well cursors.new) }
    ensures heads { OnOk result (length (heads_of contest.new) ≡ length cursors.old) }
    ensures fewer { OnOk result
        (sum_by room_of (all_shown C.shown cursors.new) ≤ sum_by room_of (all_shown C.shown cursors.old)) }
    ensures stop { IfErr result (StopsPassing C.shown C.goes C.fails key held cursors.old cursors.new) }
{
    while let Some(place) = contest.place_of(key) {
        if !agree(&cursors[held], &cursors[place]) {
            return Err(MergeFault::TwoContents(key));
        }
        advance(cursors, contest, place)?;
    }
    Ok(())
}

/// Merges cursors into a sink, which is given each of their rows once, in ascending order of key.
///
/// The bytes of a row are not copied. The work of a row grows with the logarithm of the number of cursors.
///
/// # Errors
///
/// - `OutOfMemory`: memory ran out before the first row. Cursors and sink are unchanged.
/// - `TwoContents`: the least key with two contents, of the rows that were shown. The sink was given the rows below it.
/// - `Cursor`: a cursor failed at a row. The sink was given the rows below that one, and perhaps that one.
/// - `Sink`: the sink refused a row. It was given the rows below it.
pub fn merge_rows<C: AscendingCursor, T: RowSink>(
    alloc: Global,
    cursors: &mut [C],
    sink: &mut T,
) -> Result<(), MergeFault<C::Fault, T::Fault>>
    requires well { All C.well cursors.old }
    requires sink { T.well sink.old }
    ensures merged { OnOk result (MergesAll C.shown C.goes T.steps cursors.old cursors.new sink.old sink.new) }
    ensures well { OnOk result (All C.well cursors.new × T.well sink.new) }
    ensures stop { IfErr result (λ stop.
        StopsMerging C.shown C.goes T.steps C.fails T.refuses cursors.old cursors.new stop sink.old sink.new) }
    ensures sink { IfErr result (UnlessRefused (T.well sink.new)) }
{
    let Ok(mut contest) = enter(alloc, cursors) else {
        return Err(MergeFault::OutOfMemory);
    };
    while let Some((key, place)) = contest.first() {
        contest.set(place, None);
        pass_equals(cursors, &mut contest, key, place)?;
        if let Err(fault) = give(&cursors[place], sink) {
            return Err(MergeFault::Sink(fault));
        }
        advance(cursors, &mut contest, place)?;
    }
    Ok(())
}
