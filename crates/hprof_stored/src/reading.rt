//! Reading all parts, and keeping their objects apart.

ghost use Rattle.std.specs.Prelude.{◌≡◌, ℕ, List, [], length, map, All, IfOk};
ghost use Rattle.hprof_devices.specs.declared.health.Health.TheVariants.{Well};
ghost use Rattle.hprof_values.specs.declared.ids.IdSize.{IdSize};
ghost use Rattle.hprof_items.specs.FactValue.{FactValue};
ghost use Rattle.hprof_heap.specs.Gathering.{Given, nothing_gathered, Gathers, gathered};
ghost use Rattle.hprof_heap.specs.State.{IsState};
ghost use Rattle.hprof_engine.specs.Joining.{Tell};
ghost use Rattle.hprof_runs.specs.ReadBack.{HoldsNothing};
ghost use Rattle.hprof_stored.specs.Reading.{DropsWatch, HoldsHeap, HoldsWatched, IsHinderedStored, IsOkOrConflictStored, ReadsFirst};
ghost use Rattle.hprof_stored.specs.Reading.{ReadsStored, StoresAll, TellsStored, stop_of, stopped_by};

use crate::no_watch::NoWatch;
use crate::stored_fault::StoredFault;
use crate::stored_heap::StoredHeap;
use crate::stored_sink::StoredSink;
use crate::watched_sink::WatchedSink;
use hprof_devices::Source;
use hprof_engine::Summaries;
use hprof_heap::{Gatherer, Heap, Refusal};
use hprof_objects::Keeping;
use hprof_objects::laws::conflicts_of_objects_come_last;
use hprof_passes::ObjectSink;
use hprof_placed::read_placed;
use hprof_runs::{Scratch, ScratchFault};
use hprof_stream::{Limits, PartFault, SinkFault};
use std::alloc::Global;

/// Returns why reading stops at a part that was refused.
fn stop_at(full: Option<ScratchFault>, index: usize, fault: PartFault) -> StoredFault
    ensures { result ≡ stop_of full index fault }
{
    match (full, fault) {
        (Some(why), PartFault::Sink(SinkFault::Failed)) => StoredFault::Scratch(why),
        _ => StoredFault::Part { index, fault },
    }
}

/// Reads each part in order into a new sink, and keeps its summary. The first part that is refused ends it.
fn read_all<R: Source, S: Scratch + Drop, M: Summaries, T: ObjectSink + Drop>(
    alloc: Global,
    readers: &mut [R],
    limits: Limits,
    keeping: Keeping,
    scratch: S,
    summaries: &M,
    kept: &mut M::Kept,
    watch: Option<T>,
) -> Result<WatchedSink<S, T>, StoredFault>
where
    T::Fault: Drop,
    requires readers { All (λ reader. R.health reader ≡ Well) readers.old }
    requires nothing { HoldsNothing (S.written scratch) }
    requires well { S.health scratch ≡ Well }
    requires none { M.holds summaries.now kept.old [] }
    requires room { M.has_room summaries.now kept.old (length readers.old) }
    ensures read { StoresAll R.left R.health R.pulls S.written S.health T.takes T.refuses limits (S.written scratch) watch readers.old
        result readers.new }
    ensures first { ReadsFirst R.left R.health R.pulls (M.holds summaries.now) limits readers.old readers.new (stopped_by result) kept.new }
{
    let Ok(mut sink) = WatchedSink::new(alloc, scratch, keeping, watch) else {
        return Err(StoredFault::Scratch(ScratchFault::OutOfMemory));
    };
    for (index, reader) in readers.iter_mut().enumerate() {
        match read_placed(alloc, reader, limits, &mut sink) {
            Ok(summary) => {
                sink.end_part();
                summaries.keep(kept, summary);
            }
            Err(fault) => return Err(stop_at(sink.sink.full, index, fault)),
        }
    }
    Ok(sink)
}

/// Returns the heap of all facts that a gatherer was given, or why they have none.
pub(crate) fn heap_of_all(gatherer: Gatherer) -> Result<Heap, StoredFault>
    requires { (given : List Given) × Gathers nothing_gathered given (gathered gatherer) }
    ensures { (given : List Given) → Gathers nothing_gathered given (gathered gatherer) → TellsStored given result }
{
    match gatherer.finish() {
        Ok(heap) => Ok(heap),
        Err(Refusal::NoParts) => Err(StoredFault::NoParts),
        Err(Refusal::IdSizes) => Err(StoredFault::IdSizes),
        Err(Refusal::Conflict(key)) => Err(StoredFault::Conflict(key)),
        // It has answered no fault.
        Err(Refusal::Failed) => unreachable!(),
    }
}

/// Reads all parts in order, and returns the heap of all facts but their objects, and a log of these. `summaries` takes the summary of each
/// part that was read to its end, and keeps it in `kept`.
///
/// `watch` takes each object as it comes, and is returned beside the heap: then it took all objects of each part, in the order of the part.
/// It is dropped when it refuses an object, or when an object of a part has no greater identifier than the one before it. Then reading goes
/// on without it, and `None` is returned beside the heap.
///
/// # Errors
///
/// The first of these that applies is the fault.
///
/// - `Part`: a part was refused.
/// - `Scratch`: the scratch took no more objects. `OutOfMemory`: memory ran out before any part was read.
/// - `NoParts`, `IdSizes`: there are no parts, or they have two sizes of identifiers.
/// - `Conflict`: two facts that are no objects have one key and different contents. Conflicts of objects are not looked for.
pub fn read_watched<R: Source, S: Scratch + Drop, M: Summaries, T: ObjectSink + Drop>(
    alloc: Global,
    readers: &mut [R],
    limits: Limits,
    keeping: Keeping,
    scratch: S,
    summaries: &M,
    kept: &mut M::Kept,
    watch: Option<T>,
) -> Result<(StoredHeap<S>, Option<T>), StoredFault>
where
    T::Fault: Drop,
    requires readers { All (λ reader. R.health reader ≡ Well) readers.old }
    requires nothing { HoldsNothing (S.written scratch) }
    requires well { S.health scratch ≡ Well }
    requires none { M.holds summaries.now kept.old [] }
    requires room { M.has_room summaries.now kept.old (length readers.old) }

    // What Ok means: the heap of all facts but objects, a log of the objects, and the sink that watched, if it took them all.
    ensures ok { IfOk result (λ it. HoldsWatched S.written S.health T.takes limits (map R.left readers.old) (S.written scratch) watch it.0
        it.1) }

    // If that sink does not come back, it refused an object, or the objects of a part do not ascend.
    ensures dropped { IfOk result (λ it. DropsWatch T.takes T.refuses limits (map R.left readers.old) watch it.1) }

    // What a refusal says of the parts.
    ensures reads { ReadsStored R.left R.health R.pulls limits readers.old readers.new (stopped_by result) }

    // The readers that were read to their ends, and the summaries of these and of no others.
    ensures first { ReadsFirst R.left R.health R.pulls (M.holds summaries.now) limits readers.old readers.new (stopped_by result) kept.new }

    // No other answer where the parts state something together, readers stay well, no want of memory was answered, no limit was met and
    // the scratch did not fail.
    ensures no_other { (parts : List (List ℕ)) (ids : IdSize) (millis : ℕ) (facts : List FactValue)
        → Tell R.left readers.old parts → IsState parts ids millis facts
        → All (λ reader. R.health reader ≡ Well) readers.new
        → (IsHinderedStored (stopped_by result) → ⊥) → IsOkOrConflictStored (stopped_by result) }
{
    conflicts_of_objects_come_last();
    let sink = read_all(
        alloc, readers, limits, keeping, scratch, summaries, kept, watch,
    )?;
    let WatchedSink { sink, watch, .. } = sink;
    let StoredSink { gatherer, log, .. } = sink;
    let heap = heap_of_all(gatherer)?;
    Ok((StoredHeap { heap, objects: log }, watch))
}

/// Reads all parts in order, and returns the heap of all facts but their objects, and a log of these. `summaries` takes the summary of each
/// part that was read to its end, and keeps it in `kept`.
///
/// # Errors
///
/// The first of these that applies is the fault.
///
/// - `Part`: a part was refused.
/// - `Scratch`: the scratch took no more objects. `OutOfMemory`: memory ran out before any part was read.
/// - `NoParts`, `IdSizes`: there are no parts, or they have two sizes of identifiers.
/// - `Conflict`: two facts that are no objects have one key and different contents. Conflicts of objects are not looked for.
pub fn read_stored<R: Source, S: Scratch + Drop, M: Summaries>(
    alloc: Global,
    readers: &mut [R],
    limits: Limits,
    keeping: Keeping,
    scratch: S,
    summaries: &M,
    kept: &mut M::Kept,
) -> Result<StoredHeap<S>, StoredFault>
    requires readers { All (λ reader. R.health reader ≡ Well) readers.old }
    requires nothing { HoldsNothing (S.written scratch) }
    requires well { S.health scratch ≡ Well }
    requires none { M.holds summaries.now kept.old [] }
    requires room { M.has_room summaries.now kept.old (length readers.old) }

    // What Ok means: the heap of all facts but objects, and a log of the objects.
    ensures ok { IfOk result (λ it. HoldsHeap S.written S.health limits (map R.left readers.old) (S.written scratch) it) }

    // What a refusal says of the parts.
    ensures reads { ReadsStored R.left R.health R.pulls limits readers.old readers.new (stopped_by result) }

    // The readers that were read to their ends, and the summaries of these and of no others.
    ensures first { ReadsFirst R.left R.health R.pulls (M.holds summaries.now) limits readers.old readers.new (stopped_by result) kept.new }

    // No other answer where the parts state something together, readers stay well, no want of memory was answered, no limit was met and
    // the scratch did not fail.
    ensures no_other { (parts : List (List ℕ)) (ids : IdSize) (millis : ℕ) (facts : List FactValue)
        → Tell R.left readers.old parts → IsState parts ids millis facts
        → All (λ reader. R.health reader ≡ Well) readers.new
        → (IsHinderedStored (stopped_by result) → ⊥) → IsOkOrConflictStored (stopped_by result) }
{
    let watch: Option<NoWatch> = None;
    let (stored, _) = read_watched(
        alloc, readers, limits, keeping, scratch, summaries, kept, watch,
    )?;
    Ok(stored)
}
