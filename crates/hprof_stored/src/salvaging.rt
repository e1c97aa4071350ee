//! The salvage of parts that are larger than the memory.

ghost use Rattle.std.specs.Prelude.{◌≡◌, All, IfOk};
ghost use Rattle.hprof_devices.specs.declared.health.Health.TheVariants.{Well};
ghost use Rattle.hprof_engine.specs.Sound.{IsAsJoined};
ghost use Rattle.hprof_runs.specs.ReadBack.{HoldsNothing};
ghost use Rattle.hprof_stored.specs.SalvagingStored.{SalvagesStored};
ghost use Rattle.hprof_stored.specs.StoredMaking.{CanBeReadAgain};

use crate::dumping::write_stored_dump;
use crate::in_parts::InParts;
use crate::merge_stop::fault_of_stop;
use crate::saving::{SavedHeap, save_parts};
use crate::stored_heap::StoredHeap;
use hprof_devices::{Source, Target};
use hprof_engine::{Joined, Salvaged, ToolFault};
use hprof_objects::Keeping;
use hprof_objects::laws::{conflicts_of_objects_come_last, objects_stand_behind};
use hprof_parts::Parts;
use hprof_passes::Objects;
use hprof_runs::Scratch;
use hprof_segments::SegmentWriter;
use hprof_stream::Limits;
use std::alloc::Global;

/// Reads all parts, whatever their faults, and writes the canonical dump of the facts before the first fault of each. Objects stay in the
/// parts or go to scratch, as `keeping` says, and are read again to be written: `parts` opens the same parts as the readers.
///
/// A part whose header is whole counts with its identifier size and its time. A part whose header is not whole is skipped.
///
/// # Errors
///
/// The first of these that applies is the fault.
///
/// - `Part`: memory ran out while a part was read. Nothing was written.
/// - `NoParts`, `IdSizes`: no part has a whole header, or two have different sizes of identifiers. Nothing was written.
/// - `Conflict`: two facts have one key and different contents. This is the least such key, and nothing was written.
/// - `Lost`: the objects cannot be read again, or the scratch failed. A prefix of the dump was written, or nothing.
/// - `Write`: the target failed. A prefix of the dump was written.
/// - `OutOfMemory`: memory ran out, but not while a part was read. A prefix of the dump was written, or nothing.
pub fn salvage_stored<
    R: Source,
    S: Scratch + Drop,
    Q: Source + Drop,
    P: Parts<Reader = Q>,
    W: Target,
>(
    alloc: Global,
    readers: &mut [R],
    parts: &P,
    limits: Limits,
    keeping: Keeping,
    scratch: S,
    target: &mut W,
) -> Result<Salvaged, ToolFault>
    requires readers { All (λ reader. R.health reader ≡ Well) readers.old }
    requires nothing { HoldsNothing (S.written scratch) }
    requires well { S.health scratch ≡ Well }
    requires target { W.health target.old ≡ Well }
    requires again { CanBeReadAgain R.left readers.old (P.bytes parts.now) (S.written scratch) }
    ensures salvages { SalvagesStored R.left R.health R.pulls limits readers.old readers.new W.written W.health target.old target.new
        result }

    // Where no fault is listed, it did what `join_stored` does.
    ensures joined { IfOk result (λ salvaged. IsAsJoined R.left W.written readers.old target.old target.new salvaged) }
{
    if readers.is_empty() {
        return Err(ToolFault::NoParts);
    }
    objects_stand_behind();
    conflicts_of_objects_come_last();
    let Ok(mut writer) = SegmentWriter::new(alloc) else {
        return Err(ToolFault::OutOfMemory);
    };
    let saved = save_parts(alloc, readers, limits, keeping, scratch)?;
    let SavedHeap {
        stored,
        headed,
        faults,
    } = saved;
    let StoredHeap { heap, objects } = stored;
    let objects = objects.finish();
    let in_parts = InParts::new(&objects, parts, limits);
    let count = match in_parts.count(alloc, &heap) {
        Ok(count) => count,
        Err(fault) => return Err(ToolFault::from(fault)),
    };
    // No memory holds so many.
    let Some(facts) = heap.count().checked_add(count as u128) else {
        return Err(ToolFault::OutOfMemory);
    };
    match write_stored_dump(alloc, &heap, &objects, parts, limits, &mut writer, target) {
        Ok(()) => Ok(Salvaged {
            joined: Joined {
                parts: headed,
                facts,
            },
            faults,
        }),
        Err(stop) => Err(fault_of_stop(stop)),
    }
}
