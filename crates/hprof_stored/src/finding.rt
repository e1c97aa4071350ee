//! Finding objects with two contents.

ghost use Rattle.std.specs.Prelude.{◌≡◌, List, OnOk, IfErr, ⊤};
ghost use Rattle.hprof_merge.specs.Rows.{ByteRow};
ghost use Rattle.hprof_merge.specs.Union.{IsUnion};
ghost use Rattle.hprof_objects.specs.MergedObjects.{IfScratchFails, TellsChange};
ghost use Rattle.hprof_objects.specs.PartsRead.{PartRead};
ghost use Rattle.hprof_objects.specs.StoredObjects.{AreToldAgain, objects_of, scratch_under};
ghost use Rattle.hprof_stored.specs.Dumping.{FindsLeast};

use hprof_devices::Source;
use hprof_merge::RowSink;
use hprof_objects::{ObjectFault, StoredObjects};
use hprof_parts::Parts;
use hprof_runs::Scratch;
use hprof_segments::SegmentFault;
use hprof_stream::Limits;
use std::alloc::Global;

/// A sink that takes each row and does nothing.
#[derive(Drop)]
struct Nowhere;

impl RowSink for Nowhere {
    ghost steps = { λ old key bytes new. ⊤ };

    ghost refuses = { λ old key bytes fault new. ⊥ };

    ghost well = { λ it. ⊤ };

    type Fault = SegmentFault;

    fn take(&mut self, _key: u64, _bytes: &[u8]) -> Result<(), SegmentFault> {
        Ok(())
    }
}

/// Looks for objects with one identifier and two contents. Nothing is read where one stretch has all objects, since none comes twice there.
/// The parts are those that were read, and the limits those of the first reading.
///
/// # Errors
///
/// `TwoContents`: the least identifier of which objects have two contents. The others are those of `merge`; `Sink` is never answered.
pub fn find_conflict<S: Scratch + Drop, R: Source + Drop, P: Parts<Reader = R>>(
    alloc: Global,
    objects: &StoredObjects<S>,
    parts: &P,
    limits: Limits,
) -> Result<(), ObjectFault<SegmentFault>>
    ensures none { OnOk result ((reads : List PartRead) → AreToldAgain S.written S.health limits (P.bytes parts.now) reads objects.now
        → ((rows : List ByteRow) × IsUnion (objects_of reads) rows)) }
    ensures least { IfErr result (λ stop. (reads : List PartRead)
        → AreToldAgain S.written S.health limits (P.bytes parts.now) reads objects.now → FindsLeast (objects_of reads) stop) }
    ensures again { IfErr result (TellsChange S.written S.health limits (P.bytes parts.now) objects.now) }
    ensures read { IfErr result (λ stop. IfScratchFails stop (S.unreadable (scratch_under objects.now))) }
{
    if objects.is_one_stretch() {
        return Ok(());
    }
    let mut sink = Nowhere;
    objects.merge(alloc, parts, limits, &mut sink)
}
