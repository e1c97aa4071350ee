//! Joining parts that are larger than the memory into a 1.0.1 dump.

ghost use Rattle.std.specs.Prelude.{◌≡◌, All};
ghost use Rattle.hprof_devices.specs.declared.health.Health.TheVariants.{Well};
ghost use Rattle.hprof_engine.specs.Joining.{fault_of};
ghost use Rattle.hprof_engine.specs.Makes.{Makes};
ghost use Rattle.hprof_runs.specs.ReadBack.{HoldsNothing};
ghost use Rattle.hprof_stored.specs.StoredMaking.{CanBeReadAgain};
ghost use Rattle.hprof_stored101.specs.StoredMaking101.{stored_dump101_making};

use crate::body_len::body_len;
use crate::dumping101::write_stored101;
use hprof_devices::{Source, Target};
use hprof_engine::{HeapFault, NoSummaries, ToolFault};
use hprof_objects::Keeping;
use hprof_objects::laws::{conflicts_of_objects_come_last, objects_stand_behind};
use hprof_parts::Parts;
use hprof_runs::Scratch;
use hprof_stored::{StoredHeap, fault_of_first_pass, fault_of_stop, read_stored};
use hprof_stream::Limits;
use std::alloc::Global;

/// Reads all parts, and writes the 1.0.1 dump of their facts. Objects stay in the parts or go to scratch, as `keeping` says. They are read
/// two more times, to add up their bytes and to write them: `parts` opens the same parts as the readers.
///
/// # Errors
///
/// The first of these that applies is the fault.
///
/// - `Part`, `NoParts`, `IdSizes`: a part was refused, there are no parts, or they have two sizes of identifiers. Nothing was written.
/// - `Conflict`: two facts have one key and different contents. This is the least such key, and nothing was written.
/// - `Refused`: the sub-records have more than 4,294,967,295 bytes together. Nothing was written.
/// - `Lost`: the objects cannot be read again, or the scratch failed. A prefix of the dump was written, or nothing.
/// - `Write`: the target failed. A prefix of the dump was written.
/// - `OutOfMemory`: memory ran out, but not while a part was read. A prefix of the dump was written, or nothing.
pub fn join101_stored<
    R: Source,
    S: Scratch + Drop,
    Q: Source + Drop,
    P: Parts<Reader = Q>,
    W: Target,
>(
    alloc: Global,
    readers: &mut [R],
    parts: &P,
    limits: Limits,
    keeping: Keeping,
    scratch: S,
    target: &mut W,
) -> Result<(), ToolFault>
    requires readers { All (λ reader. R.health reader ≡ Well) readers.old }
    requires nothing { HoldsNothing (S.written scratch) }
    requires well { S.health scratch ≡ Well }
    requires target { W.health target.old ≡ Well }
    requires again { CanBeReadAgain R.left readers.old (P.bytes parts.now) (S.written scratch) }
    ensures { Makes R.left R.health R.pulls W.written W.health limits stored_dump101_making readers.old readers.new target.old target.new
        (fault_of result) }
{
    if readers.is_empty() {
        return Err(ToolFault::NoParts);
    }
    objects_stand_behind();
    conflicts_of_objects_come_last();
    let mut kept = ();
    let stored = match read_stored(
        alloc,
        readers,
        limits,
        keeping,
        scratch,
        &NoSummaries,
        &mut kept,
    ) {
        Ok(stored) => stored,
        Err(fault) => return Err(ToolFault::from(fault)),
    };
    let StoredHeap { heap, objects } = stored;
    let objects = objects.finish();
    let len = match body_len(alloc, &heap, &objects, parts, limits) {
        Ok(len) => len,
        Err(stop) => return Err(fault_of_first_pass(stop)),
    };
    let longest = u64::from(u32::MAX);
    if len > longest {
        return Err(ToolFault::Refused(HeapFault::DumpTooLong));
    }
    match write_stored101(alloc, &heap, &objects, parts, limits, len as u32, target) {
        Ok(()) => Ok(()),
        Err(stop) => Err(fault_of_stop(stop)),
    }
}
