//! Reading all parts, whatever their faults, and keeping their objects apart.

ghost use Rattle.std.specs.Prelude.{◌≡◌, ◌++◌, ◌∷◌, [], ℕ, true, List, Option, All, OnOk, IfErr};
ghost use Rattle.hprof_devices.specs.declared.health.Health.TheVariants.{Well};
ghost use Rattle.hprof_runs.specs.ReadBack.{HoldsNothing};
ghost use Rattle.hprof_stream.specs.declared.limits.Limits.{Limits};
ghost use Rattle.hprof_stored.specs.Holding.{HoldsAll, nothing_before};
ghost use Rattle.hprof_stored.specs.SavingThrough.{IsUnlistedStored, SavesHeap, StoresThrough, is_listed};
ghost use Rattle.hprof_stored.specs.Storing.{storing};

use crate::reading::heap_of_all;
use crate::stored_heap::StoredHeap;
use crate::stored_sink::StoredSink;
use hprof_devices::Source;
use hprof_engine::{FaultedPart, Loss, ToolFault};
use hprof_objects::Keeping;
use hprof_objects::laws::conflicts_of_objects_come_last;
use hprof_placed::read_placed;
use hprof_runs::Scratch;
use hprof_stream::{Limits, PartFault, SinkFault};
use std::alloc::Global;

/// What is saved of parts, whose objects stand apart.
#[derive(Drop)]
pub(crate) struct SavedHeap<S> {
    /// The heap without objects, and the log of the objects.
    pub(crate) stored: StoredHeap<S>,
    /// The number of parts with a whole header.
    pub(crate) headed: usize,
    /// The parts with a fault, in order.
    pub(crate) faults: Vec<FaultedPart>,
}

/// Lists the fault of a part. If memory ran out, or the scratch took no more objects, that ends the call instead.
fn list_fault(
    faults: &mut Vec<FaultedPart>,
    index: usize,
    fault: PartFault,
) -> Result<(), ToolFault>
    ensures ok { OnOk result ((is_listed fault ≡ true)
        × (faults.new.items ≡ faults.old.items ++ record { index = index; fault = fault } ∷ [])) }
    ensures err { IfErr result (IsUnlistedStored index fault) }
{
    match fault {
        PartFault::OutOfMemory | PartFault::Sink(SinkFault::OutOfMemory) => {
            return Err(ToolFault::Part { index, fault });
        }
        PartFault::Sink(SinkFault::Failed) => return Err(ToolFault::Lost(Loss::Scratch)),
        PartFault::Malformed { .. }
        | PartFault::ItemTooLong { .. }
        | PartFault::Failed
        | PartFault::Read
        | PartFault::ReadsExceeded
        | PartFault::BytesExceeded => {}
    }
    match faults.push(FaultedPart { index, fault }) {
        Ok(()) => Ok(()),
        Err(_) => Err(ToolFault::OutOfMemory),
    }
}

/// Reads each part in order, whatever its fault, gives the facts before the fault to the sink, lists the fault, and counts the parts with a
/// whole header.
fn read_through<R: Source, S: Scratch + Drop>(
    alloc: Global,
    readers: &mut [R],
    limits: Limits,
    sink: &mut StoredSink<S>,
    headed: &mut usize,
    faults: &mut Vec<FaultedPart>,
) -> Result<(), ToolFault>
    requires well { All (λ reader. R.health reader ≡ Well) readers.old }
    requires nothing { (scratch : Option (List ℕ)) × HoldsAll S.written S.health limits (nothing_before scratch) (storing sink.old) }
    requires none { headed.old ≡ 0 }
    requires empty { faults.old.items ≡ [] }
    ensures { (scratch : Option (List ℕ)) → HoldsAll S.written S.health limits (nothing_before scratch) (storing sink.old)
        → StoresThrough R.left R.health R.pulls limits readers.old readers.new S.written S.health scratch headed.new faults.new.items result
        (storing sink.new) }
{
    for (index, reader) in readers.iter_mut().enumerate() {
        if let Err(fault) = read_placed(alloc, reader, limits, sink) {
            list_fault(faults, index, fault)?;
        }
        if sink.leave_part() {
            *headed += 1;
        }
    }
    Ok(())
}

/// Reads all parts in order, whatever their faults, and returns the heap of the facts before the first fault of each but their objects, a
/// log of these, and the faults.
///
/// # Errors
///
/// The first of these that applies is the fault.
///
/// - `Part`: memory ran out while a part was read. `OutOfMemory`: it ran out before any part was read, or for the list of faults.
/// - `Lost`: the scratch took no more objects.
/// - `NoParts`, `IdSizes`: no part has a whole header, or two have different sizes of identifiers.
/// - `Conflict`: two facts that are no objects have one key and different contents. Conflicts of objects are not looked for.
pub(crate) fn save_parts<R: Source, S: Scratch + Drop>(
    alloc: Global,
    readers: &mut [R],
    limits: Limits,
    keeping: Keeping,
    scratch: S,
) -> Result<SavedHeap<S>, ToolFault>
    requires readers { All (λ reader. R.health reader ≡ Well) readers.old }
    requires nothing { HoldsNothing (S.written scratch) }
    requires well { S.health scratch ≡ Well }
    ensures { SavesHeap R.left R.health R.pulls limits readers.old readers.new S.written S.health (S.written scratch) result }
{
    conflicts_of_objects_come_last();
    let Ok(mut sink) = StoredSink::new(alloc, scratch, keeping) else {
        return Err(ToolFault::OutOfMemory);
    };
    let mut headed = 0;
    let mut faults = Vec::new(alloc);
    read_through(alloc, readers, limits, &mut sink, &mut headed, &mut faults)?;
    let StoredSink { gatherer, log, .. } = sink;
    let heap = match heap_of_all(gatherer) {
        Ok(heap) => heap,
        Err(fault) => return Err(ToolFault::from(fault)),
    };
    Ok(SavedHeap {
        stored: StoredHeap { heap, objects: log },
        headed,
        faults,
    })
}
