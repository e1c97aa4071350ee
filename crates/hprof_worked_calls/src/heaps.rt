//! Heaps of one part each, joined into the first.

ghost use Rattle.std.specs.Prelude.{◌≡◌};
ghost use Rattle.hprof_devices.specs.declared.health.Health.TheVariants.{Well};
ghost use Rattle.hprof_devices.specs.Device.{health_of};

use crate::streams::{Reader, Writer};
use hprof_devices::{Device, Health};
use hprof_dump::write_canonical;
use hprof_engine::ToolFault;
use hprof_heap::{Gatherer, Heap, JoinRefusal, Refusal};
use hprof_stream::{Limits, PartFault, read_part};
use std::alloc::Global;

/// Returns the engine's fault for a part that states no heap.
fn fault_of_refusal(refusal: Refusal) -> ToolFault {
    match refusal {
        Refusal::NoParts => ToolFault::NoParts,
        Refusal::IdSizes => ToolFault::IdSizes,
        Refusal::Conflict(key) => ToolFault::Conflict(key),
        Refusal::Failed => ToolFault::OutOfMemory,
    }
}

/// Returns the engine's fault for heaps that are not joined.
fn fault_of_join(refusal: JoinRefusal) -> ToolFault {
    match refusal {
        JoinRefusal::IdSizes => ToolFault::IdSizes,
        JoinRefusal::Conflict(key) => ToolFault::Conflict(key),
        JoinRefusal::OutOfMemory => ToolFault::OutOfMemory,
    }
}

/// Returns the heap of a part. Does not read from a reader that has failed.
fn heap_of(
    alloc: Global,
    index: usize,
    reader: &mut Device<Reader<'_>>,
    limits: Limits,
) -> Result<Heap, ToolFault> {
    let Health::Well = reader.health() else {
        let fault = PartFault::Failed;
        return Err(ToolFault::Part { index, fault });
    };
    let mut gatherer = Gatherer::new(alloc);
    if let Err(fault) = read_part(alloc, reader, limits, &mut gatherer) {
        return Err(ToolFault::Part { index, fault });
    }
    match gatherer.finish() {
        Ok(heap) => Ok(heap),
        Err(refusal) => Err(fault_of_refusal(refusal)),
    }
}

/// Returns the heap of each part.
fn heaps_of(
    alloc: Global,
    readers: &mut [Device<Reader<'_>>],
    limits: Limits,
) -> Result<Vec<Heap>, ToolFault> {
    let mut heaps = Vec::new(alloc);
    for (index, reader) in readers.iter_mut().enumerate() {
        let heap = heap_of(alloc, index, reader, limits)?;
        if heaps.push(heap).is_err() {
            return Err(ToolFault::OutOfMemory);
        }
    }
    Ok(heaps)
}

/// Joins another heap into a heap. If memory runs out, joins them once more.
fn join(heap: &mut Heap, other: &Heap) -> Result<(), JoinRefusal> {
    match heap.join(other) {
        Err(JoinRefusal::OutOfMemory) => heap.join(other),
        joined => joined,
    }
}

/// Joins other heaps into a heap, up to the first that is refused.
fn join_all(heap: &mut Heap, others: &[Heap]) -> Result<(), ToolFault> {
    for other in others {
        if let Err(refusal) = join(heap, other) {
            return Err(fault_of_join(refusal));
        }
    }
    Ok(())
}

/// Joins the heaps of the other parts into that of the first, and writes its dump, even if a join was refused. Returns the number of its
/// facts.
pub(crate) fn unite_to(
    alloc: Global,
    readers: &mut [Device<Reader<'_>>],
    target: &mut Device<Writer>,
    limits: Limits,
) -> Result<u128, ToolFault>
    requires { health_of target.old ≡ Well }
{
    let mut heaps = heaps_of(alloc, readers, limits)?;
    let Some((heap, others)) = heaps.split_first_mut() else {
        return Err(ToolFault::NoParts);
    };
    let joined = join_all(heap, others);
    if let Err(fault) = write_canonical(heap, target) {
        return Err(ToolFault::Write(fault));
    }
    joined?;
    Ok(heap.count())
}
