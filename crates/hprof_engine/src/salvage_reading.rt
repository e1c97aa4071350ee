//! Reading all parts, whatever their faults.

ghost use Rattle.std.specs.Prelude.{◌≡◌, ◌++◌, ◌∷◌, [], true, false, IsTrue, All, OnOk, IfErr};
ghost use Rattle.hprof_devices.specs.declared.health.Health.TheVariants.{Well};
ghost use Rattle.hprof_heap.specs.Gathering.{gathered, nothing_gathered};
ghost use Rattle.hprof_engine.specs.Salvaging.{is_want_of_memory};
ghost use Rattle.hprof_engine.specs.Through.{IsUnlisted, ReadsParts};

use crate::counter::PartCounter;
use crate::salvaged::FaultedPart;
use crate::tool_fault::ToolFault;
use hprof_devices::Source;
use hprof_stream::{Limits, PartFault, SinkFault, read_part};
use std::alloc::Global;

/// Returns whether memory ran out.
fn is_want_of_memory(fault: PartFault) -> bool
    ensures { result ≡ is_want_of_memory fault }
{
    match fault {
        PartFault::OutOfMemory | PartFault::Sink(SinkFault::OutOfMemory) => true,
        PartFault::Malformed { .. }
        | PartFault::ItemTooLong { .. }
        | PartFault::Sink(SinkFault::Failed)
        | PartFault::Failed
        | PartFault::Read
        | PartFault::ReadsExceeded
        | PartFault::BytesExceeded => false,
    }
}

/// Lists the fault of a part. If memory ran out, that ends the call instead.
fn list_fault(
    faults: &mut Vec<FaultedPart>,
    index: usize,
    fault: PartFault,
) -> Result<(), ToolFault>
    ensures ok { OnOk result ((is_want_of_memory fault ≡ false)
        × (faults.new.items ≡ faults.old.items ++ record { index = index; fault = fault } ∷ [])) }
    ensures err { IfErr result (IsUnlisted index fault) }
{
    if is_want_of_memory(fault) {
        return Err(ToolFault::Part { index, fault });
    }
    match faults.push(FaultedPart { index, fault }) {
        Ok(()) => Ok(()),
        Err(_) => Err(ToolFault::OutOfMemory),
    }
}

/// Reads each part in order, whatever its fault, gives the facts before the fault to the gatherer, and lists the fault.
pub(crate) fn read_through<R: Source>(
    alloc: Global,
    readers: &mut [R],
    limits: Limits,
    counter: &mut PartCounter,
    faults: &mut Vec<FaultedPart>,
) -> Result<(), ToolFault>
    requires well { All (λ reader. R.health reader ≡ Well) readers.old }
    requires nothing { gathered counter.old.gatherer ≡ nothing_gathered }
    requires none { counter.old.parts ≡ 0 }
    requires empty { faults.old.items ≡ [] }
    ensures { ReadsParts R.left R.health R.pulls limits readers.old readers.new (gathered counter.new.gatherer) counter.new.parts
        faults.new.items result }
{
    for (index, reader) in readers.iter_mut().enumerate() {
        if let Err(fault) = read_part(alloc, reader, limits, counter) {
            list_fault(faults, index, fault)?;
        }
    }
    Ok(())
}
