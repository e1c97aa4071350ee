//! Why a merge of objects stopped.

ghost use Rattle.std.specs.Prelude.{◌≡◌};
ghost use Rattle.hprof_stored.specs.StoredMaking.{fault_of_pass, fault_of_stop, pass_fault};

use crate::in_parts_fault::InPartsFault;
use hprof_engine::{Loss, ToolFault};
use hprof_objects::ObjectFault;
use hprof_segments::SegmentFault;

/// Returns the fault of objects that were gone through once, and now cannot be written.
pub fn fault_of_stop(stop: ObjectFault<SegmentFault>) -> ToolFault
    ensures { result ≡ fault_of_stop stop }
{
    match stop {
        ObjectFault::OutOfMemory => ToolFault::OutOfMemory,
        // No two objects had one identifier, and each was a sub-record.
        ObjectFault::TwoContents(_) | ObjectFault::Sink(SegmentFault::NoSubRecord) => {
            ToolFault::Lost(Loss::Objects)
        }
        ObjectFault::Scratch(fault) => ToolFault::from(InPartsFault::Scratch(fault)),
        ObjectFault::Part { part, fault } => ToolFault::from(InPartsFault::Part { part, fault }),
        ObjectFault::Sink(SegmentFault::Write(fault)) => ToolFault::Write(fault),
    }
}

/// Returns why objects cannot be gone through for the first time.
fn pass_fault(stop: ObjectFault<SegmentFault>) -> InPartsFault
    ensures { result ≡ pass_fault stop }
{
    match stop {
        ObjectFault::OutOfMemory => InPartsFault::OutOfMemory,
        ObjectFault::TwoContents(id) => InPartsFault::TwoContents(id),
        ObjectFault::Scratch(fault) => InPartsFault::Scratch(fault),
        ObjectFault::Part { part, fault } => InPartsFault::Part { part, fault },
        // No sink refuses an object.
        ObjectFault::Sink(_) => InPartsFault::NoObject,
    }
}

/// Returns the fault of objects that cannot be gone through for the first time.
pub fn fault_of_first_pass(stop: ObjectFault<SegmentFault>) -> ToolFault
    ensures { result ≡ fault_of_pass (pass_fault stop) }
{
    ToolFault::from(pass_fault(stop))
}
