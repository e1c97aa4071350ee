//! The stops with which answers end.

ghost use Rattle.std.specs.Prelude.{◌≡◌};
ghost use Rattle.hprof_large.specs.Stops.{answer_of, stop_of_pass_fault};

use hprof_engine::{Loss, ProductFault, ToolFault};
use hprof_questions::DialogueFault;
use hprof_stored::InPartsFault;

/// Returns the stop of an answer whose objects cannot be gone through. They were gone through before, so two contents are a change.
pub(crate) fn stop_of_pass_fault(fault: InPartsFault) -> DialogueFault
    ensures { result ≡ stop_of_pass_fault fault }
{
    match ToolFault::from(fault) {
        ToolFault::Lost(loss) => DialogueFault::Lost(loss),
        ToolFault::Conflict(_) => DialogueFault::Lost(Loss::Objects),
        _ => DialogueFault::OutOfMemory,
    }
}

/// Returns how an answer ends, where the writing of lines ended so. It is never refused.
pub(crate) fn answer_of(outcome: Result<(), ProductFault>) -> Result<(), DialogueFault>
    ensures { result ≡ answer_of outcome }
{
    match outcome {
        Ok(()) => Ok(()),
        Err(ProductFault::Write(fault)) => Err(DialogueFault::Write(fault)),
        Err(_) => Err(DialogueFault::OutOfMemory),
    }
}
