//! Reasons why parts are refused.

ghost use Rattle.std.specs.Prelude.{◌≡◌, ◌++◌, IfOk, codes, decimal, string_bytes};
ghost use Rattle.hprof_engine.specs.FaultText.{IsFaultText, IsPartText};

use crate::heap_fault::HeapFault;
use crate::loss::Loss;
use hprof_devices::WriteFault;
use hprof_heap::Key;
use hprof_stream::PartFault;
use std::alloc::{AllocError, Global};
use std::error::Error;
use std::fmt;

/// The reason why no product was made of parts. The first part with a fault comes first, then no parts, two sizes of identifiers, a
/// conflict, a heap that is refused, and the writer last.
#[derive(Clone, Copy, Debug, PartialEq, Eq)]
pub enum ToolFault {
    /// A part was refused.
    Part {
        /// The index of the part, from 0.
        index: usize,
        /// Its fault.
        fault: PartFault,
    },
    /// There are no parts.
    NoParts,
    /// Two parts have different sizes of identifiers.
    IdSizes,
    /// Two facts have one key and different contents. This is the least such key.
    Conflict(Key),
    /// The heap was refused before anything was written.
    Refused(HeapFault),
    /// The objects of the parts are lost. Only calls that read parts again answer this.
    Lost(Loss),
    /// The writer failed or stuck.
    Write(WriteFault),
    /// Memory ran out, but not while a part was read.
    OutOfMemory,
}

/// Prints it as the program does, in one line.
impl fmt::Display for ToolFault {
    ghost use Rattle.hprof_engine.specs.FaultText.{known_text};

    ghost output = { known_text };

    fn fmt<W: fmt::Write>(&self, f: &mut fmt::Formatter<W>) -> fmt::Result {
        match self {
            ToolFault::Part { index, fault } => write!(f, "part {index}: {fault}"),
            ToolFault::NoParts => f.write_str("no parts"),
            ToolFault::IdSizes => f.write_str("identifier sizes differ"),
            ToolFault::Conflict(key) => write!(f, "conflict at {key}"),
            ToolFault::Refused(refusal) => f.write_str(refusal.text()),
            ToolFault::Lost(loss) => write!(f, "{loss}"),
            ToolFault::Write(_) => f.write_str("write failed"),
            ToolFault::OutOfMemory => f.write_str("out of memory"),
        }
    }
}

impl Error for ToolFault {}

impl ToolFault {
    /// Returns its text, in one line. If memory runs out, the answer is `AllocError`.
    pub fn text(&self, alloc: Global) -> Result<String, AllocError>
        ensures { IfOk result (λ text. IsFaultText self.now (string_bytes text)) }
    {
        match *self {
            ToolFault::Part { index, fault } => text_of_part(alloc, index, fault),
            ToolFault::NoParts
            | ToolFault::IdSizes
            | ToolFault::Conflict(_)
            | ToolFault::Refused(_)
            | ToolFault::Lost(_)
            | ToolFault::Write(_)
            | ToolFault::OutOfMemory => self.to_string(alloc),
        }
    }
}

/// Returns the text of a part that was refused: its number, and why.
fn text_of_part(alloc: Global, index: usize, fault: PartFault) -> Result<String, AllocError>
    ensures { IfOk result (λ text. IsPartText index (string_bytes text)) }
{
    let why = fault.to_string(alloc)?;
    text_with(alloc, index, &why)
}

/// Returns the text of a part: its number, and why it was refused.
fn text_with(alloc: Global, index: usize, why: &str) -> Result<String, AllocError>
    ensures { IfOk result (λ text. string_bytes text ≡ codes "part " ++ (decimal index ++ (codes ": " ++ why.now))) }
{
    format!(in alloc; "part {index}: {why}")
}
