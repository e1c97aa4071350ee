//! Reasons why the program refuses.

ghost use Rattle.std.specs.Prelude.{◌≡◌, IfOk, string_bytes};
ghost use Rattle.hprof_tool.specs.Program.{IsDumpRefusalText, IsRefusalText, of_dump, of_only_part};

use hprof_ask::AskFault;
use hprof_devices::WriteFault;
use hprof_engine::{Loss, ToolFault};
use hprof_questions::DialogueFault;
use std::alloc::{AllocError, AllocFailed, Global};

/// The reason why the program refused.
#[derive(Drop)]
pub(crate) enum Refused {
    /// The engine refused.
    Engine(ToolFault),
    /// The engine refused one of two dumps, of which each is one part.
    Dump {
        /// The number of the dump: 0 for the older one, 1 for the newer one.
        place: usize,
        /// Its fault.
        fault: ToolFault,
    },
    /// A part could not be opened.
    Open(usize),
    /// The new file could not be created.
    Create,
    /// The questions could not be read.
    Questions,
    /// Memory was refused to the program itself.
    OutOfMemory,
}

/// The reason why something that is written to a stream was refused, and the stream, which is gone if there was no memory for the buffer
/// before it.
#[derive(Drop)]
pub(crate) struct Stopped<W> {
    pub(crate) why: Refused,
    pub(crate) writer: Option<W>,
}

/// The reason why something that is written behind a buffer was refused, and the writer.
#[derive(Drop)]
pub(crate) struct Left<W> {
    pub(crate) why: Refused,
    pub(crate) writer: W,
}

/// The refusal when writing failed.
pub(crate) const WRITE_FAILED: Refused = Refused::Engine(ToolFault::Write(WriteFault::Failed));

impl Refused {
    /// Returns the refusal of the dump at that place of two, whose parts alone were read. A writer that failed and want of memory are of no
    /// dump.
    pub(crate) fn of_dump(self, place: usize) -> Refused
        ensures { result ≡ of_dump place self }
    {
        match self {
            Refused::Engine(ToolFault::Write(fault)) => Refused::Engine(ToolFault::Write(fault)),
            Refused::Engine(fault) => Refused::Dump { place, fault },
            other => other,
        }
    }

    /// Returns its text, in one line.
    pub(crate) fn text(&self, alloc: Global) -> Result<String, AllocError>
        ensures { IfOk result (λ text. IsRefusalText self.now (string_bytes text)) }
    {
        match self {
            Refused::Engine(fault) => fault.text(alloc),
            Refused::Dump { place, fault } => text_of_dump(alloc, *place, *fault),
            Refused::Open(index) => format!(in alloc; "cannot open part {index}"),
            Refused::Create => String::from_str(alloc, "cannot create the output"),
            Refused::Questions => String::from_str(alloc, "read failed"),
            Refused::OutOfMemory => String::from_str(alloc, "out of memory"),
        }
    }
}

/// Returns the fault of the only part of the dump at that place of two, with that number as the part's, or `None` if no part is at fault.
fn of_only_part(fault: ToolFault, place: usize) -> Option<ToolFault>
    ensures { result ≡ of_only_part place fault }
{
    match fault {
        ToolFault::Part { fault, .. } => Some(ToolFault::Part {
            index: place,
            fault,
        }),
        ToolFault::Lost(Loss::Changed(_)) => Some(ToolFault::Lost(Loss::Changed(place))),
        ToolFault::Lost(Loss::Read(_)) => Some(ToolFault::Lost(Loss::Read(place))),
        _ => None,
    }
}

/// Returns the text that one of two dumps was refused, and why.
fn text_of_dump(alloc: Global, place: usize, fault: ToolFault) -> Result<String, AllocError>
    ensures { IfOk result (λ text. IsDumpRefusalText place fault (string_bytes text)) }
{
    if let Some(of_part) = of_only_part(fault, place) {
        return of_part.text(alloc);
    }
    let why = fault.text(alloc)?;
    format!(in alloc; "part {place}: {why}")
}

impl<T: Drop> From<AllocFailed<T>> for Refused {
    ghost use Rattle.hprof_tool.specs.declared.program.refused.Refused.TheVariants.{OutOfMemory};

    ghost from_gives = { λ _ refused. refused ≡ OutOfMemory };

    fn from(_error: AllocFailed<T>) -> Refused {
        Refused::OutOfMemory
    }
}

impl From<AskFault> for Refused {
    ghost use Rattle.hprof_tool.specs.Conversing.{refused_asking};

    ghost from_gives = { λ fault refused. refused ≡ refused_asking fault };

    fn from(fault: AskFault) -> Refused {
        match fault {
            AskFault::Parts(fault) => Refused::from(fault),
            AskFault::Dialogue(DialogueFault::Questions(_)) => Refused::Questions,
            AskFault::Dialogue(DialogueFault::Write(fault)) => {
                Refused::Engine(ToolFault::Write(fault))
            }
            AskFault::Dialogue(DialogueFault::Lost(loss)) => Refused::Engine(ToolFault::Lost(loss)),
            AskFault::Dialogue(DialogueFault::OutOfMemory) => Refused::OutOfMemory,
        }
    }
}

impl From<ToolFault> for Refused {
    ghost use Rattle.hprof_tool.specs.Program.{refused_of};

    ghost from_gives = { λ fault refused. refused ≡ refused_of fault };

    fn from(fault: ToolFault) -> Refused {
        match fault {
            ToolFault::OutOfMemory => Refused::OutOfMemory,
            fault => Refused::Engine(fault),
        }
    }
}
