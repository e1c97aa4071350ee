//! Why asking ended.

use hprof_engine::ToolFault;
use hprof_questions::DialogueFault;
use thiserror::Error;

/// Why a call ended that reads parts and answers questions.
#[derive(Clone, Copy, Debug, PartialEq, Eq, Error)]
pub enum AskFault {
    /// The parts were refused, or memory ran out before any of them was read. No question was read.
    #[error("{0}")]
    Parts(ToolFault),
    /// The dialogue stopped.
    #[error("{0}")]
    Dialogue(DialogueFault),
}

impl From<ToolFault> for AskFault {
    ghost use Rattle.std.specs.Prelude.{◌≡◌};
    ghost use Rattle.hprof_ask.specs.declared.ask_fault.AskFault.TheVariants.{Parts};

    ghost from_gives = { λ fault given. given ≡ Parts fault };

    fn from(fault: ToolFault) -> AskFault {
        AskFault::Parts(fault)
    }
}

impl From<DialogueFault> for AskFault {
    ghost use Rattle.std.specs.Prelude.{◌≡◌};
    ghost use Rattle.hprof_ask.specs.declared.ask_fault.AskFault.TheVariants.{Dialogue};

    ghost from_gives = { λ stop given. given ≡ Dialogue stop };

    fn from(stop: DialogueFault) -> AskFault {
        AskFault::Dialogue(stop)
    }
}
