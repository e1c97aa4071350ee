//! Reasons why a dialogue stops.

ghost use Rattle.std.specs.Prelude.{◌≡◌};

use hprof_devices::{ReadFault, WriteFault};
use hprof_engine::Loss;
use std::alloc::AllocError;
use thiserror::Error;

/// The reason why a dialogue stopped before the end of the questions, and before a line that ends it.
#[derive(Clone, Copy, Debug, PartialEq, Eq, Error)]
pub enum DialogueFault {
    /// The questions could not be read on.
    #[error("{0}")]
    Questions(ReadFault),
    /// The writer failed or stuck.
    #[error("{0}")]
    Write(WriteFault),
    /// What the answers are about cannot be read again.
    #[error("{0}")]
    Lost(Loss),
    /// Memory was refused.
    #[error("out of memory")]
    OutOfMemory,
}

impl From<AllocError> for DialogueFault {
    ghost use Rattle.hprof_questions.specs.declared.dialogue_fault.DialogueFault.TheVariants.{OutOfMemory};

    ghost from_gives = { λ _ stop. stop ≡ OutOfMemory };

    fn from(_error: AllocError) -> DialogueFault {
        DialogueFault::OutOfMemory
    }
}

impl From<ReadFault> for DialogueFault {
    ghost use Rattle.hprof_questions.specs.declared.dialogue_fault.DialogueFault.TheVariants.{Questions};

    ghost from_gives = { λ fault given. given ≡ Questions fault };

    fn from(fault: ReadFault) -> DialogueFault {
        DialogueFault::Questions(fault)
    }
}

impl From<WriteFault> for DialogueFault {
    ghost use Rattle.hprof_questions.specs.declared.dialogue_fault.DialogueFault.TheVariants.{Write};

    ghost from_gives = { λ fault given. given ≡ Write fault };

    fn from(fault: WriteFault) -> DialogueFault {
        DialogueFault::Write(fault)
    }
}

impl From<Loss> for DialogueFault {
    ghost use Rattle.hprof_questions.specs.declared.dialogue_fault.DialogueFault.TheVariants.{Lost};

    ghost from_gives = { λ loss given. given ≡ Lost loss };

    fn from(loss: Loss) -> DialogueFault {
        DialogueFault::Lost(loss)
    }
}
