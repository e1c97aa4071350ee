//! Why a pass over objects stops.

use std::alloc::AllocError;
use std::convert::Infallible;
use std::fmt;
use thiserror::Error;

/// The reason why a pass over the objects of a heap stopped before the end, or why something that needs such a pass was not made.
#[derive(Clone, Copy, Debug, PartialEq, Eq, Error)]
#[error_bound(E: fmt::Display, F: fmt::Display)]
pub enum PassFault<E, F> {
    /// What was given the objects refused one, or stopped for a reason of its own.
    #[error("{0}")]
    Sink(E),
    /// The objects cannot be gone through.
    #[error("{0}")]
    Lost(F),
}

/// Want of memory, in what is made of the objects.
impl<F> From<AllocError> for PassFault<AllocError, F> {
    ghost use Rattle.std.specs.Prelude.{◌≡◌};
    ghost use Rattle.hprof_passes.specs.declared.pass_fault.PassFault.TheVariants.{Sink};

    ghost from_gives = { λ fault given. given ≡ Sink fault };

    fn from(fault: AllocError) -> PassFault<AllocError, F> {
        PassFault::Sink(fault)
    }
}

impl<E> PassFault<E, Infallible> {
    ghost use Rattle.std.specs.Prelude.{◌≡◌};
    ghost use Rattle.hprof_passes.specs.declared.pass_fault.PassFault.TheVariants.{Sink};

    /// Returns the reason why the sink refused an object. Objects in memory can always be gone through.
    pub fn of_sink(self) -> E
        ensures { self ≡ Sink result }
    {
        match self {
            PassFault::Sink(fault) => fault,
            PassFault::Lost(never) => match never {},
        }
    }
}
