//! The answers of a live heap.

ghost use Rattle.std.specs.Prelude.{Ok, IfOk};
ghost use Rattle.hprof_graph.specs.Mapped.{MapsTo};

use std::alloc::AllocError;

/// The answer of a live heap about the facts so far.
#[derive(Clone, Copy, Debug, PartialEq, Eq, Drop)]
pub enum Live<T> {
    /// The answer.
    Is(T),
    /// There is no answer: parts have two identifier sizes, or a key came with two contents.
    InConflict,
    /// There is no answer: an earlier call returned a fault.
    Failed,
}

impl<T> Live<T> {
    /// Applies a function to the answer, if there is one.
    pub(crate) fn map<U, F: FnOnce(T) -> U>(self, apply: F) -> Live<U>
        requires { F.IsAlwaysCallable apply }
        ensures { MapsTo (F.post apply) self result }
    {
        match self {
            Live::Is(answer) => Live::Is(apply(answer)),
            Live::InConflict => Live::InConflict,
            Live::Failed => Live::Failed,
        }
    }

    /// Applies a function that may run out of memory to the answer, if there is one.
    pub(crate) fn try_map<U, F: FnOnce(T) -> Result<U, AllocError>>(
        self,
        apply: F,
    ) -> Result<Live<U>, AllocError>
        requires { F.IsAlwaysCallable apply }
        ensures { IfOk result (MapsTo (λ answer mapped. F.post apply answer (Ok mapped)) self) }
    {
        match self {
            Live::Is(answer) => Ok(Live::Is(apply(answer)?)),
            Live::InConflict => Ok(Live::InConflict),
            Live::Failed => Ok(Live::Failed),
        }
    }
}
