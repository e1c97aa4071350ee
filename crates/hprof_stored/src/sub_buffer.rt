//! The bytes of one sub-record, in memory.

ghost use Rattle.std.specs.Prelude.{◌≡◌, [], Some};
ghost use Rattle.hprof_devices.specs.declared.health.Health.TheVariants.{Well};

use hprof_devices::{Health, Target, WriteFault};
use std::alloc::{AllocError, Global};

/// Bytes in memory. A write fails if memory runs out.
#[derive(Drop)]
pub(crate) struct SubBuffer {
    pub(crate) bytes: Vec<u8>,
    pub(crate) health: Health,
}

impl SubBuffer {
    /// Returns a buffer without bytes. Allocates nothing.
    pub(crate) fn new(alloc: Global) -> Self
        ensures { result.health ≡ Well }
    {
        SubBuffer {
            bytes: Vec::new(alloc),
            health: Health::Well,
        }
    }

    /// Forgets the bytes, and makes room for so many.
    pub(crate) fn begin(&mut self, count: usize) -> Result<(), AllocError>
        ensures bytes { self.new.bytes.items ≡ [] }
        ensures health { self.new.health ≡ self.old.health }
    {
        self.bytes.clear();
        self.bytes.reserve(count)
    }
}

impl Target for SubBuffer {
    ghost written = { λ it. Some it.bytes.items };

    ghost health = { λ it. it.health };

    fn push(&mut self, piece: &[u8]) -> Result<usize, WriteFault> {
        if self.bytes.extend_from_slice(piece).is_err() {
            self.health = Health::Failed;
            return Err(WriteFault::Failed);
        }
        Ok(piece.len())
    }
}
