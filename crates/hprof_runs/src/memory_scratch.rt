//! Scratch in memory.

ghost use Rattle.std.specs.Prelude.{◌≡◌, [], Some};
ghost use Rattle.hprof_devices.specs.declared.health.Health.TheVariants.{Well};

use crate::scratch::Scratch;
use hprof_devices::{Health, ReadFault, Target, WriteFault};
use std::alloc::Global;

/// Scratch in memory. A write fails if memory runs out. A read never fails.
#[derive(Drop)]
pub struct MemoryScratch {
    bytes: Vec<u8>,
    health: Health,
}

impl MemoryScratch {
    ghost use Rattle.hprof_runs.specs.MemoryScratch.{bytes_in, health_in};

    /// Returns scratch without bytes. Allocates nothing.
    pub fn new(alloc: Global) -> Self
        ensures bytes { bytes_in result ≡ [] }
        ensures health { health_in result ≡ Well }
    {
        MemoryScratch {
            bytes: Vec::new(alloc),
            health: Health::Well,
        }
    }
}

impl Target for MemoryScratch {
    ghost written = { λ it. Some it.bytes.items };

    ghost health = { λ it. it.health };

    fn push(&mut self, piece: &[u8]) -> Result<usize, WriteFault> {
        if self.bytes.extend_from_slice(piece).is_err() {
            self.health = Health::Failed;
            return Err(WriteFault::Failed);
        }
        Ok(piece.len())
    }
}

impl Scratch for MemoryScratch {
    ghost unreadable = { λ it. ⊥ };

    fn read_back(&self, at: u64, piece: &mut [u8]) -> Result<usize, ReadFault> {
        let rest = self.bytes.get(at as usize..).unwrap_or(&[]);
        let count = rest.len().min(piece.len());
        let (front, _) = rest.split_at(count);
        piece[..count].copy_from_slice(front);
        Ok(count)
    }
}
