//! Scratch in a file.

ghost use Rattle.std.specs.Prelude.{◌≡◌, None, ⊤};
ghost use Rattle.hprof_devices.specs.declared.health.Health.TheVariants.{Well};

use crate::scratch::Scratch;
use hprof_devices::{Health, ReadFault, Target, WriteFault};
use std::os::unix::fs::FileExt;

/// Scratch in a file, which is empty and was opened to be read and written. It writes and reads at offsets, and does not move the position
/// of the file. An error of any kind is a failure, and no call is repeated. No contract tells the bytes of a file.
#[derive(Drop)]
pub struct FileScratch<F> {
    file: F,
    /// The number of bytes that were written.
    end: u64,
    health: Health,
}

impl<F> FileScratch<F> {
    ghost use Rattle.hprof_runs.specs.FileScratch.{file_of, file_health};

    /// Returns scratch without bytes, in a file.
    pub fn new(file: F) -> Self
        ensures file { file_of result ≡ file }
        ensures health { file_health result ≡ Well }
    {
        FileScratch {
            file,
            end: 0,
            health: Health::Well,
        }
    }
}

impl<F: FileExt> Target for FileScratch<F> {
    ghost written = { λ it. None };

    ghost health = { λ it. it.health };

    fn push(&mut self, piece: &[u8]) -> Result<usize, WriteFault> {
        match self.file.write_at(piece, self.end) {
            Ok(0) if !piece.is_empty() => {
                self.health = Health::Stuck;
                Err(WriteFault::Stuck)
            }
            Ok(count) => {
                self.end = self.end.saturating_add(count as u64);
                self.health = Health::Well;
                Ok(count)
            }
            Err(_) => {
                self.health = Health::Failed;
                Err(WriteFault::Failed)
            }
        }
    }
}

impl<F: FileExt> Scratch for FileScratch<F> {
    ghost unreadable = { λ it. ⊤ };

    fn read_back(&self, at: u64, piece: &mut [u8]) -> Result<usize, ReadFault> {
        match self.file.read_at(piece, at) {
            Ok(count) => Ok(count),
            Err(_) => Err(ReadFault::Failed),
        }
    }
}
