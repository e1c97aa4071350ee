//! Scratch in a file that is created when its first byte is pushed.

ghost use Rattle.std.specs.Prelude.{◌≡◌, ◌↔◌, IsTrue, ◌<◌, ◌≤◌, None, ⊤, length, take, IfOk, OnErr, MatchResult};
ghost use Rattle.std.specs.Io.KnownBytes.{Appends, Keeps};
ghost use Rattle.hprof_devices.specs.declared.health.Health.TheVariants.{Well};
ghost use Rattle.hprof_devices.specs.Device.{health_after};
ghost use Rattle.hprof_runs.specs.ReadBack.{ReadsBack};
ghost use Rattle.hprof_scratch.specs.LateFile.{Creates, IsThere, IsWritable, Pushes, late_health};

use crate::late_file::LateFile;
use crate::scratch_folder::ScratchFolder;
use hprof_devices::{ReadFault, Target, WriteFault};
use hprof_runs::{FileScratch, Scratch};

/// Scratch in a file of a folder. The file is created when the first byte is pushed, so scratch that is not used creates none. If the file
/// cannot be created, this push and each later one answer `Failed`, and none tries it again. No contract tells the bytes of a file.
#[derive(Drop)]
pub struct LateScratch<M: ScratchFolder + Drop> {
    folder: M,
    file: LateFile<M::File>,
}

impl<M: ScratchFolder + Drop> LateScratch<M> {
    ghost use Rattle.hprof_scratch.specs.declared.late_file.LateFile.TheVariants.{Later, Refused};
    ghost use Rattle.hprof_scratch.specs.LateScratch.{late_file};

    /// Returns scratch without bytes. Creates no file.
    pub fn new(folder: M) -> Self
        ensures file { late_file result ≡ Later }
        ensures health { late_health (late_file result) ≡ Well }
    {
        LateScratch {
            folder,
            file: LateFile::Later,
        }
    }

    /// Returns whether the file could not be created.
    pub fn was_refused(&self) -> bool
        ensures { IsTrue result ↔ (late_file self.now ≡ Refused) }
    {
        matches!(self.file, LateFile::Refused)
    }

    /// Creates the file, unless an earlier call did or failed to.
    fn create(&mut self)
        ensures { Creates (late_file self.old) (late_file self.new) }
    {
        if let LateFile::Later = self.file {
            self.file = match self.folder.create() {
                Ok(file) => LateFile::Created(FileScratch::new(file)),
                Err(_) => LateFile::Refused,
            };
        }
    }
}

impl<M: ScratchFolder + Drop> Target for LateScratch<M> {
    ghost written = { λ it. None };

    ghost health = { λ it. late_health it.file };

    fn push(&mut self, piece: &[u8]) -> Result<usize, WriteFault>
        requires { IsWritable self.old.file }
        ensures count { IfOk result (λ n. (n ≤ length piece.now) × (0 < length piece.now → 0 < n)) }
        ensures bytes { MatchResult result (λ n. Appends None None (take n piece.now)) (λ _. Keeps None None) }
        ensures health { MatchResult result
            (λ _. late_health self.new.file ≡ Well)
            (λ fault. late_health self.new.file ≡ health_after fault) }
        ensures file { Pushes self.old.file piece.now result self.new.file }
    {
        if !piece.is_empty() {
            self.create();
        }
        match &mut self.file {
            LateFile::Later => Ok(0),
            LateFile::Created(scratch) => scratch.push(piece),
            LateFile::Refused => Err(WriteFault::Failed),
        }
    }
}

impl<M: ScratchFolder + Drop> Scratch for LateScratch<M> {
    ghost unreadable = { λ it. ⊤ };

    fn read_back(&self, at: u64, piece: &mut [u8]) -> Result<usize, ReadFault>
        ensures count { IfOk result (λ count. count ≤ length piece.new) }
        ensures bytes { IfOk result (λ count. ReadsBack None at count piece.new) }
        ensures fault { OnErr result ⊤ }
        ensures nothing { ¬ IsThere self.now.file → (result ≡ Ok 0) × (piece.new ≡ piece.old) }
    {
        match &self.file {
            LateFile::Later | LateFile::Refused => Ok(0),
            LateFile::Created(scratch) => scratch.read_back(at, piece),
        }
    }
}
