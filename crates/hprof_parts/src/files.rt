//! Files as parts.

use crate::parts::Parts;
use hprof_devices::Device;
use std::io;
use std::io::Read;
use std::os::unix::fs::FileExt;

/// Parts in files that were opened once. A file that is replaced is still read as it was opened. No contract tells the bytes of a file.
#[derive(Drop)]
pub struct OpenFiles<'a, F> {
    files: &'a [F],
}

/// A file, read from an offset on. The position of the file is neither asked nor changed.
#[derive(Drop)]
pub struct FileAt<'a, F> {
    file: &'a F,
    at: u64,
}

impl<'a, F> OpenFiles<'a, F> {
    ghost use Rattle.std.specs.Prelude.{◌≡◌};
    ghost use Rattle.hprof_parts.specs.Files.{files_of};

    /// Returns the files as parts, in their order.
    pub fn new(files: &'a [F]) -> Self
        ensures { files_of result ≡ files.now }
    {
        OpenFiles { files }
    }
}

impl<F: FileExt> Read for FileAt<'_, F> {
    fn read(&mut self, piece: &mut [u8]) -> io::Result<usize> {
        let count = self.file.read_at(piece, self.at)?;
        self.at = self.at.saturating_add(count as u64);
        Ok(count)
    }
}

impl<'a, F: FileExt> Parts for OpenFiles<'a, F> {
    ghost use Rattle.hprof_parts.specs.Files.{untold_bytes};

    ghost bytes = { untold_bytes };

    type Reader = Device<FileAt<'a, F>>;

    fn count(&self) -> usize {
        self.files.len()
    }

    fn open(&self, index: usize, at: u64) -> Device<FileAt<'a, F>> {
        let file = &self.files[index];
        Device::new(FileAt { file, at })
    }
}
