//! The file of a part.

use hprof_handles::{ReadAt, SharedFile};
use std::alloc::Global;
use std::fs::OpenFile;
use std::io;
use std::io::Read;
use std::os::unix::fs::FileExt;

/// The file of a part, as it is read for the first time.
#[derive(Drop)]
pub(crate) enum PartFile<F> {
    /// A pipe, a device or another file that is read once.
    Stream(F),
    /// A regular file, which is read at offsets. It can be read again.
    Regular {
        file: SharedFile<F>,
        /// The offset of the next byte.
        at: u64,
    },
}

/// Returns the length of a regular file, and else 0. The files of `/proc` have the length 0.
pub(crate) fn regular_length<F: OpenFile>(file: &F) -> u64 {
    match file.metadata() {
        Ok(metadata) if metadata.is_file() => metadata.len(),
        _ => 0,
    }
}

impl<F: Drop> PartFile<F> {
    /// Returns the file of a part. If there is no memory to share it, it is read once.
    pub(crate) fn new(alloc: Global, file: F, is_regular: bool) -> Self {
        if !is_regular {
            return PartFile::Stream(file);
        }
        match SharedFile::new(alloc, file) {
            Ok(file) => PartFile::Regular { file, at: 0 },
            Err(refused) => PartFile::Stream(refused.value),
        }
    }

    /// Returns what reads the file again, if it is a regular one and there is memory to share it.
    pub(crate) fn share(&self) -> Option<SharedFile<F>> {
        match self {
            PartFile::Stream(_) => None,
            PartFile::Regular { file, .. } => file.share().ok(),
        }
    }
}

impl<F: Read + FileExt> Read for PartFile<F> {
    ghost use Rattle.hprof_tool.specs.PartFile.{remaining_in};

    ghost remaining = { remaining_in F.remaining };

    fn read(&mut self, piece: &mut [u8]) -> io::Result<usize> {
        match self {
            PartFile::Stream(file) => file.read(piece),
            PartFile::Regular { file, at } => {
                let count = file.read_at(piece, *at)?;
                *at = at.saturating_add(count as u64);
                Ok(count)
            }
        }
    }
}
