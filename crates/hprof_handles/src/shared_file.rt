//! Files that are shared by those who read them.

ghost use Rattle.std.specs.Prelude.{None};

use crate::read_at::ReadAt;
use std::alloc::{AllocError, AllocFailed, Global};
use std::io;
use std::os::unix::fs::FileExt;
use std::rc::Rc;

/// A file that is read at offsets by several readers. The position of the file is neither asked nor changed. No contract tells its bytes.
#[derive(Drop)]
pub struct SharedFile<F> {
    file: Rc<F>,
}

impl<F: Drop> SharedFile<F> {
    /// Returns a file that can be shared. If memory runs out, the file is given back.
    pub fn new(alloc: Global, file: F) -> Result<Self, AllocFailed<F>> {
        Ok(SharedFile {
            file: Rc::new(alloc, file)?,
        })
    }

    /// Returns the same file for one reader more.
    pub fn share(&self) -> Result<Self, AllocError> {
        Ok(SharedFile {
            file: self.file.clone()?,
        })
    }
}

impl<F: FileExt> ReadAt for SharedFile<F> {
    ghost bytes = { λ _. None };

    fn read_at(&self, piece: &mut [u8], at: u64) -> io::Result<usize> {
        self.file.read_at(piece, at)
    }
}
