//! Folders in which files for scratch are created.

use std::io;
use std::os::unix::fs::FileExt;

/// A folder in which files for scratch are created.
pub trait ScratchFolder {
    /// A file that is written and read at offsets.
    type File: FileExt + Drop;

    /// Creates an empty file, and opens it to be written and read. When it is returned, no folder names it any more, so nothing is left of
    /// it after the program ends.
    fn create(&self) -> io::Result<Self::File>;
}

/// A folder that is lent.
impl<M: ScratchFolder> ScratchFolder for &M {
    type File = M::File;

    fn create(&self) -> io::Result<M::File> {
        (**self).create()
    }
}
