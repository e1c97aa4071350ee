//! Files for scratch.

use crate::program::meter::Meter;
use crate::program::metered::PRIVATE_MODE;
use hprof_scratch::ScratchFolder;
use std::alloc::{AllocError, Global};
use std::fs::OpenOptions;
use std::io::{ErrorKind, Write};
use std::os::unix::fs::{FileExt, OpenOptionsExt};
use std::rt::{Clock, Files};
use std::{fs, io};

/// The number of names that are tried for a file.
const NAMES: u32 = 1000;

/// The folder in which a file for scratch is created.
#[derive(Drop)]
pub(crate) struct ScratchPlace<'a, S, T> {
    pub(crate) alloc: Global,
    pub(crate) system: &'a S,
    pub(crate) meter: &'a Meter<T>,
    /// The path of the folder.
    pub(crate) folder: String,
}

/// Returns the path of the folder in which a file is.
pub(crate) fn folder_of(alloc: Global, path: &str) -> Result<String, AllocError> {
    match path.rsplit_once('/') {
        Some(("", _)) => String::from_str(alloc, "/"),
        Some((folder, _)) => String::from_str(alloc, folder),
        None => String::from_str(alloc, "."),
    }
}

/// A file for scratch. The meter counts what is read of it.
#[derive(Drop)]
pub(crate) struct ScratchFile<'a, F, S, T> {
    file: F,
    clock: &'a S,
    meter: &'a Meter<T>,
}

impl<F: FileExt, S: Clock, T: Write> FileExt for ScratchFile<'_, F, S, T> {
    fn read_at(&self, piece: &mut [u8], at: u64) -> io::Result<usize> {
        let count = self.file.read_at(piece, at)?;
        self.meter.has_read_again(count, self.clock);
        Ok(count)
    }

    fn write_at(&self, piece: &[u8], at: u64) -> io::Result<usize> {
        self.file.write_at(piece, at)
    }
}

impl<'a, S: Files + Clock, T: Write> ScratchFolder for ScratchPlace<'a, S, T>
where
    S::File: FileExt,
{
    type File = ScratchFile<'a, S::File, S, T>;

    fn create(&self) -> io::Result<ScratchFile<'a, S::File, S, T>> {
        let folder = self.folder.as_str();
        let mut options = OpenOptions::new();
        options
            .read(true)
            .write(true)
            .create_new(true)
            .mode(PRIVATE_MODE);
        for number in 0..NAMES {
            let path = format!(in self.alloc; "{folder}/.hprof-scratch-{number}")?;
            match options.open(self.system, path.as_str()) {
                Ok(file) => {
                    fs::remove_file(self.system, path.as_str())?;
                    return Ok(ScratchFile {
                        file,
                        clock: self.system,
                        meter: self.meter,
                    });
                }
                Err(error) if error.kind() == ErrorKind::AlreadyExists => {}
                Err(error) => return Err(error),
            }
        }
        Err(io::Error::from(ErrorKind::AlreadyExists))
    }
}
