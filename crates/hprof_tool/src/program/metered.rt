//! Files and writers round a progress meter. What is read and written is what the file or the writer itself would give and take.

use crate::program::folder::Folder;
use crate::program::meter::{Meter, Part};
use crate::program::part_file::{PartFile, regular_length};
use crate::program::refused::Refused;
use crate::program::scratch_place::{ScratchPlace, folder_of};
use crate::program::writing::BUFFER_LEN;
use crate::storage::Storage;
use hprof_command::OutName;
use hprof_devices::{Device, ReadFault, Source};
use hprof_handles::{ReadAt, SharedFile};
use hprof_objects::Keeping;
use hprof_scratch::LateScratch;
use std::alloc::{AllocError, Global};
use std::fs::{File, OpenOptions};
use std::io::{BufWriter, ErrorKind, Read, Write};
use std::os::unix::fs::{FileExt, OpenOptionsExt};
use std::rt::{Clock, Files};
use std::{fs, io};

/// The files of the system, with a meter for those that are parts.
#[derive(Drop)]
pub(crate) struct Metered<'a, S, T> {
    pub(crate) alloc: Global,
    pub(crate) system: &'a S,
    pub(crate) meter: &'a Meter<T>,
    pub(crate) storage: Storage<'a>,
}

/// A part in a file. The meter counts what is read of it.
#[derive(Drop)]
pub(crate) struct MeteredPart<'a, F, S, T> {
    device: Device<PartFile<F>>,
    /// What reads the part again, if it is a regular file.
    again: Option<SharedFile<F>>,
    /// The length of the file in bytes when it was opened. It is 0 if it is no regular file.
    length: u64,
    clock: &'a S,
    meter: &'a Meter<T>,
    /// The part, if the meter counts it.
    part: Option<Part>,
}

impl<F: Read + FileExt, S: Clock, T: Write> Source for MeteredPart<'_, F, S, T> {
    ghost use Rattle.std.specs.Prelude.{None};
    ghost use Rattle.hprof_devices.specs.Device.{health_of, pulls_of};

    ghost left = { λ _. None };

    ghost health = { λ it. health_of it.device };

    ghost pulls = { λ it. pulls_of it.device };

    fn pull(&mut self, piece: &mut [u8]) -> Result<usize, ReadFault> {
        let count = self.device.pull(piece)?;
        if let Some(part) = &mut self.part {
            self.meter.has_read(part, count, self.clock);
        }
        Ok(count)
    }
}

/// The standard input, which is read once.
#[derive(Drop)]
pub(crate) struct StandardInput<I> {
    pub(crate) device: Device<I>,
}

impl<I: Read> Source for StandardInput<I> {
    ghost use Rattle.std.specs.Prelude.{None};
    ghost use Rattle.hprof_devices.specs.Device.{health_of, pulls_of};

    ghost left = { λ _. None };

    ghost health = { λ it. health_of it.device };

    ghost pulls = { λ it. pulls_of it.device };

    fn pull(&mut self, piece: &mut [u8]) -> Result<usize, ReadFault> {
        self.device.pull(piece)
    }
}

/// What reads a part again. The meter counts what is read.
#[derive(Drop)]
pub(crate) struct MeteredHandle<'a, F, S, T> {
    /// The file of the part, if it is a regular one. Another is read once.
    file: Option<SharedFile<F>>,
    clock: &'a S,
    meter: &'a Meter<T>,
}

impl<F: FileExt, S: Clock, T: Write> ReadAt for MeteredHandle<'_, F, S, T> {
    ghost use Rattle.std.specs.Prelude.{None};

    ghost bytes = { λ _. None };

    fn read_at(&self, piece: &mut [u8], at: u64) -> io::Result<usize> {
        let Some(file) = &self.file else {
            return Err(io::Error::from(ErrorKind::Unsupported));
        };
        let count = file.read_at(piece, at)?;
        self.meter.has_read_again(count, self.clock);
        Ok(count)
    }
}

/// Returns whether one of the parts is read once.
fn any_is_read_once<F, S, T>(parts: &[MeteredPart<'_, F, S, T>]) -> bool {
    parts.iter().any(|part| part.again.is_none())
}

/// The most stretches of all parts that stay in their part, if there are so many parts or fewer. While objects are gone through, each takes
/// half a mebibyte.
const MOST_STRETCHES: usize = 256;

/// Returns the most stretches of each of so many parts that stay in it, which are at most `most`.
fn stretches_of_each(parts: usize, most: usize) -> usize {
    match MOST_STRETCHES.checked_div(parts) {
        Some(each) => each.max(1).min(most),
        None => most,
    }
}

/// The permissions of a new file: its owner reads and writes it, and no one else does, since a heap may hold secrets.
pub(crate) const PRIVATE_MODE: u32 = 0o600;

/// Creates a new file, if there is none.
fn create_private<S: Files>(system: &S, name: &str) -> io::Result<S::File> {
    let mut options = OpenOptions::new();
    options.write(true).create_new(true).mode(PRIVATE_MODE);
    options.open(system, name)
}

impl<'a, S: Files + Clock, T: Write + Drop> Folder for Metered<'a, S, T>
where
    S::File: FileExt,
{
    ghost use Rattle.hprof_tool.specs.Folder.{nothing_told};

    type Part = MeteredPart<'a, S::File, S, T>;

    type Handle = MeteredHandle<'a, S::File, S, T>;

    type Scratch = LateScratch<ScratchPlace<'a, S, T>>;

    type Out = S::File;

    ghost answered = { λ _. nothing_told };

    fn open_part(&self, name: &str) -> io::Result<MeteredPart<'a, S::File, S, T>> {
        let file = File::open(self.system, name)?;
        let part = self.meter.opened(&file);
        let length = regular_length(&file);
        let file = PartFile::new(self.alloc, file, length > 0);
        let again = file.share();
        Ok(MeteredPart {
            device: Device::new(file),
            again,
            length,
            clock: self.system,
            meter: self.meter,
            part,
        })
    }

    fn handle(
        &self,
        part: &MeteredPart<'a, S::File, S, T>,
    ) -> Result<MeteredHandle<'a, S::File, S, T>, AllocError> {
        let file = match &part.again {
            Some(file) => Some(file.share()?),
            None => None,
        };
        Ok(MeteredHandle {
            file,
            clock: self.system,
            meter: self.meter,
        })
    }

    fn are_long(&self, parts: &[MeteredPart<'a, S::File, S, T>]) -> bool {
        if any_is_read_once(parts) {
            // It may be of any length.
            return true;
        }
        let mut bytes = 0u64;
        for part in parts {
            bytes = bytes.saturating_add(part.length);
        }
        bytes > self.storage.memory
    }

    fn keeping(&self, parts: &[MeteredPart<'a, S::File, S, T>]) -> Keeping {
        if any_is_read_once(parts) {
            return self.keeping_once();
        }
        let usual = Keeping::usual(self.storage.memory);
        Keeping {
            stretches: stretches_of_each(parts.len(), usual.stretches),
            ..usual
        }
    }

    fn keeping_once(&self) -> Keeping {
        Keeping {
            stretches: 0,
            ..Keeping::usual(self.storage.memory)
        }
    }

    fn scratch(
        &self,
        alloc: Global,
        out: Option<&str>,
    ) -> Result<LateScratch<ScratchPlace<'a, S, T>>, AllocError> {
        let folder = match out {
            Some(name) => folder_of(alloc, name)?,
            None => String::from_str(alloc, self.storage.folder)?,
        };
        Ok(LateScratch::new(ScratchPlace {
            alloc,
            system: self.system,
            meter: self.meter,
            folder,
        }))
    }

    fn create_out(&self, alloc: Global, out: OutName<'_>) -> Result<BufWriter<S::File>, Refused> {
        let name = out.as_str();
        let Ok(file) = create_private(self.system, name) else {
            return Err(Refused::Create);
        };
        match BufWriter::with_capacity(alloc, BUFFER_LEN, file) {
            Ok(buffered) => Ok(buffered),
            Err(_) => {
                let _ = fs::remove_file(self.system, name);
                Err(Refused::OutOfMemory)
            }
        }
    }

    fn leave_out(&self, _out: OutName<'_>) {}

    fn remove_out(&self, name: &str, file: S::File) {
        drop(file);
        let _ = fs::remove_file(self.system, name);
    }
}

/// A writer. The meter's line goes before a byte is written.
#[derive(Drop)]
pub(crate) struct Clearing<'a, W, T> {
    pub(crate) meter: &'a Meter<T>,
    pub(crate) writer: W,
}

impl<W: Write, T: Write> Write for Clearing<'_, W, T> {
    ghost contents = { λ it. W.contents it.writer };

    fn write(&mut self, bytes: &[u8]) -> io::Result<usize> {
        self.meter.clear();
        self.writer.write(bytes)
    }

    fn flush(&mut self) -> io::Result<()> {
        self.writer.flush()
    }

    fn write_all(&mut self, bytes: &[u8]) -> io::Result<()> {
        self.meter.clear();
        self.writer.write_all(bytes)
    }
}
