//! Sizes and amounts of memory as text, and scratch in files of one byte.

ghost use Rattle.std.specs.Prelude.{◌≡◌};
ghost use Rattle.hprof_devices.specs.declared.health.Health.TheVariants.{Well};
ghost use Rattle.hprof_runs.specs.ReadBack.{HoldsNothing};

use crate::late_scratch::LateScratch;
use crate::memory::{available_of, limit_of, memory_for_objects};
use crate::scratch_folder::ScratchFolder;
use crate::size::parse_size;
use hprof_devices::{Target, WriteFault};
use hprof_runs::Scratch;
use std::cell::Cell;
use std::io;
use std::io::ErrorKind;
use std::os::unix::fs::FileExt;
use std::test::*;

#[test]
fn sizes(rt: HostRuntime) {
    let cases = [
        ("0", Some(0)),
        ("1k", Some(1024)),
        ("512M", Some(512 << 20)),
        ("8g", Some(8 << 30)),
        ("18446744073709551615", Some(u64::MAX)),
        ("18446744073709551616", None),
        ("16777216T", None),
        ("", None),
        ("M", None),
        ("+5", None),
        ("5 M", None),
    ];
    for (text, bytes) in cases {
        assert_eq!(rt; parse_size(text), bytes, "{text}");
    }
}

#[test]
fn memory(rt: HostRuntime) {
    let meminfo =
        "MemTotal:       16318032 kB\nMemAvailable:   12345 kB\nBuffers:          508 kB\n";
    assert_eq!(rt; available_of(meminfo), Some(12345 * 1024));
    assert_eq!(rt; available_of("MemTotal:       16318032 kB\n"), None);
    assert_eq!(rt; limit_of("1073741824\n"), Some(1 << 30));
    assert_eq!(rt; limit_of("max\n"), None);
    assert_eq!(rt; memory_for_objects(Some(400), Some(800)), 100);
    assert_eq!(rt; memory_for_objects(Some(400), None), 100);
    assert_eq!(rt; memory_for_objects(None, Some(800)), 200);
    assert_eq!(rt; memory_for_objects(None, None), 256 << 20);
}

/// A file of one byte.
#[derive(Drop)]
struct ByteFile {
    byte: Cell<u8>,
}

impl FileExt for ByteFile {
    fn read_at(&self, buf: &mut [u8], offset: u64) -> io::Result<usize> {
        match buf.first_mut() {
            Some(byte) if offset == 0 => {
                *byte = self.byte.get();
                Ok(1)
            }
            _ => Ok(0),
        }
    }

    fn write_at(&self, buf: &[u8], _offset: u64) -> io::Result<usize> {
        match buf.first() {
            Some(byte) => {
                self.byte.set(*byte);
                Ok(1)
            }
            None => Ok(0),
        }
    }
}

/// A folder that has room for a file or not.
#[derive(Drop)]
struct Folder {
    has_room: bool,
    /// The number of times that a file was asked for.
    tries: Cell<u64>,
}

impl ScratchFolder for Folder {
    type File = ByteFile;

    fn create(&self) -> io::Result<ByteFile> {
        self.tries.update(|tries| tries.saturating_add(1));
        if self.has_room {
            Ok(ByteFile { byte: Cell::new(0) })
        } else {
            Err(ErrorKind::StorageFull.into())
        }
    }
}

/// Pushes a piece to empty scratch, and returns the front of what is read back.
fn pushed_and_read<S: Scratch>(scratch: &mut S, piece: &[u8]) -> Option<u8>
    requires nothing { HoldsNothing (S.written scratch.old) }
    requires well { S.health scratch.old ≡ Well }
{
    scratch.push(piece).ok()?;
    let mut front = [0u8; 1];
    match scratch.read_back(0, &mut front) {
        Ok(1) => Some(front[0]),
        _ => None,
    }
}

#[test]
fn the_file_is_created_for_the_first_byte(rt: HostRuntime) {
    let folder = Folder {
        has_room: true,
        tries: Cell::new(0),
    };
    let mut scratch = LateScratch::new(&folder);
    assert_eq!(rt; pushed_and_read(&mut scratch, b""), None);
    assert_eq!(rt; folder.tries.get(), 0);
    let mut scratch = LateScratch::new(&folder);
    assert_eq!(rt; pushed_and_read(&mut scratch, b"7"), Some(b'7'));
    assert_eq!(rt; folder.tries.get(), 1);
}

#[test]
fn a_file_that_is_refused_is_tried_once(rt: HostRuntime) {
    let folder = Folder {
        has_room: false,
        tries: Cell::new(0),
    };
    let mut scratch = LateScratch::new(&folder);
    assert!(rt; matches!(scratch.push(b"7"), Err(WriteFault::Failed)));
    assert!(rt; scratch.was_refused());
    assert!(rt; matches!(scratch.push(b"7"), Err(WriteFault::Failed)));
    assert_eq!(rt; folder.tries.get(), 1);
    let mut piece = [0u8; 1];
    assert!(rt; matches!(scratch.read_back(0, &mut piece), Ok(0)));
}
