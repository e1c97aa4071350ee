//! The number of writes of a dump and of a report.

use crate::expecting::{equal, equal_at};
use hprof_devices::{Device, WriteFault};
use hprof_engine::{ToolFault, join_to};
use hprof_fixtures::{END, HEADER, PLAIN, bytes_of};
use hprof_stream::Limits;
use hprof_tool::check_to;
use std::alloc::{AllocError, Global};
use std::io;
use std::io::{ErrorKind, Write};
use std::test::Fail;

/// A writer that takes all bytes, and counts its writes, including empty ones, and its flushes. One write may fail.
#[derive(Clone, Copy, Debug, Drop)]
pub(crate) struct Tally {
    pub(crate) writes: u32,
    pub(crate) flushes: u32,
    /// The length of the longest write.
    pub(crate) longest: usize,
    /// The number of the write that fails, counted from 1. With 0 none fails.
    pub(crate) failing_write: u32,
}

/// A writer that does not fail.
pub(crate) const TALLY: Tally = Tally {
    writes: 0,
    flushes: 0,
    longest: 0,
    failing_write: 0,
};

impl Write for Tally {
    fn write(&mut self, bytes: &[u8]) -> io::Result<usize> {
        self.writes = self.writes.saturating_add(1);
        if self.writes == self.failing_write {
            return Err(io::Error::from(ErrorKind::Other));
        }
        self.longest = self.longest.max(bytes.len());
        Ok(bytes.len())
    }

    fn flush(&mut self) -> io::Result<()> {
        self.flushes = self.flushes.saturating_add(1);
        Ok(())
    }
}

/// The product of a part.
#[derive(Clone, Copy, Debug)]
enum Made {
    Dump,
    Report,
}

/// Makes a product of a part with the writer, and returns the answer and the writer.
fn tallied(alloc: Global, made: Made, part: &[u8], tally: Tally) -> (Result<(), ToolFault>, Tally) {
    let mut target = Device::new(tally);
    let mut readers = [Device::new(part)];
    let limits = Limits::usual();
    let answer = match made {
        Made::Dump => join_to(alloc, &mut readers, &mut target, limits).map(|_| ()),
        Made::Report => check_to(alloc, &mut readers, &mut target, limits),
    };
    (answer, target.into_inner())
}

#[test]
fn nothing_is_pushed_behind_a_fault(rt: HostRuntime) -> Result<(), Fail> {
    for made in [Made::Dump, Made::Report] {
        let (answer, whole) = tallied(rt.alloc(), made, PLAIN, TALLY);
        let found = (answer, whole.flushes, whole.writes > 1);
        equal_at(&rt, made, found, (Ok(()), 0, true));
        for number in 1..=whole.writes {
            let tally = Tally {
                failing_write: number,
                ..TALLY
            };
            let (answer, tally) = tallied(rt.alloc(), made, PLAIN, tally);
            let expected = (Err(ToolFault::Write(WriteFault::Failed)), number, 0);
            equal_at(&rt, made, (answer, tally.writes, tally.flushes), expected);
        }
    }
    Ok(())
}

/// Returns a canonical dump of three names of 30,000 bytes.
fn long_dump(alloc: Global) -> Result<Vec<u8>, AllocError> {
    let text = vec![in alloc; b'n'; 30_000]?;
    let mut dump = bytes_of(alloc, &[HEADER])?;
    for id in 1..4u8 {
        dump.extend_from_slice(&[1, 0, 0, 0, 0, 0, 0, 0x75, 0x34, 0, 0, 0, id])?;
        dump.extend_from_slice(&text)?;
    }
    dump.extend_from_slice(END)?;
    Ok(dump)
}

#[test]
fn pieces_are_pushed_whole(rt: HostRuntime) -> Result<(), Fail> {
    let dump = long_dump(rt.alloc())?;
    let (answer, tally) = tallied(rt.alloc(), Made::Dump, &dump, TALLY);
    // A header, the fronts of three names with their bytes, and an end.
    equal(
        &rt,
        (answer, tally.writes, tally.longest),
        (Ok(()), 8, 30_000),
    );
    let (answer, tally) = tallied(rt.alloc(), Made::Report, PLAIN, TALLY);
    // The lines have 37 words, behind each of which stands a space or a line feed.
    equal_at(&rt, tally, (answer, tally.writes <= 74), (Ok(()), true));
    Ok(())
}
