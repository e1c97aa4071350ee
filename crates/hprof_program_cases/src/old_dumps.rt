//! The 1.0.1 dump of a heap, with a limit for its sub-records.

use crate::expecting::equal_at;
use crate::samples::readers_of;
use hprof_devices::Device;
use hprof_dump::{DumpFault, write_v101};
use hprof_engine::{NoSummaries, read_heap};
use hprof_fixtures::{HEADER, NAME_1_A, PLAIN, PLAIN_101, bytes_of, record};
use hprof_heap::{Gatherer, Heap};
use hprof_stream::Limits;
use std::alloc::Global;
use std::io;
use std::io::Write;
use std::process::Abort;
use std::test::Fail;

/// The header of version 1.0.1 with identifiers of four bytes and time 1.
const OLD_HEADER: &[u8] = b"JAVA PROFILE 1.0.1\0\0\0\0\x04\0\0\0\0\0\0\0\x01";

/// Both with identifiers of eight bytes.
const WIDE_HEADER: &[u8] = b"JAVA PROFILE 1.0.2\0\0\0\0\x08\0\0\0\0\0\0\0\x01";

const OLD_WIDE_HEADER: &[u8] = b"JAVA PROFILE 1.0.1\0\0\0\0\x08\0\0\0\0\0\0\0\x01";

/// A JNI local root with an identifier of eight bytes: 17 bytes.
const WIDE_LOCAL: &[u8] = b"\x02\0\0\0\0\0\0\0\x07\0\0\0\x01\xff\xff\xff\xff";

/// Returns the heap that a part states.
fn heap_of(alloc: Global, part: &[u8]) -> Result<Heap, Fail> {
    let mut readers = readers_of(alloc, &[part])?;
    let gatherer = Gatherer::new(alloc);
    match read_heap(
        alloc,
        &mut readers,
        Limits::usual(),
        gatherer,
        &NoSummaries,
        &mut (),
    ) {
        Ok(heap) => Ok(heap),
        Err(fault) => Err(Fail::from(fault.text(alloc)?)),
    }
}

/// Asserts that this is the 1.0.1 dump of a part if its sub-records may have this many bytes, or, if it is empty, that the dump is too
/// long.
fn expect_dump(
    rt: &impl Abort,
    alloc: Global,
    part: &[u8],
    max_body: u32,
    dump: &[u8],
) -> Result<(), Fail> {
    let mut target = Device::new(Vec::new(alloc));
    let answer = write_v101(&heap_of(alloc, part)?, max_body, &mut target);
    let expected = if dump.is_empty() {
        Err(DumpFault::TooLong)
    } else {
        Ok(())
    };
    let written = target.into_inner();
    equal_at(rt, max_body, (answer, written.as_slice()), (expected, dump));
    Ok(())
}

#[test]
fn dumps_just_within_the_limit_and_beyond_it(rt: HostRuntime) -> Result<(), Fail> {
    let alloc = rt.alloc();
    for max_body in [21, 22, u32::MAX] {
        expect_dump(&rt, alloc, PLAIN, max_body, PLAIN_101)?;
    }
    for max_body in [0, 5, 20] {
        expect_dump(&rt, alloc, PLAIN, max_body, b"")?;
    }
    expect_dump(&rt, alloc, HEADER, 0, OLD_HEADER)?;
    let name = bytes_of(alloc, &[HEADER, NAME_1_A])?;
    let old_name = bytes_of(alloc, &[OLD_HEADER, NAME_1_A])?;
    expect_dump(&rt, alloc, &name, 0, &old_name)
}

#[test]
fn dumps_of_eight_byte_identifiers(rt: HostRuntime) -> Result<(), Fail> {
    let alloc = rt.alloc();
    let segment = record(alloc, 0x1c, WIDE_LOCAL)?;
    let dump = record(alloc, 0x0c, WIDE_LOCAL)?;
    let wide = bytes_of(alloc, &[WIDE_HEADER, &segment])?;
    let old_wide = bytes_of(alloc, &[OLD_WIDE_HEADER, &dump])?;
    expect_dump(&rt, alloc, &wide, 17, &old_wide)?;
    expect_dump(&rt, alloc, &wide, 16, b"")
}

/// A writer that takes nothing.
#[derive(Drop)]
struct Closed;

impl Write for Closed {
    fn write(&mut self, _bytes: &[u8]) -> io::Result<usize> {
        Err(io::Error::from(io::ErrorKind::Other))
    }

    fn flush(&mut self) -> io::Result<()> {
        Ok(())
    }
}

#[test]
fn nothing_is_written_of_a_dump_that_is_too_long(rt: HostRuntime) -> Result<(), Fail> {
    let heap = heap_of(rt.alloc(), PLAIN)?;
    let answer = write_v101(&heap, 20, &mut Device::new(Closed));
    equal_at(&rt, 20, answer, Err(DumpFault::TooLong));
    Ok(())
}
