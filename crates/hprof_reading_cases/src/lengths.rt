//! Items that declare a great length and have few bytes, and long items: by how much the process grows, and how long they take.

ghost use Rattle.std.specs.Prelude.{◌<◌};

use crate::expecting::{equal, equal_at};
use crate::samples::{HEADER, Seen, feed_in};
use hprof_fixtures::PLAIN;
use hprof_items::Reason;
use hprof_stream::{Limits, PartFault, PartReader, PartSummary};
use std::alloc::{AllocError, Global};
use std::fs;
use std::process::Abort;
use std::test::*;

// A header, the head of a name that declares 4,294,967,295 bytes, and nine of them.
const NAME: &[u8; 49] =
    b"JAVA PROFILE 1.0.2\0\0\0\0\x04\0\0\0\0\0\0\0\x01\x01\0\0\0\0\xff\xff\xff\xff\0\0\0\x01AAAAA";

// A header, the head of a segment that declares as many, and in it an array that declares 4,294,967,040, and six of them.
const ARRAY: &[u8; 60] =
    b"JAVA PROFILE 1.0.2\0\0\0\0\x04\0\0\0\0\0\0\0\x01\x1c\0\0\0\0\xff\xff\xff\xff\
    \x23\0\0\0\x10\0\0\0\x01\xff\xff\xff\0\x08\0\0\0\0\0\0";

// A header, the head of a segment that declares as many, and in it a class that declares 65,535 constants, and one of them.
const CLASS: &[u8; 83] =
    b"JAVA PROFILE 1.0.2\0\0\0\0\x04\0\0\0\0\0\0\0\x01\x1c\0\0\0\0\xff\xff\xff\xff\
    \x20\0\0\0\x10\0\0\0\x01\0\0\0\0\0\0\0\0\0\0\0\0\0\0\0\0\0\0\0\0\0\0\0\0\0\0\0\0\
    \xff\xff\0\x01\x08\x05";

// A reader that was fed those bytes in pieces, of which so many are held.
fn declared(rt: &impl Abort, alloc: Global, bytes: &[u8], len: usize, held: usize) -> PartReader
    requires { 0 < len }
{
    let mut sink = Seen::new(alloc, 0);
    let mut reader = PartReader::new(alloc, Limits::usual());
    let fed = feed_in(&mut reader, bytes, len, &mut sink);
    equal_at(rt, len, (fed.is_ok(), reader.buffered()), (true, held));
    reader
}

// Many more readers of those bytes, each with the offset at which they are cut short.
fn add(
    rt: &impl Abort,
    alloc: Global,
    readers: &mut Vec<(PartReader, u64)>,
    bytes: &[u8],
    held: usize,
    at: u64,
) -> Result<(), AllocError> {
    for _ in 0..20_000 {
        for len in [60, 7] {
            readers.push((declared(rt, alloc, bytes, len, held), at))?;
        }
    }
    Ok(())
}

// Each answers that its bytes are cut short.
fn finish(rt: &impl Abort, readers: Vec<(PartReader, u64)>) {
    for (reader, at) in readers {
        let truncated = PartFault::Malformed {
            at,
            reason: Reason::Truncated,
        };
        equal(rt, reader.finish(), Err(truncated));
    }
}

// How many bytes of addresses the process has.
fn size(rt: &HostRuntime) -> Result<u64, Fail> {
    let text = fs::read_to_string(rt, "/proc/self/statm")?;
    let pages = text.split_whitespace().next().ok_or("no size")?;
    let pages = pages.parse::<u64>().ok().ok_or("no number")?;
    Ok(pages.saturating_mul(4_096))
}

#[test]
fn a_declared_length_asks_for_no_memory(rt: HostRuntime) -> Result<(), Fail> {
    let mut readers = Vec::with_capacity(rt.alloc(), 120_000)?;
    // What they declare adds up to more than memory can hold.
    for (bytes, held, at) in [
        (NAME.as_slice(), 18, 31),
        (ARRAY.as_slice(), 20, 40),
        (CLASS.as_slice(), 43, 40),
    ] {
        let before = size(&rt)?;
        add(&rt, rt.alloc(), &mut readers, bytes, held, at)?;
        // Each has room for a few times what came, and no more: 112 bytes, with what is added to a block.
        let grown = size(&rt)?.saturating_sub(before);
        assert!(rt; grown <= 4_480_000, "{grown}");
    }
    finish(&rt, readers);
    Ok(())
}

// Appends so many of the same entry behind their number.
fn append(class: &mut Vec<u8>, count: u16, entry: &[u8]) -> Result<(), AllocError> {
    class.extend_from_slice(&count.to_be_bytes())?;
    for _ in 0..count {
        class.extend_from_slice(entry)?;
    }
    Ok(())
}

// The head of a segment, and in it a class with as many entries of each kind as it can have.
fn greatest_class(alloc: Global) -> Result<Vec<u8>, AllocError> {
    let front =
        b"\x1c\0\0\0\0\0\x0f\0\x1c\x20\0\0\0\x10\0\0\0\x01\0\0\0\0\0\0\0\0\0\0\0\0\0\0\0\0\0\0\0\0\0\0\0\0\0\0\0\0";
    let mut class = Vec::from_slice(alloc, front)?;
    append(&mut class, u16::MAX, b"\0\x01\x08\x05")?;
    append(&mut class, u16::MAX, b"\0\0\0\x02\x08\x05")?;
    append(&mut class, u16::MAX, b"\0\0\0\x03\x08")?;
    Ok(class)
}

// Walked from its front again at each byte, it would take hours.
#[test]
fn a_class_is_walked_on_from_where_it_was_cut(rt: HostRuntime) -> Result<(), Fail> {
    let class = greatest_class(rt.alloc())?;
    let mut sink = Seen::new(rt.alloc(), 1);
    let mut reader = PartReader::new(rt.alloc(), Limits::usual());
    let header = feed_in(&mut reader, &PLAIN[..31], 31, &mut sink);
    let fed = feed_in(&mut reader, &class, 1, &mut sink);
    equal(
        &rt,
        (class.len(), header, fed),
        (983_077, Ok(0), Ok(983_067)),
    );
    equal(&rt, sink.numbers.as_slice(), [16].as_slice());
    Ok(())
}

// The length of a body that is passed over: 64 MB.
const LEN: usize = 67_108_864;

// The most by which the process may grow.
const FEW: u64 = 2_097_152;

// The body. It stands in a function of its own, since the prover would look at each of its bytes in the test.
fn long_body(alloc: Global) -> Result<Vec<u8>, Fail> {
    Ok(vec![in alloc; 0u8; LEN]?)
}

// By how much the process grows over a header and a record with that body, which comes in pieces of that length; the most
// bytes that are held of the record; and what was read.
fn feed_long(rt: &HostRuntime, body: &[u8], len: usize) -> Result<(u64, usize, PartSummary), Fail>
    requires { 0 < len }
{
    let before = size(rt)?;
    let mut sink = Seen::new(rt.alloc(), 0);
    let mut reader = PartReader::new(rt.alloc(), Limits::usual());
    feed_in(&mut reader, &PLAIN[..31], 31, &mut sink)?;
    feed_in(&mut reader, b"\x7f\0\0\0\0\x04\0\0\0", 9, &mut sink)?;
    let held = feed_in(&mut reader, body, len, &mut sink)?;
    let grown = size(rt)?.saturating_sub(before);
    Ok((grown, held, reader.finish()?))
}

#[test]
fn nothing_is_held_of_a_long_record(rt: HostRuntime) -> Result<(), Fail> {
    let body = long_body(rt.alloc())?;
    let want = PartSummary {
        header: HEADER,
        records: 1,
        facts: 0,
        ended: false,
    };
    let (grown, held, summary) = feed_long(&rt, &body, LEN)?;
    equal_at(&rt, grown, (grown <= FEW, held, summary), (true, 0, want));
    let (grown, held, summary) = feed_long(&rt, &body, 65_536)?;
    equal_at(&rt, grown, (grown <= FEW, held, summary), (true, 0, want));
    Ok(())
}
