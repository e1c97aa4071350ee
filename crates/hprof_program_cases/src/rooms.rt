//! The memory that joins and reports take.

use crate::expecting::{equal, equal_at};
use crate::pushes::TALLY;
use crate::samples::readers_of;
use hprof_devices::Device;
use hprof_engine::{Joined, ToolFault, join_to};
use hprof_fixtures::{HEADER, NAME_1_A, NAME_1_B, bytes_of, record};
use hprof_heap::Key;
use hprof_stream::Limits;
use hprof_tool::check_to;
use std::alloc::{AllocError, Global};
use std::fs;
use std::test::Fail;

/// Returns the number of bytes of the process's address space.
fn size(rt: &HostRuntime) -> Result<u64, Fail> {
    let text = fs::read_to_string(rt, "/proc/self/statm")?;
    let pages = text.split_whitespace().next().ok_or("no size")?;
    let pages = pages.parse::<u64>().ok().ok_or("no number")?;
    Ok(pages.saturating_mul(4_096))
}

/// Returns the largest size of the process's address space so far, in kilobytes.
fn peak(rt: &HostRuntime) -> Result<u64, Fail> {
    let text = fs::read_to_string(rt, "/proc/self/status")?;
    let mut words = text.split_whitespace();
    for word in words.by_ref() {
        if word == "VmPeak:" {
            break;
        }
    }
    let number = words.next().ok_or("no peak")?;
    Ok(number.parse::<u64>().ok().ok_or("no number")?)
}

/// Returns a part of 100 arrays of 10,000 bytes.
fn large_part(alloc: Global) -> Result<Vec<u8>, AllocError> {
    let bytes = vec![in alloc; 7u8; 10_000]?;
    let mut arrays = Vec::new(alloc);
    for id in 0..100u8 {
        arrays.extend_from_slice(&[0x23, 0, 0, 1, id, 0, 0, 0, 1, 0, 0, 0x27, 0x10, 8])?;
        arrays.extend_from_slice(&bytes)?;
    }
    let segment = record(alloc, 0x1c, &arrays)?;
    bytes_of(alloc, &[HEADER, &segment])
}

/// Returns the result of joining the parts into a writer that discards everything.
fn join(alloc: Global, parts: &[&[u8]]) -> Result<Result<Joined, ToolFault>, AllocError> {
    let mut readers = readers_of(alloc, parts)?;
    let mut target = Device::new(TALLY);
    Ok(join_to(alloc, &mut readers, &mut target, Limits::usual()))
}

/// Returns the result of reporting on the parts into such a writer.
fn check(alloc: Global, parts: &[&[u8]]) -> Result<Result<(), ToolFault>, AllocError> {
    let mut readers = readers_of(alloc, parts)?;
    let mut target = Device::new(TALLY);
    Ok(check_to(alloc, &mut readers, &mut target, Limits::usual()))
}

/// The number of bytes by which the process may grow: fewer than a heap of the large part has.
const MOST: u64 = 500_000;

#[test]
fn joins_and_reports_give_their_room_back(rt: HostRuntime) -> Result<(), Fail> {
    let part = large_part(rt.alloc())?;
    let joined = Ok(Joined {
        parts: 1,
        facts: 100,
    });
    let mut before = 0;
    for turn in 0..41 {
        let found = (join(rt.alloc(), &[&part])?, check(rt.alloc(), &[&part])?);
        equal(&rt, found, (joined, Ok(())));
        if turn == 0 {
            before = size(&rt)?;
        }
    }
    let grown = size(&rt)?.saturating_sub(before);
    equal_at(&rt, grown, grown < MOST, true);
    Ok(())
}

/// Returns whether the part is refused together with a second one that is cut.
fn is_refused(alloc: Global, part: &[u8]) -> Result<bool, AllocError> {
    Ok(join(alloc, &[part, &HEADER[..20]])?.is_err())
}

#[test]
fn refused_joins_give_their_room_back(rt: HostRuntime) -> Result<(), Fail> {
    let part = large_part(rt.alloc())?;
    let one = bytes_of(rt.alloc(), &[&part, NAME_1_A])?;
    let other = bytes_of(rt.alloc(), &[HEADER, NAME_1_B])?;
    let mut before = 0;
    for turn in 0..21 {
        let conflict = join(rt.alloc(), &[&one, &other])?;
        let expected = Err(ToolFault::Conflict(Key::Name(1)));
        equal(
            &rt,
            (conflict, is_refused(rt.alloc(), &part)?),
            (expected, true),
        );
        if turn == 0 {
            before = size(&rt)?;
        }
    }
    let grown = size(&rt)?.saturating_sub(before);
    equal_at(&rt, grown, grown < MOST, true);
    Ok(())
}

#[test]
fn no_room_for_the_longest_item(rt: HostRuntime) -> Result<(), Fail> {
    let part = bytes_of(rt.alloc(), &[HEADER, NAME_1_A])?;
    let found = (join(rt.alloc(), &[&part])?, check(rt.alloc(), &[&part])?);
    equal(&rt, found, (Ok(Joined { parts: 1, facts: 1 }), Ok(())));
    // The longest item has nearly 4,194,304 thousands.
    let most = peak(&rt)?;
    equal_at(&rt, most, most < 1_000_000, true);
    Ok(())
}
