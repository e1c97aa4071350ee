//! The memory that rows take.

use crate::expecting::equal;
use crate::samples::{begun, state_all};
use hprof_heap::{Gatherer, Heap};
use hprof_items::{Fact, IdSize};
use hprof_values::{IdList, Root};
use std::alloc::Global;
use std::fs;
use std::process::Abort;
use std::test::*;

// How many bytes of addresses the process has.
fn size(rt: &HostRuntime) -> Result<u64, Fail> {
    let text = fs::read_to_string(rt, "/proc/self/statm")?;
    let pages = text.split_whitespace().next().ok_or("no size")?;
    let pages = pages.parse::<u64>().ok().ok_or("no number")?;
    Ok(pages.saturating_mul(4_096))
}

// A gatherer that was given so many stacks, all of these bytes.
fn traces_of(rt: &impl Abort, alloc: Global, count: u32, bytes: &[u8]) -> Result<Gatherer, Fail> {
    let ids = IdSize::Four;
    let mut gatherer = begun(alloc, ids, 1)?;
    for serial in 0..count {
        let frames = IdList::new(bytes, ids).ok_or("no list")?;
        let trace = Fact::Trace {
            serial,
            thread: 1,
            frames,
        };
        state_all(rt, alloc, &mut gatherer, ids, &[trace])?;
    }
    Ok(gatherer)
}

// Room for rows grows twofold. So the process grows by twice their 20,224,000 bytes at most, and a hundredth of them; by twice as much
// where they are joined to a heap that has none of them, since glibc keeps the blocks that became too small.
#[test]
fn rows_have_room_twice(rt: HostRuntime) -> Result<(), Fail> {
    let bytes = vec![in rt.alloc(); 0; 79_000]?;
    let before = size(&rt)?;
    let other = traces_of(&rt, rt.alloc(), 256, &bytes)?.finish()?;
    let grown = size(&rt)?.saturating_sub(before);
    assert!(rt; grown <= 40_650_240, "{grown}");
    let mut heap = begun(rt.alloc(), IdSize::Four, 1)?.finish()?;
    let before = size(&rt)?;
    heap.join(&other)?;
    let grown = size(&rt)?.saturating_sub(before);
    assert!(rt; grown <= 81_300_480, "{grown}");
    equal(&rt, (other.count(), heap.count()), (256, 256));
    Ok(())
}

// A stack of two frames takes 29 bytes, for which the table may have room twice.
#[test]
fn rows_of_small_stacks_are_small(rt: HostRuntime) -> Result<(), Fail> {
    let before = size(&rt)?;
    let heap = traces_of(&rt, rt.alloc(), 100_000, &[0; 8])?.finish()?;
    let grown = size(&rt)?.saturating_sub(before);
    equal(&rt, heap.count(), 100_000);
    assert!(rt; grown <= 6_500_000, "{grown}");
    Ok(())
}

// A heap that was given so many roots, from that one on.
fn roots_from(rt: &impl Abort, alloc: Global, first: u64, count: u64) -> Result<Heap, Fail> {
    let ids = IdSize::Eight;
    let mut gatherer = begun(alloc, ids, 1)?;
    for number in 0..count {
        let root = Root::Sticky {
            id: first.wrapping_add(number),
        };
        state_all(rt, alloc, &mut gatherer, ids, &[Fact::Root(root)])?;
    }
    Ok(gatherer.finish()?)
}

// Joins the heap with one of this root.
fn join_root(rt: &impl Abort, alloc: Global, heap: &mut Heap, id: u64) -> Result<(), Fail> {
    let other = roots_from(rt, alloc, id, 1)?;
    equal(rt, heap.join(&other), Ok(()));
    Ok(())
}

// Each join makes a new set of 1,000 roots and more, and the old one is given back.
#[test]
fn joins_give_roots_back(rt: HostRuntime) -> Result<(), Fail> {
    let mut heap = roots_from(&rt, rt.alloc(), 0, 1_000)?;
    let before = size(&rt)?;
    for number in 0..400u64 {
        join_root(&rt, rt.alloc(), &mut heap, 1_000 + number)?;
    }
    let grown = size(&rt)?.saturating_sub(before);
    equal(&rt, heap.count(), 1_400);
    assert!(rt; grown <= 3_000_000, "{grown}");
    Ok(())
}
