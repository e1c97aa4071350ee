//! Joining heaps.

use crate::expecting::{equal, holds};
use crate::samples::{array, heap_of};
use hprof_heap::{Heap, JoinRefusal, same};
use hprof_items::{Fact, IdSize};
use hprof_values::{Basic, Root};
use std::alloc::Global;
use std::process::Abort;
use std::test::*;

// That the heap is like one of these facts, whichever is asked.
fn check_facts(
    rt: &impl Abort,
    alloc: Global,
    heap: &Heap,
    facts: &[Fact<'_>],
) -> Result<(), Fail> {
    let another = heap_of(rt, alloc, IdSize::Four, facts)?;
    let found = (same(heap, &another), same(&another, heap));
    equal(rt, found, (true, true));
    Ok(())
}

// Joins a heap with another. Where memory is refused it has its time and its facts, and the join is made again.
fn join(rt: &impl Abort, heap: &mut Heap, other: &Heap) -> Result<(), JoinRefusal> {
    let (count, millis) = (heap.count(), heap.millis());
    let joined = heap.join(other);
    if joined != Err(JoinRefusal::OutOfMemory) {
        return joined;
    }
    holds(rt, heap.count() >= count);
    equal(rt, heap.millis(), millis);
    heap.join(other)
}

#[test]
fn a_join_that_is_made_again(rt: HostRuntime) -> Result<(), Fail> {
    let root = Fact::Root(Root::Unknown { id: 1 });
    let sticky = Fact::Root(Root::Sticky { id: 1 });
    let bytes = array(1, Basic::Byte, b"abcd");
    let ints = array(2, Basic::Int, b"abcd");
    let name = Fact::Name { id: 1, text: b"A" };
    let (unload, end) = (Fact::Unload { serial: 1 }, Fact::End { thread: 1 });
    let mut heap = heap_of(&rt, rt.alloc(), IdSize::Four, &[name, end, root, ints])?;
    let other = heap_of(
        &rt,
        rt.alloc(),
        IdSize::Four,
        &[unload, root, sticky, bytes],
    )?;
    equal(&rt, join(&rt, &mut heap, &other), Ok(()));
    let facts = [name, unload, end, root, sticky, bytes, ints];
    check_facts(&rt, rt.alloc(), &heap, &facts)
}
