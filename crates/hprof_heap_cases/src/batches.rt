//! Batches of sub-records.

use crate::expecting::{equal, holds};
use crate::samples::{array, heap_of};
use hprof_devices::Device;
use hprof_dump::Batch;
use hprof_fixtures::Counting;
use hprof_heap::Heap;
use hprof_items::{Fact, IdSize};
use hprof_values::{Basic, Root};
use std::alloc::Global;
use std::process::Abort;
use std::test::*;

// What is counted of a batch that takes the first three sub-records of a heap. It is written twice.
fn written(rt: &impl Abort, alloc: Global, heap: &Heap) -> Result<Counting, Fail> {
    let mut device = Device::new(Counting::new(alloc));
    let mut rows = heap.sub_rows();
    let ids = rows.ids();
    let (Some(root), Some(first), Some(second)) = (rows.next(), rows.next(), rows.next()) else {
        return Err("less than three".into());
    };
    let mut batch = Batch::empty();
    holds(rt, batch.take(root, ids, &mut device).is_ok());
    holds(rt, batch.take(first, ids, &mut device).is_ok());
    holds(rt, batch.take(second, ids, &mut device).is_ok());
    holds(rt, batch.write(&mut device).is_ok());
    holds(rt, batch.write(&mut device).is_ok());
    Ok(device.into_inner())
}

// Of a batch that takes a root and two arrays, the root is written at once, and the arrays together.
#[test]
fn arrays_wait_in_a_batch(rt: HostRuntime) -> Result<(), Fail> {
    let facts = [
        array(17, Basic::Byte, b"\x03"),
        array(16, Basic::Byte, b"\x01\x02"),
        Fact::Root(Root::Sticky { id: 16 }),
    ];
    let heap = heap_of(&rt, rt.alloc(), IdSize::Four, &facts)?;
    let counted = written(&rt, rt.alloc(), &heap)?;
    equal(&rt, counted.writes, 2);
    let expected =
        b"\x05\0\0\0\x10\x23\0\0\0\x10\0\0\0\x01\0\0\0\x02\x08\x01\x02\x23\0\0\0\x11\0\0\0\x01\0\0\0\x01\x08\x03";
    assert_eq!(rt; counted.bytes.as_slice(), expected.as_slice());
    Ok(())
}
