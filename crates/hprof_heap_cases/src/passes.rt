//! Plain parts, and passes over their objects.

ghost use Rattle.std.specs.Prelude.{⊤};

use crate::storing::{ORDERED, UNORDERED, keeping, readers_of};
use hprof_engine::NoSummaries;
use hprof_items::Fact;
use hprof_objects::{StretchFault, object_id};
use hprof_parts::Slices;
use hprof_passes::{ObjectSink, Objects, PassFault};
use hprof_runs::MemoryScratch;
use hprof_stored::{InParts, InPartsFault, StoredHeap, read_stored};
use hprof_stream::Limits;
use hprof_values::IdSize;
use std::alloc::{AllocError, Global};
use std::test::*;

/// The ordered part, with the identifier 8 in place of 32.
const DESCENDING: &[u8; 134] = b"JAVA PROFILE 1.0.2\0\0\0\0\x04\0\0\0\0\0\0\0\x02\
    \x01\0\0\0\0\0\0\0\x05\0\0\0\x02B\
    \x1c\0\0\0\0\0\0\0\x50\
    \x23\0\0\0\x10\0\0\0\x01\0\0\0\x02\x08\x01\x02\
    \x23\0\0\0\x08\0\0\0\x01\0\0\0\x02\x08\x03\x04\
    \x20\0\0\0\x40\0\0\0\x01\0\0\0\0\0\0\0\0\0\0\0\0\0\0\0\0\0\0\0\0\0\0\0\0\0\0\0\0\0\0\0\0\0\0\
    \x05\0\0\0\x40";

/// A sink that keeps the identifiers of objects.
#[derive(Drop)]
struct Identifiers {
    ids: Vec<u64>,
}

impl ObjectSink for Identifiers {
    ghost takes = { λ old ids object new. ⊤ };

    ghost refuses = { λ old ids object fault new. ⊤ };

    type Fault = AllocError;

    fn take(&mut self, _ids: IdSize, object: &Fact<'_>) -> Result<(), AllocError> {
        if let Some(id) = object_id(object) {
            self.ids.push(id)?;
        }
        Ok(())
    }
}

/// What two passes answer: one that keeps identifiers, and one that counts.
#[derive(Drop)]
struct Passed {
    outcome: Result<(), PassFault<AllocError, InPartsFault>>,
    ids: Vec<u64>,
    count: Result<u64, InPartsFault>,
}

/// Reads the parts, and passes over their objects. The parts are opened again from `again`.
fn pass_over<'a>(alloc: Global, parts: &[&'a [u8]], again: &[&'a [u8]]) -> Result<Passed, Fail> {
    let mut readers = readers_of(alloc, parts)?;
    let limits = Limits::usual();
    let mut kept = ();
    let stored = match read_stored(
        alloc,
        &mut readers,
        limits,
        keeping(),
        MemoryScratch::new(alloc),
        &NoSummaries,
        &mut kept,
    ) {
        Ok(stored) => stored,
        Err(_) => return Err("not read".into()),
    };
    let StoredHeap { heap, objects } = stored;
    let objects = objects.finish();
    let slices = Slices::new(again);
    let in_parts = InParts::new(&objects, &slices, limits);
    let mut sink = Identifiers {
        ids: Vec::new(alloc),
    };
    let outcome = in_parts.pass(alloc, &heap, &mut sink);
    let count = in_parts.count(alloc, &heap);
    Ok(Passed {
        outcome,
        ids: sink.ids,
        count,
    })
}

#[test]
fn a_part_that_changed(rt: HostRuntime) -> Result<(), Fail> {
    let (cut, _) = UNORDERED.split_at(60);
    let changed = InPartsFault::Part {
        part: 1,
        fault: StretchFault::Changed,
    };
    let it = pass_over(rt.alloc(), &[ORDERED, UNORDERED], &[ORDERED, cut])?;
    assert!(rt; it.outcome == Err(PassFault::Lost(changed)));
    assert!(rt; it.count == Err(changed));
    let it = pass_over(rt.alloc(), &[ORDERED, UNORDERED], &[ORDERED])?;
    assert!(rt; it.outcome == Err(PassFault::Lost(changed)));
    assert!(rt; it.ids.is_empty());
    Ok(())
}

#[test]
fn a_part_whose_identifiers_do_not_ascend_any_more(rt: HostRuntime) -> Result<(), Fail> {
    let changed = InPartsFault::Part {
        part: 0,
        fault: StretchFault::Changed,
    };
    let it = pass_over(rt.alloc(), &[ORDERED], &[DESCENDING])?;
    assert!(rt; it.outcome == Err(PassFault::Lost(changed)));
    Ok(())
}

#[test]
fn one_stretch_is_counted_unread(rt: HostRuntime) -> Result<(), Fail> {
    let it = pass_over(rt.alloc(), &[ORDERED], &[ORDERED])?;
    assert!(rt; it.outcome == Ok(()));
    assert_eq!(rt; it.ids.as_slice(), [16, 32].as_slice());
    assert!(rt; it.count == Ok(2));
    let it = pass_over(rt.alloc(), &[ORDERED], &[])?;
    assert!(rt; it.count == Ok(2));
    Ok(())
}
