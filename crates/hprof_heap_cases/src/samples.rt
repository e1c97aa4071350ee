//! Gatherers, and their answers to facts.

ghost use Rattle.std.specs.Prelude.{◌≡◌, [], Some, OnOk, IfOk};
ghost use Rattle.hprof_items.specs.FactValue.{value_of};
ghost use Rattle.hprof_items.specs.SubRecord.{dump_bytes};
ghost use Rattle.hprof_heap.specs.Gathering.{gathered};

use crate::expecting::equal;
use hprof_devices::Device;
use hprof_heap::{Gatherer, Heap};
use hprof_items::{Fact, Header, IdSize, Version, read_sub};
use hprof_stream::{Sink, SinkFault};
use hprof_tables::Stated;
use hprof_values::Basic;
use hprof_writing::{fits, write_fact};
use std::alloc::Global;
use std::process::Abort;
use std::test::Fail;

// A gatherer for which one part was begun.
pub(crate) fn begun(alloc: Global, ids: IdSize, millis: u64) -> Result<Gatherer, SinkFault>
    ensures { IfOk result (λ gatherer. (gathered gatherer).begun ≡ Some ids) }
{
    let mut gatherer = Gatherer::new(alloc);
    gatherer.begin_part(Header {
        version: Version::V102,
        ids,
        millis,
    })?;
    Ok(gatherer)
}

// How many facts the heap has, while the gatherer is clean.
fn count(gatherer: &Gatherer) -> Option<u128> {
    Some(gatherer.heap()?.count())
}

// What giving one fact came to: the heap has one more, or as many as before, or is not shown any more.
fn came_to(before: Option<u128>, after: Option<u128>) -> Option<Stated> {
    let Some(after) = after else {
        return Some(Stated::Differs);
    };
    match after.checked_sub(before?)? {
        0 => Some(Stated::Same),
        1 => Some(Stated::New),
        _ => None,
    }
}

// Gives a fact of a record, where it has a spelling.
pub(crate) fn state_record(
    gatherer: &mut Gatherer,
    ids: IdSize,
    fact: Fact<'_>,
) -> Result<Option<Stated>, SinkFault>
    requires begun { (gathered gatherer.old).begun ≡ Some ids }
    requires record { dump_bytes ids (value_of fact) ≡ [] }
    ensures { OnOk result ((gathered gatherer.new).begun ≡ Some ids) }
{
    if !fits(&fact, ids) {
        return Ok(None);
    }
    let before = count(gatherer);
    gatherer.take(&fact, &[])?;
    Ok(came_to(before, count(gatherer)))
}

// Gives the fact of the sub-record at the front of the bytes, if there is one.
pub(crate) fn state_sub(
    gatherer: &mut Gatherer,
    ids: IdSize,
    bytes: &[u8],
) -> Result<Option<Stated>, SinkFault>
    requires { (gathered gatherer.old).begun ≡ Some ids }
    ensures { OnOk result ((gathered gatherer.new).begun ≡ Some ids) }
{
    let Ok((fact, len)) = read_sub(bytes, u32::MAX, u32::MAX, ids) else {
        return Ok(None);
    };
    let (spelled, _) = bytes.split_at(len);
    let before = count(gatherer);
    gatherer.take(&fact, spelled)?;
    Ok(came_to(before, count(gatherer)))
}

// Gives a fact, where it has a spelling.
pub(crate) fn state_fact(
    alloc: Global,
    gatherer: &mut Gatherer,
    ids: IdSize,
    fact: Fact<'_>,
) -> Result<Option<Stated>, SinkFault>
    requires { (gathered gatherer.old).begun ≡ Some ids }
    ensures { OnOk result ((gathered gatherer.new).begun ≡ Some ids) }
{
    if !fits(&fact, ids) {
        return Ok(None);
    }
    match fact {
        Fact::Root(_)
        | Fact::Class { .. }
        | Fact::Instance { .. }
        | Fact::ObjArray { .. }
        | Fact::PrimArray { .. } => {
            let mut device = Device::new(Vec::new(alloc));
            if write_fact(&fact, ids, &mut device).is_err() {
                return Err(SinkFault::OutOfMemory);
            }
            state_sub(gatherer, ids, &device.into_inner())
        }
        _ => state_record(gatherer, ids, fact),
    }
}

// Gives these facts, each of which comes to that.
pub(crate) fn state_each(
    rt: &impl Abort,
    alloc: Global,
    gatherer: &mut Gatherer,
    ids: IdSize,
    facts: &[Fact<'_>],
    stated: Stated,
) -> Result<(), SinkFault>
    requires { (gathered gatherer.old).begun ≡ Some ids }
    ensures { OnOk result ((gathered gatherer.new).begun ≡ Some ids) }
{
    for &fact in facts {
        equal(rt, state_fact(alloc, gatherer, ids, fact)?, Some(stated));
    }
    Ok(())
}

// Gives these facts, which are new.
pub(crate) fn state_all(
    rt: &impl Abort,
    alloc: Global,
    gatherer: &mut Gatherer,
    ids: IdSize,
    facts: &[Fact<'_>],
) -> Result<(), SinkFault>
    requires { (gathered gatherer.old).begun ≡ Some ids }
    ensures { OnOk result ((gathered gatherer.new).begun ≡ Some ids) }
{
    state_each(rt, alloc, gatherer, ids, facts, Stated::New)
}

// The heap of these facts, each of which is new.
pub(crate) fn heap_of(
    rt: &impl Abort,
    alloc: Global,
    ids: IdSize,
    facts: &[Fact<'_>],
) -> Result<Heap, Fail> {
    let mut gatherer = begun(alloc, ids, 1)?;
    state_all(rt, alloc, &mut gatherer, ids, facts)?;
    Ok(gatherer.finish()?)
}

pub(crate) fn array(id: u64, elem: Basic, bytes: &[u8]) -> Fact<'_> {
    Fact::PrimArray {
        id,
        trace: 1,
        elem,
        bytes,
    }
}
