//! Plain parts, whose objects are in order and out of order.

ghost use Rattle.std.specs.Prelude.{◌≡◌, All, IfOk, Some};
ghost use Rattle.hprof_devices.specs.declared.health.Health.TheVariants.{Well};
ghost use Rattle.hprof_devices.specs.Device.{health_of};
ghost use Rattle.hprof_runs.specs.ReadBack.{HoldsNothing};

use hprof_devices::{Device, Health, ReadFault, Target, WriteFault};
use hprof_engine::{AllSummaries, Summaries};
use hprof_objects::Keeping;
use hprof_runs::{Scratch, ScratchFault};
use hprof_stored::{StoredFault, read_stored};
use hprof_stream::Limits;
use std::alloc::{AllocError, Global};
use std::test::*;

/// The name 2, and a heap dump record with the byte arrays 16 and 32, a class 64 and a root of it.
pub(crate) const ORDERED: &[u8; 134] = b"JAVA PROFILE 1.0.2\0\0\0\0\x04\0\0\0\0\0\0\0\x02\
    \x01\0\0\0\0\0\0\0\x05\0\0\0\x02B\
    \x1c\0\0\0\0\0\0\0\x50\
    \x23\0\0\0\x10\0\0\0\x01\0\0\0\x02\x08\x01\x02\
    \x23\0\0\0\x20\0\0\0\x01\0\0\0\x02\x08\x03\x04\
    \x20\0\0\0\x40\0\0\0\x01\0\0\0\0\0\0\0\0\0\0\0\0\0\0\0\0\0\0\0\0\0\0\0\0\0\0\0\0\0\0\0\0\0\0\
    \x05\0\0\0\x40";

/// A heap dump record with the byte arrays 16 and 32, which stay in the part, and 9, 8 and 7 behind them.
pub(crate) const UNORDERED: &[u8; 120] = b"JAVA PROFILE 1.0.2\0\0\0\0\x04\0\0\0\0\0\0\0\x01\
    \x1c\0\0\0\0\0\0\0\x50\
    \x23\0\0\0\x10\0\0\0\x01\0\0\0\x02\x08\x01\x02\
    \x23\0\0\0\x20\0\0\0\x01\0\0\0\x02\x08\x03\x04\
    \x23\0\0\0\x09\0\0\0\x01\0\0\0\x02\x08\x05\x06\
    \x23\0\0\0\x08\0\0\0\x01\0\0\0\x02\x08\x07\x08\
    \x23\0\0\0\x07\0\0\0\x01\0\0\0\x02\x08\x09\x0a";

/// A scratch that takes nothing.
#[derive(Drop)]
struct Broken {
    health: Health,
}

impl Target for Broken {
    ghost use Rattle.std.specs.Prelude.{[]};

    ghost written = { λ _. Some [] };

    ghost health = { λ it. it.health };

    fn push(&mut self, piece: &[u8]) -> Result<usize, WriteFault> {
        if piece.is_empty() {
            return Ok(0);
        }
        self.health = Health::Failed;
        Err(WriteFault::Failed)
    }
}

impl Scratch for Broken {
    ghost unreadable = { λ it. Unit {0} };

    fn read_back(&self, _at: u64, _piece: &mut [u8]) -> Result<usize, ReadFault> {
        Err(ReadFault::Failed)
    }
}

/// Two byte arrays fit into memory, and a stretch of two stays in its part.
pub(crate) fn keeping() -> Keeping {
    Keeping {
        memory: 90,
        stretch: 32,
        stretches: 1,
    }
}

/// What reading parts came to: the numbers of facts that are no objects and of summaries, and the time; or the fault.
type Outcome = Result<(u128, usize, u64), StoredFault>;

/// Returns readers of the parts.
pub(crate) fn readers_of<'a>(
    alloc: Global,
    parts: &[&'a [u8]],
) -> Result<Vec<Device<&'a [u8]>>, AllocError>
    ensures { IfOk result (λ readers. All (λ reader. health_of reader ≡ Well) readers.items) }
{
    let mut readers = Vec::new(alloc);
    for part in parts {
        readers.push(Device::new(*part))?;
    }
    Ok(readers)
}

/// Reads the parts with this scratch.
fn read_with<S: Scratch + Drop>(
    alloc: Global,
    parts: &[&[u8]],
    scratch: S,
) -> Result<Outcome, AllocError>
    requires nothing { HoldsNothing (S.written scratch) }
    requires well { S.health scratch ≡ Well }
{
    let mut readers = readers_of(alloc, parts)?;
    let mut kept = AllSummaries.with_room(alloc, readers.len())?;
    let limits = Limits::usual();
    let answer = read_stored(
        alloc,
        &mut readers,
        limits,
        keeping(),
        scratch,
        &AllSummaries,
        &mut kept,
    );
    Ok(answer.map(|it| (it.heap.count(), kept.len(), it.heap.millis())))
}

#[test]
fn objects_in_order_stay(rt: HostRuntime) -> Result<(), Fail> {
    let broken = Broken {
        health: Health::Well,
    };
    let outcome = read_with(rt.alloc(), &[ORDERED, ORDERED], broken)?;
    assert!(rt; outcome == Ok((3, 2, 2)));
    let broken = Broken {
        health: Health::Well,
    };
    let outcome = read_with(rt.alloc(), &[ORDERED, UNORDERED], broken)?;
    assert!(rt; outcome == Err(StoredFault::Scratch(ScratchFault::Write(WriteFault::Failed))));
    Ok(())
}
