//! Writing to scratch through a buffer.

ghost use Rattle.std.specs.Prelude.{◌≡◌, ◌+◌, ◌++◌, ◌≤◌, [], length, vec_len, vec_capacity, IfOk, OnOk, OnErr};
ghost use Rattle.std.specs.Io.KnownBytes.{Appends};
ghost use Rattle.hprof_devices.specs.declared.health.Health.TheVariants.{Well};
ghost use Rattle.hprof_runs.specs.ScratchFault.{Grows, LeavesWriting};

use crate::scratch::Scratch;
use crate::scratch_fault::ScratchFault;
use hprof_devices::push_all;
use std::alloc::{AllocError, Global};

/// The number of bytes that are written, or read back, at a time.
pub(crate) const PIECE_BYTES: usize = 65_536;

/// Scratch behind a buffer of 64 KiB, with the number of its bytes.
#[derive(Drop)]
pub(crate) struct ScratchWriter<S> {
    pub(crate) scratch: S,
    pub(crate) count: u64,
    buffer: Vec<u8>,
    ghost room: { 65536 ≤ vec_capacity buffer },
    ghost few: { vec_len buffer ≤ 65536 },
}

/// Pushes bytes, and counts them.
fn push_counted<S: Scratch>(
    scratch: &mut S,
    count: &mut u64,
    bytes: &[u8],
) -> Result<(), ScratchFault>
    requires { S.health scratch.old ≡ Well }
    ensures appended { OnOk result (Appends (S.written scratch.old) (S.written scratch.new) bytes.now) }
    ensures counted { OnOk result (count.new ≡ count.old + length bytes.now) }
    ensures err { OnErr result (Grows S.written S.health scratch.old scratch.new count.old count.new) }
    ensures health { LeavesWriting result (S.health scratch.new) }
{
    let Some(sum) = count.checked_add(bytes.len() as u64) else {
        return Err(ScratchFault::Full);
    };
    if let Err(fault) = push_all(bytes, scratch) {
        return Err(ScratchFault::Write(fault));
    }
    *count = sum;
    Ok(())
}

impl<S: Scratch + Drop> ScratchWriter<S> {
    ghost use Rattle.hprof_runs.specs.ScratchWriter.{GrowsScratch, Puts};

    /// Returns a writer to scratch that holds no bytes.
    pub(crate) fn new(alloc: Global, scratch: S) -> Result<Self, AllocError>
        ensures scratch { IfOk result (λ it. it.scratch ≡ scratch) }
        ensures count { IfOk result (λ it. it.count ≡ 0) }
    {
        let buffer = Vec::with_capacity(alloc, PIECE_BYTES)?;
        Ok(ScratchWriter {
            scratch,
            count: 0,
            buffer,
        })
    }

    /// Drops the bytes in the buffer.
    pub(crate) fn clear(&mut self)
        ensures scratch { self.new.scratch ≡ self.old.scratch }
        ensures count { self.new.count ≡ self.old.count }
        ensures buffer { self.new.buffer.items ≡ [] }
    {
        self.buffer.clear();
    }

    /// Puts bytes into the buffer, which has room for them.
    fn keep(&mut self, bytes: &[u8])
        requires { vec_len self.old.buffer + length bytes.now ≤ 65536 }
        ensures scratch { self.new.scratch ≡ self.old.scratch }
        ensures count { self.new.count ≡ self.old.count }
        ensures buffer { self.new.buffer.items ≡ self.old.buffer.items ++ bytes.now }
    {
        let Ok(()) = self.buffer.extend_from_slice(bytes) else {
            unreachable!()
        };
    }

    /// Writes the bytes in the buffer.
    pub(crate) fn send(&mut self) -> Result<(), ScratchFault>
        requires { S.health self.old.scratch ≡ Well }
        ensures sent { OnOk result (Puts S.written self.old self.new []) }
        ensures buffer { OnOk result (self.new.buffer.items ≡ []) }
        ensures err { OnErr result (GrowsScratch S.written S.health self.old self.new) }
        ensures health { LeavesWriting result (S.health self.new.scratch) }
    {
        push_counted(&mut self.scratch, &mut self.count, &self.buffer)?;
        self.buffer.clear();
        Ok(())
    }

    /// Puts bytes behind the others. If they are longer than the buffer, they are written at once.
    pub(crate) fn put(&mut self, bytes: &[u8]) -> Result<(), ScratchFault>
        requires { S.health self.old.scratch ≡ Well }
        ensures put { OnOk result (Puts S.written self.old self.new bytes.now) }
        ensures err { OnErr result (GrowsScratch S.written S.health self.old self.new) }
        ensures health { LeavesWriting result (S.health self.new.scratch) }
    {
        if bytes.len() <= PIECE_BYTES - self.buffer.len() {
            self.keep(bytes);
            return Ok(());
        }
        self.send()?;
        if bytes.len() <= PIECE_BYTES {
            self.keep(bytes);
            return Ok(());
        }
        push_counted(&mut self.scratch, &mut self.count, bytes)?;
        Ok(())
    }
}
