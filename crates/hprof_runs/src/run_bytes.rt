//! The bytes of a run, read back in pieces.

ghost use Rattle.std.specs.Prelude.{◌≡◌, ◌+◌, ◌-◌, ◌<◌, ◌≤◌, ◌^◌, [], length, drop, vec_len, IfOk, OnOk, IfErr, IsTrue, ◌↔◌};

use crate::run::Run;
use crate::run_fault::RunFault;
use crate::scratch::Scratch;
use crate::scratch_writer::PIECE_BYTES;
use std::alloc::{AllocError, Global};

/// The bytes of a run that are still to come. Those between `start` and `end` of the block were read already.
#[derive(Drop)]
pub(crate) struct RunBytes<'a, S> {
    scratch: &'a S,
    at: u64,
    left: u64,
    block: Vec<u8>,
    start: usize,
    end: usize,
    ghost order: { start ≤ end },
    ghost within: { end ≤ vec_len block },
    ghost ends: { at + left < 2 ^ 64 },
}

impl<'a, S: Scratch> RunBytes<'a, S> {
    ghost use Rattle.hprof_runs.specs.RunBytes.{KeepsBytes, LacksBytes, PassesBytes, held_bytes, scratch_under};
    ghost use Rattle.hprof_runs.specs.RunFault.{IfReadFailed};
    ghost use Rattle.hprof_runs.specs.RunOpened.{BeginsRun};

    /// Returns the bytes of a run. Allocates a block of 64 KiB, or of the length of the run if that is less.
    pub(crate) fn new(alloc: Global, scratch: &'a S, run: Run) -> Result<Self, AllocError>
        ensures begins { IfOk result (BeginsRun S.written scratch.now run) }
        ensures scratch { IfOk result (λ bytes. scratch_under bytes ≡ scratch.now) }
    {
        let size = run.len.min(PIECE_BYTES as u64) as usize;
        Ok(RunBytes {
            scratch,
            at: run.at,
            left: run.len,
            block: vec![in alloc; 0; size]?,
            start: 0,
            end: 0,
        })
    }

    /// Returns the bytes that were read already.
    #[inline(always)]
    pub(crate) fn held(&self) -> &[u8]
        ensures { result.now ≡ held_bytes self.now }
    {
        &self.block[self.start..self.end]
    }

    /// Returns whether no bytes are still to come.
    #[inline(always)]
    pub(crate) fn is_empty(&self) -> bool
        ensures { IsTrue result ↔ ((held_bytes self.now ≡ []) × (self.now.left ≡ 0)) }
    {
        self.start == self.end && self.left == 0
    }

    /// Passes bytes that were read already.
    #[inline(always)]
    pub(crate) fn pass(&mut self, count: usize)
        requires { count ≤ length (held_bytes self.old) }
        ensures held { held_bytes self.new ≡ drop count (held_bytes self.old) }
        ensures bytes { PassesBytes S.written count self.old self.new }
        ensures scratch { scratch_under self.new ≡ scratch_under self.old }
    {
        self.start += count;
    }

    /// Moves the bytes that were read already to the front of the block, which becomes at least `count` bytes long.
    fn make_room(&mut self, count: usize) -> Result<(), AllocError>
        ensures ok { OnOk result (count ≤ vec_len self.new.block) }
        ensures start { self.new.start ≡ 0 }
        ensures end { self.new.end ≡ self.old.end - self.old.start }
        ensures held { held_bytes self.new ≡ held_bytes self.old }
        ensures bytes { KeepsBytes S.written self.old self.new }
        ensures scratch { scratch_under self.new ≡ scratch_under self.old }
        ensures left { self.new.left ≡ self.old.left }
    {
        self.block.copy_within(self.start..self.end, 0);
        self.end -= self.start;
        self.start = 0;
        if self.block.len() < count {
            self.block.resize(count, 0)?;
        }
        Ok(())
    }

    /// Reads more bytes of the run behind those that were read already.
    fn fill(&mut self) -> Result<(), RunFault>
        requires room { self.old.end < vec_len self.old.block }
        requires left { 0 < self.old.left }
        ensures start { self.new.start ≡ self.old.start }
        ensures block { vec_len self.new.block ≡ vec_len self.old.block }
        ensures more { OnOk result (self.old.end < self.new.end) }
        ensures left { OnOk result (self.new.end + self.new.left ≡ self.old.end + self.old.left) }
        ensures bytes { OnOk result (KeepsBytes S.written self.old self.new) }
        ensures scratch { scratch_under self.new ≡ scratch_under self.old }
        ensures fault { IfErr result (LacksBytes S.written 0 self.old) }
        ensures read { IfErr result (λ fault. IfReadFailed fault (S.unreadable (scratch_under self.old))) }
    {
        let room = (self.block.len() - self.end) as u64;
        let wanted = room.min(self.left) as usize;
        let piece = &mut self.block[self.end..self.end + wanted];
        let count = match self.scratch.read_back(self.at, piece) {
            Ok(count) => count,
            Err(_) => return Err(RunFault::Read),
        };
        if count == 0 {
            return Err(RunFault::Damaged);
        }
        self.end += count;
        self.at += count as u64;
        self.left -= count as u64;
        Ok(())
    }

    /// Reads until at least `count` of the bytes that are still to come are read.
    pub(crate) fn hold(&mut self, count: usize) -> Result<(), RunFault>
        ensures held { OnOk result (count ≤ length (held_bytes self.new)) }
        ensures bytes { OnOk result (KeepsBytes S.written self.old self.new) }
        ensures scratch { OnOk result (scratch_under self.new ≡ scratch_under self.old) }
        ensures fault { IfErr result (LacksBytes S.written count self.old) }
        ensures read { IfErr result (λ fault. IfReadFailed fault (S.unreadable (scratch_under self.old))) }
    {
        let held = self.end - self.start;
        if count <= held {
            return Ok(());
        }
        if (count - held) as u64 > self.left {
            return Err(RunFault::Damaged);
        }
        let Ok(()) = self.make_room(count) else {
            return Err(RunFault::OutOfMemory);
        };
        while self.end < count {
            self.fill()?;
        }
        Ok(())
    }
}
