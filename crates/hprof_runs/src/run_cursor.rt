//! Cursors over runs.

ghost use Rattle.std.specs.Prelude.{◌≡◌, ◌≤◌, length, IfOk, IfErr, ⊤};
ghost use Rattle.std.specs.Option.{ForSome};
ghost use Rattle.hprof_runs.specs.RunBytes.{held_bytes};

use crate::header::Header;
use crate::run::Run;
use crate::run_bytes::RunBytes;
use crate::run_fault::RunFault;
use crate::scratch::Scratch;
use hprof_merge::{AscendingCursor, RowCursor};
use std::alloc::Global;

/// A cursor over a run, which is read back in pieces of 64 KiB without trust in the scratch. It holds one piece, or the longest row so far
/// if that is longer.
#[derive(Drop)]
pub struct RunCursor<'a, S> {
    bytes: RunBytes<'a, S>,
    shown: Option<Header>,
    ghost whole: { ForSome shown (λ header. header.len ≤ length (held_bytes bytes)) },
}

impl<'a, S: Scratch> RunCursor<'a, S> {
    ghost use Rattle.hprof_runs.specs.RunCursor.{OpensRun, RefusesRun, scratch_of_run};
    ghost use Rattle.hprof_runs.specs.RunFault.{IfReadFailed};

    /// Returns a cursor over a run, which shows its first row.
    pub(crate) fn open(alloc: Global, scratch: &'a S, run: Run) -> Result<Self, RunFault>
        ensures rows { IfOk result (OpensRun S.written scratch.now run) }
        ensures fault { IfErr result (RefusesRun S.written scratch.now run) }
        ensures scratch { IfOk result (λ cursor. scratch_of_run cursor ≡ scratch.now) }
        ensures read { IfErr result (λ fault. IfReadFailed fault (S.unreadable scratch.now)) }
    {
        let Ok(mut bytes) = RunBytes::new(alloc, scratch, run) else {
            return Err(RunFault::OutOfMemory);
        };
        match Header::read(&mut bytes) {
            Ok(shown) => Ok(RunCursor { bytes, shown }),
            Err(fault) => Err(fault),
        }
    }
}

impl<S: Scratch> RowCursor for RunCursor<'_, S> {
    ghost use Rattle.hprof_runs.specs.RunCursor.{FailsRun, GoesOn, run_shown};

    ghost shown = { run_shown };

    ghost goes = { GoesOn S.written };

    ghost fails = { FailsRun S.written S.unreadable };

    ghost well = { λ it. ⊤ };

    type Fault = RunFault;

    #[inline(always)]
    fn current(&self) -> Option<(u64, &[u8])> {
        let header = self.shown?;
        let (row, _) = self.bytes.held().split_at(header.len as usize);
        Some((header.key, row))
    }

    #[inline(always)]
    fn advance(&mut self) -> Result<(), RunFault> {
        let Some(header) = self.shown.take() else {
            return Ok(());
        };
        self.bytes.pass(header.len as usize);
        let next = Header::read(&mut self.bytes)?;
        if !header.is_below(next) {
            return Err(RunFault::Damaged);
        }
        self.shown = next;
        Ok(())
    }
}

impl<S: Scratch> AscendingCursor for RunCursor<'_, S> {
    ghost rises = { λ old new row next goes is next_is. goes.above row next is next_is };
}
