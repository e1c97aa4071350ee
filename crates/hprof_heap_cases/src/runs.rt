//! Runs in scratch that changes a byte.

ghost use Rattle.std.specs.Prelude.{None, ⊤};

use hprof_devices::{ReadFault, Target, WriteFault};
use hprof_merge::RowCursor;
use hprof_runs::{MemoryScratch, Rows, RunFault, Runs, Scratch, SortedRows};
use std::alloc::{AllocError, Global};
use std::test::Fail;

fn sorted(alloc: Global, list: &[(u64, &[u8])]) -> Result<SortedRows, AllocError> {
    let mut rows = Rows::new(alloc);
    for (key, bytes) in list {
        let bytes: &[u8] = *bytes;
        if bytes.len() < 1_000_000 {
            rows.push(*key, bytes)?;
        }
    }
    Ok(rows.sort())
}

/// Scratch that changes a byte.
#[derive(Drop)]
struct Lying {
    kept: MemoryScratch,
    at: u64,
}

impl Target for Lying {
    ghost use Rattle.hprof_runs.specs.MemoryScratch.{health_in};

    ghost written = { λ it. None };

    ghost health = { λ it. health_in it.kept };

    fn push(&mut self, piece: &[u8]) -> Result<usize, WriteFault> {
        self.kept.push(piece)
    }
}

impl Scratch for Lying {
    ghost unreadable = { λ it. ⊤ };

    fn read_back(&self, at: u64, piece: &mut [u8]) -> Result<usize, ReadFault> {
        let count = self.kept.read_back(at, piece)?;
        if self.at >= at && self.at - at < count as u64 {
            piece[(self.at - at) as usize] ^= 3;
        }
        Ok(count)
    }
}

/// Goes over a run that lies in scratch which changes the byte at an offset.
fn fault_at(alloc: Global, at: u64) -> Result<Option<RunFault>, Fail> {
    let kept = MemoryScratch::new(alloc);
    let mut runs = Runs::new(alloc, Lying { kept, at })?;
    runs.add(&sorted(alloc, &[(1, b"a"), (2, b"b")])?)?;
    if runs.count() == 0 {
        return Ok(None);
    }
    let mut cursor = match runs.cursor(alloc, 0) {
        Ok(cursor) => cursor,
        Err(fault) => return Ok(Some(fault)),
    };
    for _ in 0..2 {
        if let Err(fault) = cursor.advance() {
            return Ok(Some(fault));
        }
    }
    Ok(None)
}

#[test]
fn refuses_damaged_runs(rt: HostRuntime) -> Result<(), Fail> {
    for (at, damaged) in [
        (7, true),
        (11, true),
        (12, false),
        (20, true),
        (24, true),
        (26, false),
    ] {
        let fault = fault_at(rt.alloc(), at)?;
        assert_eq!(rt;
            matches!(fault, Some(RunFault::Damaged)),
            damaged,
            "at {at}"
        );
        assert_eq!(rt; fault.is_some(), damaged, "at {at}");
    }
    Ok(())
}
