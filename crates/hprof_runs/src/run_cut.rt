//! Cuts of runs.

ghost use Rattle.std.specs.Prelude.{◌≡◌, ◌+◌, ◌<◌, ◌^◌, IfSome};

use crate::run::Run;
use crate::scratch_writer::PIECE_BYTES;

/// Rows of a run that follow one another. They are a run themselves, and can be read without those before them. The cuts of a run, one
/// after another, have all of its rows.
#[derive(Clone, Copy)]
pub struct RunCut {
    /// The key of its first row.
    pub first: u64,
    /// The key of its last row.
    pub last: u64,
    /// Its bytes.
    pub(crate) run: Run,
    ghost fits: { run.at + run.len < 2 ^ 64 },
}

/// The number of bytes from which on a cut takes no further row: a run is read back in pieces of so many bytes, so that a shorter cut would
/// not save a read.
const CUT_BYTES: u64 = PIECE_BYTES as u64;

impl RunCut {
    ghost use Rattle.hprof_runs.specs.RunCuts.{BeginsCut, ExtendsCut};

    /// Returns the cut that begins at an offset, with one row of so many bytes. There is none if its bytes would end at 2^64 or beyond.
    pub(crate) fn begin(at: u64, key: u64, len: u64) -> Option<Self>
        ensures { IfSome result (BeginsCut at key len) }
    {
        at.checked_add(len)?;
        Some(RunCut {
            first: key,
            last: key,
            run: Run { at, len },
        })
    }

    /// Returns the cut with one more row of so many bytes. There is none if its bytes would end at 2^64 or beyond.
    pub(crate) fn extend(&self, key: u64, len: u64) -> Option<Self>
        ensures { IfSome result (ExtendsCut self.now key len) }
    {
        self.end().checked_add(len)?;
        Some(RunCut {
            first: self.first,
            last: key,
            run: Run {
                at: self.run.at,
                len: self.run.len + len,
            },
        })
    }

    /// Returns the offset behind its bytes.
    pub(crate) fn end(&self) -> u64
        ensures { result ≡ self.now.run.at + self.now.run.len }
    {
        self.run.at + self.run.len
    }

    /// Returns whether the cut takes no further row.
    pub(crate) fn is_full(&self) -> bool {
        self.run.len >= CUT_BYTES
    }
}
