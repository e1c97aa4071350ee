//! Cursors that skip late rows.

ghost use Rattle.std.specs.Prelude.{◌≡◌, ◌↔◌, IsTrue, IfOk, IfErr, OnOk};
ghost use Rattle.hprof_merge.specs.Skipping.{ShowsLate, SkipsOrStays, FailsBehind};

use crate::row_cursor::{AscendingCursor, RowCursor};
use std::fmt;
use thiserror::Error;

/// The fault of a cursor over a cursor that may show late rows.
#[derive(Clone, Copy, Debug, PartialEq, Eq, Error)]
#[error_bound(F: fmt::Display)]
pub enum LateFault<F> {
    /// The cursor below failed.
    #[error("{0}")]
    Inner(F),
    /// A row came late, and was not skipped.
    #[error("a row came late")]
    Late,
}

/// A cursor that skips the late rows of another: those whose key is not above all keys before. Which rows it shows follows from the rows
/// alone, so two cursors over the same rows show the same.
#[derive(Drop)]
pub struct SkipLate<C> {
    cursor: C,
    limit: u64,
}

impl<C> SkipLate<C> {
    ghost use Rattle.hprof_merge.specs.SkipLate.{skipping_over, skipping_limit};

    /// Returns a cursor that goes over another. It fails if more than `limit` late rows follow one another.
    pub fn new(cursor: C, limit: u64) -> Self
        ensures cursor { skipping_over result ≡ cursor }
        ensures limit { skipping_limit result ≡ limit }
    {
        SkipLate { cursor, limit }
    }
}

/// Returns whether a cursor shows a row whose key is not above this one.
pub(crate) fn is_late<C: RowCursor>(cursor: &C, key: u64) -> bool
    requires { C.well cursor.now }
    ensures { IsTrue result ↔ ShowsLate C.shown key cursor.now }
{
    match cursor.current() {
        Some((next, _)) => next <= key,
        None => false,
    }
}

/// Skips rows whose keys are not above this one, up to `limit`. Returns whether none of them is left.
fn skip<C: RowCursor>(cursor: &mut C, key: u64, limit: u64) -> Result<bool, C::Fault>
    requires { C.well cursor.old }
    ensures skipped { IfOk result (λ done. SkipsOrStays C.shown C.goes key limit done cursor.old cursor.new) }
    ensures well { OnOk result (C.well cursor.new) }
    ensures fails { IfErr result (λ fault. FailsBehind C.shown C.goes C.fails key limit cursor.old fault cursor.new) }
{
    let mut skipped = 0;
    while is_late(cursor, key) {
        if skipped >= limit {
            return Ok(false);
        }
        cursor.advance()?;
        skipped += 1;
    }
    Ok(true)
}

impl<C: RowCursor> RowCursor for SkipLate<C> {
    ghost use Rattle.hprof_merge.specs.SkipLate.{shown_skipping, GoesSkipping, fails_skipping};

    ghost shown = { shown_skipping C.shown };

    ghost goes = { GoesSkipping C.shown C.goes };

    ghost fails = { fails_skipping C.shown C.goes C.fails };

    ghost well = { λ it. C.well it.cursor };

    type Fault = LateFault<C::Fault>;

    fn current(&self) -> Option<(u64, &[u8])> {
        self.cursor.current()
    }

    fn advance(&mut self) -> Result<(), LateFault<C::Fault>> {
        let Some((key, _)) = self.cursor.current() else {
            return Ok(());
        };
        if let Err(fault) = self.cursor.advance() {
            return Err(LateFault::Inner(fault));
        }
        match skip(&mut self.cursor, key, self.limit) {
            Ok(true) => Ok(()),
            Ok(false) => Err(LateFault::Late),
            Err(fault) => Err(LateFault::Inner(fault)),
        }
    }
}

impl<C: RowCursor> AscendingCursor for SkipLate<C> {
    ghost rises = { λ old new row next goes is next_is. (goes.next row is).skipped.high next next_is };
}
