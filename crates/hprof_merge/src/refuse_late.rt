//! Cursors that fail at a late row.

ghost use Rattle.std.specs.Prelude.{◌≡◌};

use crate::row_cursor::{AscendingCursor, RowCursor};
use crate::skip_late::{LateFault, is_late};

/// A cursor that shows the rows of another, and fails at the first late one, whose key is not above the key before. So a file that was
/// written in ascending order is read back without trust in the disk.
#[derive(Drop)]
pub struct RefuseLate<C> {
    cursor: C,
}

impl<C> RefuseLate<C> {
    ghost use Rattle.hprof_merge.specs.RefuseLate.{refusing_over};

    /// Returns a cursor that goes over another.
    pub fn new(cursor: C) -> Self
        ensures { refusing_over result ≡ cursor }
    {
        RefuseLate { cursor }
    }
}

impl<C: RowCursor> RowCursor for RefuseLate<C> {
    ghost use Rattle.hprof_merge.specs.RefuseLate.{shown_refusing, GoesUp, fails_refusing};

    ghost shown = { shown_refusing C.shown };

    ghost goes = { GoesUp C.shown C.goes };

    ghost fails = { fails_refusing C.shown C.goes C.fails };

    ghost well = { λ it. C.well it.cursor };

    type Fault = LateFault<C::Fault>;

    fn current(&self) -> Option<(u64, &[u8])> {
        self.cursor.current()
    }

    fn advance(&mut self) -> Result<(), LateFault<C::Fault>> {
        let before = self.cursor.current().map(|row| row.0);
        if let Err(fault) = self.cursor.advance() {
            return Err(LateFault::Inner(fault));
        }
        match before {
            Some(key) if is_late(&self.cursor, key) => Err(LateFault::Late),
            _ => Ok(()),
        }
    }
}

impl<C: RowCursor> AscendingCursor for RefuseLate<C> {
    ghost rises = { λ old new row next goes is next_is. goes.above row next is next_is };
}
