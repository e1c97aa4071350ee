//! Cursors of two kinds.

ghost use Rattle.std.specs.Prelude.{◌≡◌};

use crate::row_cursor::{AscendingCursor, RowCursor};

/// A cursor of one kind or of another, so that both can be merged. Its fault is the fault of that kind.
#[derive(Clone, Copy, Debug, PartialEq, Eq, Drop)]
pub enum OneOf<A, B> {
    /// The first kind.
    First(A),
    /// The second kind.
    Second(B),
}

impl<A: RowCursor, B: RowCursor> RowCursor for OneOf<A, B> {
    ghost use Rattle.hprof_merge.specs.OneOf.{of_either, holds_either, goes_either, fails_either};

    ghost shown = { of_either A.shown B.shown };

    ghost goes = { goes_either A.goes B.goes };

    ghost fails = { fails_either A.fails B.fails };

    ghost well = { holds_either A.well B.well };

    type Fault = OneOf<A::Fault, B::Fault>;

    #[inline(always)]
    fn current(&self) -> Option<(u64, &[u8])> {
        match self {
            OneOf::First(cursor) => cursor.current(),
            OneOf::Second(cursor) => cursor.current(),
        }
    }

    #[inline(always)]
    fn advance(&mut self) -> Result<(), OneOf<A::Fault, B::Fault>> {
        match self {
            OneOf::First(cursor) => match cursor.advance() {
                Ok(()) => Ok(()),
                Err(fault) => Err(OneOf::First(fault)),
            },
            OneOf::Second(cursor) => match cursor.advance() {
                Ok(()) => Ok(()),
                Err(fault) => Err(OneOf::Second(fault)),
            },
        }
    }
}

impl<A: AscendingCursor, B: AscendingCursor> AscendingCursor for OneOf<A, B> {
    ghost use Rattle.hprof_merge.specs.OneOf.{either_rises};

    ghost rises = { either_rises A.shown B.shown A.goes B.goes A.rises B.rises };
}
