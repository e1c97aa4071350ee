//! Cursors of which it may be known to which rows they come.

ghost use Rattle.std.specs.Prelude.{List};
ghost use Rattle.hprof_merge.specs.Rows.{ByteRow};
ghost use Rattle.hprof_runs.specs.AnyRows.{FirstsCome, OthersCome, firsts_known, others_known, run_known};
ghost use Rattle.hprof_runs.specs.Known.{IsKnown, comes_either, either_known};
ghost use Rattle.hprof_runs.specs.RunCursor.{ComesTo};

use crate::firsts::Firsts;
use crate::others::Others;
use crate::run_cursor::RunCursor;
use crate::scratch::Scratch;
use hprof_merge::{AscendingCursor, OneOf};

/// An ascending cursor of which it may be known to which rows it comes: the row that it shows and those behind it.
pub trait KnownCursor: AscendingCursor {
    // It comes to these rows.
    ghost comes_to: { Self → List ByteRow → Type 0 };

    // The first of them is shown, going on passes it, and they ascend.
    ghost known: { IsKnown Self.shown Self.goes comes_to };
}

impl KnownCursor for Firsts<'_> {
    ghost comes_to = { FirstsCome };

    ghost known = { firsts_known };
}

impl KnownCursor for Others<'_> {
    ghost comes_to = { OthersCome };

    ghost known = { others_known };
}

impl<S: Scratch> KnownCursor for RunCursor<'_, S> {
    ghost comes_to = { ComesTo S.written };

    ghost known = { run_known S.written };
}

impl<A: KnownCursor, B: KnownCursor> KnownCursor for OneOf<A, B> {
    ghost comes_to = { comes_either A.comes_to B.comes_to };

    ghost known = { either_known A.shown B.shown A.goes B.goes A.comes_to B.comes_to A.known B.known };
}
