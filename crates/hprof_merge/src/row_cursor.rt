//! Cursors over rows.

ghost use Rattle.std.specs.Prelude.{◌≡◌, ◌<◌, ℕ, List, Option, Some, None, OnOk, IfErr};
ghost use Rattle.hprof_merge.specs.Rows.{ShowsFirst};
ghost use Rattle.hprof_merge.specs.Showing.{only};

/// A cursor over rows, such as those of a file. It shows one row at a time.
///
/// No contract tells which rows come after the one that it shows, so contracts speak of the rows that it showed. After a fault it is not
/// called again.
pub trait RowCursor {
    // The row that it shows, and none at its end.
    ghost shown: { Self → Option (ℕ × List ℕ) };

    // What it is once it went on from a row.
    ghost goes: { Self → Self → Type 0 };

    // What a fault tells about the cursor before the call, and after it.
    ghost fails: { Self → Self.Fault → Self → Type 0 };

    // It may be called.
    ghost well: { Self → Type 0 };

    /// The reason why it cannot go on.
    type Fault;

    /// Returns the row that it shows, or `None` at its end.
    fn current(&self) -> Option<(u64, &[u8])>
        requires { well self.now }
        ensures { ShowsFirst (λ row. (row.0, row.1.now)) (only (shown self.now)) result };

    /// Goes on to the next row, or to its end.
    fn advance(&mut self) -> Result<(), Self::Fault>
        requires { well self.old }
        ensures goes { OnOk result (goes self.old self.new) }
        ensures well { OnOk result (well self.new) }
        ensures fails { IfErr result (λ fault. fails self.old fault self.new) };
}

/// A cursor whose rows ascend strictly by key.
pub trait AscendingCursor: RowCursor {
    // The next row is above the one before.
    ghost rises: { (old new : Self) (row next : ℕ × List ℕ) → Self.goes old new → Self.shown old ≡ Some row → Self.shown new ≡ Some next
        → row.0 < next.0 };
}
