//! Scratch: a target whose bytes are read back.

ghost use Rattle.std.specs.Prelude.{◌≤◌, length, IfOk, OnErr};
ghost use Rattle.hprof_runs.specs.ReadBack.{ReadsBack};

use hprof_devices::{ReadFault, Target};

/// A target whose bytes are read back. Where `written` tells them, what is read back is what was written.
pub trait Scratch: Target {
    // A read of it may fail.
    ghost unreadable: { Self → Type 0 };

    /// Stores the bytes from an offset on at the front of `piece`, and returns their number. It is 0 only if no bytes are there, or if
    /// `piece` is empty.
    fn read_back(&self, at: u64, piece: &mut [u8]) -> Result<usize, ReadFault>
        ensures count { IfOk result (λ count. count ≤ length piece.new) }
        ensures bytes { IfOk result (λ count. ReadsBack (Self.written self.now) at count piece.new) }
        ensures fault { OnErr result (unreadable self.now) };
}
