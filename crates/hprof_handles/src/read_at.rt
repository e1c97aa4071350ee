//! What is read at offsets.

ghost use Rattle.std.specs.Prelude.{◌≤◌, ℕ, List, Option, length, IfOk};
ghost use Rattle.hprof_runs.specs.ReadBack.{ReadsBack};

use std::io;

/// What is read at offsets, as often as is wanted. Where it tells its bytes, each read gives the same.
pub trait ReadAt {
    // Its bytes, where they are told.
    ghost bytes: { Self → Option (List ℕ) };

    /// Stores the bytes from an offset on at the front of `piece`, and returns their number. It is 0 only if no bytes are there, or if
    /// `piece` is empty.
    fn read_at(&self, piece: &mut [u8], at: u64) -> io::Result<usize>
        ensures count { IfOk result (λ count. count ≤ length piece.new) }
        ensures bytes { IfOk result (λ count. ReadsBack (bytes self.now) at count piece.new) };
}
