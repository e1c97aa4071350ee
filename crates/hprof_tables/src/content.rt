//! The contents of rows.

ghost use Rattle.std.specs.Prelude.{◌≡◌, ◌↔◌, ℕ, List, IsTrue, IfOk, OnErr};

use std::alloc::{AllocError, Global};

/// The content of a row: its fact without the key.
pub trait Content {
    // The content as a list of numbers, one list for one content.
    ghost content: { Self → List ℕ };

    // Where the memory for a copy may be refused.
    ghost refuses: { Self → Type 0 };

    /// Returns whether the contents are equal.
    fn agrees(&self, other: &Self) -> bool
        ensures { IsTrue result ↔ (content self.now ≡ content other.now) };

    /// Returns a row with the same content.
    fn copied(&self, alloc: Global) -> Result<Self, AllocError>
        ensures row { IfOk result (λ row. content row ≡ content self.now) }
        ensures full { OnErr result (refuses self.now) };
}
