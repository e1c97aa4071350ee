//! The edges along which a search goes.

ghost use Rattle.std.specs.Prelude.{◌<◌, ◌↔◌, ℕ, List, OnOk, All, Contains, length, slice_index};
ghost use Rattle.hprof_numbers.specs.Numbered.{nodes_in};

use hprof_numbers::Numbered;
use std::alloc::AllocError;

/// The edges between nodes that are sorted. The number of a node is its place among them.
pub trait Steps {
    // Among these nodes an edge leads from the one to the other.
    ghost leads: { Self → List ℕ → ℕ → ℕ → Type 0 };

    // What holds of edges between these nodes.
    ghost stands: { Self → List ℕ → Type 0 };

    /// Sets `numbers` to those of the nodes to which the edges of a node lead, in any order. Repetitions are allowed. If memory runs out,
    /// or a number does not fit four bytes, the answer is `AllocError` and the contents of `numbers` are unspecified.
    fn steps_from(
        &mut self,
        numbered: &Numbered,
        from: usize,
        numbers: &mut Vec<u32>,
    ) -> Result<(), AllocError>
        requires stands { stands self.old (nodes_in numbered.now) }
        requires within { from < length (nodes_in numbered.now) }
        ensures below { OnOk result (All (λ number. number < length (nodes_in numbered.now)) numbers.new.items) }
        ensures ok { OnOk result ((to : ℕ) → to < length (nodes_in numbered.now) → Contains numbers.new.items to
            ↔ leads self.old (nodes_in numbered.now) (slice_index (nodes_in numbered.now) from) (slice_index (nodes_in numbered.now) to)) }
        ensures stays { (from to : ℕ) → leads self.new (nodes_in numbered.now) from to ↔ leads self.old (nodes_in numbered.now) from to }
        ensures stands { stands self.new (nodes_in numbered.now) };
}
