//! Graphs.

use std::alloc::AllocError;

/// The edges between nodes, which are numbers.
pub trait Graph {
    ghost use Rattle.std.specs.Prelude.{◌↔◌, ℕ, OnOk, Contains};

    // an edge leads from the one to the other
    ghost leads: { Self → ℕ → ℕ → Type 0 };

    // what holds of a graph that tells its edges
    ghost stands: { Self → Type 0 };

    /// Sets `targets` to the targets of a node's edges, in any order. Repetitions are allowed. If memory runs out, the answer is
    /// `AllocError` and the contents of `targets` are unspecified.
    fn targets_of(&mut self, from: u64, targets: &mut Vec<u64>) -> Result<(), AllocError>
        requires { stands self.old }
        ensures ok { OnOk result ((to : ℕ) → Contains targets.new.items to ↔ leads self.old from to) }
        ensures stays { (node to : ℕ) → leads self.new node to ↔ leads self.old node to }
        ensures stands { stands self.new };
}
