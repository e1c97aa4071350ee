//! Walks in a graph that is described by something.

/// Starts, and steps from node to node, as a description gives them: facts, or a list of edges. A caller that asks a search for a distance
/// or a path names this type, and gets an answer for every description that the search fits.
pub trait WalksOf {
    ghost use Rattle.std.specs.Prelude.{ℕ};

    // what tells them
    ghost Told: { Type 0 };

    ghost starts: { Told → ℕ → Type 0 };

    ghost steps: { Told → ℕ → ℕ → Type 0 };
}
