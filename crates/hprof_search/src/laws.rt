//! Laws of the definitions. The contract of each function is a theorem; its body is empty.

ghost use Rattle.std.specs.Prelude.{◌≡◌, ◌+◌, ◌<◌, ◌≤◌, ℕ, List, Option, Some, None, length, slice_index};
ghost use Rattle.hprof_search.specs.Walks.{HasDistance, IsLeastBefore, IsPath, IsWalk};

/// Any starts, and any steps from node to node.
pub trait Walks {
    ghost starts: { ℕ → Type 0 };

    ghost steps: { ℕ → ℕ → Type 0 };
}

/// A node has at most one distance.
pub fn one_distance<W: Walks>()
    ensures { (node : ℕ) (one other : Option ℕ) → HasDistance W.starts W.steps node one → HasDistance W.starts W.steps node other
        → one ≡ other }
{}

/// A node has at most one path.
pub fn one_path<W: Walks>()
    ensures { (node : ℕ) (one other : Option (List ℕ)) → IsPath W.starts W.steps node one → IsPath W.starts W.steps node other
        → one ≡ other }
{}

/// The path to a node is a walk with as many steps as the node's distance, and no walk to the node is shorter. Each node on the path is the
/// least of the nodes at its distance that have a step to the next.
pub fn path_is_shortest<W: Walks>()
    ensures walk { (node : ℕ) (nodes : List ℕ) → IsPath W.starts W.steps node (Some nodes) → IsWalk W.starts W.steps nodes node }
    ensures counted { (node distance : ℕ) (nodes : List ℕ) → IsPath W.starts W.steps node (Some nodes)
        → HasDistance W.starts W.steps node (Some distance) → length nodes ≡ distance + 1 }
    ensures shortest { (node : ℕ) (nodes other : List ℕ) → IsPath W.starts W.steps node (Some nodes)
        → IsWalk W.starts W.steps other node → length nodes ≤ length other }
    ensures least { (node place : ℕ) (nodes : List ℕ) → IsPath W.starts W.steps node (Some nodes) → place + 1 < length nodes
        → IsLeastBefore W.starts W.steps place (slice_index nodes place) (slice_index nodes (place + 1)) }
{}

/// No walk leads to a node without a distance. A node with a distance has a walk to it with as many steps.
pub fn no_distance_no_walk<W: Walks>()
    ensures none { (node : ℕ) (nodes : List ℕ) → HasDistance W.starts W.steps node None → IsWalk W.starts W.steps nodes node → ⊥ }
    ensures some { (node distance : ℕ) → HasDistance W.starts W.steps node (Some distance)
        → (nodes : List ℕ) × IsWalk W.starts W.steps nodes node × (length nodes ≡ distance + 1) }
{}
