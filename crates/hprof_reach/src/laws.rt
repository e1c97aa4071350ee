//! Laws of the definitions. The contract of each function is a theorem; its body is empty.

ghost use Rattle.std.specs.Prelude.{◌≡◌, ◌↔◌, ◌+◌, ◌<◌, ◌≤◌, ℕ, List, Option, Some, None, length, slice_index};
ghost use Rattle.hprof_values.specs.declared.ids.IdSize.{IdSize};
ghost use Rattle.hprof_items.specs.FactValue.{FactValue};
ghost use Rattle.hprof_rows.specs.Conflict.{IsConsistent};
ghost use Rattle.hprof_search.specs.Walks.{IsLeastBefore, IsWalk};
ghost use Rattle.hprof_values.specs.declared.root.Root.{Root};
ghost use Rattle.hprof_rows.specs.Order.{IsCanonicalOrder};
ghost use Rattle.hprof_edges.specs.declared.edge.Edge.{Edge};
ghost use Rattle.hprof_edges.specs.declared.field_place.FieldPlace.{FieldPlace};
ghost use Rattle.hprof_edges.specs.Edges.{IsEdge};
ghost use Rattle.hprof_edges.specs.LeftOut.{IsKept};
ghost use Rattle.hprof_reach.specs.declared.reach.Reach.{Reach};
ghost use Rattle.hprof_reach.specs.Reaching.{IsDistanceBy, IsDistanceFromRoots, IsPathBy, IsPathFromRoots, IsReachBy, IsStart, IsStep};
ghost use Rattle.hprof_reach.specs.Reaching.{IsStepBy};
ghost use Rattle.hprof_reach.specs.Roots.{AreRootsOf};

use hprof_edges::laws::TwoChoices;

/// An identifier has at most one distance and at most one path.
pub fn one_distance_and_path()
    ensures distance { (ids : IdSize) (facts : List FactValue) (id : ℕ) (one other : Option ℕ)
        → IsDistanceFromRoots ids facts id one → IsDistanceFromRoots ids facts id other → one ≡ other }
    ensures path { (ids : IdSize) (facts : List FactValue) (id : ℕ) (one other : Option (List ℕ))
        → IsPathFromRoots ids facts id one → IsPathFromRoots ids facts id other → one ≡ other }
{}

/// The path to an identifier starts at a node that a root keeps alive, and has as many steps as the identifier's distance. No walk to it is
/// shorter. Each node on the path is the least of the nodes at its distance that have a step to the next.
pub fn path_is_shortest()
    ensures walk { (ids : IdSize) (facts : List FactValue) (id : ℕ) (nodes : List ℕ) → IsPathFromRoots ids facts id (Some nodes)
        → IsWalk (IsStart facts) (IsStep ids facts) nodes id }
    ensures counted { (ids : IdSize) (facts : List FactValue) (id distance : ℕ) (nodes : List ℕ)
        → IsPathFromRoots ids facts id (Some nodes) → IsDistanceFromRoots ids facts id (Some distance)
        → length nodes ≡ distance + 1 }
    ensures shortest { (ids : IdSize) (facts : List FactValue) (id : ℕ) (nodes other : List ℕ)
        → IsPathFromRoots ids facts id (Some nodes) → IsWalk (IsStart facts) (IsStep ids facts) other id
        → length nodes ≤ length other }
    ensures least { (ids : IdSize) (facts : List FactValue) (id place : ℕ) (nodes : List ℕ)
        → IsPathFromRoots ids facts id (Some nodes) → place + 1 < length nodes
        → IsLeastBefore (IsStart facts) (IsStep ids facts) place (slice_index nodes place) (slice_index nodes (place + 1)) }
{}

/// No walk from a root leads to an identifier without a distance. An identifier with a distance has a walk to it with as many steps.
pub fn no_distance_no_walk()
    ensures none { (ids : IdSize) (facts : List FactValue) (id : ℕ) (nodes : List ℕ) → IsDistanceFromRoots ids facts id None
        → IsWalk (IsStart facts) (IsStep ids facts) nodes id → ⊥ }
    ensures some { (ids : IdSize) (facts : List FactValue) (id distance : ℕ) → IsDistanceFromRoots ids facts id (Some distance)
        → (nodes : List ℕ) × IsWalk (IsStart facts) (IsStep ids facts) nodes id × (length nodes ≡ distance + 1) }
{}

/// If facts agree, each identifier has a result for its distance and for its path, which may be that there is none.
pub fn some_distance_and_path()
    ensures distance { (ids : IdSize) (facts : List FactValue) (id : ℕ) → IsConsistent facts
        → (distance : Option ℕ) × IsDistanceFromRoots ids facts id distance }
    ensures path { (ids : IdSize) (facts : List FactValue) (id : ℕ) → IsConsistent facts
        → (path : Option (List ℕ)) × IsPathFromRoots ids facts id path }
{}

/// If facts agree, each identifier has such results by the edges that are kept without those by any fields.
pub fn some_kept_distance_and_path()
    ensures distance { (ids : IdSize) (facts : List FactValue) (fields : List FieldPlace) (id : ℕ) → IsConsistent facts
        → (distance : Option ℕ) × IsDistanceBy (IsKept fields facts) ids facts id distance }
    ensures path { (ids : IdSize) (facts : List FactValue) (fields : List FieldPlace) (id : ℕ) → IsConsistent facts
        → (path : Option (List ℕ)) × IsPathBy (IsKept fields facts) ids facts id path }
{}

/// An object has at most one list of roots, and exactly one if the facts are in canonical order.
pub fn one_list_of_roots()
    ensures exists { (facts : List FactValue) (id : ℕ) → IsCanonicalOrder facts → (roots : List Root) × AreRootsOf facts id roots }
    ensures once { (facts : List FactValue) (id : ℕ) (one other : List Root) → AreRootsOf facts id one → AreRootsOf facts id other
        → one ≡ other }
{}

/// A walk along some edges is one along more edges. What more edges do not reach, fewer do not reach, and a distance by more edges is no
/// greater than by fewer.
pub fn more_edges_reach_more<C: TwoChoices>()
    ensures walk { (ids : IdSize) (facts : List FactValue) → ((edge : Edge) → IsEdge ids facts edge → C.one edge → C.other edge)
        → (nodes : List ℕ) (id : ℕ) → IsWalk (IsStart facts) (IsStepBy C.one ids facts) nodes id
        → IsWalk (IsStart facts) (IsStepBy C.other ids facts) nodes id }
    ensures unreached { (ids : IdSize) (facts : List FactValue) → ((edge : Edge) → IsEdge ids facts edge → C.one edge → C.other edge)
        → (id : ℕ) → IsDistanceBy C.other ids facts id None → IsDistanceBy C.one ids facts id None }
    ensures nearer { (ids : IdSize) (facts : List FactValue) → ((edge : Edge) → IsEdge ids facts edge → C.one edge → C.other edge)
        → (id far near : ℕ) → IsDistanceBy C.one ids facts id (Some far) → IsDistanceBy C.other ids facts id (Some near) → near ≤ far }
{}

/// Two choices that agree on the edges of the facts give the same distances and the same paths. A search by one is a search by the other.
pub fn same_edges_same_paths<C: TwoChoices>()
    ensures distance { (ids : IdSize) (facts : List FactValue) → ((edge : Edge) → IsEdge ids facts edge → C.one edge ↔ C.other edge)
        → (id : ℕ) (distance : Option ℕ) → IsDistanceBy C.one ids facts id distance → IsDistanceBy C.other ids facts id distance }
    ensures path { (ids : IdSize) (facts : List FactValue) → ((edge : Edge) → IsEdge ids facts edge → C.one edge ↔ C.other edge)
        → (id : ℕ) (path : Option (List ℕ)) → IsPathBy C.one ids facts id path → IsPathBy C.other ids facts id path }
    ensures reach { (ids : IdSize) (facts : List FactValue) → ((edge : Edge) → IsEdge ids facts edge → C.one edge ↔ C.other edge)
        → (reach : Reach) → IsReachBy C.one ids facts reach → IsReachBy C.other ids facts reach }
{}
