//! A collector of all wanted edges.

ghost use Rattle.std.specs.Prelude.{◌≡◌, []};

use crate::collect::Collect;
use crate::edge::Edge;
use hprof_layouts::Wanted;
use std::alloc::{AllocError, Global};

/// The edges to the wanted identifiers, among those that were put.
#[derive(Drop)]
pub struct EdgeSet {
    /// The edges, in any order. An edge that was put twice may be there twice.
    pub edges: Vec<Edge>,
    wanted: Wanted,
}

impl EdgeSet {
    ghost use Rattle.hprof_edges.specs.EdgeSet.{SetOf, wanted_in};

    /// Returns an empty set that collects the edges to the wanted identifiers. Allocates nothing.
    pub fn new(alloc: Global, wanted: Wanted) -> EdgeSet
        ensures none { SetOf result [] }
        ensures wanted { wanted_in result ≡ wanted }
    {
        EdgeSet {
            edges: Vec::new(alloc),
            wanted,
        }
    }
}

/// Collects the edges to the wanted identifiers.
impl Collect for EdgeSet {
    ghost use Rattle.hprof_edges.specs.Collecting.{is_edge_wanted};
    ghost use Rattle.hprof_edges.specs.EdgeSet.{SetOf, set_alike, wanted_in};

    ghost holds = { SetOf };

    ghost keeps = { λ set. is_edge_wanted (wanted_in set) };

    ghost same_kept = { set_alike };

    #[inline(always)]
    fn wanted(&self) -> Wanted {
        self.wanted
    }

    #[inline(always)]
    fn put(&mut self, edge: Edge) -> Result<(), AllocError> {
        if self.wanted.wants(edge.to) {
            self.edges.push(edge)?;
        }
        Ok(())
    }
}
