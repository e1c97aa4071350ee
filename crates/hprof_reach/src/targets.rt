//! A collector of the targets of edges.

use hprof_edges::{Collect, Edge};
use hprof_layouts::Wanted;
use std::alloc::AllocError;

/// The targets of the edges that were put, in that order.
#[derive(Drop)]
pub(crate) struct Targets {
    pub(crate) list: Vec<u64>,
}

/// Collects the targets of all edges.
impl Collect for Targets {
    ghost use Rattle.std.specs.Prelude.{◌≡◌, map};
    ghost use Rattle.hprof_reach.specs.KeptTargets.{targets_alike};

    ghost holds = { λ targets edges. targets.list.items ≡ map (λ edge. edge.to) edges };

    ghost same_kept = { targets_alike };

    /// Wants all edges.
    #[inline(always)]
    fn wanted(&self) -> Wanted {
        Wanted::All
    }

    #[inline(always)]
    fn put(&mut self, edge: Edge) -> Result<(), AllocError> {
        self.list.push(edge.to)?;
        Ok(())
    }
}
