//! The edges to an identifier, which are collected of objects as they come.

use crate::edge_set::EdgeSet;
use crate::of_object::object_edges;
use hprof_heap::to_object_dump;
use hprof_items::Fact;
use hprof_layouts::{KnownLayouts, Reference};
use hprof_passes::ObjectSink;
use hprof_values::IdSize;
use std::alloc::AllocError;

/// The edges to an identifier that were collected.
#[derive(Drop)]
pub(crate) struct ReferrerSink {
    /// The layouts of the heap's classes.
    pub(crate) known: KnownLayouts,
    pub(crate) set: EdgeSet,
    /// Scratch space.
    pub(crate) references: Vec<Reference>,
}

/// Collects the edges of each object. The fault is want of memory.
impl ObjectSink for ReferrerSink {
    ghost use Rattle.std.specs.Prelude.{⊤};
    ghost use Rattle.hprof_edges.specs.ReferrersSeen.{TakesEdges};

    ghost takes = { λ old ids object new. TakesEdges ids object old new };

    ghost refuses = { λ old ids object fault new. ⊤ };

    type Fault = AllocError;

    #[inline(always)]
    fn take(&mut self, ids: IdSize, object: &Fact<'_>) -> Result<(), AllocError> {
        let Some(dump) = to_object_dump(object) else {
            return Ok(());
        };
        object_edges(&self.known, &dump, ids, &mut self.references, &mut self.set)?;
        Ok(())
    }
}
