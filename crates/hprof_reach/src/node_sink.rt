//! The identifiers of objects, as they come.

use crate::nodes::{id_of, push_node};
use hprof_heap::to_object_dump;
use hprof_items::Fact;
use hprof_passes::ObjectSink;
use hprof_values::IdSize;
use std::alloc::AllocError;

/// The identifiers that were collected. An object of identifier 0 is no node.
#[derive(Drop)]
pub(crate) struct NodeSink {
    pub(crate) nodes: Vec<u64>,
}

/// Collects the identifier of each object. The fault is want of memory.
impl ObjectSink for NodeSink {
    ghost use Rattle.std.specs.Prelude.{⊤};
    ghost use Rattle.hprof_reach.specs.NodesSeen.{TakesNode};

    ghost takes = { TakesNode };

    ghost refuses = { λ old ids object fault new. ⊤ };

    type Fault = AllocError;

    #[inline(always)]
    fn take(&mut self, _ids: IdSize, object: &Fact<'_>) -> Result<(), AllocError> {
        if let Some(dump) = to_object_dump(object) {
            push_node(&mut self.nodes, id_of(&dump))?;
        }
        Ok(())
    }
}
