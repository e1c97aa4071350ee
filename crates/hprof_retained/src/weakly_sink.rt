//! The bytes of objects that only weak references reach, as they are picked.

ghost use Rattle.std.specs.Prelude.{◌≡◌, ◌≤◌, ◌+◌, ◌*◌, ◌^◌, vec_len};

use crate::sizes::bytes_of_dump;
use hprof_heap::to_object_dump;
use hprof_items::Fact;
use hprof_passes::ObjectSink;
use hprof_reach::id_of;
use hprof_values::IdSize;
use std::alloc::{AllocError, Global};

/// Objects, and the bytes of their fields and elements.
#[derive(Drop)]
pub(crate) struct WeaklySink {
    nodes: Vec<u64>,
    pub(crate) bytes: u128,
    ghost few: { bytes + vec_len nodes ≤ vec_len nodes * 2 ^ 64 },
}

impl WeaklySink {
    ghost use Rattle.std.specs.Prelude.{◌∷◌, ◌++◌, [], OnOk};

    /// Returns a sink without objects. Allocates nothing.
    pub(crate) fn new(alloc: Global) -> Self
        ensures nodes { result.nodes.items ≡ [] }
        ensures bytes { result.bytes ≡ 0 }
    {
        WeaklySink {
            nodes: Vec::new(alloc),
            bytes: 0,
        }
    }

    /// Appends a node and adds its bytes.
    fn put(&mut self, node: u64, size: u64) -> Result<(), AllocError>
        ensures nodes { OnOk result (self.new.nodes.items ≡ self.old.nodes.items ++ node ∷ []) }
        ensures bytes { OnOk result (self.new.bytes ≡ self.old.bytes + size) }
    {
        self.nodes.push(node)?;
        self.bytes += size as u128;
        Ok(())
    }
}

/// Takes each object that comes. The fault is want of memory.
impl ObjectSink for WeaklySink {
    ghost use Rattle.std.specs.Prelude.{⊤};
    ghost use Rattle.hprof_retained.specs.WeaklyTaken.{TakesWeakly};

    ghost takes = { λ old ids object new. TakesWeakly ids object old new };

    ghost refuses = { λ old ids object fault new. ⊤ };

    type Fault = AllocError;

    #[inline(always)]
    fn take(&mut self, ids: IdSize, object: &Fact<'_>) -> Result<(), AllocError> {
        let Some(dump) = to_object_dump(object) else {
            return Ok(());
        };
        self.put(id_of(&dump), bytes_of_dump(&dump, ids))
    }
}
