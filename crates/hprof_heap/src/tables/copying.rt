//! Copying the tables of a heap.

ghost use Rattle.std.specs.Prelude.{◌≡◌, [], IfOk};
ghost use Rattle.hprof_rows.specs.RootSet.{roots_of};
ghost use Rattle.hprof_heap.specs.Tables.{rows_in_tables};

use super::Tables;
use hprof_byte_tables::BytesTable;
use hprof_rows::RootSet;
use std::alloc::{AllocError, Global};

/// Returns a set with the same roots. If memory runs out, the answer is `AllocError`.
fn copied_roots(alloc: Global, roots: &RootSet) -> Result<RootSet, AllocError>
    ensures { IfOk result (λ copied. roots_of copied ≡ roots_of roots.now) }
{
    let mut copied = RootSet::new(alloc);
    copied.join(roots)?;
    Ok(copied)
}

impl Tables {
    /// Returns a copy of the tables with an empty one for the objects. If memory runs out, the answer is `AllocError`.
    pub(crate) fn without_objects(&self, alloc: Global) -> Result<Tables, AllocError>
        ensures { IfOk result (λ others. rows_in_tables others ≡ record (rows_in_tables self.now) { objects = [] }) }
    {
        Ok(Tables {
            ids: self.ids,
            millis: self.millis,
            names: self.names.copied(alloc)?,
            loads: self.loads.copied(alloc)?,
            unloads: self.unloads.copied(alloc)?,
            frames: self.frames.copied(alloc)?,
            traces: self.traces.copied(alloc)?,
            starts: self.starts.copied(alloc)?,
            ends: self.ends.copied(alloc)?,
            roots: copied_roots(alloc, &self.roots)?,
            classes: self.classes.copied(alloc)?,
            objects: BytesTable::new(alloc),
        })
    }
}
