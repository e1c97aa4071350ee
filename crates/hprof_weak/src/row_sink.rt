//! The weak fields of the classes of instances, as the objects come.

use crate::weak_classes::WeakClasses;
use hprof_edges::FieldPlace;
use hprof_items::Fact;
use hprof_passes::ObjectSink;
use hprof_values::IdSize;
use std::alloc::AllocError;

/// The weak fields so far, and the classes of which some may be missing.
#[derive(Drop)]
pub(crate) struct RowSink {
    pub(crate) left: WeakClasses,
    pub(crate) fields: Vec<FieldPlace>,
}

/// Appends the weak fields of the class of each instance. The fault is want of memory.
///
/// An instance with values has at least as many bytes as fields. So an instance adds no more fields than it has bytes.
impl ObjectSink for RowSink {
    ghost use Rattle.std.specs.Prelude.{⊤};
    ghost use Rattle.hprof_weak.specs.Rows.{TakesRow};

    ghost takes = { λ old ids object new. TakesRow old object new };

    ghost refuses = { λ old ids object fault new. ⊤ };

    type Fault = AllocError;

    #[inline(always)]
    fn take(&mut self, _ids: IdSize, object: &Fact<'_>) -> Result<(), AllocError> {
        if let Fact::Instance { class, bytes, .. } = *object {
            self.left
                .put_weak(class, bytes.len() as u64, &mut self.fields)?;
        }
        Ok(())
    }
}
