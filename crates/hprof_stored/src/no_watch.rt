//! A sink of objects that takes none.

use hprof_items::Fact;
use hprof_passes::ObjectSink;
use hprof_values::IdSize;
use std::convert::Infallible;

/// The sink that watches parts for which no other sink does. It passes each object by.
#[derive(Drop)]
pub(crate) struct NoWatch;

impl ObjectSink for NoWatch {
    ghost use Rattle.std.specs.Prelude.{⊤};

    ghost takes = { λ old ids object new. ⊤ };

    ghost refuses = { λ old ids object fault new. ⊥ };

    type Fault = Infallible;

    fn take(&mut self, _ids: IdSize, _object: &Fact<'_>) -> Result<(), Infallible> {
        Ok(())
    }
}
