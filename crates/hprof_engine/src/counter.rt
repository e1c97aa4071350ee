//! A gatherer that counts parts.

ghost use Rattle.std.specs.Prelude.{◌≡◌};

use hprof_heap::Gatherer;
use hprof_items::{Fact, Header};
use hprof_stream::{Sink, SinkFault};
use std::alloc::Global;

/// A gatherer, with the number of headers that it was given. The number stops at the greatest there is.
#[derive(Drop)]
pub(crate) struct PartCounter {
    pub(crate) gatherer: Gatherer,
    pub(crate) parts: usize,
}

impl PartCounter {
    ghost use Rattle.hprof_heap.specs.Gathering.{gathered, nothing_gathered};

    /// Returns one that was given nothing. It allocates nothing.
    pub(crate) fn new(alloc: Global) -> Self
        ensures nothing { gathered result.gatherer ≡ nothing_gathered }
        ensures none { result.parts ≡ 0 }
    {
        PartCounter {
            gatherer: Gatherer::new(alloc),
            parts: 0,
        }
    }
}

impl Sink for PartCounter {
    ghost use Rattle.std.specs.Prelude.{◌≡◌, false, min, ◌+◌, ◌-◌, ◌^◌};
    ghost use Rattle.hprof_stream.specs.declared.sink.SinkFault.TheVariants.{OutOfMemory};
    ghost use Rattle.hprof_heap.specs.Gathering.{gathered, Begins, Takes, LacksRow};

    ghost begins = { λ old header new. Begins (gathered old.gatherer) header (gathered new.gatherer)
        × (new.parts ≡ min (old.parts + 1) (2 ^ 64 - 1)) };

    ghost steps = { λ old fact new. Takes (gathered old.gatherer) fact (gathered new.gatherer) × (new.parts ≡ old.parts) };

    ghost begun = { λ counter. (gathered counter.gatherer).begun };

    ghost failed = { λ counter. (gathered counter.gatherer).failed };

    ghost refuses = { λ counter given fault _. (gathered counter.gatherer).failed ≡ false → (fault ≡ OutOfMemory)
        × LacksRow (gathered counter.gatherer) given };

    fn begin_part(&mut self, header: Header) -> Result<(), SinkFault> {
        self.gatherer.begin_part(header)?;
        self.parts = self.parts.saturating_add(1);
        Ok(())
    }

    fn take(&mut self, fact: &Fact<'_>, spelled: &[u8]) -> Result<(), SinkFault> {
        self.gatherer.take(fact, spelled)
    }
}
