//! The places of chosen objects, as the objects come.

ghost use Rattle.hprof_keeps.specs.Chosen.{ClassesAscend, ascend-prop};

use crate::choice::{Choice, chosen_object};
use crate::chosen::push_place;
use hprof_items::Fact;
use hprof_passes::ObjectSink;
use hprof_retained::Retained;
use hprof_values::IdSize;
use std::alloc::{AllocError, Global};

/// The places of the objects of a choice that strong references reach.
#[derive(Drop)]
pub(crate) struct PlaceSink<'a> {
    retained: &'a Retained,
    choice: Choice<'a>,
    pub(crate) places: Vec<usize>,
    ghost ascend: { ClassesAscend choice } by { ascend-prop choice },
}

impl<'a> PlaceSink<'a> {
    ghost use Rattle.std.specs.Prelude.{◌≡◌, []};

    /// Returns a sink without places. Allocates nothing.
    pub(crate) fn new(alloc: Global, retained: &'a Retained, choice: Choice<'a>) -> Self
        requires { ClassesAscend choice }
        ensures retained { result.retained.now ≡ retained.now }
        ensures choice { result.choice ≡ choice.entry }
        ensures places { result.places.items ≡ [] }
    {
        PlaceSink {
            retained,
            choice,
            places: Vec::new(alloc),
        }
    }
}

/// Takes the place of each object of the choice. The fault is want of memory.
impl ObjectSink for PlaceSink<'_> {
    ghost use Rattle.std.specs.Prelude.{⊤};
    ghost use Rattle.hprof_keeps.specs.PlaceTaken.{TakesPlace};

    ghost takes = { λ old ids object new. TakesPlace ids object old new };

    ghost refuses = { λ old ids object fault new. ⊤ };

    type Fault = AllocError;

    #[inline(always)]
    fn take(&mut self, _ids: IdSize, object: &Fact<'_>) -> Result<(), AllocError> {
        match chosen_object(&self.choice, object) {
            Some(node) => push_place(self.retained, node, &mut self.places),
            None => Ok(()),
        }
    }
}
