//! A sink of objects that gives another sink the wanted ones.

ghost use Rattle.std.specs.Prelude.{◌≡◌};
ghost use Rattle.std.specs.List.Sorted.{IsStrictlyIncreasing};
ghost use Rattle.hprof_items.specs.FactValue.{value_of};
ghost use Rattle.hprof_passes.specs.Picked.{ascends-prop, object_of};

use crate::object_sink::ObjectSink;
use hprof_items::Fact;
use hprof_values::IdSize;

/// A sink that gives the objects whose identifiers are wanted to another sink, and passes over the others.
#[derive(Drop)]
pub struct Picking<'a, T> {
    // They ascend strictly.
    wanted: &'a [u64],
    sink: &'a mut T,
    ghost ascends: { IsStrictlyIncreasing wanted.now } by { ascends-prop wanted.now },
}

/// Returns the identifier of an instance or an array, or `None` for any other fact.
#[inline(always)]
fn object_id(fact: &Fact<'_>) -> Option<u64>
    ensures { result ≡ object_of (value_of fact.now) }
{
    match *fact {
        Fact::Instance { id, .. } | Fact::ObjArray { id, .. } | Fact::PrimArray { id, .. } => {
            Some(id)
        }
        _ => None,
    }
}

impl<'a, T> Picking<'a, T> {
    ghost use Rattle.hprof_passes.specs.Picked.{is_wanted};
    ghost use Rattle.hprof_passes.specs.Picking.{PicksInto, sink_under, wanted_by};

    /// Returns a sink that gives the objects with these identifiers, which ascend strictly, to another sink.
    pub fn new(wanted: &'a [u64], sink: &'a mut T) -> Self
        requires { IsStrictlyIncreasing wanted.now }
        ensures state { sink_under result ≡ sink.old }
        ensures into { PicksInto result wanted.now sink.entry }
    {
        Picking { wanted, sink }
    }

    /// Returns whether an object is wanted.
    #[inline(always)]
    fn wants(&self, object: &Fact<'_>) -> bool
        ensures { result ≡ is_wanted (wanted_by self.now) (value_of object.now) }
    {
        match object_id(object) {
            Some(id) => self.wanted.binary_search(&id).is_ok(),
            None => false,
        }
    }
}

/// The fault is that of the other sink, which refused a wanted object.
impl<T: ObjectSink> ObjectSink for Picking<'_, T> {
    ghost use Rattle.hprof_passes.specs.Picking.{PicksObject, RefusesPicked};

    ghost takes = { PicksObject T.takes };

    ghost refuses = { RefusesPicked T.refuses };

    type Fault = T::Fault;

    #[inline(always)]
    fn take(&mut self, ids: IdSize, object: &Fact<'_>) -> Result<(), T::Fault> {
        if !self.wants(object) {
            return Ok(());
        }
        self.sink.take(ids, object)
    }
}
