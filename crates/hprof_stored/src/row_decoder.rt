//! A sink of rows that gives the objects that they spell to a sink of objects.

ghost use Rattle.std.specs.Prelude.{◌≡◌};

use crate::object_row::read_object;
use hprof_items::Fact;
use hprof_merge::RowSink;
use hprof_passes::ObjectSink;
use hprof_values::IdSize;

/// The reason why a row is refused.
#[derive(Clone, Copy, Debug, PartialEq, Eq)]
pub(crate) enum RowRefusal<E> {
    /// Its bytes are not the sub-record of an object.
    NoObject,
    /// The sink of objects refused the object.
    Sink(E),
}

/// A sink of rows, whose bytes are sub-records of objects. It gives each object to a sink of objects.
#[derive(Drop)]
pub(crate) struct RowDecoder<'a, T> {
    ids: IdSize,
    sink: &'a mut T,
}

impl<'a, T> RowDecoder<'a, T> {
    ghost use Rattle.hprof_stored.specs.RowDecoder.{IsOver, sink_under};

    /// Returns a sink of rows that gives objects to this sink. The objects have identifiers of this size.
    pub(crate) fn new(ids: IdSize, sink: &'a mut T) -> Self
        ensures state { sink_under result ≡ sink.old }
        ensures over { IsOver result ids sink.entry }
    {
        RowDecoder { ids, sink }
    }
}

impl<T: ObjectSink> RowSink for RowDecoder<'_, T> {
    ghost use Rattle.std.specs.Prelude.{⊤};
    ghost use Rattle.hprof_stored.specs.RowDecoder.{GivesNone, GivesObject};

    ghost steps = { GivesObject T.takes };

    ghost refuses = { GivesNone T.refuses };

    ghost well = { λ it. ⊤ };

    type Fault = RowRefusal<T::Fault>;

    fn take(&mut self, _key: u64, bytes: &[u8]) -> Result<(), RowRefusal<T::Fault>> {
        let mut object = Fact::End { thread: 0 };
        if !read_object(bytes, self.ids, &mut object) {
            return Err(RowRefusal::NoObject);
        }
        match self.sink.take(self.ids, &object) {
            Ok(()) => Ok(()),
            Err(fault) => Err(RowRefusal::Sink(fault)),
        }
    }
}
