//! A sink of rows that gives the wanted ones to another sink.

ghost use Rattle.std.specs.Prelude.{◌≡◌, true, IfErr, OnOk};
ghost use Rattle.hprof_objects.specs.PickingSink.{TakesIf};
ghost use Rattle.hprof_objects.specs.Wanted.{AreFrom, Rises, is_among};

use crate::wanted::{from_key, is_next};
use hprof_merge::RowSink;

/// Gives a row to a sink if its key is the first of the wanted ones, none of which is below it.
#[inline(always)]
pub(crate) fn give<T: RowSink>(
    wanted: &[u64],
    key: u64,
    bytes: &[u8],
    sink: &mut T,
) -> Result<(), T::Fault>
    requires rises { Rises wanted.now }
    requires from { AreFrom key wanted.now }
    requires sink { T.well sink.old }
    ensures took { OnOk result (TakesIf T.steps (is_among wanted.now key) sink.old key bytes.now sink.new) }
    ensures well { OnOk result (T.well sink.new) }
    ensures refused { IfErr result (λ fault. (is_among wanted.now key ≡ true) × T.refuses sink.old key bytes.now fault sink.new) }
{
    if !is_next(wanted, key) {
        return Ok(());
    }
    sink.take(key, bytes)
}

/// A sink of rows, which come in ascending order of key. It gives those whose keys are wanted to another sink, and passes over the others.
#[derive(Drop)]
pub(crate) struct PickingSink<'a, T> {
    /// The wanted keys, in ascending order, but those below the last row.
    wanted: &'a [u64],
    sink: &'a mut T,
}

impl<'a, T> PickingSink<'a, T> {
    ghost use Rattle.hprof_objects.specs.PickingSink.{IsOver, sink_under, wanted_under};

    /// Returns a sink that gives the rows with these keys to another one.
    pub(crate) fn new(wanted: &'a [u64], sink: &'a mut T) -> Self
        ensures wanted { wanted_under result ≡ wanted.now }
        ensures state { sink_under result ≡ sink.old }
        ensures over { IsOver result sink.entry }
    {
        PickingSink { wanted, sink }
    }
}

impl<T: RowSink> RowSink for PickingSink<'_, T> {
    ghost use Rattle.hprof_objects.specs.PickingSink.{IsWell, PicksRow, RefusesPicked};

    ghost steps = { PicksRow T.steps };

    ghost refuses = { RefusesPicked T.refuses };

    ghost well = { IsWell T.well };

    type Fault = T::Fault;

    #[inline(always)]
    fn take(&mut self, key: u64, bytes: &[u8]) -> Result<(), T::Fault> {
        self.wanted = from_key(self.wanted, key);
        give(self.wanted, key, bytes, self.sink)
    }
}
