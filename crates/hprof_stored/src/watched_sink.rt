//! The sink that takes the facts of parts, and shows the objects to another sink as they come.

ghost use Rattle.std.specs.Prelude.{◌≡◌, ◌⊎◌, ◌<◌, ◌-◌, ◌^◌, false, true, Some, None, IfErr, IfOk, OnOk};
ghost use Rattle.hprof_devices.specs.declared.health.Health.TheVariants.{Well};
ghost use Rattle.hprof_items.specs.FactValue.{ListsHave, value_of};
ghost use Rattle.hprof_items.specs.Spelling.{Fits};
ghost use Rattle.hprof_facts.specs.ObjectKeys.{object_key};
ghost use Rattle.hprof_heap.specs.Gathering.{gathered};
ghost use Rattle.hprof_runs.specs.ReadBack.{HoldsNothing};
ghost use Rattle.hprof_stream.specs.Run.{FitsBegun, ListsHaveBegun};
ghost use Rattle.hprof_stored.specs.Watching.{IsAbove};

use crate::stored_sink::StoredSink;
use hprof_devices::Target;
use hprof_items::{Fact, Header};
use hprof_objects::{Keeping, object_id};
use hprof_passes::ObjectSink;
use hprof_placed::PlacedSink;
use hprof_runs::Scratch;
use hprof_stream::{PartPlace, Sink, SinkFault};
use hprof_values::IdSize;
use std::alloc::{AllocError, Global};

/// Takes parts as [`StoredSink`] does, and gives each object also to a sink that watches, if there is one.
///
/// That sink is dropped when it refuses an object, or when an object of a part has no greater identifier than the one before it. Then the
/// parts are taken without it.
#[derive(Drop)]
pub(crate) struct WatchedSink<S: Target + Drop, T> {
    pub(crate) sink: StoredSink<S>,
    /// The size of identifiers that was begun last.
    ids: Option<IdSize>,
    /// The sink that watches.
    pub(crate) watch: Option<T>,
    /// The identifier of the last object of the part that it was given.
    last: Option<u64>,
    // The size is that of the part, while no call answered a fault.
    ghost sized: { sink.failed ≡ false → ids ≡ (gathered sink.gatherer).begun },
}

/// Gives an object to a sink if its identifier is above the last one. Returns whether the sink took it.
#[inline]
fn takes_next<T: ObjectSink>(
    watch: &mut T,
    ids: IdSize,
    last: Option<u64>,
    id: u64,
    object: &Fact<'_>,
) -> bool
where
    T::Fault: Drop,
    requires fits { Fits ids (value_of object.now) }
    requires lists { ListsHave ids object.now }
    ensures took { result ≡ true → T.takes watch.old ids (value_of object.now) watch.new × IsAbove id last }
    ensures refused { result ≡ false → (IsAbove id last → ⊥) ⊎ ((fault : T.Fault) × T.refuses watch.old ids (value_of object.now) fault
        watch.new) }
{
    if let Some(last) = last {
        if id <= last {
            return false;
        }
    }
    watch.take(ids, object).is_ok()
}

impl<S: Scratch + Drop, T: ObjectSink + Drop> WatchedSink<S, T>
where
    T::Fault: Drop,
{
    ghost use Rattle.hprof_stream.specs.declared.limits.Limits.{Limits};
    ghost use Rattle.hprof_stored.specs.Holding.{EndsPart, HoldsAll, nothing_before};
    ghost use Rattle.hprof_stored.specs.Storing.{storing};
    ghost use Rattle.hprof_stored.specs.Watching.{ShowsFact};

    /// Returns a sink that was given nothing.
    pub(crate) fn new(
        alloc: Global,
        scratch: S,
        keeping: Keeping,
        watch: Option<T>,
    ) -> Result<Self, AllocError>
        requires nothing { HoldsNothing (S.written scratch) }
        requires well { S.health scratch ≡ Well }
        ensures holds { IfOk result (λ it. (limits : Limits)
            → HoldsAll S.written S.health limits (nothing_before (S.written scratch)) (storing it.sink)) }
        ensures watch { IfOk result (λ it. it.watch ≡ watch) }
    {
        Ok(WatchedSink {
            sink: StoredSink::new(alloc, scratch, keeping)?,
            ids: None,
            watch,
            last: None,
        })
    }

    /// Ends the part that is being read.
    pub(crate) fn end_part(&mut self)
        requires { self.old.sink.part < 2 ^ 64 - 1 }
        ensures stored { EndsPart S.written S.health (storing self.old.sink) (storing self.new.sink) }
        ensures watch { self.new.watch ≡ self.old.watch }
    {
        self.sink.end_part();
    }

    /// Gives a fact to the sink that watches, if it is an object.
    #[inline]
    fn show(&mut self, fact: &Fact<'_>)
        requires fits { FitsBegun self.old.ids (value_of fact.now) }
        requires lists { ListsHaveBegun self.old.ids fact.now }
        ensures shown { (ids : IdSize) → self.old.ids ≡ Some ids
            → ShowsFact T.takes T.refuses ids (value_of fact.now) (object_key (value_of fact.now)) self.old.watch self.old.last
            self.new.watch self.new.last }
        ensures sink { self.new.sink ≡ self.old.sink }
    {
        let Some(id) = object_id(fact) else {
            return;
        };
        let Some(ids) = self.ids else {
            // A part was begun.
            unreachable!()
        };
        let Some(watch) = &mut self.watch else {
            return;
        };
        if takes_next(watch, ids, self.last, id, fact) {
            self.last = Some(id);
        } else {
            self.watch = None;
        }
    }
}

impl<S: Scratch + Drop, T: ObjectSink + Drop> Sink for WatchedSink<S, T>
where
    T::Fault: Drop,
{
    ghost use Rattle.hprof_stored.specs.Storing.{RefusesStored, storing};
    ghost use Rattle.hprof_stored.specs.WatchedSink.{BeginsWatched, StepsWatched};

    ghost begins = { λ old header new. BeginsWatched S.written S.health T.takes T.refuses old header new };

    ghost steps = { λ old fact new. StepsWatched S.written S.health T.takes T.refuses old fact new };

    ghost begun = { λ it. (gathered it.sink.gatherer).begun };

    ghost failed = { λ it. it.sink.failed };

    ghost refuses = { λ old given fault new. RefusesStored (storing old.sink) given fault (storing new.sink) };

    fn begin_part(&mut self, header: Header) -> Result<(), SinkFault> {
        self.sink.begin_part(header)?;
        self.ids = Some(header.ids);
        self.last = None;
        Ok(())
    }

    #[inline]
    fn take(&mut self, fact: &Fact<'_>, spelled: &[u8]) -> Result<(), SinkFault> {
        self.sink.take(fact, spelled)?;
        if self.watch.is_some() {
            self.show(fact);
        }
        Ok(())
    }
}

impl<S: Scratch + Drop, T: ObjectSink + Drop> PlacedSink for WatchedSink<S, T>
where
    T::Fault: Drop,
{
    ghost use Rattle.hprof_stored.specs.WatchedSink.{EarlierWatched, HoldsWatchedSink};
    ghost use Rattle.hprof_stored.specs.WatchedLaws.{watched_begun, watched_taken};

    ghost Earlier = { EarlierWatched T };

    ghost holds = { λ it limits earlier header bytes facts.
        HoldsWatchedSink S.written S.health T.takes T.refuses limits earlier header bytes facts it };

    ghost begins_part = { λ old header new begins limits earlier bytes held.
        watched_begun S.written S.health T.takes T.refuses limits earlier header bytes old new begins held };

    ghost takes_fact = { λ old fact new steps limits earlier header bytes facts held.
        watched_taken S.written S.health T.takes T.refuses limits earlier header bytes facts fact old new steps held };

    fn note(&mut self, place: PartPlace) {
        self.sink.note(place);
    }
}
