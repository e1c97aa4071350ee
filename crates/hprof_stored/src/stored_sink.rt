//! The sink that takes the facts of parts, and keeps the objects apart.

ghost use Rattle.std.specs.Prelude.{◌≡◌, ◌<◌, ◌+◌, ◌-◌, ◌^◌, ◌∷◌, [], ℕ, List, false, true, Some, None, IfOk, IfErr, OnOk};
ghost use Rattle.hprof_devices.specs.declared.health.Health.TheVariants.{Well};
ghost use Rattle.hprof_items.specs.FactValue.{FactValue, value_of};
ghost use Rattle.hprof_objects.specs.Log.{scratch_of_log};
ghost use Rattle.hprof_facts.specs.ObjectKeys.{object_key};
ghost use Rattle.hprof_runs.specs.ReadBack.{HoldsNothing};
ghost use Rattle.hprof_stream.specs.Run.{FitsBegun, ListsHaveBegun, SpellsBegun};
ghost use Rattle.hprof_stream.specs.declared.limits.Limits.{Limits};

use hprof_devices::Target;
use hprof_heap::Gatherer;
use hprof_items::{Fact, Header};
use hprof_objects::{Keeping, ObjectLog, object_id};
use hprof_placed::PlacedSink;
use hprof_runs::{Scratch, ScratchFault};
use hprof_stream::{PartPlace, Sink, SinkFault};
use std::alloc::{AllocError, Global};

/// Takes parts, one after the other: all facts but objects go to a gatherer, and the objects to a log.
///
/// If the scratch takes no more objects, the fault is `Failed`. If memory runs out, it is `OutOfMemory`.
#[derive(Drop)]
pub(crate) struct StoredSink<S: Target + Drop> {
    pub(crate) gatherer: Gatherer,
    pub(crate) log: ObjectLog<S>,
    /// The number of the part that is being read, or that comes next.
    pub(crate) part: usize,
    /// The last place that was told before the header of the part.
    place: Option<PartPlace>,
    /// Whether the header of the part came.
    within: bool,
    pub(crate) failed: bool,
    /// Why the scratch took no more.
    pub(crate) full: Option<ScratchFault>,
    // The scratch is well while no call answered a fault.
    ghost well: { failed ≡ false → S.health (scratch_of_log log) ≡ Well },
}

impl<S: Scratch + Drop> StoredSink<S> {
    ghost use Rattle.hprof_heap.specs.Gathering.{gathered};
    ghost use Rattle.hprof_stored.specs.Holding.{EndsBare, EndsPart, HoldsAll, nothing_before};
    ghost use Rattle.hprof_stored.specs.Storing.{storing, StepsStored, RefusesStored};

    /// Returns a sink that was given nothing.
    pub fn new(alloc: Global, scratch: S, keeping: Keeping) -> Result<Self, AllocError>
        requires nothing { HoldsNothing (S.written scratch) }
        requires well { S.health scratch ≡ Well }
        ensures holds { IfOk result (λ sink. (limits : Limits)
            → HoldsAll S.written S.health limits (nothing_before (S.written scratch)) (storing sink)) }
        ensures begun { IfOk result (λ sink. (gathered sink.gatherer).begun ≡ None) }
    {
        let log = ObjectLog::new(alloc, scratch, keeping)?;
        Ok(StoredSink {
            gatherer: Gatherer::new(alloc),
            log,
            part: 0,
            place: None,
            within: false,
            failed: false,
            full: None,
        })
    }

    /// Ends the part that is being read.
    pub(crate) fn end_part(&mut self)
        requires { self.old.part < 2 ^ 64 - 1 }
        ensures { EndsPart S.written S.health (storing self.old) (storing self.new) }
    {
        self.log.note(None);
        self.log.end();
        self.part += 1;
        self.place = None;
        self.within = false;
    }

    /// Ends the part that is being read, of which no header may have come, and returns whether it came.
    pub(crate) fn leave_part(&mut self) -> bool
        requires { self.old.part < 2 ^ 64 - 1 }
        ensures came { self.old.within ≡ true → (result ≡ true) × EndsPart S.written S.health (storing self.old) (storing self.new) }
        ensures bare { self.old.within ≡ false → (result ≡ false) × EndsBare (storing self.old) (storing self.new) }
    {
        if self.within {
            self.end_part();
            return true;
        }
        self.part += 1;
        self.place = None;
        false
    }

    /// Takes an object.
    fn take_object(&mut self, fact: &Fact<'_>, id: u64, spelled: &[u8]) -> Result<(), SinkFault>
        requires sound { self.old.failed ≡ false }
        requires object { object_key (value_of fact.now) ≡ Some id }
        requires fits { FitsBegun (gathered self.old.gatherer).begun (value_of fact.now) }
        requires spelled { SpellsBegun (gathered self.old.gatherer).begun (value_of fact.now) spelled.now }
        ensures steps { OnOk result (StepsStored S.written S.health (storing self.old) (value_of fact.now) (storing self.new)) }
        ensures begun { (gathered self.new.gatherer).begun ≡ (gathered self.old.gatherer).begun }
        ensures well { OnOk result (self.new.failed ≡ false) }
        ensures err { IfErr result (λ fault. RefusesStored (storing self.old) (value_of fact.now ∷ []) fault (storing self.new)
            × (self.new.failed ≡ true)) }
    {
        self.failed = true;
        match self.log.take(id, spelled) {
            Ok(()) => {
                self.failed = false;
                Ok(())
            }
            Err(ScratchFault::OutOfMemory) => Err(SinkFault::OutOfMemory),
            Err(ScratchFault::Full) => {
                self.full = Some(ScratchFault::Full);
                Err(SinkFault::Failed)
            }
            Err(ScratchFault::Write(fault)) => {
                self.full = Some(ScratchFault::Write(fault));
                Err(SinkFault::Failed)
            }
        }
    }

    /// Takes a fact that is no object.
    fn take_other(&mut self, fact: &Fact<'_>, spelled: &[u8]) -> Result<(), SinkFault>
        requires sound { self.old.failed ≡ false }
        requires other { object_key (value_of fact.now) ≡ None }
        requires fits { FitsBegun (gathered self.old.gatherer).begun (value_of fact.now) }
        requires lists { ListsHaveBegun (gathered self.old.gatherer).begun fact.now }
        requires spelled { SpellsBegun (gathered self.old.gatherer).begun (value_of fact.now) spelled.now }
        ensures steps { OnOk result (StepsStored S.written S.health (storing self.old) (value_of fact.now) (storing self.new)) }
        ensures begun { (gathered self.new.gatherer).begun ≡ (gathered self.old.gatherer).begun }
        ensures well { OnOk result (self.new.failed ≡ false) }
        ensures err { IfErr result (λ fault. RefusesStored (storing self.old) (value_of fact.now ∷ []) fault (storing self.new)
            × (self.new.failed ≡ true)) }
    {
        match self.gatherer.take(fact, spelled) {
            Ok(()) => self.log.skip(),
            Err(fault) => {
                self.failed = true;
                return Err(fault);
            }
        }
        Ok(())
    }
}

impl<S: Scratch + Drop> Sink for StoredSink<S> {
    ghost use Rattle.hprof_heap.specs.Gathering.{gathered};
    ghost use Rattle.hprof_stored.specs.Storing.{storing, BeginsStored, StepsStored, RefusesStored};

    ghost begins = { λ old header new. BeginsStored S.written S.health (storing old) header (storing new) };

    ghost steps = { λ old fact new. StepsStored S.written S.health (storing old) fact (storing new) };

    ghost begun = { λ sink. (gathered sink.gatherer).begun };

    ghost failed = { λ sink. sink.failed };

    ghost refuses = { λ old given fault new. RefusesStored (storing old) given fault (storing new) };

    fn begin_part(&mut self, header: Header) -> Result<(), SinkFault> {
        if self.failed {
            return Err(SinkFault::Failed);
        }
        let Ok(()) = self.gatherer.begin_part(header) else {
            self.failed = true;
            return Err(SinkFault::Failed);
        };
        self.log.begin(self.part);
        self.log.note(self.place);
        self.within = true;
        Ok(())
    }

    fn take(&mut self, fact: &Fact<'_>, spelled: &[u8]) -> Result<(), SinkFault> {
        if self.failed {
            return Err(SinkFault::Failed);
        }
        match object_id(fact) {
            Some(id) => self.take_object(fact, id, spelled),
            None => self.take_other(fact, spelled),
        }
    }
}

impl<S: Scratch + Drop> PlacedSink for StoredSink<S> {
    ghost use Rattle.hprof_stored.specs.Holding.{Earlier, HoldsStored};
    ghost use Rattle.hprof_stored.specs.Storing.{storing};
    ghost use Rattle.hprof_stored.specs.HoldingLaws.{holds_begun, holds_taken};

    ghost Earlier = { Earlier };

    ghost holds = { λ sink limits earlier header bytes facts.
        HoldsStored S.written S.health limits earlier header bytes facts (storing sink) };

    ghost begins_part = { λ old header new begins limits earlier bytes held.
        holds_begun S.written S.health limits earlier header bytes (storing old) (storing new) begins held };

    ghost takes_fact = { λ old fact new steps limits earlier header bytes facts held.
        holds_taken S.written S.health limits earlier header bytes facts fact (storing old) (storing new) steps held };

    fn note(&mut self, place: PartPlace) {
        if self.within {
            self.log.note(Some(place));
        } else {
            self.place = Some(place);
        }
    }
}
