//! The sink that unites the facts of parts.

ghost use Rattle.std.specs.Prelude.{◌≡◌, [], ◌∷◌, List, Some, Err, true, false, IfErr, IfOk, OnOk};
ghost use Rattle.std.specs.Option.{option_map};
ghost use Rattle.std.specs.Result.{result_ok};
ghost use Rattle.hprof_items.specs.FactValue.{value_of};
ghost use Rattle.hprof_rows.specs.Key.{key_of};
ghost use Rattle.hprof_heap.specs.Steady.{IsSteady, IsSteady-prop};

use crate::heap::Heap;
use crate::standing::{Refusal, Standing};
use hprof_items::{Fact, Header, IdSize};
use hprof_rows::Key;
use hprof_stream::{Sink, SinkFault};
use hprof_tables::Stated;
use std::alloc::Global;

/// Takes the headers and the facts of any number of parts, and unites them. If some keys come with two contents, it remembers the least
/// such key.
#[derive(Drop)]
pub struct Gatherer {
    alloc: Global,
    heap: Option<Heap>,
    begun: Option<IdSize>,
    conflict: Option<Key>,
    two_sizes: bool,
    // With one size begun so far, it is the heap's.
    ghost steady: { IsSteady heap begun two_sizes } by { IsSteady-prop heap begun two_sizes },
    failed: bool,
}

impl Gatherer {
    ghost use Rattle.hprof_heap.specs.Gathering.{Gathered, Given, gathered, nothing_gathered, seen_heap, Gathers, Tells, answer_of};
    ghost use Rattle.hprof_heap.specs.Gathering.{TellsStated, LacksRow, Takes, standing_of_answer, marked};
    ghost use Rattle.hprof_stream.specs.Run.{FitsBegun, ListsHaveBegun, SpellsBegun};
    ghost use Rattle.hprof_stream.specs.declared.sink.SinkFault.TheVariants.{OutOfMemory};
    ghost use Rattle.hprof_heap.specs.Heap.{heap_of};

    /// Returns a gatherer of no parts. Allocates nothing.
    pub fn new(alloc: Global) -> Self
        ensures { gathered result ≡ nothing_gathered }
    {
        Gatherer {
            alloc,
            heap: None,
            begun: None,
            conflict: None,
            two_sizes: false,
            failed: false,
        }
    }

    /// Returns the standing.
    #[inline(always)]
    pub fn standing(&self) -> Standing
        ensures { result ≡ standing_of_answer (answer_of (gathered self.now)) }
    {
        if self.failed {
            return Standing::Failed;
        }
        if self.heap.is_none() {
            return Standing::Empty;
        }
        if self.two_sizes || self.conflict.is_some() {
            return Standing::InConflict;
        }
        Standing::Clean
    }

    /// Returns the heap of the facts so far, or `None` unless the standing is `Clean`.
    #[inline(always)]
    pub fn heap(&self) -> Option<&Heap>
        ensures { option_map (λ heap. heap_of heap.now) result ≡ result_ok (answer_of (gathered self.now)) }
    {
        match self.standing() {
            Standing::Clean => self.heap.as_ref(),
            Standing::Empty | Standing::InConflict | Standing::Failed => None,
        }
    }

    /// Returns the heap of all facts.
    ///
    /// The first of these that applies is the refusal: a fault, no parts, two identifier sizes, a conflict.
    pub fn finish(self) -> Result<Heap, Refusal>
        ensures answer { seen_heap result ≡ answer_of (gathered self) }
        // What it says of the parts that were given.
        ensures told { (parts : List Given) → Gathers nothing_gathered parts (gathered self) → Tells parts (seen_heap result) }
    {
        let Gatherer {
            heap,
            conflict,
            two_sizes,
            failed,
            ..
        } = self;
        if failed {
            return Err(Refusal::Failed);
        }
        match (heap, conflict) {
            (None, _) => Err(Refusal::NoParts),
            (Some(_), _) if two_sizes => Err(Refusal::IdSizes),
            (Some(_), Some(key)) => Err(Refusal::Conflict(key)),
            (Some(heap), None) => Ok(heap),
        }
    }

    /// Takes a fact as `take` does, with the same faults, and returns how it compares with the heap: new, the same, or different. Returns
    /// `None` and ignores the fact if parts of two identifier sizes were begun.
    #[inline(always)]
    pub fn state(&mut self, fact: &Fact<'_>, spelled: &[u8]) -> Result<Option<Stated>, SinkFault>
        requires fits { FitsBegun (gathered self.old).begun (value_of fact.now) }
        requires lists { ListsHaveBegun (gathered self.old).begun fact.now }
        requires spelled { SpellsBegun (gathered self.old).begun (value_of fact.now) spelled.now }
        ensures steps { OnOk result (Takes (gathered self.old) (value_of fact.now) (gathered self.new)) }
        ensures stated { IfOk result (λ stated. TellsStated (gathered self.old) (value_of fact.now) stated (gathered self.new)) }
        ensures begun { (gathered self.new).begun ≡ (gathered self.old).begun }
        ensures well { OnOk result (((gathered self.old).failed ≡ false) × ((gathered self.new).failed ≡ false)) }
        // A gatherer that has not failed answers no fault but want of memory, and that only for a fact that is new to its heap.
        ensures err { IfErr result (λ fault. ((gathered self.old).failed ≡ false → (fault ≡ OutOfMemory)
            × LacksRow (gathered self.old) (value_of fact.now ∷ [])) × ((gathered self.new).failed ≡ true)) }
        ensures failed { (gathered self.old).failed ≡ true → result ≡ Err SinkFault.Failed }
    {
        if self.failed {
            return Err(SinkFault::Failed);
        }
        if self.two_sizes {
            return Ok(None);
        }
        let Some(heap) = &mut self.heap else {
            // A part was begun, so there is a heap.
            unreachable!()
        };
        let Ok(stated) = heap.state(fact, spelled) else {
            self.failed = true;
            return Err(SinkFault::OutOfMemory);
        };
        if let Stated::Differs = stated {
            self.mark(fact);
        }
        Ok(Some(stated))
    }

    /// Marks the key of a fact that differs from the one in the heap.
    fn mark(&mut self, fact: &Fact<'_>)
        ensures { gathered self.new ≡ record (gathered self.old) {
          conflict =
              marked (gathered self.old).conflict (key_of (value_of fact.now));
        } }
    {
        let Some(key) = key_of_fact(fact) else {
            return;
        };
        self.conflict = Some(match self.conflict {
            None => key,
            Some(least) => least.lesser(key),
        });
    }
}

/// Returns the key of a fact, or `None` if it has none.
fn key_of_fact(fact: &Fact<'_>) -> Option<Key>
    ensures { result ≡ key_of (value_of fact.now) }
{
    match *fact {
        Fact::Name { id, .. } => Some(Key::Name(id)),
        Fact::Load { serial, .. } => Some(Key::Load(serial)),
        Fact::Frame { id, .. } => Some(Key::Frame(id)),
        Fact::Trace { serial, .. } => Some(Key::Trace(serial)),
        Fact::Start { thread, .. } => Some(Key::Thread(thread)),
        Fact::Class { id, .. } => Some(Key::Class(id)),
        Fact::Instance { id, .. } | Fact::ObjArray { id, .. } | Fact::PrimArray { id, .. } => {
            Some(Key::Object(id))
        }
        Fact::Unload { .. } | Fact::End { .. } | Fact::Root(_) => None,
    }
}

impl Sink for Gatherer {
    ghost use Rattle.std.specs.Prelude.{◌≡◌, false};
    ghost use Rattle.hprof_stream.specs.declared.sink.SinkFault.TheVariants.{OutOfMemory};
    ghost use Rattle.hprof_heap.specs.Gathering.{gathered, Begins, Takes, LacksRow};

    ghost begins = { λ old header new. Begins (gathered old) header (gathered new) };

    ghost steps = { λ old fact new. Takes (gathered old) fact (gathered new) };

    ghost begun = { λ gatherer. (gathered gatherer).begun };

    ghost failed = { λ gatherer. (gathered gatherer).failed };

    // A gatherer that has not failed answers no fault but want of memory, and that only for a fact that is new to its heap.
    ghost refuses = { λ gatherer given fault _. (gathered gatherer).failed ≡ false → (fault ≡ OutOfMemory)
        × LacksRow (gathered gatherer) given };

    fn begin_part(&mut self, header: Header) -> Result<(), SinkFault> {
        if self.failed {
            return Err(SinkFault::Failed);
        }
        self.begun = Some(header.ids);
        match &mut self.heap {
            None => self.heap = Some(Heap::new(self.alloc, header.ids, header.millis)),
            Some(heap) if heap.ids() == header.ids => heap.keep_earlier(header.millis),
            Some(_) => self.two_sizes = true,
        }
        Ok(())
    }

    #[inline(always)]
    fn take(&mut self, fact: &Fact<'_>, spelled: &[u8]) -> Result<(), SinkFault> {
        self.state(fact, spelled)?;
        Ok(())
    }
}
