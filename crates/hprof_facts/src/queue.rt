//! The queue of the facts of one piece.

ghost use Rattle.std.specs.Prelude.{◌≡◌, ◌∷◌, ◌++◌, ◌<◌, ◌≤◌, ◌-◌, ◌+◌, ℕ, List, [], length, take, drop, slice_get, Some, Err, true, false};
ghost use Rattle.std.specs.Prelude.{OnOk, OnErr};
ghost use Rattle.hprof_items.specs.FactValue.{FactValue, ListsHave, value_of};
ghost use Rattle.hprof_facts.specs.Kept.{Keeps};

use crate::kept::{Form, Slot, form_of, kept_fact};
use hprof_items::{Fact, Header, IdSize};
use hprof_stream::{Sink, SinkFault};
use std::alloc::Global;

/// Keeps the facts that it is given: their numbers and bytes, one behind the other.
#[derive(Drop)]
pub(crate) struct Queue {
    bytes: Vec<u8>,
    slots: Vec<Slot>,
    /// The number of facts that were given.
    given: usize,
    /// The size of identifiers that was begun last.
    begun: Option<IdSize>,
    failed: bool,
    ghost within: { given ≤ length slots.items },
}

impl Queue {
    ghost use Rattle.std.specs.Option.{option_map};
    ghost use Rattle.hprof_stream.specs.Run.{SpellsBegun};
    ghost use Rattle.hprof_stream.specs.declared.sink.SinkFault.{SinkFault};
    ghost use Rattle.hprof_facts.specs.declared.kept.Slot.{Slot};
    ghost use Rattle.hprof_facts.specs.ObjectKeys.{object_key};
    ghost use Rattle.hprof_facts.specs.Queues.{Holds, HasCurrent, has_refused, begun_with, given_of, held_at, last_slot, spelled_last};

    /// Returns a queue that keeps nothing, begun with a size of identifiers, if there is one. It takes no memory yet.
    pub(crate) fn new(alloc: Global, begun: Option<IdSize>) -> Self
        ensures holds { Holds result [] }
        ensures begun { begun_with result ≡ begun }
        ensures well { has_refused result ≡ false }
        ensures given { given_of result ≡ 0 }
    {
        Queue {
            bytes: Vec::new(alloc),
            slots: Vec::new(alloc),
            given: 0,
            begun,
            failed: false,
        }
    }

    /// Forgets the facts, and keeps the room.
    pub(crate) fn clear(&mut self)
        ensures holds { Holds self.new [] }
        ensures begun { begun_with self.new ≡ begun_with self.old }
        ensures failed { has_refused self.new ≡ has_refused self.old }
        ensures given { given_of self.new ≡ 0 }
    {
        self.bytes.clear();
        self.slots.clear();
        self.given = 0;
    }

    /// Adds a fact by what is kept of it.
    #[inline(always)]
    fn hold(&mut self, form: Form, bytes: &[u8]) -> Result<(), SinkFault>
        ensures holds { OnOk result ((ids : IdSize) (facts : List FactValue) (fact : FactValue) → self.old.begun ≡ Some ids
            → Keeps ids form bytes.now fact → Holds self.old facts → Holds self.new (facts ++ fact ∷ [])) }
        ensures begun { self.new.begun ≡ self.old.begun }
        ensures failed { self.new.failed ≡ self.old.failed }
        ensures given { self.new.given ≡ self.old.given }
        ensures err { OnErr result (result ≡ Err SinkFault.OutOfMemory) }
        ensures kept { OnErr result ((facts : List FactValue) → Holds self.old facts → Holds self.new facts) }
    {
        let slot = Slot {
            form,
            at: self.bytes.len(),
            len: bytes.len(),
        };
        let Ok(()) = self.bytes.extend_from_slice(bytes) else {
            return Err(SinkFault::OutOfMemory);
        };
        let Ok(()) = self.slots.push(slot) else {
            return Err(SinkFault::OutOfMemory);
        };
        Ok(())
    }

    /// Returns whether there is a fact that was not given yet.
    #[inline(always)]
    pub(crate) fn has_next(&self) -> bool
        ensures none { result ≡ false → Holds self.now [] }
        ensures some { result ≡ true → ¬ (Holds self.now []) }
    {
        self.given < self.slots.len()
    }

    /// Returns the number of facts that were given since it was emptied.
    pub(crate) fn given_count(&self) -> usize
        ensures { result ≡ given_of self.now }
    {
        self.given
    }

    /// Goes on to the next fact, if there is one.
    #[inline(always)]
    pub(crate) fn step(&mut self) -> bool
        ensures some { (fact : FactValue) (facts : List FactValue) → Holds self.old (fact ∷ facts)
            → (result ≡ true) × Holds self.new facts × HasCurrent self.new fact × (given_of self.new ≡ given_of self.old + 1) }
        ensures none { Holds self.old [] → (result ≡ false) × (self.new ≡ self.old) }
        ensures begun { begun_with self.new ≡ begun_with self.old }
        ensures failed { has_refused self.new ≡ has_refused self.old }
    {
        if self.given < self.slots.len() {
            self.given += 1;
            return true;
        }
        false
    }

    /// Returns the fact that was gone past last.
    #[inline(always)]
    pub(crate) fn current(&self) -> Option<Fact<'_>>
        ensures { (fact : FactValue) → HasCurrent self.now fact → option_map value_of result ≡ Some fact }
    {
        let ids = self.begun?;
        let slot = self.last()?;
        kept_fact(slot.form, self.bytes_of(slot)?, ids)
    }

    /// Returns the identifier of the fact that was gone past last, if it is an object.
    #[inline(always)]
    pub(crate) fn object_id(&self) -> Option<u64>
        ensures { (fact : FactValue) → HasCurrent self.now fact → result ≡ object_key fact }
    {
        match self.last()?.form {
            Form::Object { id } => Some(id),
            _ => None,
        }
    }

    /// Returns the slot of the fact that was given last.
    #[inline(always)]
    fn last(&self) -> Option<&Slot>
        ensures { option_map (λ one. one.now) result ≡ last_slot self.now }
    {
        self.slots.get(self.given.checked_sub(1)?)
    }

    /// Returns the bytes that are kept in a slot.
    #[inline(always)]
    fn bytes_of(&self, slot: &Slot) -> Option<&[u8]>
        ensures { option_map (λ bytes. bytes.now) result ≡ held_at self.now.bytes.items slot.now }
    {
        let (_, behind) = self.bytes.split_at_checked(slot.at)?;
        let (bytes, _) = behind.split_at_checked(slot.len)?;
        Some(bytes)
    }

    /// Returns the bytes of the sub-record that states the fact that was given last. They are empty for the fact of a record.
    #[inline(always)]
    pub(crate) fn spelled(&self) -> &[u8]
        ensures { result.now ≡ spelled_last self.now }
    {
        match self.last() {
            Some(slot) => match slot.form {
                Form::Object { .. } | Form::Spelled => self.bytes_of(slot).unwrap_or(&[]),
                _ => &[],
            },
            None => &[],
        }
    }
}

impl Sink for Queue {
    ghost use Rattle.hprof_facts.specs.Queues.{begun_with, has_refused, queue_begins, queue_refuses, queue_steps};

    // A header empties it.
    ghost begins = { queue_begins };

    ghost steps = { queue_steps };

    ghost begun = { begun_with };

    ghost failed = { has_refused };

    // Only memory can be wanting.
    ghost refuses = { queue_refuses };

    fn begin_part(&mut self, header: Header) -> Result<(), SinkFault> {
        if self.failed {
            return Err(SinkFault::Failed);
        }
        self.clear();
        self.begun = Some(header.ids);
        Ok(())
    }

    #[inline(always)]
    fn take(&mut self, fact: &Fact<'_>, spelled: &[u8]) -> Result<(), SinkFault> {
        if self.failed {
            return Err(SinkFault::Failed);
        }
        let (form, bytes) = form_of(fact, spelled);
        match self.hold(form, bytes) {
            Ok(()) => Ok(()),
            Err(fault) => {
                self.failed = true;
                Err(fault)
            }
        }
    }
}
