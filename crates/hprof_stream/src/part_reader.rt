//! Reading a part from pieces.

ghost use Rattle.std.specs.Prelude.{◌≡◌, ℕ, ◌+◌, ◌≤◌, ◌++◌, List, [], length, Option, Some, None, true, false, OnOk, OnErr, IfSome, IsSome};
ghost use Rattle.hprof_items.specs.declared.header.Header.{Header};
ghost use Rattle.hprof_values.specs.declared.ids.IdSize.{IdSize};
ghost use Rattle.hprof_items.specs.FactValue.{FactValue};
ghost use Rattle.hprof_stream.specs.Progress.{IsCounted};
ghost use Rattle.hprof_stream.specs.Rest.{IsSound, rest_len};

use crate::held::{keep, read_on};
use crate::limits::Limits;
use crate::part_fault::PartFault;
use crate::part_place::PartPlace;
use crate::progress::Progress;
use crate::rest::Rest;
use crate::sink::Sink;
use crate::summary::PartSummary;
use hprof_items::{Header, Reason};
use std::alloc::Global;

/// Reads a part from pieces, cut anywhere. It holds the bytes of an incomplete item, and no others.
#[derive(Drop)]
pub struct PartReader {
    progress: Progress,
    rest: Rest,
    failed: bool,
    ghost counted: { failed ≡ false → IsCounted progress (rest_len rest) },
    ghost sound: { failed ≡ false → IsSound rest },
    ghost emptied: { failed ≡ true → length rest.held.items ≡ 0 },
}

impl PartReader {
    ghost use Rattle.hprof_stream.specs.Reader.{HasRead, HasNoRoom, header_of, has_failed, IsReady, IsUnfinished, longest_held};
    ghost use Rattle.hprof_stream.specs.Reader.{Feeds, Finishes};
    ghost use Rattle.hprof_stream.specs.PartPlaces.{IsPlaceBehind, header_at};
    ghost use Rattle.hprof_stream.specs.Rest.{NeedsGrowth};
    ghost use Rattle.hprof_stream.specs.declared.limits.Limits.{Limits};

    /// Returns a reader at the start of a part. Allocates nothing.
    pub fn new(alloc: Global, limits: Limits) -> Self
        ensures read { HasRead limits [] [] result }
        ensures ready { (begun : Option IdSize) → IsReady result begun }
        ensures no_memory { HasNoRoom result }
    {
        PartReader {
            progress: Progress::start(limits),
            rest: Rest::new(alloc),
            failed: false,
        }
    }

    /// Returns a reader of a part from a place on. The bytes that it is fed are those behind the place. Allocates nothing.
    pub fn resume(alloc: Global, place: PartPlace) -> Self
        ensures read { (limits : Limits) (bytes : List ℕ) (facts : List FactValue) → IsPlaceBehind limits bytes facts place
            → HasRead limits bytes facts result }
        ensures header { header_of result ≡ header_at place }
        ensures well { has_failed result ≡ false }
        ensures no_memory { HasNoRoom result }
    {
        PartReader {
            progress: place.progress,
            rest: Rest::new(alloc),
            failed: false,
        }
    }

    /// Returns the place behind the last whole item, or `None` after a fault.
    pub fn place(&self) -> Option<PartPlace>
        ensures some { has_failed self.now ≡ false → IsSome result }
        ensures failed { has_failed self.now ≡ true → result ≡ None }
        ensures behind { IfSome result (λ place. (limits : Limits) (bytes : List ℕ) (facts : List FactValue)
            → HasRead limits bytes facts self.now
            → (front rest : List ℕ) × (bytes ≡ front ++ rest) × IsPlaceBehind limits front facts place) }
    {
        if self.failed {
            return None;
        }
        Some(PartPlace {
            progress: self.progress,
        })
    }

    /// Reads the next piece, and hands the header and the facts of all complete items to the sink, in order.
    ///
    /// Refuses the first incomplete or invalid item as soon as no further byte can change that, then a part with more bytes than the limit.
    /// If memory runs out, that is the fault, even if a later test would fail. After a fault, each later call returns `Failed`.
    ///
    /// If the header was read before, `sink` must have been begun with its identifier size, and with no other since.
    pub fn feed<S: Sink>(&mut self, piece: &[u8], sink: &mut S) -> Result<(), PartFault>
        requires { IsReady self.old (S.begun sink.old) }
        ensures fed { (limits : Limits) (bytes : List ℕ) (facts : List FactValue) → HasRead limits bytes facts self.old
            → Feeds S.begins S.steps S.refuses S.failed limits bytes facts self.old piece.now sink.old result self.new sink.new }
        ensures failed { has_failed self.old ≡ true
            → (result ≡ Err PartFault.Failed) × (sink.old ≡ sink.new) × (header_of self.new ≡ header_of self.old) }
        ensures err { OnErr result (has_failed self.new ≡ true) }
        // Want of memory comes only where what is held has no room for the piece.
        ensures full { result ≡ Err PartFault.OutOfMemory → NeedsGrowth self.old.rest (length piece.now) }
        ensures kept { (header : Header) → header_of self.old ≡ Some header → header_of self.new ≡ Some header }
        ensures ready { IsReady self.new (S.begun sink.new) }
    {
        if self.failed {
            return Err(PartFault::Failed);
        }
        let progress = &mut self.progress;
        let rest = &mut self.rest;
        let room = progress.limits.max_bytes - progress.at - rest.len();
        let (taken, excess) = piece.split_at(room.min(piece.len() as u64) as usize);
        let outcome = match read_on(progress, rest, taken, sink) {
            Ok(left) if excess.is_empty() => keep(progress, rest, left),
            Ok(_) => Err(PartFault::BytesExceeded),
            Err(fault) => Err(fault),
        };
        if outcome.is_err() {
            self.failed = true;
            self.rest.clear();
        }
        outcome
    }

    /// Returns the header once it is read, even if the sink refuses it. It is still returned after a fault.
    pub fn header(&self) -> Option<Header>
        ensures { result ≡ header_of self.now }
    {
        self.progress.header
    }

    /// Returns the number of bytes that are held: those of an incomplete item, and none after a fault.
    pub fn buffered(&self) -> usize
        ensures held { (limits : Limits) (bytes : List ℕ) (facts : List FactValue) → HasRead limits bytes facts self.now
            → IsUnfinished limits.max_item bytes result × (result ≤ length bytes) × (result ≤ longest_held limits.max_item) }
        ensures failed { has_failed self.now ≡ true → result ≡ 0 }
    {
        self.rest.held.len()
    }

    /// Ends the part. Returns its summary if the bytes end after an item and there is a header.
    ///
    /// - `Malformed` with `Truncated`: the bytes end within an item; the offset is that of the item.
    /// - `Failed`: the reader has failed before.
    pub fn finish(self) -> Result<PartSummary, PartFault>
        ensures finished { (limits : Limits) (bytes : List ℕ) (facts : List FactValue) → HasRead limits bytes facts self
            → Finishes limits bytes facts (header_of self) result }
        ensures failed { has_failed self ≡ true → result ≡ Err PartFault.Failed }
    {
        if self.failed {
            return Err(PartFault::Failed);
        }
        let progress = self.progress;
        match progress.header {
            Some(header) if self.rest.is_empty() && progress.room == 0 => Ok(PartSummary {
                header,
                records: progress.records,
                facts: progress.facts,
                ended: progress.ended,
            }),
            _ => Err(PartFault::Malformed {
                at: progress.at,
                reason: Reason::Truncated,
            }),
        }
    }
}
