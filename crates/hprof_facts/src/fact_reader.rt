//! A reader of the facts of a part that is pulled.

ghost use Rattle.hprof_devices.specs.declared.health.Health.TheVariants.{Well};
ghost use Rattle.hprof_stream.specs.Reader.{IsReady};

use crate::fact_place::FactPlace;
use crate::queue::Queue;
use hprof_devices::Source;
use hprof_items::{Fact, IdSize};
use hprof_stream::{Limits, PartFault, PartPlace, PartReader, PartSummary};
use std::alloc::Global;

/// The number of bytes that a read asks for. The facts of a piece take many times as much, and of many stretches each has a reader.
const PIECE_LEN: usize = 16_384;

/// Reads the facts of a part one after the other. It holds the facts of one piece, and an item that is not whole.
#[derive(Drop)]
pub struct FactReader<R: Source + Drop> {
    source: R,
    /// The part, until it was read to its end or refused.
    part: Option<PartReader>,
    /// What reading the part came to. It is unspecified while there is a part.
    outcome: Result<PartSummary, PartFault>,
    queue: Queue,
    /// The place before the piece whose facts are in the queue.
    before: Option<PartPlace>,
    piece: Vec<u8>,
    reads_left: u64,
}

/// Returns the size of identifiers that the header of a part states, once it is read.
fn size_read(part: &PartReader) -> Option<IdSize>
    ensures { IsReady part.now result }
{
    match part.header() {
        Some(header) => Some(header.ids),
        None => None,
    }
}

impl<R: Source + Drop> FactReader<R> {
    ghost use Rattle.std.specs.Prelude.{◌≡◌, ◌<◌, ◌≤◌, ℕ, List, [], IfOk, OnErr, Err, None, Some, false, length};
    ghost use Rattle.std.specs.Option.{option_map};
    ghost use Rattle.hprof_items.specs.FactValue.{FactValue, value_of};
    ghost use Rattle.hprof_stream.specs.declared.limits.Limits.{Limits};
    ghost use Rattle.hprof_stream.specs.declared.part_fault.PartFault.{PartFault};
    ghost use Rattle.hprof_stream.specs.PartPlaces.{IsPlaceBehind};
    ghost use Rattle.hprof_stream.specs.Reader.{HasRead};
    ghost use Rattle.hprof_stream.specs.Run.{SpellsBegun};
    ghost use Rattle.hprof_facts.specs.declared.fact_place.FactPlace.{FactPlace};
    ghost use Rattle.hprof_facts.specs.FactPlaces.{begins_at, passed_of};
    ghost use Rattle.hprof_facts.specs.FactReader.{Advances, AdvancesFrom, CanAdvance, HasGiven, HasGivenFrom, HasPassed, IsCurrent};
    ghost use Rattle.hprof_facts.specs.FactReader.{IsOver, IsPlaced, IsPlacedBy, IsReading, Origin, answer_of, ids_of, reads_to_come};
    ghost use Rattle.hprof_facts.specs.FactReader.{source_of, spelled_of, summary_of};
    ghost use Rattle.hprof_facts.specs.ObjectKeys.{object_key};
    ghost use Rattle.hprof_facts.specs.Queues.{Holds, begun_with, given_of, has_refused};

    /// Returns a reader of the part that the source gives. It reads nothing yet. If memory runs out, the fault is `OutOfMemory`.
    pub fn new(alloc: Global, source: R, limits: Limits) -> Result<Self, PartFault>
        requires { R.health source ≡ Well }
        ensures given { IfOk result (HasGiven R.left R.health R.pulls limits source []) }
        ensures can { IfOk result (CanAdvance R.health) }
        ensures err { OnErr result (result ≡ Err PartFault.OutOfMemory) }
    {
        Self::read_on(
            alloc,
            source,
            PartReader::new(alloc, limits),
            limits.max_reads,
        )
    }

    /// Returns a reader of the facts behind a place. The source must give the bytes of the part from `place.offset()` on. The reader makes
    /// at most `max_reads` reads.
    ///
    /// It reads up to the place and skips the facts before it. If the part ends or is refused before the place, the first `advance` returns
    /// so. If memory runs out for the reader itself, the fault is `OutOfMemory`.
    pub fn resume(
        alloc: Global,
        source: R,
        place: FactPlace,
        max_reads: u64,
    ) -> Result<Self, PartFault>
        requires { R.health source ≡ Well }
        ensures given { IfOk result (λ reader. (limits : Limits) (front : List ℕ) (told : List FactValue)
            → IsPlaceBehind limits front told (begins_at place)
            → HasPassed R.left R.health R.pulls (record { limits = limits; front = front; told = told; reads = max_reads }) source
            (passed_of place) reader) }
        ensures can { IfOk result (CanAdvance R.health) }
        ensures err { OnErr result (result ≡ Err PartFault.OutOfMemory) }
    {
        let mut reader = Self::read_on(
            alloc,
            source,
            PartReader::resume(alloc, place.part),
            max_reads,
        )?;
        reader.pass(place.passed);
        Ok(reader)
    }

    /// Returns a reader that goes on with a part, and has given nothing.
    fn read_on(
        alloc: Global,
        source: R,
        part: PartReader,
        reads_left: u64,
    ) -> Result<Self, PartFault>
        requires { R.health source ≡ Well }
        ensures given { IfOk result (λ reader. (limits : Limits) (front : List ℕ) (told : List FactValue) → HasRead limits front told part
            → HasGivenFrom R.left R.health R.pulls (record { limits = limits; front = front; told = told; reads = reads_left }) source []
            reader) }
        ensures can { IfOk result (CanAdvance R.health) }
        ensures err { OnErr result (result ≡ Err PartFault.OutOfMemory) }
    {
        let Ok(piece) = vec![in alloc; 0u8; PIECE_LEN] else {
            return Err(PartFault::OutOfMemory);
        };
        let before = part.place();
        let begun = size_read(&part);
        Ok(FactReader {
            source,
            part: Some(part),
            outcome: Err(PartFault::Failed),
            queue: Queue::new(alloc, begun),
            before,
            piece,
            reads_left,
        })
    }

    /// Skips so many facts, or all that there are.
    fn pass(&mut self, count: u64)
        requires { CanAdvance R.health self.old }
        ensures can { CanAdvance R.health self.new }
        ensures passed { (origin : Origin) (was : R) → HasGivenFrom R.left R.health R.pulls origin was [] self.old
            → HasPassed R.left R.health R.pulls origin was count self.new }
    {
        for _ in 0..count {
            let Ok(true) = self.advance() else {
                return;
            };
        }
    }

    /// Reads a piece of a part that goes on, and queues the facts of the items that are whole then. At its end, or at its first fault, the
    /// part goes.
    fn read_piece(&mut self, part: PartReader)
        requires well { R.health self.old.source ≡ Well }
        requires ready { IsReady part (begun_with self.old.queue) }
        requires empty { Holds self.old.queue [] }
        requires none { self.old.part ≡ None }
        requires room { length self.old.piece.items ≡ 16384 }
        ensures can { CanAdvance R.health self.new }
        ensures given { (origin : Origin) (was : R) (facts : List FactValue)
            → IsReading R.left R.health R.pulls origin was part self.old.source self.old.reads_left facts
            → has_refused self.old.queue ≡ false → given_of self.old.queue ≡ 0
            → IsPlacedBy R.left R.health R.pulls origin was self.old.source facts self.old.before 0
            → HasGivenFrom R.left R.health R.pulls origin was facts self.new }
        ensures less { reads_to_come self.new ≤ self.old.reads_left }
    {
        let mut part = part;
        if self.reads_left == 0 {
            self.outcome = Err(PartFault::ReadsExceeded);
            return;
        }
        self.reads_left -= 1;
        let Ok(count) = self.source.pull(&mut self.piece) else {
            self.outcome = Err(PartFault::Read);
            return;
        };
        if count == 0 {
            self.outcome = part.finish();
            return;
        }
        match part.feed(&self.piece[..count], &mut self.queue) {
            Ok(()) => self.part = Some(part),
            Err(fault) => self.outcome = Err(fault),
        }
    }

    /// Reads the next piece, where the part goes on.
    fn fill(&mut self)
        requires can { CanAdvance R.health self.old }
        requires empty { Holds self.old.queue [] }
        ensures can { CanAdvance R.health self.new }
        ensures given { (origin : Origin) (was : R) (given : List FactValue)
            → HasGivenFrom R.left R.health R.pulls origin was given self.old
            → HasGivenFrom R.left R.health R.pulls origin was given self.new }
        ensures less { 0 < reads_to_come self.old → reads_to_come self.new < reads_to_come self.old }
    {
        if let Some(part) = self.part.take() {
            self.queue.clear();
            self.before = part.place();
            self.read_piece(part);
        }
    }

    /// Goes on to the next fact, and returns whether there is one.
    ///
    /// All facts before a fault are given first. The fault is the one with which `read_part` refuses the part. At the end, or behind a
    /// fault, the answer stays the same.
    #[inline(always)]
    pub fn advance(&mut self) -> Result<bool, PartFault>
        requires { CanAdvance R.health self.old }
        ensures can { CanAdvance R.health self.new }
        ensures advances { (limits : Limits) (was : R) (given : List FactValue) → HasGiven R.left R.health R.pulls limits was given self.old
            → Advances R.left R.health R.pulls limits was given result self.new }
        ensures from { (origin : Origin) (was : R) (given : List FactValue) → HasGivenFrom R.left R.health R.pulls origin was given self.old
            → AdvancesFrom R.left R.health R.pulls origin was given result self.new }
        ensures over { IsOver self.old → (result ≡ answer_of self.old) × (self.new ≡ self.old) }
    {
        while self.part.is_some() && !self.queue.has_next() {
            self.fill();
        }
        self.give()
    }

    /// Gives the next fact of the queue. Without one, returns what reading the part came to.
    #[inline(always)]
    fn give(&mut self) -> Result<bool, PartFault>
        requires can { CanAdvance R.health self.old }
        requires over { Holds self.old.queue [] → self.old.part ≡ None }
        ensures can { CanAdvance R.health self.new }
        ensures from { (origin : Origin) (was : R) (given : List FactValue) → HasGivenFrom R.left R.health R.pulls origin was given self.old
            → AdvancesFrom R.left R.health R.pulls origin was given result self.new }
        ensures over { IsOver self.old → (result ≡ answer_of self.old) × (self.new ≡ self.old) }
    {
        if self.queue.step() {
            return Ok(true);
        }
        match self.outcome {
            Ok(_) => Ok(false),
            Err(fault) => Err(fault),
        }
    }

    /// Returns the place behind the fact that `advance` went on to last. It is never `None` for a reader that `new` or `resume` returned.
    pub fn place(&self) -> Option<FactPlace>
        ensures { (origin : Origin) (was : R) (given : List FactValue) → HasGivenFrom R.left R.health R.pulls origin was given self.now
            → (place : FactPlace) × (result ≡ Some place) × IsPlaced R.left R.health R.pulls origin was (source_of self.now) given place }
    {
        Some(FactPlace {
            part: self.before?,
            passed: self.queue.given_count() as u64,
        })
    }

    /// Returns the fact that `advance` went on to last.
    #[inline(always)]
    pub fn current(&self) -> Option<Fact<'_>>
        ensures { (fact : FactValue) → IsCurrent self.now fact → option_map value_of result ≡ Some fact }
    {
        self.queue.current()
    }

    /// Returns the identifier of the fact that `advance` went on to last, or `None` if it is no object. Nothing is decoded.
    #[inline(always)]
    pub fn object_id(&self) -> Option<u64>
        ensures { (fact : FactValue) → IsCurrent self.now fact → result ≡ object_key fact }
    {
        self.queue.object_id()
    }

    /// Returns the bytes of the sub-record that states the fact. They are empty for the fact of a record.
    #[inline(always)]
    pub fn spelled(&self) -> &[u8]
        ensures spells { (fact : FactValue) → IsCurrent self.now fact → SpellsBegun (ids_of self.now) fact result.now }
        ensures is { result.now ≡ spelled_of self.now }
    {
        self.queue.spelled()
    }

    /// Returns the summary of the part, once its end was reached without a fault.
    pub fn summary(&self) -> Option<PartSummary>
        ensures { result ≡ summary_of self.now }
    {
        match (&self.part, self.outcome) {
            (None, Ok(summary)) => Some(summary),
            _ => None,
        }
    }
}
