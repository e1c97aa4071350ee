//! Sinks that make a heap of parts.

ghost use Rattle.std.specs.Prelude.{◌≡◌, ℕ, List, false, IfOk};
ghost use Rattle.hprof_items.specs.FactValue.{FactValue};
ghost use Rattle.hprof_heap.specs.Gathering.{Gathered, Given, nothing_gathered, Begins, Takes, LacksRow, Gathers, Tells, answer_of};
ghost use Rattle.hprof_heap.specs.Gathering.{seen_in};

use crate::gatherer::Gatherer;
use crate::heap::Heap;
use crate::standing::Refusal;
use hprof_stream::Sink;

/// A sink that unites the facts of parts, as a [`Gatherer`] does, and returns their heap at the end, alone or with data that it derived
/// from the facts.
pub trait Gather: Sink {
    ghost use Rattle.hprof_items.specs.declared.header.Header.{Header};
    ghost use Rattle.hprof_stream.specs.declared.sink.SinkFault.{SinkFault};
    ghost use Rattle.hprof_stream.specs.declared.sink.SinkFault.TheVariants.{OutOfMemory};
    ghost use Rattle.hprof_rows.specs.HeapValue.{HeapValue};

    // What it has gathered so far.
    ghost gathered: { Self → Gathered };

    // It keeps what refers to that identifier beside the heap.
    ghost watches: { Self → ℕ → Type 0 };

    // The heap in what it gave.
    ghost heap_in: { Self.Found → HeapValue };

    // What it gave lists what refers to that identifier in the heap.
    ghost lists: { Self.Found → ℕ → Type 0 };

    /// The result: the heap, alone or with the derived data.
    type Found: Drop;

    /// Returns the heap of all facts, with the derived data.
    ///
    /// The first of these that applies is the refusal: a fault, no parts, two identifier sizes, a conflict.
    fn finish(self) -> Result<Self::Found, Refusal>
        ensures answer { seen_in heap_in result ≡ answer_of (gathered self) }
        ensures told { (parts : List Given) → Gathers nothing_gathered parts (gathered self) → Tells parts (seen_in heap_in result) }
        ensures listed { IfOk result (λ found. (id : ℕ) → watches self id → lists found id) };

    // It begins parts, takes facts and refuses them as a gatherer does, and goes on to watch what it watches.
    ghost begins_parts: { (old : Self) (header : Header) (new : Self) → Self.begins old header new
        → Begins (gathered old) header (gathered new) };

    ghost takes_facts: { (old : Self) (fact : FactValue) (new : Self) → Self.steps old fact new
        → Takes (gathered old) fact (gathered new) };

    ghost refuses_facts: { (old : Self) (given : List FactValue) (fault : SinkFault) (new : Self) → Self.refuses old given fault new
        → (gathered old).failed ≡ false → (fault ≡ OutOfMemory) × LacksRow (gathered old) given };

    ghost watches_on: { (old : Self) (header : Header) (new : Self) → Self.begins old header new
        → (id : ℕ) → watches old id → watches new id };

    ghost watches_still: { (old : Self) (fact : FactValue) (new : Self) → Self.steps old fact new
        → (id : ℕ) → watches old id → watches new id };
}

/// The heap alone.
impl Gather for Gatherer {
    ghost use Rattle.std.specs.Prelude.{⊤};
    ghost use Rattle.hprof_heap.specs.Gathering.{gathered};
    ghost use Rattle.hprof_heap.specs.Heap.{heap_of};

    ghost gathered = { gathered };

    ghost watches = { λ gatherer id. ⊥ };

    ghost heap_in = { heap_of };

    ghost lists = { λ heap id. ⊤ };

    type Found = Heap;

    fn finish(self) -> Result<Heap, Refusal> {
        Gatherer::finish(self)
    }

    ghost begins_parts = { λ old header new begins. begins };

    ghost takes_facts = { λ old fact new takes. takes };

    ghost refuses_facts = { λ old given fault new refuses. refuses };

    ghost watches_on = { λ old header new begins id watches. watches };

    ghost watches_still = { λ old fact new takes id watches. watches };
}
