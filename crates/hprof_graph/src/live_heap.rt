//! A heap that answers after each fact.

ghost use Rattle.std.specs.Prelude.{◌≡◌, ◌≤◌, ℕ, List, [], true, false, Ok, IfOk, OnOk, drop, vec_len};
ghost use Rattle.std.specs.Borrow.{sem};
ghost use Rattle.hprof_items.specs.FactValue.{FactValue, value_of};
ghost use Rattle.hprof_rows.specs.HeapValue.{HeapValue};
ghost use Rattle.hprof_heap.specs.Gathering.{Given, Gathers, Tells, answer_of, gathered, nothing_gathered, seen_in};
ghost use Rattle.hprof_heap.specs.HeapFacts.{facts_of, size_of};
ghost use Rattle.hprof_layouts.specs.Layout.{IsLayout, layout_value};
ghost use Rattle.hprof_edges.specs.Collecting.{is_edge_wanted};
ghost use Rattle.hprof_edges.specs.Edges.{AreEdges, AreReferrers};
ghost use Rattle.hprof_edges.specs.EdgeSet.{edges_in};
ghost use Rattle.hprof_graph.specs.Number.{IsNumberOf};
ghost use Rattle.hprof_graph.specs.Derived.{AddsFact, CanBeLaid, CannotBeLaid, IsDerived, keeps_of};
ghost use Rattle.hprof_graph.specs.Indexed.{IsIndexOf, ListsTo, indexed_heap};

use crate::derived::Derived;
use crate::indexed::Index;
use crate::live::Live;
use hprof_edges::Edge;
use hprof_heap::{Gather, Gatherer, Heap, Refusal, Standing, Stated};
use hprof_items::{Fact, Header};
use hprof_layouts::{Layout, Wanted, layout};
use hprof_stream::{Sink, SinkFault};
use std::alloc::{AllocError, Global};

/// A heap that answers while its facts come. It takes the headers and the facts of any number of parts, and updates the layouts of classes
/// and the edges after each fact.
///
/// Class dumps and instances may come in any order, and each instance is laid once. A query is about the facts so far. Before the first
/// part there are none.
///
/// The answer is `Failed` after a fault, and otherwise `InConflict` if the facts do not agree or parts have two identifier sizes.
#[derive(Drop)]
pub struct LiveHeap {
    gatherer: Gatherer,
    derived: Derived,
    failed: bool,
}

/// Returns the layout of a class when there are no facts.
fn layout_of_none(alloc: Global, class: u64) -> Layout
    ensures { IsLayout [] class (layout_value result) }
{
    if class == 0 {
        return Layout::Known(Vec::new(alloc));
    }
    Layout::Missing(class)
}

impl LiveHeap {
    ghost use Rattle.hprof_graph.specs.LiveHeap.{IsAnswer, IsCurrent, IsKindOf, KeepsOnly, LendsHeap, RestsAsItIs};
    ghost use Rattle.hprof_graph.specs.LiveHeap.{Watches, outcome_of, seen_by};

    /// Returns a live heap of no parts that collects the edges to the wanted identifiers. Allocates nothing.
    fn wanting(alloc: Global, wanted: Wanted) -> LiveHeap
        ensures nothing { seen_by result ≡ nothing_gathered }
        ensures current { IsCurrent result }
        ensures keeps { keeps_of result.derived ≡ is_edge_wanted wanted }
    {
        LiveHeap {
            gatherer: Gatherer::new(alloc),
            derived: Derived::new(alloc, wanted),
            failed: false,
        }
    }

    /// Returns a live heap of no parts. Allocates nothing.
    pub fn new(alloc: Global) -> LiveHeap
        ensures nothing { seen_by result ≡ nothing_gathered }
        ensures watches { (id : ℕ) → Watches result id }
    {
        LiveHeap::wanting(alloc, Wanted::All)
    }

    /// Returns a live heap of no parts, as [`LiveHeap::new`] does, that collects only the edges to one identifier.
    pub fn watching(alloc: Global, id: u64) -> LiveHeap
        ensures nothing { seen_by result ≡ nothing_gathered }
        ensures watches { Watches result id }
        ensures only { KeepsOnly result id }
    {
        LiveHeap::wanting(alloc, Wanted::To(id))
    }

    /// Returns the heap of the facts so far, or `None` before any part.
    fn so_far(&self) -> Live<Option<&Heap>>
        ensures { LendsHeap (outcome_of self.now) result }
    {
        if self.failed {
            return Live::Failed;
        }
        match self.gatherer.standing() {
            Standing::Failed => Live::Failed,
            Standing::InConflict => Live::InConflict,
            Standing::Empty => Live::Is(None),
            Standing::Clean => Live::Is(self.gatherer.heap()),
        }
    }

    /// Returns the layout of a class. If memory runs out, the answer is `AllocError`, and later calls are not affected.
    pub fn layout_now(&self, alloc: Global, class: u64) -> Result<Live<Layout>, AllocError>
        ensures { IfOk result (IsAnswer (λ ids facts layout. IsLayout facts class (layout_value layout)) (outcome_of self.now)) }
    {
        self.so_far().try_map(|heap| match heap {
            None => Ok(layout_of_none(alloc, class)),
            Some(heap) => layout(alloc, heap, class),
        })
    }

    /// Returns the number of instances whose class has a known layout. Each of them is laid once, and counted then.
    pub fn cuts(&self) -> Live<u64>
        ensures kind { IsKindOf (outcome_of self.now) result }
        ensures value { IsCurrent self.now
            → IsAnswer (λ ids facts number. IsNumberOf (CanBeLaid facts) number) (outcome_of self.now) result }
    {
        self.so_far().map(|heap| match heap {
            None => 0,
            Some(heap) => self.derived.cuts(heap),
        })
    }

    /// Returns the number of instances whose class has no known layout: it misses a class, or the superclasses run in a circle.
    pub fn unresolved(&self) -> Live<u64>
        ensures kind { IsKindOf (outcome_of self.now) result }
        ensures value { IsCurrent self.now
            → IsAnswer (λ ids facts number. IsNumberOf (CannotBeLaid facts) number) (outcome_of self.now) result }
    {
        self.so_far().map(|heap| match heap {
            None => 0,
            Some(heap) => self.derived.unresolved(heap),
        })
    }

    /// Returns the collected edges from a place on.
    fn lend_edges(&self, start: usize) -> Live<&[Edge]>
        requires { start ≤ vec_len self.now.derived.set.edges }
        ensures { IsAnswer (λ ids facts edges. edges.now ≡ drop start (edges_in self.now.derived.set)) (outcome_of self.now) result }
    {
        self.so_far().map(|_| self.derived.edges_from(start))
    }

    /// Returns the edges to an identifier, in order, each once. There are none to 0.
    ///
    /// If only some edges are collected, those of them are returned. Allocates nothing, and changes no answer of the live heap.
    pub fn referrers_now(&mut self, id: u64) -> Live<&[Edge]>
        ensures* rests { sem 𝓛 (RestsAsItIs self.entry) }
        ensures kind { IsKindOf (outcome_of self.old) result }
        ensures value { Watches self.old id
            → IsAnswer (λ ids facts edges. AreReferrers ids facts id edges.now) (outcome_of self.old) result }
        // Of any identifier: those of the edges to it that are kept.
        ensures kept { IsCurrent self.old → IsAnswer (λ ids facts edges. AreEdges ids facts (λ edge. (edge.to ≡ id)
            × (keeps_of self.old.derived edge ≡ true)) edges.now) (outcome_of self.old) result }
    {
        let start = self.derived.partition_by_target(id);
        self.lend_edges(start)
    }

    /// Derives the data of a fact, as [`LiveHeap::derive`] does. It is not inlined into the loop over the facts of a part, so that the
    /// gatherer's part of `take` is.
    #[inline(never)]
    fn derive_any(&mut self, fact: &Fact<'_>) -> Result<(), AllocError>
        ensures derives { OnOk result ((before : List FactValue) (heap : HeapValue)
            → answer_of (gathered self.old.gatherer) ≡ Ok heap → AddsFact before (value_of fact.now) heap.facts
            → IsDerived heap.ids before self.old.derived → IsDerived heap.ids heap.facts self.new.derived) }
        ensures keeps { OnOk result (keeps_of self.new.derived ≡ keeps_of self.old.derived) }
        ensures gathered { gathered self.new.gatherer ≡ gathered self.old.gatherer }
        ensures failed { self.new.failed ≡ self.old.failed }
    {
        match self.gatherer.heap() {
            None => Ok(()),
            Some(heap) => {
                self.derived.add(heap, fact)?;
                Ok(())
            }
        }
    }

    /// Derives the data of a fact that the gatherer took, and that was new to it.
    #[inline(always)]
    fn derive(&mut self, fact: &Fact<'_>) -> Result<(), AllocError>
        ensures derives { OnOk result ((before : List FactValue) (heap : HeapValue)
            → answer_of (gathered self.old.gatherer) ≡ Ok heap → AddsFact before (value_of fact.now) heap.facts
            → IsDerived heap.ids before self.old.derived → IsDerived heap.ids heap.facts self.new.derived) }
        ensures keeps { OnOk result (keeps_of self.new.derived ≡ keeps_of self.old.derived) }
        ensures gathered { gathered self.new.gatherer ≡ gathered self.old.gatherer }
        ensures failed { self.new.failed ≡ self.old.failed }
    {
        // What is in an array of numbers refers to nothing.
        if let Fact::PrimArray { .. } = *fact {
            return Ok(());
        }
        self.derive_any(fact)
    }

    /// Returns the heap of all facts, and the index of the collected edges. Allocates nothing.
    ///
    /// The first of these that applies is the refusal: a fault, no parts, two identifier sizes, a conflict.
    pub fn finish(self) -> Result<(Heap, Index), Refusal>
        ensures answer { seen_in indexed_heap result ≡ outcome_of self }
        ensures told { (parts : List Given) → Gathers nothing_gathered parts (seen_by self) → Tells parts (seen_in indexed_heap result) }
        ensures listed { IfOk result (λ found. (id : ℕ) → Watches self id → ListsTo found id) }
        // All of them: those edges that are kept.
        ensures kept { IfOk result (λ found. IsCurrent self
            → IsIndexOf (size_of found.0) (facts_of found.0) (keeps_of self.derived) found.1) }
    {
        let LiveHeap {
            gatherer,
            derived,
            failed,
        } = self;
        if failed {
            return Err(Refusal::Failed);
        }
        match gatherer.finish() {
            Err(refusal) => Err(refusal),
            Ok(heap) => Ok((heap, derived.into_index())),
        }
    }
}

impl Sink for LiveHeap {
    ghost use Rattle.hprof_graph.specs.LiveHeap.{BeginsLive, RefusesLive, TakesLive, seen_by};

    ghost begins = { BeginsLive };

    ghost steps = { TakesLive };

    ghost begun = { λ live. (seen_by live).begun };

    ghost failed = { λ live. (seen_by live).failed };

    ghost refuses = { RefusesLive };

    fn begin_part(&mut self, header: Header) -> Result<(), SinkFault> {
        if self.failed {
            return Err(SinkFault::Failed);
        }
        self.gatherer.begin_part(header)?;
        Ok(())
    }

    #[inline(always)]
    fn take(&mut self, fact: &Fact<'_>, spelled: &[u8]) -> Result<(), SinkFault> {
        if self.failed {
            return Err(SinkFault::Failed);
        }
        let Some(stated) = self.gatherer.state(fact, spelled)? else {
            return Ok(());
        };
        match stated {
            Stated::Same | Stated::Differs => Ok(()),
            Stated::New => {
                let Ok(()) = self.derive(fact) else {
                    self.failed = true;
                    return Err(SinkFault::OutOfMemory);
                };
                Ok(())
            }
        }
    }
}

/// Returns the heap, and the index of the collected edges.
impl Gather for LiveHeap {
    ghost use Rattle.hprof_graph.specs.LiveHeap.{Watches, seen_by, watches_on};
    ghost use Rattle.hprof_graph.specs.Indexed.{ListsTo, indexed_heap};

    ghost gathered = { seen_by };

    ghost watches = { Watches };

    ghost heap_in = { indexed_heap };

    ghost lists = { ListsTo };

    type Found = (Heap, Index);

    fn finish(self) -> Result<(Heap, Index), Refusal> {
        LiveHeap::finish(self)
    }

    ghost begins_parts = { λ old header new begins. begins.begins };

    ghost takes_facts = { λ old fact new takes. takes.takes };

    ghost refuses_facts = { λ old given fault new refuses. refuses };

    ghost watches_on = { λ old header new begins id watches. watches_on old new begins.goes_on id watches };

    ghost watches_still = { λ old fact new takes id watches. watches_on old new takes.goes_on id watches };
}
