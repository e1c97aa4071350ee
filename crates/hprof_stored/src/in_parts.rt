//! The objects of parts, which stay in the parts, in memory and in scratch.

ghost use Rattle.std.specs.Prelude.{◌≡◌};
ghost use Rattle.hprof_stored.specs.InParts.{count_stop, pass_stop};

use crate::in_parts_fault::InPartsFault;
use crate::row_counter::{CountFull, RowCounter};
use crate::row_decoder::{RowDecoder, RowRefusal};
use hprof_heap::{Heap, id_size};
use hprof_objects::{CutLists, ObjectFault, StoredObjects};
use hprof_parts::Parts;
use hprof_passes::{ObjectSink, Objects, PassFault};
use hprof_runs::Scratch;
use hprof_stream::Limits;
use std::alloc::{AllocError, Global};

/// The objects of parts, which are read again for each pass.
#[derive(Drop)]
pub struct InParts<'a, S, P> {
    objects: &'a StoredObjects<S>,
    parts: &'a P,
    limits: Limits,
}

impl<'a, S, P> InParts<'a, S, P> {
    ghost use Rattle.hprof_stored.specs.InParts.{limits_under, objects_under, parts_under};

    /// Returns the stored objects of parts. The parts are those that were read, and the limits those of the first reading; the reads of a
    /// part are counted anew in each pass.
    pub fn new(objects: &'a StoredObjects<S>, parts: &'a P, limits: Limits) -> Self
        ensures objects { objects_under result ≡ objects.now }
        ensures parts { parts_under result ≡ parts.now }
        ensures limits { limits_under result ≡ limits }
    {
        InParts {
            objects,
            parts,
            limits,
        }
    }
}

/// Returns why a pass stops, where a merge into a sink of rows stopped.
fn pass_stop<E>(stop: ObjectFault<RowRefusal<E>>) -> PassFault<E, InPartsFault>
    ensures { result ≡ pass_stop stop }
{
    match stop {
        ObjectFault::OutOfMemory => PassFault::Lost(InPartsFault::OutOfMemory),
        ObjectFault::TwoContents(id) => PassFault::Lost(InPartsFault::TwoContents(id)),
        ObjectFault::Scratch(fault) => PassFault::Lost(InPartsFault::Scratch(fault)),
        ObjectFault::Part { part, fault } => PassFault::Lost(InPartsFault::Part { part, fault }),
        ObjectFault::Sink(RowRefusal::NoObject) => PassFault::Lost(InPartsFault::NoObject),
        ObjectFault::Sink(RowRefusal::Sink(fault)) => PassFault::Sink(fault),
    }
}

impl<S: Scratch + Drop, P: Parts> InParts<'_, S, P> {
    ghost use Rattle.std.specs.Prelude.{List, IfErr, IfOk};
    ghost use Rattle.std.specs.List.Sorted.{IsStrictlyIncreasing};
    ghost use Rattle.hprof_items.specs.FactValue.{FactValue};
    ghost use Rattle.hprof_heap.specs.HeapFacts.{facts_of, size_of};
    ghost use Rattle.hprof_passes.specs.Passing.{IfLost, Passes, objects_among};
    ghost use Rattle.hprof_objects.specs.CutLists.{AreListsOf};
    ghost use Rattle.hprof_passes.specs.Picked.{picked};
    ghost use Rattle.hprof_stored.specs.InParts.{HaveUnion, MakeUp, TellsPass, objects_under};

    /// Returns the lists of the cuts of the objects, for `pick_agreed`.
    pub(crate) fn cut_lists(&self, alloc: Global) -> Result<CutLists, AllocError>
        ensures { IfOk result (AreListsOf (objects_under self.now)) }
    {
        self.objects.cut_lists(alloc)
    }

    /// Gives a sink those of the objects whose identifiers are wanted, as `pick` does. No identifier has two contents. The lists are those
    /// that `cut_lists` returned.
    pub(crate) fn pick_agreed<T: ObjectSink>(
        &self,
        alloc: Global,
        heap: &Heap,
        lists: &CutLists,
        wanted: &[u64],
        sink: &mut T,
    ) -> Result<(), PassFault<T::Fault, InPartsFault>>
        requires lists { AreListsOf (objects_under self.now) lists.now }
        requires agree { HaveUnion S.written S.health P.bytes self.now }
        requires ascend { IsStrictlyIncreasing wanted.now }
        ensures given { (all : List FactValue) → MakeUp S.written S.health P.bytes self.now (size_of heap.now) (facts_of heap.now) all
            → Passes T.takes T.refuses (size_of heap.now) (picked wanted.now (objects_among all)) result sink.old sink.new }
        ensures tells { IfErr result (IfLost (TellsPass S.written S.health P.bytes S.unreadable self.now (size_of heap.now)
            (facts_of heap.now))) }
    {
        let mut rows = RowDecoder::new(id_size(heap), sink);
        let objects = self.objects;
        match objects.pick_agreed(alloc, lists, self.parts, self.limits, wanted, &mut rows) {
            Ok(()) => Ok(()),
            Err(stop) => Err(pass_stop(stop)),
        }
    }
}

/// Returns why the objects cannot be counted, where a merge into a counter stopped.
fn count_stop(stop: ObjectFault<CountFull>) -> InPartsFault
    ensures { result ≡ count_stop stop }
{
    match stop {
        ObjectFault::OutOfMemory => InPartsFault::OutOfMemory,
        ObjectFault::TwoContents(id) => InPartsFault::TwoContents(id),
        ObjectFault::Scratch(fault) => InPartsFault::Scratch(fault),
        ObjectFault::Part { part, fault } => InPartsFault::Part { part, fault },
        ObjectFault::Sink(CountFull) => InPartsFault::TooMany,
    }
}

impl<S: Scratch + Drop, P: Parts> InParts<'_, S, P> {
    ghost use Rattle.std.specs.Prelude.{List, IfErr, IfOk, OnOk};
    ghost use Rattle.hprof_values.specs.declared.ids.IdSize.{IdSize};
    ghost use Rattle.hprof_items.specs.FactValue.{FactValue};
    ghost use Rattle.hprof_stored.specs.InParts.{AreSoMany, HaveUnion, TellsPass};

    /// Returns the number of objects. If one stretch has them all, nothing is read.
    ///
    /// # Errors
    ///
    /// - `OutOfMemory`: memory ran out.
    /// - `TwoContents`: the least identifier of which objects have two contents.
    /// - `Scratch`, `Part`: objects cannot be read again, or a part is not there.
    /// - `TooMany`: there are 2^64 or more.
    pub(crate) fn count_all(&self, alloc: Global) -> Result<u64, InPartsFault>
        ensures count { IfOk result (AreSoMany S.written S.health P.bytes self.now) }
        ensures agree { OnOk result (HaveUnion S.written S.health P.bytes self.now) }
        ensures tells { IfErr result (λ fault. (ids : IdSize) (facts : List FactValue)
            → TellsPass S.written S.health P.bytes S.unreadable self.now ids facts fault) }
    {
        if let Some(count) = self.objects.count_in_one_stretch() {
            return Ok(count);
        }
        let mut counter = RowCounter { count: 0 };
        match self
            .objects
            .merge(alloc, self.parts, self.limits, &mut counter)
        {
            Ok(()) => Ok(counter.count),
            Err(stop) => Err(count_stop(stop)),
        }
    }
}

impl<S: Scratch + Drop, P: Parts> Objects for InParts<'_, S, P> {
    ghost use Rattle.hprof_stored.specs.InParts.{HaveUnion, MakeUp, TellsPass};

    ghost make_up = { MakeUp S.written S.health P.bytes };

    ghost agree = { λ it ids facts. HaveUnion S.written S.health P.bytes it };

    ghost tells = { TellsPass S.written S.health P.bytes S.unreadable };

    type Fault = InPartsFault;

    fn pass<T: ObjectSink>(
        &self,
        alloc: Global,
        heap: &Heap,
        sink: &mut T,
    ) -> Result<(), PassFault<T::Fault, InPartsFault>> {
        let mut rows = RowDecoder::new(id_size(heap), sink);
        match self
            .objects
            .merge(alloc, self.parts, self.limits, &mut rows)
        {
            Ok(()) => Ok(()),
            Err(stop) => Err(pass_stop(stop)),
        }
    }

    fn pick<T: ObjectSink>(
        &self,
        alloc: Global,
        heap: &Heap,
        wanted: &[u64],
        sink: &mut T,
    ) -> Result<(), PassFault<T::Fault, InPartsFault>> {
        let mut rows = RowDecoder::new(id_size(heap), sink);
        match self
            .objects
            .pick(alloc, self.parts, self.limits, wanted, &mut rows)
        {
            Ok(()) => Ok(()),
            Err(stop) => Err(pass_stop(stop)),
        }
    }

    fn count(&self, alloc: Global, _heap: &Heap) -> Result<u64, InPartsFault> {
        self.count_all(alloc)
    }

    ghost whole = { λ it ids facts all make. make.whole };
}
