//! The data that is derived from facts: known layouts, edges, and counts of instances.

ghost use Rattle.std.specs.Prelude.{◌≡◌, ◌↔◌, ◌≤◌, ◌+◌, ◌++◌, ◌∷◌, ℕ, true, false, List, [], Contains, IsTrue, IfOk, OnOk, drop, vec_len};
ghost use Rattle.hprof_values.specs.declared.ids.IdSize.{IdSize};
ghost use Rattle.hprof_items.specs.FactValue.{FactValue, Instance, ObjArray, value_of};
ghost use Rattle.hprof_values.specs.Lists.{identifiers_of};
ghost use Rattle.hprof_rows.specs.Facts.{Has};
ghost use Rattle.hprof_heap.specs.HeapFacts.{facts_of, size_of};
ghost use Rattle.hprof_heap.specs.ClassDump.{class_value};
ghost use Rattle.hprof_heap.specs.Classes.{fact_of_class};
ghost use Rattle.hprof_layouts.specs.Known.{HasLayout, Knows};
ghost use Rattle.hprof_edges.specs.declared.edge.Edge.{Edge};
ghost use Rattle.hprof_edges.specs.Collecting.{is_edge_wanted};
ghost use Rattle.hprof_edges.specs.Edges.{AreEdges, AreReferrers};
ghost use Rattle.hprof_edges.specs.EdgeSet.{edges_in};
ghost use Rattle.hprof_graph.specs.Derived.{AddsFact, CanBeLaid, CannotBeLaid, HasLaid, IsDerived, IsDeriving, IsInstanceOf, IsOther};
ghost use Rattle.hprof_graph.specs.Derived.{keeps_of, stopped};
ghost use Rattle.hprof_graph.specs.Indexed.{IsIndexOf};
ghost use Rattle.hprof_graph.specs.Number.{IsNumberOf};

use crate::behind::partition_by_target;
use crate::by_target::sort_by_target;
use crate::indexed::Index;
use hprof_edges::{Edge, EdgeSet, array_edges, class_edges, edge_to_class, field_edges};
use hprof_heap::{ClassDump, Heap, ObjectDump, find_object, holds_of_heap, id_size, to_class_dump};
use hprof_items::Fact;
use hprof_layouts::{KnownLayouts, Reference, WaitingLists, Wanted};
use hprof_values::{IdList, IdSize};
use std::alloc::{AllocError, Global};

/// The data that is derived from facts as they come.
#[derive(Drop)]
pub(crate) struct Derived {
    known: KnownLayouts,
    waiting: WaitingLists<u64>,
    set: EdgeSet,
    references: Vec<Reference>,
    instances: u64,
    cuts: u64,
}

impl Derived {
    /// Returns the data of no facts. Allocates nothing.
    pub(crate) fn new(alloc: Global, wanted: Wanted) -> Derived
        ensures derived { (ids : IdSize) → IsDerived ids [] result }
        ensures keeps { keeps_of result ≡ is_edge_wanted wanted }
    {
        Derived {
            known: KnownLayouts::new(alloc),
            waiting: WaitingLists::new(alloc),
            set: EdgeSet::new(alloc, wanted),
            references: Vec::new(alloc),
            instances: 0,
            cuts: 0,
        }
    }

    /// Returns the number of instances that were laid. `heap` has the facts so far.
    pub(crate) fn cuts(&self, heap: &Heap) -> u64
        ensures { IsDerived (size_of heap.now) (facts_of heap.now) self.now → IsNumberOf (CanBeLaid (facts_of heap.now)) result }
    {
        // A number can count the objects, so this count never stopped.
        holds_of_heap(heap);
        self.cuts
    }

    /// Returns the number of instances that wait for a layout. `heap` has the facts so far.
    pub(crate) fn unresolved(&self, heap: &Heap) -> u64
        ensures { IsDerived (size_of heap.now) (facts_of heap.now) self.now → IsNumberOf (CannotBeLaid (facts_of heap.now)) result }
    {
        // As in `cuts`, neither count stopped.
        holds_of_heap(heap);
        self.instances.saturating_sub(self.cuts)
    }

    /// Moves the edges to an identifier to the end, in order, and returns the place where they begin.
    pub(crate) fn partition_by_target(&mut self, id: u64) -> usize
        ensures within { result ≤ vec_len self.new.set.edges }
        ensures behind { (ids : IdSize) (facts : List FactValue) → IsDerived ids facts self.old
            → ((edge : Edge) → edge.to ≡ id → keeps_of self.old edge ≡ true)
            → AreReferrers ids facts id (drop result (edges_in self.new.set)) }
        ensures kept { (ids : IdSize) (facts : List FactValue) → IsDerived ids facts self.old
            → AreEdges ids facts (λ edge. (edge.to ≡ id) × (keeps_of self.old edge ≡ true)) (drop result (edges_in self.new.set)) }
        ensures same { (ids : IdSize) (facts : List FactValue) → IsDerived ids facts self.old → IsDerived ids facts self.new }
        ensures keeps { keeps_of self.new ≡ keeps_of self.old }
    {
        partition_by_target(&mut self.set.edges, id)
    }

    /// Returns the collected edges from a place on.
    pub(crate) fn edges_from(&self, start: usize) -> &[Edge]
        requires { start ≤ vec_len self.now.set.edges }
        ensures { result.now ≡ drop start (edges_in self.now.set) }
    {
        let (_, edges) = self.set.edges.split_at(start);
        edges
    }

    /// Returns the index of the edges.
    pub(crate) fn into_index(self) -> Index
        ensures { (ids : IdSize) (facts : List FactValue) → IsDerived ids facts self → IsIndexOf ids facts (keeps_of self) result }
    {
        let mut edges = self.set.edges;
        sort_by_target(&mut edges);
        Index { edges }
    }

    /// Lays an instance if the layout of its class is known, and counts it. Returns whether it was laid. Instances are counted only here.
    #[inline(always)]
    fn lay(
        &mut self,
        ids: IdSize,
        instance: u64,
        class: u64,
        bytes: &[u8],
    ) -> Result<bool, AllocError>
        ensures lays { OnOk result ((facts : List FactValue) (laid gone : List ℕ) (trace : ℕ)
            → Has facts (Instance instance trace class bytes.now) → HasLayout facts class → (Contains laid instance → ⊥)
            → IsDeriving ids facts self.old laid gone → IsDeriving ids facts self.new (laid ++ instance ∷ []) gone) }
        ensures known { IfOk result (λ is_laid. (sizes : IdSize) (facts : List FactValue) → Knows sizes facts self.old.known
            → IsTrue is_laid ↔ HasLayout facts class) }
        ensures counted { IfOk result (λ is_laid. is_laid ≡ true → self.new.cuts ≡ stopped (self.old.cuts + 1)) }
        ensures unlaid { IfOk result (λ is_laid. is_laid ≡ false → self.new ≡ record self.old { references = self.new.references }) }
        ensures keeps { OnOk result (keeps_of self.new ≡ keeps_of self.old) }
    {
        let is_laid = field_edges(
            &self.known,
            instance,
            class,
            bytes,
            ids,
            &mut self.references,
            &mut self.set,
        )?;
        if !is_laid {
            return Ok(false);
        }
        self.cuts = self.cuts.saturating_add(1);
        Ok(true)
    }

    /// Looks up an instance that waited, and lays it.
    fn lay_waiting(&mut self, heap: &Heap, instance: u64) -> Result<(), AllocError>
        ensures lays { OnOk result ((laid gone : List ℕ) (class : ℕ)
            → IsInstanceOf (facts_of heap.now) instance class → HasLayout (facts_of heap.now) class
            → (Contains laid instance → ⊥) → IsDeriving (size_of heap.now) (facts_of heap.now) self.old laid gone
            → IsDeriving (size_of heap.now) (facts_of heap.now) self.new (laid ++ instance ∷ []) gone) }
        ensures keeps { OnOk result (keeps_of self.new ≡ keeps_of self.old) }
    {
        match find_object(heap, instance) {
            Some(ObjectDump::Instance { class, bytes, .. }) => {
                self.lay(id_size(heap), instance, class, bytes)?;
                Ok(())
            }
            // What waits is an instance.
            _ => Ok(()),
        }
    }

    /// Lays the instances that wait for a class, whose layout is now known.
    fn wake(&mut self, heap: &Heap, class: u64) -> Result<(), AllocError>
        ensures lays { OnOk result ((laid : List ℕ) → HasLayout (facts_of heap.now) class
            → IsDeriving (size_of heap.now) (facts_of heap.now) self.old laid laid
            → HasLaid (size_of heap.now) (facts_of heap.now) self.new laid (class ∷ [])) }
        ensures keeps { OnOk result (keeps_of self.new ≡ keeps_of self.old) }
    {
        let Some(waiting) = self.waiting.take(class) else {
            return Ok(());
        };
        for instance in waiting {
            self.lay_waiting(heap, instance)?;
        }
        Ok(())
    }

    /// Lays the instances that wait for classes whose layouts are now known.
    fn wake_all(&mut self, heap: &Heap, woken: &[u64]) -> Result<(), AllocError>
        ensures lays { OnOk result ((laid : List ℕ)
            → ((class : ℕ) → Contains woken.now class → HasLayout (facts_of heap.now) class)
            → IsDeriving (size_of heap.now) (facts_of heap.now) self.old laid laid
            → HasLaid (size_of heap.now) (facts_of heap.now) self.new laid woken.now) }
        ensures keeps { OnOk result (keeps_of self.new ≡ keeps_of self.old) }
    {
        for class in woken {
            self.wake(heap, *class)?;
        }
        Ok(())
    }

    /// Takes a class dump that is new to the heap.
    fn add_class(&mut self, heap: &Heap, dump: &ClassDump<'_>) -> Result<(), AllocError>
        ensures adds { OnOk result ((before : List FactValue)
            → AddsFact before (fact_of_class (class_value dump.now)) (facts_of heap.now)
            → IsDerived (size_of heap.now) before self.old → IsDerived (size_of heap.now) (facts_of heap.now) self.new) }
        ensures keeps { OnOk result (keeps_of self.new ≡ keeps_of self.old) }
    {
        class_edges(dump, &mut self.set)?;
        let woken = self.known.add_class(dump, id_size(heap))?;
        self.wake_all(heap, &woken)?;
        Ok(())
    }

    /// Takes a fact that is new to the heap, and is neither an instance nor an object array. Only class dumps have derived data. It is not
    /// inlined into [`Derived::add`], since few facts are class dumps.
    #[inline(never)]
    fn add_other(&mut self, heap: &Heap, fact: &Fact<'_>) -> Result<(), AllocError>
        requires { IsOther fact.now }
        ensures adds { OnOk result ((before : List FactValue)
            → AddsFact before (value_of fact.now) (facts_of heap.now)
            → IsDerived (size_of heap.now) before self.old → IsDerived (size_of heap.now) (facts_of heap.now) self.new) }
        ensures keeps { OnOk result (keeps_of self.new ≡ keeps_of self.old) }
    {
        if let Some(dump) = to_class_dump(fact) {
            self.add_class(heap, &dump)?;
        }
        Ok(())
    }

    /// Takes an instance that is new to the heap.
    #[inline(always)]
    fn add_instance(
        &mut self,
        ids: IdSize,
        instance: u64,
        class: u64,
        bytes: &[u8],
    ) -> Result<(), AllocError>
        ensures adds { OnOk result ((before facts : List FactValue) (trace : ℕ)
            → AddsFact before (Instance instance trace class bytes.now) facts
            → IsDerived ids before self.old → IsDerived ids facts self.new) }
        ensures keeps { OnOk result (keeps_of self.new ≡ keeps_of self.old) }
    {
        edge_to_class(instance, class, &mut self.set)?;
        self.instances = self.instances.saturating_add(1);
        if self.lay(ids, instance, class, bytes)? {
            return Ok(());
        }
        self.waiting.add(class, instance)?;
        Ok(())
    }

    /// Takes an object array that is new to the heap. It is not inlined into [`Derived::add`], which has few registers left.
    #[inline(never)]
    fn add_array(&mut self, array: u64, class: u64, elements: &IdList<'_>) -> Result<(), AllocError>
        ensures adds { OnOk result ((ids : IdSize) (before facts : List FactValue) (trace : ℕ)
            → AddsFact before (ObjArray array trace class (identifiers_of elements.now)) facts
            → IsDerived ids before self.old → IsDerived ids facts self.new) }
        ensures keeps { OnOk result (keeps_of self.new ≡ keeps_of self.old) }
    {
        array_edges(array, class, *elements, &mut self.set)?;
        Ok(())
    }

    /// Takes a fact that is new. `heap` already has it. If memory runs out, the answer is `AllocError` and the derived data is unspecified.
    #[inline(always)]
    pub(crate) fn add(&mut self, heap: &Heap, fact: &Fact<'_>) -> Result<(), AllocError>
        ensures adds { OnOk result ((before : List FactValue)
            → AddsFact before (value_of fact.now) (facts_of heap.now)
            → IsDerived (size_of heap.now) before self.old → IsDerived (size_of heap.now) (facts_of heap.now) self.new) }
        ensures keeps { OnOk result (keeps_of self.new ≡ keeps_of self.old) }
    {
        match *fact {
            Fact::Instance {
                id,
                class,
                bytes,
                ..
            } => self.add_instance(id_size(heap), id, class, bytes),
            Fact::ObjArray {
                id,
                class,
                ref elements,
                ..
            } => self.add_array(id, class, elements),
            _ => self.add_other(heap, fact),
        }
    }
}
