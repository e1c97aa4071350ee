//! The border of what strong references reach: the nodes outside, and the nodes inside that may have weak references.

ghost use Rattle.std.specs.Prelude.{◌≡◌, ◌≢◌, ◌↔◌, ◌⊎◌, ℕ, Contains, IfOk, OnOk};
ghost use Rattle.std.specs.List.Sorted.{IsStrictlyIncreasing};
ghost use Rattle.hprof_edges.specs.LeftOut.{fields_in};
ghost use Rattle.hprof_heap.specs.HeapFacts.{facts_of};
ghost use Rattle.hprof_heap.specs.ObjectDump.{fact_of_object};
ghost use Rattle.hprof_heap.specs.Objects.{IsObject};
ghost use Rattle.hprof_reach.specs.Nodes.{IsClassNode};
ghost use Rattle.hprof_retained.specs.Border.{has_class};
ghost use Rattle.hprof_retained.specs.Tree.{place_of};

use crate::retained::Retained;
use hprof_edges::LeftOut;
use hprof_heap::{Heap, ObjectDump, Table, table_facts, to_class_dump};
use hprof_reach::{id_of, push_node, sort_once};
use std::alloc::{AllocError, Global};

/// Returns whether a class has weak fields.
fn has_weak(weak: &LeftOut, class: u64) -> bool
    ensures { result ≡ has_class (fields_in weak.now) class }
{
    !weak.of(class).is_empty()
}

/// Appends an identifier, unless it is 0 or has a place in the tree.
fn push_other(retained: &Retained, others: &mut Vec<u64>, id: u64) -> Result<(), AllocError>
    ensures { OnOk result ((node : ℕ) → Contains others.new.items node
        ↔ (Contains others.old.items node ⊎ (((node ≢ 0) × (id ≡ node)) × (place_of retained.now node ≡ 0)))) }
{
    if retained.place(id) != 0 {
        return Ok(());
    }
    push_node(others, id)?;
    Ok(())
}

/// Appends the classes that have a dump, and no place in the tree.
pub(crate) fn push_classes(
    heap: &Heap,
    retained: &Retained,
    others: &mut Vec<u64>,
) -> Result<(), AllocError>
    ensures { OnOk result ((node : ℕ) → Contains others.new.items node ↔ (Contains others.old.items node
        ⊎ (IsClassNode (facts_of heap.now) node × (place_of retained.now node ≡ 0)))) }
{
    for fact in table_facts(heap, Table::Classes) {
        if let Some(dump) = to_class_dump(&fact) {
            push_other(retained, others, dump.id)?;
        }
    }
    Ok(())
}

/// The nodes on both sides of the border, as they are collected.
#[derive(Drop)]
pub(crate) struct Border<'w> {
    /// The weak fields of the heap's classes.
    weak: &'w LeftOut,
    /// The class that was looked up last in the table of weak fields.
    class: u64,
    /// Whether that class has weak fields.
    has_fields: bool,
    /// The nodes that strong references do not reach.
    pub(crate) others: Vec<u64>,
    /// The instances of classes with weak fields that strong references reach.
    pub(crate) sources: Vec<u64>,
    ghost looked_up: { has_fields ≡ has_class (fields_in weak.now) class },
}

impl<'w> Border<'w> {
    ghost use Rattle.std.specs.Prelude.{[], IsTrue};
    ghost use Rattle.hprof_retained.specs.Border.{IsOfClasses, IsOnBorder, IsOutside};

    /// Returns a border without nodes. Allocates nothing.
    pub(crate) fn new(alloc: Global, weak: &'w LeftOut) -> Border<'w>
        ensures weak { result.weak.now ≡ weak.now }
        ensures others { result.others.items ≡ [] }
        ensures sources { result.sources.items ≡ [] }
    {
        Border {
            weak,
            class: 0,
            has_fields: has_weak(weak, 0),
            others: Vec::new(alloc),
            sources: Vec::new(alloc),
        }
    }

    /// Returns whether an object is an instance of a class with weak fields. In a run of equal classes only the first is looked up.
    fn is_of_weak(&mut self, dump: &ObjectDump<'_>) -> bool
        ensures is { IsTrue result ↔ IsOfClasses (fields_in self.old.weak.now) (fact_of_object dump.now) }
        ensures weak { self.new.weak ≡ self.old.weak }
        ensures others { self.new.others ≡ self.old.others }
        ensures sources { self.new.sources ≡ self.old.sources }
    {
        let ObjectDump::Instance { class, .. } = *dump else {
            return false;
        };
        if class != self.class {
            let has_fields = has_weak(self.weak, class);
            self.class = class;
            self.has_fields = has_fields;
        }
        self.has_fields
    }

    /// Appends an object to the side of the border on which it is, if it is to be kept there.
    pub(crate) fn see(
        &mut self,
        retained: &Retained,
        dump: &ObjectDump<'_>,
    ) -> Result<(), AllocError>
        ensures others { OnOk result ((node : ℕ) → Contains self.new.others.items node ↔ (Contains self.old.others.items node
            ⊎ IsOutside retained.now (fact_of_object dump.now) node)) }
        ensures sources { OnOk result ((node : ℕ) → Contains self.new.sources.items node ↔ (Contains self.old.sources.items node
            ⊎ IsOnBorder (fields_in self.old.weak.now) retained.now (fact_of_object dump.now) node)) }
        ensures weak { self.new.weak ≡ self.old.weak }
    {
        let id = id_of(dump);
        if retained.place(id) == 0 {
            push_node(&mut self.others, id)?;
            return Ok(());
        }
        if !self.is_of_weak(dump) {
            return Ok(());
        }
        self.sources.push(id)?;
        Ok(())
    }
}

/// Returns the numbers of two lists, sorted, each once. If memory runs out, the answer is `AllocError`.
pub(crate) fn joined(alloc: Global, one: &[u64], other: &[u64]) -> Result<Vec<u64>, AllocError>
    ensures ascend { IfOk result (λ all. IsStrictlyIncreasing all.items) }
    ensures all { IfOk result (λ all. (node : ℕ) → Contains all.items node ↔ (Contains one.now node ⊎ Contains other.now node)) }
{
    let mut all = Vec::with_capacity(alloc, one.len().saturating_add(other.len()))?;
    all.extend_from_slice(one)?;
    all.extend_from_slice(other)?;
    sort_once(&mut all)?;
    Ok(all)
}
