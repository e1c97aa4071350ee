//! The weak fields of the classes of instances.

ghost use Rattle.std.specs.Prelude.{◌≡◌, ◌≤◌, ◌+◌, ◌↔◌, ℕ, IfErr, IfOk, IfSome, IsSome, IsTrue, OnOk, List, None, length};
ghost use Rattle.hprof_items.specs.FactValue.{FactValue};
ghost use Rattle.hprof_rows.specs.Conflict.{IsConsistent};
ghost use Rattle.hprof_heap.specs.HeapFacts.{facts_of, size_of};
ghost use Rattle.hprof_passes.specs.Passing.{IfLost};
ghost use Rattle.hprof_weak.specs.WeakClasses.{AreWeakClasses, first_of};
ghost use Rattle.hprof_weak.specs.Rows.{ArePut, AreWeakRows, PutsWeak};

use crate::row_sink::RowSink;
use crate::weak_classes::WeakClasses;
use hprof_edges::FieldPlace;
use hprof_heap::Heap;
use hprof_passes::{Objects, PassFault};
use std::alloc::{AllocError, Global};

impl WeakClasses {
    /// Appends the weak fields of a class, as far as their places are below `room`. If all are, the class is removed. Returns whether all
    /// are.
    pub(crate) fn put_weak(
        &mut self,
        class: u64,
        room: u64,
        fields: &mut Vec<FieldPlace>,
    ) -> Result<bool, AllocError>
        ensures puts { OnOk result ((facts : List FactValue)
            → PutsWeak facts class room self.old self.new fields.old.items fields.new.items) }
        ensures all { IfOk result (λ all. IsTrue all ↔ (first_of self.new class ≡ None)) }
        ensures few { OnOk result (length fields.new.items ≤ length fields.old.items + room) }
    {
        let Some(first) = self.firsts.get(&class).copied() else {
            return Ok(true);
        };
        let all = self.links.push_referents(class, first, room, fields)?;
        if all {
            self.firsts.remove(&class);
        }
        Ok(all)
    }

    /// Returns the least of the classes, or `None` if there is none.
    fn least(&self) -> Option<u64>
        ensures { IfSome result (λ class. IsSome (first_of self.now class)) }
    {
        let (class, _) = self.firsts.first_key_value()?;
        Some(*class)
    }

    /// Appends the weak fields of the least classes, one class after another, as long as there is room for `most` fields in all. The
    /// classes whose weak fields all are there are removed.
    fn put_few(&mut self, most: u64, fields: &mut Vec<FieldPlace>) -> Result<(), AllocError>
        ensures put { OnOk result ((facts : List FactValue) → IsConsistent facts → ArePut facts self.old fields.old.items
            → ArePut facts self.new fields.new.items) }
        ensures few { OnOk result ((count : ℕ) → length fields.old.items ≤ count → most ≤ count → length fields.new.items ≤ count) }
    {
        for _ in 0..self.firsts.len() {
            let Some(class) = self.least() else {
                return Ok(());
            };
            let room = most.saturating_sub(fields.len() as u64);
            if !self.put_weak(class, room, fields)? {
                return Ok(());
            }
        }
        Ok(())
    }
}

/// The number of weak fields of a class for which there is room on average, before a pass over the instances bounds them.
const FIELDS_OF_CLASS: u64 = 2;

/// The number of weak fields for which there is room, however few classes have some.
const LEAST_ROOM: u64 = 4096;

/// Returns the weak fields of the classes of instances. If there are many, some of a class without instances may be missing: a pass over
/// the objects then bounds them.
///
/// # Errors
///
/// - `Sink`: memory ran out.
/// - `Lost`: the objects cannot be gone through.
pub(crate) fn rows_over<O: Objects>(
    alloc: Global,
    heap: &Heap,
    objects: &O,
    classes: WeakClasses,
) -> Result<Vec<FieldPlace>, PassFault<AllocError, O::Fault>>
    requires { AreWeakClasses (facts_of heap.now) classes }
    ensures rows { IfOk result (λ fields. (all : List FactValue)
        → O.make_up objects.now (size_of heap.now) (facts_of heap.now) all → AreWeakRows (size_of heap.now) all fields.items) }
    ensures tells { IfErr result (IfLost (O.tells objects.now (size_of heap.now) (facts_of heap.now))) }
{
    let mut left = classes;
    let mut fields = Vec::new(alloc);
    let most = (left.firsts.len() as u64)
        .saturating_mul(FIELDS_OF_CLASS)
        .saturating_add(LEAST_ROOM);
    match left.put_few(most, &mut fields) {
        Ok(()) => {}
        Err(fault) => return Err(PassFault::Sink(fault)),
    }
    if left.firsts.is_empty() {
        return Ok(fields);
    }
    let mut sink = RowSink { left, fields };
    match objects.pass(alloc, heap, &mut sink) {
        Ok(()) => Ok(sink.fields),
        Err(stop) => Err(stop),
    }
}
