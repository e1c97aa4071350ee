//! The places of chosen classes and objects, by passes over objects.

ghost use Rattle.std.specs.Prelude.{◌↔◌, ℕ, Contains, IfOk, IsTrue, List};
ghost use Rattle.std.specs.List.Sorted.{IsStrictlyIncreasing};
ghost use Rattle.hprof_items.specs.FactValue.{FactValue};
ghost use Rattle.hprof_heap.specs.Classes.{ClassValue, HasDump};
ghost use Rattle.hprof_heap.specs.HeapFacts.{facts_of, size_of};
ghost use Rattle.hprof_passes.specs.Finding.{Finds};
ghost use Rattle.hprof_retained.specs.Tree.{IsTreeOf};
ghost use Rattle.hprof_keeps.specs.Chosen.{ClassesAscend, IsChosen};
ghost use Rattle.hprof_keeps.specs.Gathered.{ArePlacesOf, IsChosenObject, IsGiven, IsObjectOrClass};
ghost use Rattle.hprof_keeps.specs.Kept.{ArePlaces};
ghost use Rattle.hprof_keeps.specs.PlaceTaken.{AreChosenPlaces};
ghost use Rattle.hprof_keeps.specs.declared.choice.Choice.{Choice};

use crate::children::sort_places;
use crate::choice::{Choice, has_class_dumps};
use crate::chosen::{object_places_over, push_classes};
use hprof_heap::{Heap, Table, table_facts, to_class_dump};
use hprof_passes::{Objects, PassFault};
use hprof_reach::sort_once;
use hprof_retained::Retained;
use hprof_small::small_heap;
use std::alloc::{AllocError, Global};

/// Returns the identifiers that have a class dump, sorted. If memory runs out, the answer is `AllocError`.
fn class_ids(alloc: Global, heap: &Heap) -> Result<Vec<u64>, AllocError>
    ensures ascend { IfOk result (λ ids. IsStrictlyIncreasing ids.items) }
    ensures has { IfOk result (λ ids. (dump : ClassValue) → HasDump (facts_of heap.now) dump → Contains ids.items dump.id) }
{
    let mut ids = Vec::new(alloc);
    for fact in table_facts(heap, Table::Classes) {
        if let Some(dump) = to_class_dump(&fact) {
            ids.push(dump.id)?;
        }
    }
    sort_once(&mut ids)?;
    Ok(ids)
}

/// Adds the places of the class dumps without an object dump to those of the objects of a choice. Picks the objects of all classes.
///
/// # Errors
///
/// Those of `small_heap`.
fn with_classes<O: Objects>(
    alloc: Global,
    heap: &Heap,
    objects: &O,
    retained: &Retained,
    places: Vec<usize>,
) -> Result<Vec<usize>, PassFault<AllocError, O::Fault>>
    ensures { (choice : Choice) → ((all : List FactValue) → O.make_up objects.now (size_of heap.now) (facts_of heap.now) all
        → ArePlacesOf retained.now (IsGiven (IsChosenObject choice) all) places.items)
        → Finds (O.make_up objects.now (size_of heap.now) (facts_of heap.now)) (O.agree objects.now (size_of heap.now) (facts_of heap.now))
        (O.tells objects.now (size_of heap.now) (facts_of heap.now))
        (λ all more. ArePlacesOf retained.now (IsObjectOrClass all choice) more.items) result }
{
    let Ok(ids) = class_ids(alloc, heap) else {
        return Err(PassFault::Sink(AllocError));
    };
    let small = small_heap(alloc, heap, objects, &ids)?;
    let mut more = places;
    match push_classes(&small, retained, &mut more) {
        Ok(()) => Ok(more),
        Err(fault) => Err(PassFault::Sink(fault)),
    }
}

/// Returns the places of the nodes of a choice, in the order of the objects and of the heap.
///
/// # Errors
///
/// Those of `object_places_over` and `small_heap`.
fn gather_over<O: Objects>(
    alloc: Global,
    heap: &Heap,
    objects: &O,
    retained: &Retained,
    choice: Choice<'_>,
) -> Result<Vec<usize>, PassFault<AllocError, O::Fault>>
    requires { ClassesAscend choice }
    ensures { Finds (O.make_up objects.now (size_of heap.now) (facts_of heap.now))
        (O.agree objects.now (size_of heap.now) (facts_of heap.now)) (O.tells objects.now (size_of heap.now) (facts_of heap.now))
        (λ all places. ArePlacesOf retained.now (IsChosen all choice.entry) places.items) result }
{
    let places = object_places_over(alloc, heap, objects, retained, choice)?;
    if has_class_dumps(&choice) {
        with_classes(alloc, heap, objects, retained, places)
    } else {
        Ok(places)
    }
}

/// Returns whether each of these is the place of a node.
fn are_places(retained: &Retained, places: &[usize]) -> bool
    ensures { IsTrue result ↔ ArePlaces retained.now places.now }
{
    for place in places {
        if *place == 0 || *place >= retained.len() {
            return false;
        }
    }
    true
}

/// Returns the places of the nodes of a choice, of those that objects make up with a heap, those that retain the most bytes first, then
/// those that retain the most objects, then by identifier.
///
/// # Errors
///
/// Those of `object_places_over` and `small_heap`.
pub(crate) fn chosen_over<O: Objects>(
    alloc: Global,
    heap: &Heap,
    objects: &O,
    retained: &Retained,
    choice: Choice<'_>,
) -> Result<Vec<usize>, PassFault<AllocError, O::Fault>>
    requires tree { (all : List FactValue) → O.make_up objects.now (size_of heap.now) (facts_of heap.now) all
        → IsTreeOf (size_of heap.now) all retained.now }
    requires ascend { ClassesAscend choice }
    ensures places { IfOk result (λ places. ArePlaces retained.now places.items) }
    ensures nodes { Finds (O.make_up objects.now (size_of heap.now) (facts_of heap.now))
        (O.agree objects.now (size_of heap.now) (facts_of heap.now)) (O.tells objects.now (size_of heap.now) (facts_of heap.now))
        (λ all places. AreChosenPlaces (size_of heap.now) all choice.entry retained.now places.items) result }
{
    let mut places = gather_over(alloc, heap, objects, retained, choice)?;
    sort_places(retained, &mut places);
    // What a pass does to its sink is said only of objects that make up a heap, so the places are looked at.
    if are_places(retained, &places) {
        Ok(places)
    } else {
        Err(PassFault::Sink(AllocError))
    }
}
