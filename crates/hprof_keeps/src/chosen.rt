//! The places of chosen classes and objects, those that retain most first.

ghost use Rattle.std.specs.Prelude.{◌≡◌, ◌⊎◌, ◌++◌, ℕ, IfOk, List, MatchOption, OnOk};
ghost use Rattle.hprof_items.specs.FactValue.{FactValue, value_of};
ghost use Rattle.hprof_heap.specs.HeapFacts.{facts_of, size_of};
ghost use Rattle.hprof_heap.specs.Objects.{HasNoObject};
ghost use Rattle.hprof_passes.specs.Finding.{Finds};
ghost use Rattle.hprof_retained.specs.Tree.{IsTreeOf};
ghost use Rattle.hprof_keeps.specs.Chosen.{ClassesAscend, IsChosen, IsClassAlone};
ghost use Rattle.hprof_keeps.specs.Gathered.{ArePlacesOf, IsChosenObject, IsGiven, IsLoneClass, places_of_node};
ghost use Rattle.hprof_keeps.specs.Kept.{ArePlaces};
ghost use Rattle.hprof_keeps.specs.PlaceTaken.{AreChosenPlaces};
ghost use Rattle.hprof_keeps.specs.declared.choice.Choice.{Choice};

use crate::children::sort_places;
use crate::choice::{Choice, has_class_dumps};
use crate::place_sink::PlaceSink;
use hprof_heap::{
    Cursor, Heap, Table, find_object_near, holds_of_heap, table_facts, to_class_dump,
};
use hprof_items::Fact;
use hprof_passes::{InHeap, Objects, PassFault};
use hprof_retained::Retained;
use std::alloc::{AllocError, Global};

/// Adds the place of a node, or nothing if no strong references reach it.
pub(crate) fn push_place(
    retained: &Retained,
    node: u64,
    places: &mut Vec<usize>,
) -> Result<(), AllocError>
    ensures { OnOk result (places.new.items ≡ places.old.items ++ places_of_node retained.now node) }
{
    let place = retained.place(node);
    if place != 0 {
        places.push(place)?;
    }
    Ok(())
}

/// Returns the places of the objects of a choice, of those that objects make up with a heap, in their order. The heap has all facts but
/// objects, which are gone through once.
///
/// # Errors
///
/// - `Sink`: memory ran out.
/// - `Lost`: the objects cannot be gone through.
pub(crate) fn object_places_over<O: Objects>(
    alloc: Global,
    heap: &Heap,
    objects: &O,
    retained: &Retained,
    choice: Choice<'_>,
) -> Result<Vec<usize>, PassFault<AllocError, O::Fault>>
    requires { ClassesAscend choice }
    ensures { Finds (O.make_up objects.now (size_of heap.now) (facts_of heap.now))
        (O.agree objects.now (size_of heap.now) (facts_of heap.now)) (O.tells objects.now (size_of heap.now) (facts_of heap.now))
        (λ all places. ArePlacesOf retained.now (IsGiven (IsChosenObject choice.entry) all) places.items) result }
{
    let mut sink = PlaceSink::new(alloc, retained, choice);
    match objects.pass(alloc, heap, &mut sink) {
        Ok(()) => Ok(sink.places),
        Err(stop) => Err(stop),
    }
}

/// Returns the places of the objects of a choice of a heap with its objects in memory, as [`object_places_over`] does. If memory runs out,
/// the answer is `AllocError`.
fn object_places(
    alloc: Global,
    heap: &Heap,
    retained: &Retained,
    choice: Choice<'_>,
) -> Result<Vec<usize>, AllocError>
    requires { ClassesAscend choice }
    ensures { IfOk result (λ places. ArePlacesOf retained.now (IsGiven (IsChosenObject choice.entry) (facts_of heap.now)) places.items) }
{
    holds_of_heap(heap);
    match object_places_over(alloc, heap, &InHeap, retained, choice) {
        Ok(places) => Ok(places),
        Err(stop) => Err(stop.of_sink()),
    }
}

/// Returns the identifier of a class dump without an object dump, or `None` of another fact. `near` is where the last object was looked
/// for; it affects only speed.
fn lone_class(heap: &Heap, fact: &Fact<'_>, near: &mut Cursor) -> Option<u64>
    ensures { MatchOption result ((node : ℕ) → IsLoneClass (facts_of heap.now) (value_of fact.now) node → ⊥)
        (IsLoneClass (facts_of heap.now) (value_of fact.now)) }
{
    let dump = to_class_dump(fact)?;
    match find_object_near(heap, dump.id, near) {
        Some(_) => None,
        None => Some(dump.id),
    }
}

/// Adds the places of the class dumps without an object dump to those of the objects of a choice. The objects may be of more facts than the
/// heap has, if these have no object dumps of its classes either.
pub(crate) fn push_classes(
    heap: &Heap,
    retained: &Retained,
    places: &mut Vec<usize>,
) -> Result<(), AllocError>
    ensures { (facts : List FactValue) (choice : Choice)
        → ((node : ℕ) → IsClassAlone (facts_of heap.now) node → HasNoObject facts node)
        → ArePlacesOf retained.now (IsGiven (IsChosenObject choice) facts) places.old.items
        → OnOk result (ArePlacesOf retained.now
        (λ node. IsGiven (IsChosenObject choice) facts node ⊎ IsClassAlone (facts_of heap.now) node) places.new.items) }
{
    let mut near = Cursor::start();
    let mut facts = table_facts(heap, Table::Classes);
    let mut fact = Fact::End { thread: 0 };
    while facts.next_into(&mut fact) {
        if let Some(node) = lone_class(heap, &fact, &mut near) {
            push_place(retained, node, places)?;
        }
    }
    Ok(())
}

/// Returns the places of the nodes of a choice, in the order of the heap. If memory runs out, the answer is `AllocError`.
fn gather_places(
    alloc: Global,
    heap: &Heap,
    retained: &Retained,
    choice: Choice<'_>,
) -> Result<Vec<usize>, AllocError>
    requires { ClassesAscend choice }
    ensures { IfOk result (λ places. ArePlacesOf retained.now (IsChosen (facts_of heap.now) choice.entry) places.items) }
{
    let mut places = object_places(alloc, heap, retained, choice)?;
    if has_class_dumps(&choice) {
        push_classes(heap, retained, &mut places)?;
    }
    Ok(places)
}

/// Returns the places of the nodes of a choice, those that retain the most bytes first, then those that retain the most objects, then by
/// identifier. If memory runs out, the answer is `AllocError`.
pub(crate) fn chosen_places(
    alloc: Global,
    heap: &Heap,
    retained: &Retained,
    choice: Choice<'_>,
) -> Result<Vec<usize>, AllocError>
    requires retained { IsTreeOf (size_of heap.now) (facts_of heap.now) retained.now }
    requires ascend { ClassesAscend choice }
    ensures places { IfOk result (λ places. ArePlaces retained.now places.items) }
    ensures nodes { IfOk result (λ places. AreChosenPlaces (size_of heap.now) (facts_of heap.now) choice.entry retained.now places.items) }
{
    let mut places = gather_places(alloc, heap, retained, choice)?;
    sort_places(retained, &mut places);
    Ok(places)
}
