//! The classes of a heap.

ghost use Rattle.std.specs.Prelude.{◌≡◌, ◌++◌, ◌↔◌, Contains, ℕ, List, IfOk, OnOk, flat_map};
ghost use Rattle.std.specs.List.Sorted.{IsStrictlyIncreasing};
ghost use Rattle.hprof_items.specs.FactValue.{FactValue, value_of};
ghost use Rattle.hprof_rows.specs.declared.table.Table.TheVariants as tables;
ghost use Rattle.hprof_rows.specs.Tables.{facts_of_table};
ghost use Rattle.hprof_heap.specs.HeapFacts.{facts_of, size_of};
ghost use Rattle.hprof_passes.specs.Finding.{Finds};
ghost use Rattle.hprof_passes.specs.Passing.{IsWhole};
ghost use Rattle.hprof_histogram.specs.Histogram.{IsHistogram};
ghost use Rattle.hprof_meaning.specs.MeantClasses.{AreAll, IsClass, IsDumped};
ghost use Rattle.hprof_meaning.specs.Stated.{class_dumped, class_loaded, class_of_row};

use hprof_heap::{Heap, Table, table_facts};
use hprof_histogram::{Kind, Row, histogram_over};
use hprof_items::Fact;
use hprof_passes::{Objects, PassFault};
use std::alloc::{AllocError, Global};

/// Appends the class whose objects a row counts, if they are of a class.
fn push_of_row(classes: &mut Vec<u64>, row: &Row) -> Result<(), AllocError>
    ensures { OnOk result (classes.new.items ≡ classes.old.items ++ class_of_row row.now) }
{
    if let Kind::Class(class) = row.kind {
        classes.push(class)?;
    }
    Ok(())
}

/// Appends the classes whose objects the rows count.
fn push_of_rows(classes: &mut Vec<u64>, rows: &[Row]) -> Result<(), AllocError>
    ensures { OnOk result (classes.new.items ≡ classes.old.items ++ flat_map class_of_row rows.now) }
{
    let mut rest = rows;
    while let Some((row, after)) = rest.split_first() {
        push_of_row(classes, row)?;
        rest = after;
    }
    Ok(())
}

/// Appends the class of a load.
fn push_loaded(classes: &mut Vec<u64>, fact: &Fact<'_>) -> Result<(), AllocError>
    ensures { OnOk result (classes.new.items ≡ classes.old.items ++ class_loaded (value_of fact.now)) }
{
    if let Fact::Load { class, .. } = *fact {
        classes.push(class)?;
    }
    Ok(())
}

/// Appends the classes of all loads of a heap.
fn push_loads(classes: &mut Vec<u64>, heap: &Heap) -> Result<(), AllocError>
    ensures { OnOk result (classes.new.items
        ≡ classes.old.items ++ flat_map class_loaded (facts_of_table tables.Loads (facts_of heap.now))) }
{
    for fact in table_facts(heap, Table::Loads) {
        push_loaded(classes, &fact)?;
    }
    Ok(())
}

/// Appends the class of a class dump.
fn push_dumped(classes: &mut Vec<u64>, fact: &Fact<'_>) -> Result<(), AllocError>
    ensures { OnOk result (classes.new.items ≡ classes.old.items ++ class_dumped (value_of fact.now)) }
{
    if let Fact::Class { id, .. } = *fact {
        classes.push(id)?;
    }
    Ok(())
}

/// Appends the classes of all class dumps of a heap.
fn push_dumps(classes: &mut Vec<u64>, heap: &Heap) -> Result<(), AllocError>
    ensures { OnOk result (classes.new.items
        ≡ classes.old.items ++ flat_map class_dumped (facts_of_table tables.Classes (facts_of heap.now))) }
{
    for fact in table_facts(heap, Table::Classes) {
        push_dumped(classes, &fact)?;
    }
    Ok(())
}

/// Sorts classes, and removes repetitions.
fn sort_classes(classes: &mut Vec<u64>)
    ensures ascend { IsStrictlyIncreasing classes.new.items }
    ensures same { (class : ℕ) → Contains classes.new.items class ↔ Contains classes.old.items class }
{
    classes.sort_unstable();
    classes.dedup();
}

/// Returns the identifiers of all classes, ascending, each once: those of class dumps, of loads, and of the kinds that rows count.
fn classes_of(alloc: Global, heap: &Heap, rows: &[Row]) -> Result<Vec<u64>, AllocError>
    ensures all { (all : List FactValue) → IsWhole (size_of heap.now) (facts_of heap.now) all → IsHistogram (size_of heap.now) all rows.now
        → IfOk result (λ classes. AreAll (IsClass all) classes.items) }
    ensures ascend { IfOk result (λ classes. IsStrictlyIncreasing classes.items) }
{
    let mut classes = Vec::new(alloc);
    push_of_rows(&mut classes, rows)?;
    push_loads(&mut classes, heap)?;
    push_dumps(&mut classes, heap)?;
    sort_classes(&mut classes);
    Ok(classes)
}

/// Returns the identifiers of all classes, ascending, each once: those of class dumps, of loads, and of instances and arrays of objects.
/// The heap has all facts but the objects.
pub(crate) fn all_classes<O: Objects>(
    alloc: Global,
    heap: &Heap,
    objects: &O,
) -> Result<Vec<u64>, PassFault<AllocError, O::Fault>>
    ensures all { Finds (O.make_up objects.now (size_of heap.now) (facts_of heap.now))
        (O.agree objects.now (size_of heap.now) (facts_of heap.now))
        (O.tells objects.now (size_of heap.now) (facts_of heap.now)) (λ all classes. AreAll (IsClass all) classes.items) result }
    ensures ascend { IfOk result (λ classes. IsStrictlyIncreasing classes.items) }
{
    let rows = histogram_over(alloc, heap, objects, None)?;
    match classes_of(alloc, heap, &rows) {
        Ok(classes) => Ok(classes),
        Err(fault) => Err(PassFault::Sink(fault)),
    }
}

/// Returns the identifiers of all class dumps, ascending, each once. If memory runs out, the answer is `AllocError`.
pub(crate) fn dumped_classes(alloc: Global, heap: &Heap) -> Result<Vec<u64>, AllocError>
    ensures { IfOk result (λ classes. AreAll (IsDumped (facts_of heap.now)) classes.items) }
{
    let mut classes = Vec::new(alloc);
    push_dumps(&mut classes, heap)?;
    sort_classes(&mut classes);
    Ok(classes)
}
