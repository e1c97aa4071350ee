//! The serial numbers of all threads of a heap.

ghost use Rattle.std.specs.Prelude.{◌≡◌, ◌↔◌, ◌⊎◌, ◌++◌, ℕ, Contains, IfOk, OnOk};
ghost use Rattle.std.specs.List.Sorted.{IsStrictlyIncreasing};
ghost use Rattle.hprof_items.specs.FactValue.{value_of};
ghost use Rattle.hprof_heap.specs.HeapFacts.{facts_of};
ghost use Rattle.hprof_threads.specs.Serials.{AreEnded, AreSerials, IsOfRoot, IsRunning, NotesEnded, serials_of_root, serials_of_start};
ghost use Rattle.hprof_threads.specs.Serials.{thread_of_root};

use hprof_heap::{Heap, Table, holds_of_heap, table_facts};
use hprof_items::Fact;
use hprof_values::Root;
use std::alloc::{AllocError, Global};
use std::collections::BTreeSet;

/// Returns the serial number of the thread that a root names, or `None` if it names none.
pub fn thread_of_root(root: Root) -> Option<u32>
    ensures { result ≡ thread_of_root root }
{
    match root {
        Root::JniLocal { thread, .. } => Some(thread),
        Root::JavaFrame { thread, .. } => Some(thread),
        Root::NativeStack { thread, .. } => Some(thread),
        Root::Block { thread, .. } => Some(thread),
        Root::ThreadObject { thread, .. } => Some(thread),
        _ => None,
    }
}

/// Appends the serial number of the thread that the root which a fact states names, if it names one.
fn push_of_root(serials: &mut Vec<u32>, fact: &Fact<'_>) -> Result<(), AllocError>
    ensures { OnOk result (serials.new.items ≡ serials.old.items ++ serials_of_root (value_of fact.now)) }
{
    if let Fact::Root(root) = *fact {
        if let Some(serial) = thread_of_root(root) {
            serials.push(serial)?;
        }
    }
    Ok(())
}

/// Appends the serial numbers of the threads that the GC roots of a heap name.
fn push_of_roots(serials: &mut Vec<u32>, heap: &Heap) -> Result<(), AllocError>
    ensures { OnOk result ((serial : ℕ) → Contains serials.new.items serial
        ↔ (Contains serials.old.items serial ⊎ IsOfRoot (facts_of heap.now) serial)) }
{
    for fact in table_facts(heap, Table::Roots) {
        push_of_root(serials, &fact)?;
    }
    Ok(())
}

/// Appends the serial number of the thread that a fact says was started, if it has not ended.
fn push_of_start(
    serials: &mut Vec<u32>,
    fact: &Fact<'_>,
    ended: &BTreeSet<u32>,
) -> Result<(), AllocError>
    ensures { OnOk result (serials.new.items ≡ serials.old.items ++ serials_of_start ended.now (value_of fact.now)) }
{
    if let Fact::Start { thread, .. } = *fact {
        if !ended.contains(&thread) {
            serials.push(thread)?;
        }
    }
    Ok(())
}

/// Appends the serial numbers of the threads of a heap that were started and are none of those that have ended.
fn push_running(
    serials: &mut Vec<u32>,
    heap: &Heap,
    ended: &BTreeSet<u32>,
) -> Result<(), AllocError>
    requires { AreEnded (facts_of heap.now) ended.now }
    ensures { OnOk result ((serial : ℕ) → Contains serials.new.items serial
        ↔ (Contains serials.old.items serial ⊎ IsRunning (facts_of heap.now) serial)) }
{
    for fact in table_facts(heap, Table::Starts) {
        push_of_start(serials, &fact, ended)?;
    }
    Ok(())
}

/// Puts the serial number of the thread that a fact says has ended.
fn note_ended(ended: &mut BTreeSet<u32>, fact: &Fact<'_>) -> Result<(), AllocError>
    ensures { OnOk result (NotesEnded (value_of fact.now) ended.old ended.new) }
{
    if let Fact::End { thread } = *fact {
        ended.insert(thread)?;
    }
    Ok(())
}

/// Returns the serial numbers of the threads that have ended, which END_THREAD states.
fn ended_threads(alloc: Global, heap: &Heap) -> Result<BTreeSet<u32>, AllocError>
    ensures { IfOk result (AreEnded (facts_of heap.now)) }
{
    let mut ended = BTreeSet::new(alloc);
    for fact in table_facts(heap, Table::Ends) {
        note_ended(&mut ended, &fact)?;
    }
    Ok(ended)
}

/// Sorts serial numbers, and removes repetitions.
fn sort_serials(serials: &mut Vec<u32>)
    ensures ascend { IsStrictlyIncreasing serials.new.items }
    ensures same { (serial : ℕ) → Contains serials.new.items serial ↔ Contains serials.old.items serial }
{
    serials.sort_unstable();
    serials.dedup();
}

/// Returns the serial numbers of a heap's threads, ascending, each once: those of all GC roots with a thread, and those of START_THREAD
/// without an END_THREAD. Which threads count is this project's own rule. If memory runs out, the answer is `AllocError`.
pub fn thread_serials(alloc: Global, heap: &Heap) -> Result<Vec<u32>, AllocError>
    ensures { IfOk result (λ serials. AreSerials (facts_of heap.now) serials.items) }
{
    holds_of_heap(heap);
    let ended = ended_threads(alloc, heap)?;
    let mut serials = Vec::new(alloc);
    push_running(&mut serials, heap, &ended)?;
    push_of_roots(&mut serials, heap)?;
    sort_serials(&mut serials);
    Ok(serials)
}
