//! What the frames of threads hold, gathered in one pass.

ghost use Rattle.std.specs.Prelude.{◌≡◌, ◌↔◌, ◌++◌, List, Contains, IfOk, OnOk};
ghost use Rattle.std.specs.List.Sorted.{IsStrictlySortedBy, IsStrictlySortedBy-prop};
ghost use Rattle.hprof_items.specs.FactValue.{FactValue, value_of};
ghost use Rattle.hprof_heap.specs.HeapFacts.{facts_of};
ghost use Rattle.hprof_threads.specs.Held.{AreHeld, AreHeldBy, held_by, held_in};
ghost use Rattle.hprof_threads.specs.declared.held.Held.{Held};

use hprof_heap::{Heap, Table, table_facts};
use hprof_items::Fact;
use hprof_values::Root;
use std::alloc::{AllocError, Global};

/// A place in a thread that holds objects. Places are ordered so: frames by number, the native stack, the thread block.
#[derive(Clone, Copy, Debug, PartialEq, Eq, PartialOrd, Ord)]
pub enum Place {
    /// The frame with this number, counted from 0, the innermost first; 4294967295 is no frame: heapDumper.cpp, HPROF_GC_ROOT_JAVA_FRAME,
    /// HPROF_GC_ROOT_JNI_LOCAL.
    Frame(u32),
    /// The native stack: HPROF_GC_ROOT_NATIVE_STACK.
    NativeStack,
    /// The thread block: HPROF_GC_ROOT_THREAD_BLOCK.
    ThreadBlock,
}

/// An object that a thread holds.
#[derive(Clone, Copy, Debug, PartialEq, Eq, PartialOrd, Ord)]
pub struct Held {
    /// The serial number of the thread.
    pub thread: u32,
    /// Where the thread holds it.
    pub place: Place,
    /// The object, which is not 0.
    pub object: u64,
}

/// Returns the place in a thread where a root holds its object, or `None` if the root is of no such place.
fn held_by(root: Root) -> Option<Held>
    ensures { result ≡ held_by root }
{
    let (thread, place, object) = match root {
        Root::JniLocal { id, thread, frame } => (thread, Place::Frame(frame), id),
        Root::JavaFrame { id, thread, frame } => (thread, Place::Frame(frame), id),
        Root::NativeStack { id, thread } => (thread, Place::NativeStack, id),
        Root::Block { id, thread } => (thread, Place::ThreadBlock, id),
        _ => return None,
    };
    Some(Held {
        thread,
        place,
        object,
    })
}

/// All objects that threads hold, by thread, by place and by identifier.
#[derive(Drop)]
pub struct HeldObjects {
    pub(crate) rows: Vec<Held>,
    ghost sorted: { IsStrictlySortedBy ⟦<Held as Ord>⟧.cmp rows.items } by { IsStrictlySortedBy-prop ⟦<Held as Ord>⟧.cmp rows.items },
}

/// Appends the place where the root that a fact states holds its object, if there is one.
fn push_held(rows: &mut Vec<Held>, fact: &Fact<'_>) -> Result<(), AllocError>
    ensures { OnOk result (rows.new.items ≡ rows.old.items ++ held_in (value_of fact.now)) }
{
    if let Fact::Root(root) = *fact {
        if let Some(held) = held_by(root) {
            if held.object != 0 {
                rows.push(held)?;
            }
        }
    }
    Ok(())
}

/// Sorts what threads hold, and removes repetitions.
fn sort_held(rows: &mut Vec<Held>)
    ensures ascend { IsStrictlySortedBy ⟦<Held as Ord>⟧.cmp rows.new.items }
    ensures same { (held : Held) → Contains rows.new.items held ↔ Contains rows.old.items held }
{
    rows.sort_unstable();
    rows.dedup();
}

/// Returns what a thread holds of sorted rows, by binary search.
fn rows_of(rows: &[Held], thread: u32) -> &[Held]
    requires { IsStrictlySortedBy ⟦<Held as Ord>⟧.cmp rows.now }
    ensures exact { (held : Held) → Contains result.now held ↔ (Contains rows.now held × (held.thread ≡ thread)) }
    ensures ascend { IsStrictlySortedBy ⟦<Held as Ord>⟧.cmp result.now }
{
    let start = rows.partition_point(|held| held.thread < thread);
    let (_, rest) = rows.split_at(start);
    let count = rest.partition_point(|held| held.thread <= thread);
    let (run, _) = rest.split_at(count);
    run
}

impl HeldObjects {
    /// Returns what the threads of a heap hold, in one pass over its GC roots. If memory runs out, the answer is `AllocError`.
    pub fn of(alloc: Global, heap: &Heap) -> Result<HeldObjects, AllocError>
        ensures { IfOk result (λ held. AreHeld (facts_of heap.now) held.rows.items) }
    {
        let mut rows = Vec::new(alloc);
        for fact in table_facts(heap, Table::Roots) {
            push_held(&mut rows, &fact)?;
        }
        sort_held(&mut rows);
        Ok(HeldObjects { rows })
    }

    /// Returns what a thread holds, by place and by identifier, by binary search.
    pub fn held_by_thread(&self, thread: u32) -> &[Held]
        ensures { (facts : List FactValue) → AreHeld facts self.now.rows.items → AreHeldBy facts thread result.now }
    {
        rows_of(&self.rows, thread)
    }
}
