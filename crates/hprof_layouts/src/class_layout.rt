//! The layout of a class.

ghost use Rattle.std.specs.Prelude.{◌≡◌, ◌++◌, IfOk, OnOk};
ghost use Rattle.hprof_heap.specs.HeapFacts.{facts_of};
ghost use Rattle.hprof_heap.specs.ClassDump.{class_value};
ghost use Rattle.hprof_layouts.specs.Layout.{HasChain, IsKnown, IsLayout, layout_value, own_slots};

use crate::chain::{ChainEnd, chain_end};
use crate::slot::{Layout, Slot};
use hprof_heap::{ClassDump, Heap, find_class};
use std::alloc::{AllocError, Global};

/// Appends the slots of a class's own fields.
fn push_own_slots(slots: &mut Vec<Slot>, dump: &ClassDump<'_>) -> Result<(), AllocError>
    ensures { OnOk result (slots.new.items ≡ slots.old.items ++ own_slots (class_value dump.now)) }
{
    for field in dump.fields.iter() {
        slots.push(Slot {
            class: dump.id,
            name: field.name,
            basic: field.basic,
        })?;
    }
    Ok(())
}

/// Returns the slots of a class whose chain of superclasses ends at 0 after `count` classes.
fn slots_along(
    alloc: Global,
    heap: &Heap,
    class: u64,
    count: usize,
) -> Result<Vec<Slot>, AllocError>
    requires { HasChain (facts_of heap.now) class count }
    ensures { IfOk result (λ slots. IsKnown (facts_of heap.now) class slots.items) }
{
    let mut slots = Vec::new(alloc);
    let mut at = class;
    for _passed in 0..count {
        let Some(dump) = find_class(heap, at) else {
            unreachable!();
        };
        push_own_slots(&mut slots, &dump)?;
        at = dump.parent;
    }
    Ok(slots)
}

/// Returns the layout of a class, or why it has none. Allocates only for a known layout. If memory runs out, the answer is `AllocError`.
pub fn layout(alloc: Global, heap: &Heap, class: u64) -> Result<Layout, AllocError>
    ensures { IfOk result (λ layout. IsLayout (facts_of heap.now) class (layout_value layout)) }
{
    match chain_end(heap, class) {
        ChainEnd::Zero(count) => Ok(Layout::Known(slots_along(alloc, heap, class, count)?)),
        ChainEnd::Missing(missing) => Ok(Layout::Missing(missing)),
        ChainEnd::Cyclic => Ok(Layout::Cyclic),
    }
}
