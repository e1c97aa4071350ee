//! Objects in memory.

ghost use Rattle.std.specs.Prelude.{◌≡◌, ◌∷◌, [], ⊤, IfErr, IfSome, OnOk};
ghost use Rattle.std.specs.Option.{option_map, option_to_list};
ghost use Rattle.hprof_items.specs.FactValue.{ListsHave, value_of};
ghost use Rattle.hprof_heap.specs.HeapFacts.{facts_of, size_of};
ghost use Rattle.hprof_passes.specs.Passing.{RefusesObject, TakesObjects, objects_among};
ghost use Rattle.hprof_passes.specs.Picked.{picked};

use crate::object_sink::ObjectSink;
use crate::objects::Objects;
use crate::pass_fault::PassFault;
use hprof_heap::{Cursor, Heap, Table, id_size, table_facts, table_len};
use hprof_items::Fact;
use std::alloc::Global;
use std::convert::Infallible;

/// The objects that a heap has in memory. A pass over them and a pick of some allocate nothing.
#[derive(Clone, Copy)]
pub struct InHeap;

/// Returns the object with an identifier, or `None` if the heap has none. It is looked up near the cursor first.
#[inline(always)]
fn object_at<'a>(heap: &'a Heap, id: u64, near: &mut Cursor) -> Option<Fact<'a>>
    ensures value { picked (id ∷ []) (objects_among (facts_of heap.now)) ≡ option_to_list (option_map value_of result) }
    ensures lists { IfSome result (ListsHave (size_of heap.now)) }
{
    id_size(heap);
    heap.object_near(id, near)
}

/// Gives the object with an identifier to a sink, if the heap has one.
#[inline(always)]
fn give_object<T: ObjectSink>(
    heap: &Heap,
    id: u64,
    near: &mut Cursor,
    sink: &mut T,
) -> Result<(), T::Fault>
    ensures takes { OnOk result (TakesObjects T.takes (size_of heap.now) sink.old (picked (id ∷ []) (objects_among (facts_of heap.now)))
        sink.new) }
    ensures refuses { IfErr result (λ fault. RefusesObject T.takes T.refuses (size_of heap.now)
        (picked (id ∷ []) (objects_among (facts_of heap.now))) fault sink.old sink.new) }
{
    let ids = id_size(heap);
    match object_at(heap, id, near) {
        Some(object) => sink.take(ids, &object),
        None => Ok(()),
    }
}

impl Objects for InHeap {
    ghost use Rattle.hprof_passes.specs.Passing.{IsItself, whole_itself};

    ghost make_up = { λ it ids facts all. IsItself ids facts all };

    ghost agree = { λ it ids facts. ⊤ };

    ghost tells = { λ it ids facts fault. ⊥ };

    type Fault = Infallible;

    fn pass<T: ObjectSink>(
        &self,
        _alloc: Global,
        heap: &Heap,
        sink: &mut T,
    ) -> Result<(), PassFault<T::Fault, Infallible>> {
        let ids = id_size(heap);
        let mut facts = table_facts(heap, Table::Objects);
        let mut fact = Fact::End { thread: 0 };
        while facts.next_into(&mut fact) {
            if let Err(fault) = sink.take(ids, &fact) {
                return Err(PassFault::Sink(fault));
            }
        }
        Ok(())
    }

    fn pick<T: ObjectSink>(
        &self,
        _alloc: Global,
        heap: &Heap,
        wanted: &[u64],
        sink: &mut T,
    ) -> Result<(), PassFault<T::Fault, Infallible>> {
        id_size(heap);
        let mut near = Cursor::start();
        for id in wanted {
            if let Err(fault) = give_object(heap, *id, &mut near, sink) {
                return Err(PassFault::Sink(fault));
            }
        }
        Ok(())
    }

    fn count(&self, _alloc: Global, heap: &Heap) -> Result<u64, Infallible> {
        Ok(table_len(heap, Table::Objects) as u64)
    }

    ghost whole = { λ it ids facts all is. whole_itself ids facts all is };
}
