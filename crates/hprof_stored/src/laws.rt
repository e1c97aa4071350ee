//! Laws of the definitions. The contract of each function is a theorem; its body is empty, or calls laws of lower crates.

ghost use Rattle.std.specs.Prelude.{◌≡◌, ◌++◌, ℕ, List, length, Option, Some};
ghost use Rattle.hprof_values.specs.declared.ids.IdSize.{IdSize};
ghost use Rattle.hprof_items.specs.FactValue.{FactValue};
ghost use Rattle.hprof_rows.specs.declared.key.Key.TheVariants.{Object};
ghost use Rattle.hprof_rows.specs.HeapValue.{HeapValue};
ghost use Rattle.hprof_heap.specs.Heap.{heap_of};
ghost use Rattle.hprof_heap.specs.HeapFacts.{facts_of, size_of};
ghost use Rattle.hprof_dump.specs.Dump.{canonical_dump};
ghost use Rattle.hprof_merge.specs.Rows.{ByteRow};
ghost use Rattle.hprof_objects.specs.StoredObjects.{IsOneStretch};
ghost use Rattle.hprof_objects.specs.Whole.{AreObjects};
ghost use Rattle.hprof_passes.specs.Passing.{TakesObjects, objects_among};
ghost use Rattle.hprof_engine.specs.Joining.{Agree, Disagree};
ghost use Rattle.hprof_stored.specs.Dumping.{dump_with};
ghost use Rattle.hprof_stored.specs.InParts.{AreStoredOf, HaveUnion, IsOfSame, MakeUp, TellsPass, objects_under};
ghost use Rattle.hprof_stored.specs.Watching.{Watched};
ghost use Rattle.hprof_stored.specs.declared.in_parts.InParts.{InParts};
ghost use Rattle.hprof_stored.specs.declared.in_parts_fault.InPartsFault.{InPartsFault};
ghost use Rattle.hprof_stored.specs.declared.in_parts_fault.InPartsFault.TheVariants.{TwoContents};
ghost use Rattle.hprof_stored.specs.declared.stored_heap.StoredHeap.{StoredHeap};

use hprof_devices::Source;
use hprof_engine::laws::parts_come_to_one_thing;
use hprof_objects::laws::{
    conflicts_of_objects_come_last, objects_in_order_are_their_union, objects_stand_behind,
};
use hprof_parts::Parts;
use hprof_passes::ObjectSink;
use hprof_runs::Scratch;

/// The dump of a heap and of the rows of objects is the canonical dump of the heap with the objects behind its facts.
pub fn dump_with_objects_is_canonical()
    ensures { (heap : HeapValue) (rows : List ByteRow) (objects : List FactValue) → AreObjects heap.ids rows objects
        → dump_with heap rows ≡ canonical_dump heap.ids heap.millis (heap.facts ++ objects) }
{}

/// The objects that were stored as parts were read make up, with the facts of the heap without them, the facts on which the parts agree. If
/// the objects have a union, the parts agree. If they have two contents, the least identifier that has is the least conflict of the parts.
/// What comes is always an object, the scratch holds what was written, and no part has changed.
pub fn stored_objects_are_those_of_the_parts<R: Source, S: Scratch, P: Parts>()
    ensures heap { (readers : List R) (scratch : Option (List ℕ)) (stored : StoredHeap S) (it : InParts S P) (told : List (List ℕ))
        (ids : IdSize) (millis : ℕ) (all : List FactValue)
        → AreStoredOf R.left S.written S.health P.bytes readers scratch stored it told → Agree told ids millis all
        → (ids ≡ size_of stored.heap) × (millis ≡ (heap_of stored.heap).millis)
        × MakeUp S.written S.health P.bytes it (size_of stored.heap) (facts_of stored.heap) all }
    ensures agree { (readers : List R) (scratch : Option (List ℕ)) (stored : StoredHeap S) (it : InParts S P) (told : List (List ℕ))
        → AreStoredOf R.left S.written S.health P.bytes readers scratch stored it told → HaveUnion S.written S.health P.bytes it
        → (all : List FactValue) × Agree told (size_of stored.heap) (heap_of stored.heap).millis all }
    ensures disagree { (readers : List R) (scratch : Option (List ℕ)) (stored : StoredHeap S) (it : InParts S P) (told : List (List ℕ))
        (id : ℕ) → AreStoredOf R.left S.written S.health P.bytes readers scratch stored it told
        → TellsPass S.written S.health P.bytes S.unreadable it (size_of stored.heap) (facts_of stored.heap) (TwoContents id)
        → Disagree told (Object id) }
    ensures faults { (readers : List R) (scratch : Option (List ℕ)) (stored : StoredHeap S) (it : InParts S P) (told : List (List ℕ))
        (fault : InPartsFault) → AreStoredOf R.left S.written S.health P.bytes readers scratch stored it told
        → TellsPass S.written S.health P.bytes S.unreadable it (size_of stored.heap) (facts_of stored.heap) fault → IsOfSame fault }
{
    parts_come_to_one_thing();
    objects_in_order_are_their_union();
    objects_stand_behind();
    conflicts_of_objects_come_last();
}

/// What a sink took that watched the first reading of one part is what a pass over the stored objects gives it: all objects on which the
/// part agrees, in ascending order of identifier. If the stored objects are one stretch, they have a union.
pub fn what_was_watched_is_a_pass<R: Source, S: Scratch, P: Parts, T: ObjectSink>()
    ensures agree { (it : InParts S P) → IsOneStretch (objects_under it) → HaveUnion S.written S.health P.bytes it }
    ensures took { (readers : List R) (scratch : Option (List ℕ)) (stored : StoredHeap S) (it : InParts S P) (told : List (List ℕ))
        (ids : IdSize) (millis : ℕ) (all : List FactValue) (start now : T)
        → (are : AreStoredOf R.left S.written S.health P.bytes readers scratch stored it told) → length readers ≡ 1
        → Watched T.takes (Some start) are.holds.parts (Some now) → Agree told ids millis all
        → TakesObjects T.takes (size_of stored.heap) start (objects_among all) now }
{
    parts_come_to_one_thing();
    objects_in_order_are_their_union();
    objects_stand_behind();
}
