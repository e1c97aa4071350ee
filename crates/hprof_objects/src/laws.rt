//! Laws of the definitions. The contract of each function is a theorem; its body is empty.

ghost use Rattle.std.specs.Prelude.{◌≡◌, ℕ, List, map, Ok, Err};
ghost use Rattle.std.specs.List.{AllByRecursion};
ghost use Rattle.hprof_values.specs.declared.ids.IdSize.{IdSize};
ghost use Rattle.hprof_items.specs.FactValue.{FactValue};
ghost use Rattle.hprof_rows.specs.declared.key.Key.TheVariants.{Object};
ghost use Rattle.hprof_rows.specs.Facts.{SameFacts};
ghost use Rattle.hprof_rows.specs.HeapValue.{HeapValue};
ghost use Rattle.hprof_rows.specs.Order.{IsCanonicalOrder};
ghost use Rattle.hprof_heap.specs.declared.standing.Refusal.{Refusal};
ghost use Rattle.hprof_heap.specs.declared.standing.Refusal.TheVariants.{Conflict};
ghost use Rattle.hprof_heap.specs.Gathering.{Given, Tells, all_given};
ghost use Rattle.hprof_merge.specs.Rows.{ByteRow};
ghost use Rattle.hprof_merge.specs.TwoContents.{HasTwoContents, IsLeastWithTwoContents};
ghost use Rattle.hprof_merge.specs.Union.{IsUnion};
ghost use Rattle.hprof_stream.specs.declared.limits.Limits.{Limits};
ghost use Rattle.hprof_objects.specs.declared.stored_objects.StoredObjects.{StoredObjects};
ghost use Rattle.hprof_objects.specs.ObjectRows.{object_rows};
ghost use Rattle.hprof_objects.specs.PartsRead.{PartRead};
ghost use Rattle.hprof_objects.specs.StoredObjects.{HoldsObjects, IsOneStretch, objects_of};
ghost use Rattle.hprof_objects.specs.Whole.{AreObjects, FitGiven, rows_given, with_objects, without_objects};

use hprof_runs::Scratch;

/// The union of the rows of all objects is that of objects, and they stand behind the facts that are no objects: together they are the heap
/// of the parts.
pub fn objects_stand_behind()
    ensures objects { (parts : List Given) (ids : IdSize) (rows : List ByteRow) → AllByRecursion (λ part. part.header.ids ≡ ids) parts
        → FitGiven parts → IsUnion (map rows_given parts) rows → (objects : List FactValue) × AreObjects ids rows objects }
    ensures heap { (parts : List Given) (heap : HeapValue) (rows : List ByteRow) (objects : List FactValue)
        → Tells (map without_objects parts) (Ok heap) → FitGiven parts → IsUnion (map rows_given parts) rows
        → AreObjects heap.ids rows objects → Tells parts (Ok (with_objects heap objects)) }
{}

/// If the facts that are no objects have a heap, the least key of which objects have two contents is the least conflict of the parts. If
/// they have none, neither do all, for the same reason.
pub fn conflicts_of_objects_come_last()
    ensures objects { (parts : List Given) (heap : HeapValue) (key : ℕ) → Tells (map without_objects parts) (Ok heap) → FitGiven parts
        → IsLeastWithTwoContents (map rows_given parts) key → Tells parts (Err (Conflict (Object key))) }
    ensures others { (parts : List Given) (refusal : Refusal) → Tells (map without_objects parts) (Err refusal)
        → Tells parts (Err refusal) }
{}

/// If facts stand in canonical order and are those of parts, the rows of their objects are the union of the objects of the parts.
pub fn objects_in_order_are_their_union()
    ensures { (parts : List Given) (ids : IdSize) (facts : List FactValue) → AllByRecursion (λ part. part.header.ids ≡ ids) parts
        → IsCanonicalOrder facts → SameFacts facts (all_given parts) → IsUnion (map rows_given parts) (object_rows ids facts) }
{}

/// If one stretch has all objects of parts, no identifier has objects with two contents.
pub fn one_stretch_has_no_conflict<S: Scratch>()
    ensures { (objects : StoredObjects S) (limits : Limits) (reads : List PartRead) → IsOneStretch objects
        → HoldsObjects S.written S.health limits reads objects → (key : ℕ) → HasTwoContents (objects_of reads) key → ⊥ }
{}
