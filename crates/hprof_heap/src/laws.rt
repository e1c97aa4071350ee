//! Laws of the definitions. The contract of each function is a theorem; its body is empty.

ghost use Rattle.std.specs.Prelude.{◌≡◌, List, Result, Ok};
ghost use Rattle.hprof_items.specs.FactValue.{FactValue};
ghost use Rattle.hprof_heap.specs.declared.gatherer.Gatherer.{Gatherer};
ghost use Rattle.hprof_heap.specs.declared.join_refusal.JoinRefusal.{JoinRefusal};
ghost use Rattle.hprof_rows.specs.declared.key.Key.{Key};
ghost use Rattle.hprof_rows.specs.Conflict.{IsConsistent, IsLeastConflict};
ghost use Rattle.hprof_rows.specs.Facts.{SameFacts};
ghost use Rattle.hprof_heap.specs.Gathering.{Given, Gathers, Tells, answer_of, gathered, nothing_gathered};
ghost use Rattle.hprof_rows.specs.HeapValue.{HeapValue, IsHeap};
ghost use Rattle.hprof_heap.specs.Join.{IsBetween, IsJoin, IsUnion};
ghost use Rattle.hprof_rows.specs.Order.{IsCanonicalOrder};

/// Facts that agree have a list in canonical order.
pub fn agreeing_facts_have_an_order()
    ensures { (facts : List FactValue) → IsConsistent facts
        → (rows : List FactValue) × IsCanonicalOrder rows × SameFacts rows facts }
{}

/// Facts have at most one list in canonical order, and only facts that agree have one.
pub fn one_order()
    ensures one { (rows others : List FactValue) → IsCanonicalOrder rows → IsCanonicalOrder others
        → SameFacts rows others → rows ≡ others }
    ensures agree { (rows : List FactValue) → IsCanonicalOrder rows → IsConsistent rows }
{}

/// Whether facts agree depends on their set alone, and so does their least conflict. Facts have at most one least conflict, and none if
/// they agree.
pub fn conflicts_are_of_the_set()
    ensures consistent { (facts others : List FactValue) → SameFacts facts others → IsConsistent facts → IsConsistent others }
    ensures least { (facts others : List FactValue) (key : Key) → SameFacts facts others
        → IsLeastConflict facts key → IsLeastConflict others key }
    ensures one { (facts : List FactValue) (key other : Key) → IsLeastConflict facts key
        → IsLeastConflict facts other → key ≡ other }
    ensures none { (facts : List FactValue) (key : Key) → IsConsistent facts → IsLeastConflict facts key → ⊥ }
{}

/// The answer of a gatherer that was given only these parts is determined by them: it is the heap of exactly their facts, or the first
/// refusal that applies. Its standing, and the heap that it lends, are those of this answer.
pub fn answers_tell_of_the_parts()
    ensures { (parts : List Given) (gatherer : Gatherer) → Gathers nothing_gathered parts (gathered gatherer)
        → Tells parts (answer_of (gathered gatherer)) }
{}

/// Joining two heaps has one result, a heap or a refusal, and the same in either order. Joining a heap with an equal one leaves it
/// unchanged.
pub fn two_heaps_have_one_join()
    ensures exists { (one other : HeapValue) → IsHeap one → IsHeap other → (outcome : Result HeapValue JoinRefusal)
        × IsJoin one other outcome }
    ensures both_orders { (one other : HeapValue) (outcome turned : Result HeapValue JoinRefusal) → IsHeap one → IsHeap other
        → IsJoin one other outcome → IsJoin other one turned → outcome ≡ turned }
    ensures unchanged { (heap : HeapValue) (outcome : Result HeapValue JoinRefusal) → IsHeap heap → IsJoin heap heap outcome
        → outcome ≡ Ok heap }
{}

/// If three heaps can be joined in one grouping, they can be joined in the other, with the same result.
pub fn groups_of_heaps_do_not_matter()
    ensures left { (one other third both all : HeapValue) → IsHeap one → IsHeap other → IsHeap third
        → IsUnion one other both → IsUnion both third all
        → (rest : HeapValue) × IsUnion other third rest × IsUnion one rest all }
    ensures right { (one other third rest all : HeapValue) → IsHeap one → IsHeap other → IsHeap third
        → IsUnion other third rest → IsUnion one rest all
        → (both : HeapValue) × IsUnion one other both × IsUnion both third all }
    ensures once { (one other all more : HeapValue) → IsUnion one other all → IsUnion one other more → all ≡ more }
{}

/// A join that ran out of memory can be made again, and then has the result that it would have had.
pub fn a_join_can_be_made_again()
    ensures { (one other between : HeapValue) (outcome : Result HeapValue JoinRefusal) → IsHeap other
        → IsBetween one other between → IsJoin between other outcome → IsJoin one other outcome }
{}
