//! Laws of the definitions. None of these functions does anything.

ghost use Rattle.std.specs.Prelude.{◌≡◌, ◌↔◌, ℕ, List, [], Option, Result};
ghost use Rattle.std.specs.List.{AllByRecursion, Contains};
ghost use Rattle.hprof_values.specs.declared.ids.IdSize.{IdSize};
ghost use Rattle.hprof_items.specs.FactValue.{FactValue};
ghost use Rattle.hprof_stream.specs.Part.{IsPart};
ghost use Rattle.hprof_stream.specs.declared.summary.PartSummary.{PartSummary};
ghost use Rattle.hprof_rows.specs.declared.key.Key.{Key};
ghost use Rattle.hprof_dump.specs.Dump.{canonical_dump};
ghost use Rattle.hprof_rows.specs.Facts.{SameFacts};
ghost use Rattle.hprof_rows.specs.HeapValue.{HeapValue, IsHeap};
ghost use Rattle.hprof_heap.specs.State.{IsState, HaveTwoSizes};
ghost use Rattle.hprof_engine.specs.Dividing.{SameParts, AreDivided, AreDumps};
ghost use Rattle.hprof_engine.specs.Joining.{Agree, Disagree, IsAccepted};
ghost use Rattle.hprof_engine.specs.Makes.{IsMadeOf};
ghost use Rattle.hprof_engine.specs.Outcome.{Outcome, TwoSizes, ComesTo, IsSomePart};
ghost use Rattle.hprof_items.specs.declared.header.Header.{Header};
ghost use Rattle.hprof_stream.specs.declared.limits.Limits.{Limits};
ghost use Rattle.hprof_stream.specs.declared.part_fault.PartFault.{PartFault};
ghost use Rattle.hprof_stream.specs.Fault.{HasNoFault, IsFirstFault, StatesSoFar};
ghost use Rattle.hprof_heap.specs.declared.standing.Refusal.{Refusal};
ghost use Rattle.hprof_engine.specs.Saved.{SavesTo};
ghost use Rattle.hprof_engine.specs.Sound.{JoinsTo, StandsBefore, IsAllOf};

use crate::product::Product;

/// A part states one thing: one size of identifiers, one time, one list of facts.
pub fn a_part_states_one_thing()
    ensures { (bytes : List ℕ) (ids other_ids : IdSize) (millis other_millis : ℕ) (facts other_facts : List FactValue)
        → IsPart bytes ids millis facts → IsPart bytes other_ids other_millis other_facts
        → (ids ≡ other_ids) × (millis ≡ other_millis) × (facts ≡ other_facts) }
{}

/// Equal dumps are of heaps with equal sizes, times and facts.
pub fn equal_dumps_equal_facts()
    ensures { (ids other_ids : IdSize) (millis other_millis : ℕ) (rows others : List FactValue)
        → IsHeap (record { ids = ids; millis = millis; facts = rows })
        → IsHeap (record { ids = other_ids; millis = other_millis; facts = others })
        → canonical_dump ids millis rows ≡ canonical_dump other_ids other_millis others
        → (ids ≡ other_ids) × (millis ≡ other_millis) × (rows ≡ others) }
{}

/// A list of parts comes to one thing: one heap, the least key that has two contents, or two sizes.
pub fn parts_come_to_one_thing()
    ensures some { (parts : List (List ℕ)) → (parts ≡ [] → ⊥) → AllByRecursion IsSomePart parts
        → (outcome : Outcome) × ComesTo parts outcome }
    ensures one { (parts : List (List ℕ)) (one other : Outcome) → ComesTo parts one → ComesTo parts other → one ≡ other }
{}

/// The same parts come to the same, heap or refusal, in whatever order and however often they are listed; and so do other
/// parts of the same size and earliest time, among which the facts are divided in any way. So if one key has two
/// contents, every order is refused at the least such key.
pub fn order_repetition_and_cutting_do_not_matter()
    ensures order { (parts others : List (List ℕ)) (outcome : Outcome) → SameParts parts others
        → ComesTo parts outcome → ComesTo others outcome }
    ensures cutting { (parts others : List (List ℕ)) (ids : IdSize) (millis : ℕ) (facts : List FactValue) (outcome : Outcome)
        → IsState parts ids millis facts → IsState others ids millis facts → ComesTo parts outcome → ComesTo others outcome }
    ensures state { (parts : List (List ℕ)) (ids : IdSize) (millis : ℕ) (facts more : List FactValue)
        → IsState parts ids millis more → SameFacts facts more → IsState parts ids millis facts }
{}

/// Joined dumps join: if parts are divided among groups in any way, and each group is joined, the dumps come to what all
/// the parts come to, heap or refusal. If the parts of one group do not agree, all do not. If they have two sizes, all
/// have two, if each is a part, and all come to nothing else.
pub fn joined_dumps_join()
    ensures dumps { (parts : List (List ℕ)) (groups : List (List (List ℕ))) (dumps : List (List ℕ)) (outcome : Outcome)
        → AreDivided parts groups → AreDumps groups dumps → ComesTo parts outcome ↔ ComesTo dumps outcome }
    ensures disagree { (parts : List (List ℕ)) (groups : List (List (List ℕ))) (group : List (List ℕ)) (ids : IdSize) (millis : ℕ)
        (rows : List FactValue) (key : Key) → AreDivided parts groups → Contains groups group → Disagree group key
        → Agree parts ids millis rows → ⊥ }
    ensures two_sizes { (parts : List (List ℕ)) (groups : List (List (List ℕ))) (group : List (List ℕ)) → AreDivided parts groups
        → Contains groups group → HaveTwoSizes group → AllByRecursion IsSomePart parts → HaveTwoSizes parts }
    ensures nothing_else { (parts : List (List ℕ)) (groups : List (List (List ℕ))) (group : List (List ℕ)) (outcome : Outcome)
        → AreDivided parts groups → Contains groups group → HaveTwoSizes group → ComesTo parts outcome → outcome ≡ TwoSizes }
{}

/// The product of parts is one text.
pub fn one_text_is_made_of_parts<P: Product>(product: &P)
    ensures { (parts : List (List ℕ)) (one other : List ℕ) → IsMadeOf (P.is_text product.now) parts one
        → IsMadeOf (P.is_text product.now) parts other → one ≡ other }
{}

/// Lists of parts that come to the same are made into the same, if the product is made of the heap alone.
pub fn what_comes_to_the_same_is_made_into_the_same<P: Product>(product: &P)
    requires { (summaries others : List PartSummary) (heap : HeapValue) (text : List ℕ)
        → P.is_text product.now summaries heap text → P.is_text product.now others heap text }
    ensures { (parts others : List (List ℕ)) (text : List ℕ)
        → ((outcome : Outcome) → ComesTo parts outcome → ComesTo others outcome)
        → IsMadeOf (P.is_text product.now) parts text → IsMadeOf (P.is_text product.now) others text }
{}

/// If no part has a fault, salvage of the parts comes to the same as joining them: the same heap, whose canonical dump is written, or the
/// same refusal.
pub fn salvage_of_sound_parts_is_joining()
    ensures { (limits : Limits) (parts : List (List ℕ)) (answer : Result HeapValue Refusal) → AllByRecursion (IsAccepted limits) parts
        → SavesTo limits.max_item parts answer → JoinsTo parts answer }
{}

/// The salvage of parts comes to one thing, by the bytes that were handled: one heap, one least conflict, two sizes, or no part.
pub fn what_is_saved_comes_to_one_thing()
    ensures { (longest : ℕ) (parts : List (List ℕ)) (one other : Result HeapValue Refusal) → SavesTo longest parts one
        → SavesTo longest parts other → one ≡ other }
{}

/// The saved facts of a part stand in it before its first fault; if it has none they are all that the part states.
pub fn what_is_saved_stands_before_the_fault()
    ensures faulty { (longest : ℕ) (bytes : List ℕ) (header : Option Header) (facts : List FactValue) (fault : PartFault)
        → IsFirstFault longest bytes fault → StatesSoFar longest bytes header facts → StandsBefore longest bytes fault header facts }
    ensures sound { (longest : ℕ) (bytes : List ℕ) (header : Option Header) (facts : List FactValue)
        → HasNoFault longest bytes → StatesSoFar longest bytes header facts → IsAllOf bytes header facts }
{}
