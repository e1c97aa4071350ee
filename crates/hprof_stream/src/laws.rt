//! Laws of the definitions. The contract of each function is a theorem; its body is empty.

ghost use Rattle.std.specs.Prelude.{◌≡◌, ◌⊎◌, ◌↔◌, ◌≤◌, ◌++◌, ℕ, true, List, Option};
ghost use Rattle.hprof_values.specs.declared.ids.IdSize.{IdSize};
ghost use Rattle.hprof_items.specs.declared.header.Header.{Header};
ghost use Rattle.hprof_items.specs.FactValue.{FactValue};
ghost use Rattle.hprof_items.specs.Spelling.{longest_body};
ghost use Rattle.hprof_stream.specs.declared.progress.Progress.{Progress};
ghost use Rattle.hprof_stream.specs.Part.{Stated, IsPart};
ghost use Rattle.hprof_stream.specs.ReadItems.{ReadsItems, CountsItems};
ghost use Rattle.hprof_stream.specs.declared.part_fault.PartFault.{PartFault};
ghost use Rattle.hprof_stream.specs.declared.part_fault.PartFault.TheVariants.{ItemTooLong};
ghost use Rattle.hprof_stream.specs.Fault.{HasNoFault, IsFirstFault, StatesSoFar, is_settled};
ghost use Rattle.hprof_stream.specs.Offset.{offset_of};

/// Bytes have one header and one list of facts. So a sink that was given the facts of some bytes was given the same facts however the bytes
/// were cut into pieces.
pub fn bytes_state_one_thing()
    ensures { (longest : ℕ) (bytes : List ℕ) (header other : Option Header) (facts others : List FactValue)
        → StatesSoFar longest bytes header facts → StatesSoFar longest bytes other others → (header ≡ other) × (facts ≡ others) }
{}

/// If every length that a record can state is accepted, bytes have no fault exactly if they are a part.
pub fn no_fault_exactly_in_the_grammar()
    ensures { (bytes : List ℕ) → HasNoFault longest_body bytes
        ↔ ((ids : IdSize) × (millis : ℕ) × (facts : List FactValue) × IsPart bytes ids millis facts) }
{}

/// Bytes have at most one first fault, and none if they have no fault.
pub fn one_first_fault()
    ensures one { (longest : ℕ) (bytes : List ℕ) (fault other : PartFault) → IsFirstFault longest bytes fault
        → IsFirstFault longest bytes other → fault ≡ other }
    ensures none { (longest : ℕ) (bytes : List ℕ) (fault : PartFault) → HasNoFault longest bytes
        → IsFirstFault longest bytes fault → ⊥ }
{}

/// With a smaller limit the answer is the same, or `ItemTooLong` at the offset of the first fault or before it.
pub fn a_smaller_limit()
    ensures sound { (less longest : ℕ) (bytes : List ℕ) → less ≤ longest → HasNoFault longest bytes
        → HasNoFault less bytes ⊎ ((at : ℕ) × IsFirstFault less bytes (ItemTooLong at)) }
    ensures faulty { (less longest : ℕ) (bytes : List ℕ) (fault : PartFault) → less ≤ longest → IsFirstFault longest bytes fault
        → IsFirstFault less bytes fault ⊎ ((at : ℕ) × (at ≤ offset_of fault) × IsFirstFault less bytes (ItemTooLong at)) }
{}

/// A fault that is settled is the fault of every longer input.
pub fn a_longer_input()
    ensures { (longest : ℕ) (bytes more : List ℕ) (fault : PartFault) → IsFirstFault longest bytes fault
        → is_settled fault ≡ true → IsFirstFault longest (bytes ++ more) fault }
{}

/// After some items, the offset has grown by their bytes, and the counts of records and facts by the numbers of those in the items. `ended`
/// is true if one of the items ends a heap dump.
pub fn items_are_counted()
    ensures { (longest : ℕ) (from : Progress) (items : List Stated) (to : Progress) → ReadsItems longest from items to
        → CountsItems longest from items to }
{}
