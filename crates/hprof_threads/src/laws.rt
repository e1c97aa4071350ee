//! Laws of the definitions. The contract of each function is a theorem; its body is empty.

ghost use Rattle.std.specs.Prelude.{◌≡◌, List, ℕ, Option};
ghost use Rattle.hprof_values.specs.declared.ids.IdSize.{IdSize};
ghost use Rattle.hprof_items.specs.FactValue.{FactValue};
ghost use Rattle.hprof_rows.specs.Conflict.{IsConsistent};
ghost use Rattle.hprof_naming.specs.Naming.{Naming};
ghost use Rattle.hprof_threads.specs.declared.thread_root.ThreadRoot.{ThreadRoot};
ghost use Rattle.hprof_threads.specs.Threads.{IsRootOfThread, IsThreadObject, IsThreadStack};
ghost use Rattle.hprof_threads.specs.Frames.{IsFrameLine};
ghost use Rattle.hprof_threads.specs.ThreadNames.{IsThreadName};
ghost use Rattle.hprof_threads.specs.HeldOrder.{numbers_of_held};
ghost use Rattle.std.specs.Cmp.Lexicographic.{slice_cmp};
ghost use Rattle.std.specs.Ordering.{nat_cmp};

use crate::held::Held;

/// If facts agree, a thread has exactly one root, or exactly none.
pub fn one_root_of_thread()
    ensures exists { (facts : List FactValue) (serial : ℕ) → IsConsistent facts
        → (root : Option ThreadRoot) × IsRootOfThread facts serial root }
    ensures once { (facts : List FactValue) (serial : ℕ) (one other : Option ThreadRoot) → IsRootOfThread facts serial one
        → IsRootOfThread facts serial other → one ≡ other }
{}

/// If facts agree, a thread has exactly one object, which is 0 if it has none.
pub fn one_thread_object()
    ensures exists { (facts : List FactValue) (serial : ℕ) → IsConsistent facts → (object : ℕ) × IsThreadObject facts serial object }
    ensures once { (facts : List FactValue) (serial one other : ℕ) → IsConsistent facts → IsThreadObject facts serial one
        → IsThreadObject facts serial other → one ≡ other }
{}

/// If facts agree, a thread has exactly one stack, or exactly none.
pub fn one_thread_stack()
    ensures exists { (facts : List FactValue) (serial : ℕ) → IsConsistent facts
        → (frames : Option (List ℕ)) × IsThreadStack facts serial frames }
    ensures once { (facts : List FactValue) (serial : ℕ) (one other : Option (List ℕ)) → IsConsistent facts
        → IsThreadStack facts serial one → IsThreadStack facts serial other → one ≡ other }
{}

/// If facts agree, a stack frame has exactly one line.
pub fn one_frame_line()
    ensures exists { (facts : List FactValue) (naming : Naming) (id : ℕ) → (line : List ℕ) × IsFrameLine facts naming id line }
    ensures once { (facts : List FactValue) (naming : Naming) (id : ℕ) (one other : List ℕ) → IsConsistent facts
        → IsFrameLine facts naming id one → IsFrameLine facts naming id other → one ≡ other }
{}

/// If facts agree, a thread object has exactly one name, or exactly none.
pub fn one_thread_name()
    ensures exists { (ids : IdSize) (facts : List FactValue) (object : ℕ) → IsConsistent facts
        → (name : Option (List ℕ)) × IsThreadName ids facts object name }
    ensures once { (ids : IdSize) (facts : List FactValue) (object : ℕ) (one other : Option (List ℕ)) → IsConsistent facts
        → IsThreadName ids facts object one → IsThreadName ids facts object other → one ≡ other }
{}

/// What threads hold is ordered by the thread, then by the place, then by the object. Of one thread the frames come first, by number, then
/// the native stack, and then the thread block.
pub fn held_in_order()
    ensures { (held other : Held)
        → ⟦<Held as Ord>⟧.cmp held other ≡ slice_cmp nat_cmp (numbers_of_held held) (numbers_of_held other) }
{}
