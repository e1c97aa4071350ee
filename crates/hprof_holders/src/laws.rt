//! Laws of the definitions. The contract of each function is a theorem; its body is empty.

ghost use Rattle.std.specs.Prelude.{◌≡◌, ℕ, List};
ghost use Rattle.hprof_values.specs.declared.ids.IdSize.{IdSize};
ghost use Rattle.hprof_items.specs.FactValue.{FactValue};
ghost use Rattle.hprof_rows.specs.Conflict.{IsConsistent};
ghost use Rattle.hprof_small.specs.Small.{IsSmall};
ghost use Rattle.hprof_holders.specs.ThreadObjects.{HasAllThreadWords};
ghost use Rattle.hprof_holders.specs.ThreadsText.{IsThreadsText};
ghost use Rattle.hprof_holders.specs.WhoObjects.{HasWhoWords};
ghost use Rattle.hprof_holders.specs.WhoText.{IsWhoText};

/// If facts agree, the report `threads` has exactly one text.
pub fn one_threads_text()
    ensures exists { (ids : IdSize) (facts : List FactValue) → IsConsistent facts → (text : List ℕ) × IsThreadsText ids facts text }
    ensures once { (ids : IdSize) (facts : List FactValue) (one other : List ℕ) → IsThreadsText ids facts one
        → IsThreadsText ids facts other → one ≡ other }
{}

/// The report `threads` depends on few objects: those of threads, those that threads hold, and those that the words for them are read from.
/// A heap that has of all objects only some, and these among them, has the same report.
pub fn threads_depend_on_few_objects()
    ensures { (ids : IdSize) (wanted : List ℕ) (all small : List FactValue) (text : List ℕ) → IsConsistent all
        → IsSmall ids wanted all small → HasAllThreadWords ids all wanted → IsThreadsText ids small text → IsThreadsText ids all text }
{}

/// If facts agree, the report `who` on an identifier has exactly one text.
pub fn one_who_text()
    ensures exists { (ids : IdSize) (facts : List FactValue) (id : ℕ) → IsConsistent facts → (text : List ℕ) × IsWhoText ids facts id text }
    ensures once { (ids : IdSize) (facts : List FactValue) (id : ℕ) (one other : List ℕ) → IsWhoText ids facts id one
        → IsWhoText ids facts id other → one ≡ other }
{}

/// The report `who` on an identifier depends on few objects: the object itself, those that refer to it, those of the threads of its roots,
/// and those that the words for them are read from. A heap that has of all objects only some, and these among them, has the same report.
pub fn who_depends_on_few_objects()
    ensures { (ids : IdSize) (wanted : List ℕ) (all small : List FactValue) (id : ℕ) (text : List ℕ) → IsConsistent all
        → IsSmall ids wanted all small → HasWhoWords ids all wanted id → IsWhoText ids small id text → IsWhoText ids all id text }
{}
