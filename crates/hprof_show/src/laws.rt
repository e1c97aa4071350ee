//! Laws of the definitions. The contract of each function is a theorem; its body is empty.

ghost use Rattle.std.specs.Prelude.{◌≡◌, ℕ, List};
ghost use Rattle.hprof_values.specs.declared.ids.IdSize.{IdSize};
ghost use Rattle.hprof_items.specs.FactValue.{FactValue};
ghost use Rattle.hprof_rows.specs.Conflict.{IsConsistent};
ghost use Rattle.hprof_small.specs.Small.{IsSmall};
ghost use Rattle.hprof_show.specs.ShowText.{IsShowText};
ghost use Rattle.hprof_show.specs.ShownObjects.{HasShown};

/// If facts agree, they have a report `show` on each identifier. It is one text.
pub fn one_show()
    ensures some { (ids : IdSize) (facts : List FactValue) (id : ℕ) → IsConsistent facts
        → (text : List ℕ) × IsShowText ids facts id text }
    ensures one { (ids : IdSize) (facts : List FactValue) (id : ℕ) (one other : List ℕ) → IsShowText ids facts id one
        → IsShowText ids facts id other → one ≡ other }
{}

/// The report `show` on an identifier depends on few objects: the one with the identifier; what it and the class refer to, as far as the
/// report says what it is; the arrays of the texts of these; and the names of those that are objects of threads. A heap that has of all
/// objects only some, and these among them, has the same report.
pub fn show_depends_on_few_objects()
    ensures { (ids : IdSize) (wanted : List ℕ) (all small : List FactValue) (id : ℕ) (text : List ℕ) → IsConsistent all
        → IsSmall ids wanted all small → HasShown ids all id wanted → IsShowText ids small id text → IsShowText ids all id text }
{}
