//! Laws of the definitions. The contract of each function is a theorem; its body is empty.

ghost use Rattle.std.specs.Prelude.{◌≡◌, ℕ, List};
ghost use Rattle.hprof_values.specs.declared.ids.IdSize.{IdSize};
ghost use Rattle.hprof_items.specs.FactValue.{FactValue};
ghost use Rattle.hprof_rows.specs.Conflict.{IsConsistent};
ghost use Rattle.hprof_by_label.specs.RetainedText.{IsRetainedText};

/// If facts agree, they have a report `retained`. It is one text.
pub fn one_retained_text()
    ensures some { (ids : IdSize) (facts : List FactValue) → IsConsistent facts → (text : List ℕ) × IsRetainedText ids facts text }
    ensures one { (ids : IdSize) (facts : List FactValue) (one other : List ℕ) → IsRetainedText ids facts one
        → IsRetainedText ids facts other → one ≡ other }
{}
