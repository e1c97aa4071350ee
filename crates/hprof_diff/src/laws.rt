//! Laws of the definitions. The contract of each function is a theorem; its body is empty.

ghost use Rattle.std.specs.Prelude.{◌≡◌, ℕ, List};
ghost use Rattle.hprof_diff.specs.DifferenceText.{IsDifferenceOf};
ghost use Rattle.hprof_values.specs.declared.ids.IdSize.{IdSize};
ghost use Rattle.hprof_items.specs.FactValue.{FactValue};
ghost use Rattle.hprof_rows.specs.Conflict.{IsConsistent};
ghost use Rattle.hprof_rows.specs.HeapValue.{HeapValue};
ghost use Rattle.hprof_engine.specs.Joining.{Agree};
ghost use Rattle.hprof_diff.specs.Counts.{AreTotals, Totals};
ghost use Rattle.hprof_diff.specs.Difference.{ChangeValue, IsDifference};

/// Two lists of parts have one report `diff`, and there is one if the parts of each list agree.
pub fn one_report()
    ensures some { (olds news : List (List ℕ)) (old new : HeapValue) → Agree olds old.ids old.millis old.facts
        → Agree news new.ids new.millis new.facts → (text : List ℕ) × IsDifferenceOf olds news text }
    ensures one { (olds news : List (List ℕ)) (one other : List ℕ) → IsDifferenceOf olds news one → IsDifferenceOf olds news other
        → one ≡ other }
{}

/// If facts agree, each label has exactly one total.
pub fn one_total()
    ensures exists { (ids : IdSize) (facts : List FactValue) → (totals : Totals) × AreTotals ids facts totals }
    ensures once { (ids : IdSize) (facts : List FactValue) (one other : Totals) → IsConsistent facts → AreTotals ids facts one
        → AreTotals ids facts other → one ≡ other }
{}

/// Two heaps have exactly one difference.
pub fn one_difference()
    ensures exists { (ids other_ids : IdSize) (facts other_facts : List FactValue) (old new : Totals) → AreTotals ids facts old
        → AreTotals other_ids other_facts new → (changes : List ChangeValue) × IsDifference old new changes }
    ensures once { (old new : Totals) (one other : List ChangeValue) → IsDifference old new one → IsDifference old new other
        → one ≡ other }
{}
