//! Laws of the definitions. The contract of each function is a theorem; its body is empty.

ghost use Rattle.std.specs.Prelude.{◌≡◌, ℕ, List};
ghost use Rattle.std.specs.List.{sum_by};
ghost use Rattle.hprof_values.specs.declared.ids.IdSize.{IdSize};
ghost use Rattle.hprof_items.specs.FactValue.{FactValue};
ghost use Rattle.hprof_rows.specs.Conflict.{IsConsistent};
ghost use Rattle.hprof_retained.specs.Retained.{Sum};
ghost use Rattle.hprof_suspects.specs.AllParts.{AreAllParts};
ghost use Rattle.hprof_suspects.specs.SuspectsText.{IsSuspectsText, Suspect};

/// If facts agree, they have a report `suspects`. It is one text.
pub fn one_suspects_text()
    ensures some { (ids : IdSize) (facts : List FactValue) → IsConsistent facts → (text : List ℕ) × IsSuspectsText ids facts text }
    ensures one { (ids : IdSize) (facts : List FactValue) → IsConsistent facts → (one other : List ℕ)
        → IsSuspectsText ids facts one → IsSuspectsText ids facts other → one ≡ other }
{}

/// The pieces of all parts add up to the total.
pub fn pieces_add_up()
    ensures { (ids : IdSize) (facts : List FactValue) (retained : ℕ → Sum) (total : Sum) (parts : List Suspect)
        → AreAllParts ids facts retained total parts → sum_by (λ part. part.pieces) parts ≡ total.bytes }
{}
