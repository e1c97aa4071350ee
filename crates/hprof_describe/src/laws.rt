//! Laws of the definitions. The contract of each function is a theorem; its body is empty.

ghost use Rattle.std.specs.Prelude.{◌≡◌, ℕ, List};
ghost use Rattle.hprof_values.specs.declared.basic.Basic.{Basic};
ghost use Rattle.hprof_values.specs.declared.ids.IdSize.{IdSize};
ghost use Rattle.hprof_items.specs.FactValue.{FactValue};
ghost use Rattle.hprof_rows.specs.Conflict.{IsConsistent};
ghost use Rattle.hprof_describe.specs.Findings.{AreFindings, Findings};
ghost use Rattle.hprof_describe.specs.Nodes.{kind_text, node_text};
ghost use Rattle.hprof_describe.specs.References.{reference_text};
ghost use Rattle.hprof_describe.specs.Values.{value_text};

/// If facts agree, something is found of each identifier.
pub fn some_findings()
    ensures { (ids : IdSize) (facts : List FactValue) → IsConsistent facts → (found : Findings) × AreFindings ids facts found }
{}

/// If facts agree, an identifier and a value have one description.
pub fn one_description()
    ensures kind { (ids : IdSize) (facts : List FactValue) (one other : Findings) → IsConsistent facts → AreFindings ids facts one
        → AreFindings ids facts other → (node : ℕ) → kind_text one node ≡ kind_text other node }
    ensures node { (ids : IdSize) (facts : List FactValue) (one other : Findings) → IsConsistent facts → AreFindings ids facts one
        → AreFindings ids facts other → (node : ℕ) → node_text one node ≡ node_text other node }
    ensures reference { (ids : IdSize) (facts : List FactValue) (one other : Findings) → IsConsistent facts → AreFindings ids facts one
        → AreFindings ids facts other → (id : ℕ) → reference_text one id ≡ reference_text other id }
    ensures value { (ids : IdSize) (facts : List FactValue) (one other : Findings) → IsConsistent facts → AreFindings ids facts one
        → AreFindings ids facts other → (basic : Basic) (bits : ℕ) → value_text one basic bits ≡ value_text other basic bits }
{}
