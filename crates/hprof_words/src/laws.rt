//! Laws of the definitions. The contract of each function is a theorem; its body is empty.

ghost use Rattle.std.specs.Prelude.{◌≡◌, ℕ, List};
ghost use Rattle.hprof_values.specs.declared.ids.IdSize.{IdSize};
ghost use Rattle.hprof_items.specs.FactValue.{FactValue};
ghost use Rattle.hprof_rows.specs.Conflict.{IsConsistent};
ghost use Rattle.hprof_small.specs.Small.{IsSmall};
ghost use Rattle.hprof_describe.specs.Findings.{AreFindings, Findings};
ghost use Rattle.hprof_describe.specs.Nodes.{kind_text, node_text};
ghost use Rattle.hprof_describe.specs.References.{object_words, reference_text};
ghost use Rattle.hprof_words.specs.Words.{HasWords};

/// The words for an object depend on few objects: on itself; on the array of its text; and, if it is the object of a thread, on its name
/// and on the array of that text. In a heap that has of all objects only some, and these among them, the words are the same.
pub fn words_depend_on_few_objects()
    ensures kind { (ids : IdSize) (wanted : List ℕ) (all small : List FactValue) (one other : Findings) → IsConsistent all
        → IsSmall ids wanted all small → AreFindings ids small one → AreFindings ids all other → (id : ℕ) → HasWords ids all wanted id
        → kind_text one id ≡ kind_text other id }
    ensures node { (ids : IdSize) (wanted : List ℕ) (all small : List FactValue) (one other : Findings) → IsConsistent all
        → IsSmall ids wanted all small → AreFindings ids small one → AreFindings ids all other → (id : ℕ) → HasWords ids all wanted id
        → node_text one id ≡ node_text other id }
    ensures reference { (ids : IdSize) (wanted : List ℕ) (all small : List FactValue) (one other : Findings) → IsConsistent all
        → IsSmall ids wanted all small → AreFindings ids small one → AreFindings ids all other → (id : ℕ) → HasWords ids all wanted id
        → reference_text one id ≡ reference_text other id }
    ensures object { (ids : IdSize) (wanted : List ℕ) (all small : List FactValue) (one other : Findings) → IsConsistent all
        → IsSmall ids wanted all small → AreFindings ids small one → AreFindings ids all other → (id : ℕ) → HasWords ids all wanted id
        → (fact : FactValue) → object_words one id fact ≡ object_words other id fact }
{}
